// Plan K of document 01, worked out by the definitions, in specs/.
#![tactic(auto)]
