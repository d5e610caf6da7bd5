// Gate control lists, as definitions, in specs/.
#![tactic(auto)]
