// The reading of a whole plan, as definitions, in specs/.
#![tactic(auto)]
