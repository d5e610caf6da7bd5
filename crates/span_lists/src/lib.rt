// The spans of a plan, as definitions, in specs/.
#![tactic(auto)]
