// Batches of plans, as definitions, in specs/.
#![tactic(auto)]
