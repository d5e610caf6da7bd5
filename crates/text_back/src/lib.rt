// The text of a plan read back, as theorems, in specs/.
#![tactic(auto)]
