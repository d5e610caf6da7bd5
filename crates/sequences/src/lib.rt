// Sequences of calls, as definitions, and the theorems over them, in specs/.
#![tactic(auto)]
