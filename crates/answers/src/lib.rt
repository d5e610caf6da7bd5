// The answer of a call, and the numbers of refusals, as definitions, in specs/.
#![tactic(auto)]
