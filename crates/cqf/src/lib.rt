// Cyclic queuing and forwarding: definitions and the large-enough-cycle theorem, in specs/.
#![tactic(auto)]
