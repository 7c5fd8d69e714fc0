// Proofs alone: the locals of a function that is proved by a walk.
#![tactic(auto)]
