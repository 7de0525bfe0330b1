// Specs and proofs only: what holds of every memory that calls of a builder reach.
#![tactic(auto)]
