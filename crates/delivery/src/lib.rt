// Demand 3, one theorem over every list of calls on a receiver and its store: specs/Demand.antt states it, proofs/Theorem.antt proves it.
#![tactic(auto)]
