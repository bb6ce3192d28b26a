// Two calls of the exports in a row: specs/TwoCalls.antt says which octets a call leaves for the next and what the next never says of them,
// proofs/TwoCallsLaw.antt proves it from the contracts alone.
#![tactic(auto)]
