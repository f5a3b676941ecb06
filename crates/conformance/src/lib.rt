// The tie between the theorem of `resilience` and the code of `node`: definitions and proofs only. Assumes nothing.
#![tactic(auto)]
