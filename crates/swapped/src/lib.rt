// No code: specs/ says what batches leave that arrive in one order or another, proofs/ shows what is alike.
#![tactic(auto)]
