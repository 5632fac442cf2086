// No code: what the inner crates' promises and proofs share.
#![tactic(auto)]
