// No code: specs/ has the pier network and what is said of it, proofs/ shows it.
#![tactic(auto)]
