// No code: proofs/ shows that the rules meet the three demands.
#![tactic(auto)]
