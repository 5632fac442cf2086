// No code: proofs/ shows that one input admits one outcome of what each job hands back.
#![tactic(auto)]
