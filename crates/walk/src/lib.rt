// No code: proofs/ has what proofs by hand share. No function needs one today.
#![tactic(auto)]
