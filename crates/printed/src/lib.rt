// No code: what is shown of what a stream prints, over the definitions of `lines` and `turns`.
#![tactic(auto)]
