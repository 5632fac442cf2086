// No code: what is shown of whole streams, over the definitions of `stream`.
#![tactic(auto)]
