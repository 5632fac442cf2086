// No code: what is shown of every record, over the definitions of `session`.
#![tactic(auto)]
