// No code: distances that are least sums, parents kept or found and first links by those parents make the next tree.
#![tactic(auto)]
