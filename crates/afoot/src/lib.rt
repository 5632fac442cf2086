// No code: what is known on the way to the least sums, and how each offer keeps it.
#![tactic(auto)]
