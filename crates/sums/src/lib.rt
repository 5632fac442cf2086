// No code: distances that are least sums, before parents are chosen, and what they say of tight links.
#![tactic(auto)]
