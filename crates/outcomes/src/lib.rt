// No code: what the C functions answer (specs/), that each has one outcome, and what a caller may conclude from the number (proofs/).
#![tactic(auto)]
