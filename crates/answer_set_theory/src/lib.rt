// Theorems on answer sets; no code.
#![tactic(auto)]
