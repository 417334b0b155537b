// Theorems on tight programs; no code.
#![tactic(auto)]
