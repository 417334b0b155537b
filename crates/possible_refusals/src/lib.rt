// Theorems alone: which refusals can come.
#![tactic(auto)]
