// Theorems: what differs in letter case alone is read alike. This crate has no code.
#![tactic(auto)]
