// Theorem: the program prints the same for an input whose uses of names are respelled. This crate has no code.
#![tactic(auto)]
