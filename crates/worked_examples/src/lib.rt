// Worked examples of all layers, as theorems about the definitions; no code.
#![tactic(auto)]
