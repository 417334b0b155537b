// Theorems on the translation: a translated table is within the engine's limits; no code.
#![tactic(auto)]
