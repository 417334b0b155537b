// Theorems on the readers: what they take is within the limits of descriptions and histories, and accepted by the checks; no code.
#![tactic(auto)]
