// Which answers changed when the lowest atom without one value came to decide; no code.
#![tactic(auto)]
