// Cutting a history after some of its steps, and joining two; no code.
#![tactic(auto)]
