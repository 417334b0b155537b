// The written form of descriptions and histories, the theorems that both are read back, and that each short law is its long lines: no
// function.
#![tactic(auto)]
