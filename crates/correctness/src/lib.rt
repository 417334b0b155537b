// The theorems that join the layers; no code.
#![tactic(auto)]
