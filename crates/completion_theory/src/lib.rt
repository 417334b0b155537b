// What judging by the completion formulas finds, and theorems on it; no code.
#![tactic(auto)]
