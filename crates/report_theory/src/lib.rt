// What the program check prints for an input, and what every output says by the meaning of C: no function.
#![tactic(auto)]
