// What the functions of the library for C answer and leave, and what their numbers say: no function.
#![tactic(auto)]
