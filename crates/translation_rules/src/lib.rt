// The published translation as a list of rules and as the words of a table, and what is answered for it: no function.
#![tactic(auto)]
