// What a whole input is: a description, and behind its end line a history of it: no function.
#![tactic(auto)]
