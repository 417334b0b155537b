// What is printed for an answer: words, decimal numbers and lines: no function.
#![tactic(auto)]
