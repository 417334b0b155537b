// What a description is as a text: what each line does, and reading line by line: no function.
#![tactic(auto)]
