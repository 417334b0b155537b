// What rules, the reduct, answer sets and the words of a rule table are: no function.
#![tactic(auto)]
