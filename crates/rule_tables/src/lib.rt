// Functions on the words of a rule table, and refusals 10, 11 and 12.
#![tactic(auto)]

pub mod acceptance;
pub mod table;
