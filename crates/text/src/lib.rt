// What a text holds: lines of key=value, names, literals and lists of them, and the functions that find them.
#![tactic(auto)]

pub mod bytes;
pub mod lines;
pub mod lists;
pub mod names;
