// Functions on sets of literals, as marks and as value bytes.
#![tactic(auto)]

pub mod marks;
pub mod values;
