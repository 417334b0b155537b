// What one law does in a step or in the first state: whether it applies, causes its head or contradicts.
#![tactic(auto)]

pub mod laws;
pub mod literals;
pub mod values;
