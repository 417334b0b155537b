// What the value of a description's line stands for, by value: a horizon, and the record of a law by its form.
#![tactic(auto)]

pub mod horizons;
pub mod law_forms;
