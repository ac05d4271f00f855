// The meaning of a sheet: its fields, and what is wrong with them.
#![tactic(auto)]

mod faults;
mod fields;

pub use fields::{GoalCode, Sheet};
