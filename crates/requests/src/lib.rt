// A request line: cut into its fields, then read field by field.
#![tactic(auto)]

pub mod commands;
mod cutting;
pub mod lines;
