// Answer lines: what a caller is told of a record, and of a refusal.
#![tactic(auto)]

pub mod writing;
