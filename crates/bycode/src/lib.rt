// A store over lent rows, in which the records stand in ascending order of their codes.
#![tactic(auto)]

pub mod order;
pub mod store;
