// A store over lent rows, in which the record last written stands last.
#![tactic(auto)]

pub mod order;
pub mod store;
