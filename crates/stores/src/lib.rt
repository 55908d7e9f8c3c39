// What a store of records is, calls that serve every store, and a store over lent rows, whatever the order of its records.
#![tactic(auto)]

pub mod copying;
pub mod lent;
pub mod order;
pub mod questions;
pub mod rows;
pub mod store;
