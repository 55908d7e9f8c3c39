// The fields of a request line and of a record, a type for each. Each is read from exactly its lawful
// texts and gives the text back that it was read from.
#![tactic(auto)]

pub mod articles;
mod bounded;
mod bytes;
pub mod dates;
pub mod names;
pub mod numbers;
pub mod parties;
pub mod rules;
