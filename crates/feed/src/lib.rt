// Cuts an input that comes in pieces into lines, in bounded memory.
#![tactic(auto)]

pub mod answering;
pub mod cutting;
pub mod lines;
mod unread;
