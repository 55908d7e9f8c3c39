// The energy identification code: its characters, its check, and the codes and offices that keep its rule.
#![tactic(auto)]

pub mod checks;
pub mod codes;
pub mod kinds;
pub mod offices;
pub mod schemes;
mod values;
