// The office's object numbers, and functions.
ghost use Rattle.std.specs.Prelude.{◌-◌, ◌^◌, ◌≤◌, max};

use std::fmt;

pub mod reading;

// A number from 1 on, of so many digits at most. A number of any width may be 1.
#[derive(Clone, Copy, PartialEq, Eq)]
pub struct Number<const DIGITS: usize> {
    number: u64,
    ghost positive: { 1 ≤ number },
    ghost small: { number ≤ max 1 (10 ^ DIGITS - 1) },
}

// 1 to 9,999,999,999.
pub type ObjectNumber = Number<10>;

// 1 to 99.
pub type Function = Number<2>;

// Kept: by hand, since a derived one would call both kinds of number `Number`.
impl<const DIGITS: usize> fmt::Debug for Number<DIGITS> {
    fn fmt<W: fmt::Write>(&self, f: &mut fmt::Formatter<W>) -> fmt::Result {
        let name = match DIGITS {
            10 => "ObjectNumber",
            2 => "Function",
            _ => "Number",
        };
        f.debug_struct(name).field("number", &self.number).finish()
    }
}
