// Rows that a caller lends, the first of which hold a store's records.
ghost use Rattle.std.specs.Prelude.{◌≡◌, ◌≤◌, true, length};
ghost use Rattle.rulebook.specs.Stores.{limit};
ghost use Rattle.stores.specs.Rows.{held_in};

use super::order::Order;
use records::Record;
use std::marker::PhantomData;

pub mod opening;
pub mod storing;
mod writing;

// Kept: a rule of the project, no heap: the rows are lent by the caller, so how many are used stands beside them.
#[derive(Drop)]
struct Rows<'a> {
    rows: &'a mut [Record],
    used: usize,
    ghost within: { used ≤ limit (length rows.now) },
}

// A store over them, in which the records stand in the order O.
#[derive(Drop)]
pub struct Lent<'a, O: Order> {
    rows: Rows<'a>,
    order: PhantomData<O>,
    ghost stands: { O.stands (held_in rows.used rows.rows.now) ≡ true },
}
