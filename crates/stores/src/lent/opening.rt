// A store over lent rows, opened, written and closed.
ghost use Rattle.std.specs.Prelude.{◌≡◌, false, is_ok};
ghost use Rattle.stores.specs.Rows.{Puts, held_in, room_in};
ghost use Rattle.records.specs.Views.{entry_of};
ghost use Rattle.rulebook.specs.Stores.{Writes};
ghost use Rattle.stores.specs.Views.{rows_of, used_of};

use super::super::order::Order;
use super::super::store::Full;
use super::{Lent, Rows};
use records::Record;
use std::marker::PhantomData;

impl<'a, O: Order> Lent<'a, O> {
    // Empty, whatever the rows hold.
    pub fn over(rows: &'a mut [Record]) -> Lent<'a, O>
        ensures empty { used_of result ≡ 0 }
        ensures rows { rows_of result ≡ rows.old }
        ensures lender { result.rows.rows.ghost_name ≡ rows.entry.ghost_name }
    {
        Lent {
            rows: Rows { rows, used: 0 },
            order: PhantomData,
        }
    }

    // Writes a record where the order puts it; what every row is after it is the order's to say.
    pub fn put(&mut self, from: &Record) -> Result<(), Full>
        ensures puts { Puts (O.after from.now (used_of self.old) (rows_of self.old)) from.now (used_of self.old) (rows_of self.old) (is_ok result) (used_of self.new) (rows_of self.new) }
        ensures wrote { Writes (entry_of from.now) (held_in (used_of self.old) (rows_of self.old)) (room_in (used_of self.old) (rows_of self.old)) (is_ok result) (held_in (used_of self.new) (rows_of self.new)) (room_in (used_of self.new) (rows_of self.new)) }
        ensures refused { is_ok result ≡ false → self.new ≡ self.old }
        ensures lender { self.new.rows.rows.ghost_name ≡ self.old.rows.rows.ghost_name }
    {
        self.rows.put::<O>(from)
    }

    // The rows go back to their lender.
    pub fn close(self) -> &'a mut [Record]
        ensures { result.now ≡ rows_of self.entry }
    {
        let Lent { rows, order: _ } = self;
        let Rows { rows, used: _ } = rows;
        rows
    }
}
