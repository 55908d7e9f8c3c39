// The work on the rows.
ghost use Rattle.std.specs.Prelude.{◌≡◌, ◌+◌, ◌-◌, ◌<◌, ◌≤◌, true, false, length, take, is_ok};
ghost use Rattle.eic.specs.Views.{code_text};
ghost use Rattle.rulebook.specs.Stores.{Writes, limit};
ghost use Rattle.records.specs.Views.{entry_of};
ghost use Rattle.stores.specs.Moves.{renewed, opened};
ghost use Rattle.stores.specs.Rows.{Puts, held_in, room_in};

use super::super::order::Order;
use super::super::rows::limit;
use super::super::store::Full;
use super::Rows;
use records::Record;

impl Rows<'_> {
    // The rows that hold records.
    pub(super) fn held(&self) -> &[Record]
        ensures { result.now ≡ take self.now.used self.now.rows.now }
    {
        &self.rows[..self.used]
    }

    pub(super) fn room(&self) -> usize
        ensures { result ≡ room_in self.now.used self.now.rows.now }
    {
        limit(self.rows.len()) - self.used
    }

    // Takes the row at p out, moves those after it up to q down, and puts a record at q.
    fn change(&mut self, p: usize, q: usize, from: &Record)
        requires { (p ≤ q) × (q < self.old.used) }
        ensures rows { self.new.rows.now ≡ renewed self.old.rows.now p (q + 1) from.now }
        ensures used { self.new.used ≡ self.old.used }
        ensures lender { self.new.rows.ghost_name ≡ self.old.rows.ghost_name }
    {
        self.rows.copy_within(p + 1..q + 1, p);
        self.rows[q] = *from;
    }

    // Moves the rows from p on by one place, and puts a record at p.
    fn add(&mut self, p: usize, from: &Record)
        requires { (p ≤ self.old.used) × (self.old.used < limit (length self.old.rows.now)) }
        ensures rows { self.new.rows.now ≡ opened self.old.rows.now p self.old.used from.now }
        ensures used { self.new.used ≡ self.old.used + 1 }
        ensures lender { self.new.rows.ghost_name ≡ self.old.rows.ghost_name }
    {
        self.rows.copy_within(p..self.used, p + 1);
        self.rows[p] = *from;
        self.used += 1;
    }

    pub(super) fn put<O: Order>(&mut self, from: &Record) -> Result<(), Full>
        requires { O.stands (held_in self.old.used self.old.rows.now) ≡ true }
        ensures puts { Puts (O.after from.now self.old.used self.old.rows.now) from.now self.old.used self.old.rows.now (is_ok result) self.new.used self.new.rows.now }
        ensures wrote { Writes (entry_of from.now) (held_in self.old.used self.old.rows.now) (room_in self.old.used self.old.rows.now) (is_ok result) (held_in self.new.used self.new.rows.now) (room_in self.new.used self.new.rows.now) }
        ensures stands { O.stands (held_in self.new.used self.new.rows.now) ≡ true }
        ensures refused { is_ok result ≡ false → self.new ≡ self.old }
        ensures lender { self.new.rows.ghost_name ≡ self.old.rows.ghost_name }
    {
        match O::search(self.held(), &from.code) {
            Ok(p) => {
                let q = O::rest(p, self.used - 1);
                self.change(p, q, from);
            }
            Err(p) => {
                if self.room() == 0 {
                    return Err(Full);
                }
                self.add(p, from);
            }
        }
        Ok(())
    }
}
