// Lent rows as a store.
ghost use Rattle.std.specs.Prelude.{◌≡◌};
ghost use Rattle.eic.specs.Views.{code_text};
ghost use Rattle.rulebook.specs.Entries.{any};
ghost use Rattle.stores.specs.Rows.{held_in, room_in};
ghost use Rattle.stores.specs.Views.{rows_of, used_of};

use super::super::order::Order;
use super::super::questions::{HasHolder, HasNamesake, Question};
use super::super::store::{Full, Store};
use super::Lent;
use eic::codes::Code;
use fields::names::DisplayName;
use fields::numbers::{Function, ObjectNumber};
use records::Record;

impl<O: Order> Lent<'_, O> {
    // Whether some record, active or not, answers a question with yes: the rows answer in place.
    pub fn any<Q: Question>(&self, question: &Q) -> bool
        ensures { result ≡ any (Q.asks question.now) (held_in (used_of self.now) (rows_of self.now)) }
    {
        self.rows.held().iter().any(|held| question.ask(held))
    }
}

impl<O: Order> Store for Lent<'_, O> {
    ghost entries = { λ s. held_in (used_of s) (rows_of s) };

    ghost room = { λ s. room_in (used_of s) (rows_of s) };

    ghost apart = { λ s. O.is_order.apart (held_in (used_of s) (rows_of s)) s.stands };

    fn count(&self) -> usize {
        self.rows.used
    }

    fn room_left(&self) -> usize {
        self.rows.room()
    }

    // Kept: the trait's rule on reading, here and in read_at.
    fn read(&self, code: &Code, into: &mut Record) -> bool {
        let rows = self.rows.held();
        match O::search(rows, code) {
            Ok(p) => {
                *into = rows[p];
                true
            }
            Err(_) => false,
        }
    }

    fn read_at(&self, k: usize, into: &mut Record) -> bool {
        let Some(held) = self.rows.held().get(k) else {
            return false;
        };
        *into = *held;
        true
    }

    fn write(&mut self, from: &Record) -> Result<(), Full> {
        self.put(from)
    }

    fn has_holder(&self, object: &ObjectNumber, function: &Function) -> bool {
        self.any(&HasHolder { object, function })
    }

    fn has_namesake(&self, code: &Code, display: &DisplayName) -> bool {
        self.any(&HasNamesake { code, display })
    }
}
