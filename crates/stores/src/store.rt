// A store: records, no two with the same code, and room for so many more.
ghost use Rattle.std.specs.Prelude.{◌≡◌, ℕ, false, List, length, is_ok};
ghost use Rattle.eic.specs.Views.{code_text};
ghost use Rattle.fields.specs.Views.{display_text, function_text, object_text};
ghost use Rattle.records.specs.Views.{entry_of};
ghost use Rattle.rulebook.specs.Entries.{Apart, find, has_holder, has_namesake, nth};
ghost use Rattle.rulebook.specs.Records.{Entry};
ghost use Rattle.rulebook.specs.Stores.{Writes};
ghost use Rattle.std.specs.Option.{option_map};
ghost use Rattle.stores.specs.Reads.{Reads};

use eic::codes::Code;
use fields::names::DisplayName;
use fields::numbers::{Function, ObjectNumber};
use records::Record;

// A write was refused, since the record's code is not held and the room is 0.
#[derive(Clone, Copy, PartialEq, Eq, Debug)]
pub struct Full;

pub trait Store {
    // the records held, by their texts
    ghost entries: { Self → List Entry };

    // how many more records it takes
    ghost room: { Self → ℕ };

    // that no two records have the same code
    ghost apart: { (s : Self) → Apart (entries s) };

    fn count(&self) -> usize
        ensures { result ≡ length (entries self.now) };

    fn room_left(&self) -> usize
        ensures { result ≡ room self.now };

    // The record with this code.
    // Kept: a rule of the project: a reading fills the caller's record or, with none there, says no and leaves it.
    fn read(&self, code: &Code, into: &mut Record) -> bool
        ensures { Reads (find (code_text code.now) (entries self.now)) into.old result into.new };

    // The record with this code, or none.
    fn get(&self, code: &Code) -> Option<Record>
        ensures { option_map entry_of result ≡ find (code_text code.now) (entries self.now) }
    {
        let mut into = Record::placeholder();
        if self.read(code, &mut into) {
            Some(into)
        } else {
            None
        }
    }

    // The k-th record, counted from 0.
    // Kept: the same rule of the project, as for read.
    fn read_at(&self, k: usize, into: &mut Record) -> bool
        ensures { Reads (nth k (entries self.now)) into.old result into.new };

    fn write(&mut self, from: &Record) -> Result<(), Full>
        ensures wrote { Writes (entry_of from.now) (entries self.old) (room self.old) (is_ok result) (entries self.new) (room self.new) }
        ensures refused { is_ok result ≡ false → self.new ≡ self.old };

    // Whether some record, active or not, has this object in this function.
    // Kept: a loop of its own here and in the next, since a generic method, as `any<Q: Question>(&self, question: &Q)`, would
    // refuse a `&dyn Store`, and a default body can call none beside the trait.
    fn has_holder(&self, object: &ObjectNumber, function: &Function) -> bool
        ensures { result ≡ has_holder (object_text object.now) (function_text function.now) (entries self.now) }
    {
        let mut held = Record::placeholder();
        // Kept: the rule of the project on reading, by code or by number into the caller's record: there is no iterator.
        for k in 0..self.count() {
            let _there = self.read_at(k, &mut held);
            if held.is_holder(object, function) {
                return true;
            }
        }
        false
    }

    // Whether some other record of the code's type, active or not, has this display name.
    fn has_namesake(&self, code: &Code, display: &DisplayName) -> bool
        ensures { result ≡ has_namesake (code_text code.now) (display_text display.now) (entries self.now) }
    {
        let mut held = Record::placeholder();
        for k in 0..self.count() {
            let _there = self.read_at(k, &mut held);
            if held.is_namesake(code, display) {
                return true;
            }
        }
        false
    }
}
