// Questions that a record answers with yes or no.
// Kept: a trait and no closure, since no public call may ask anything of its caller, and one that is handed a
// closure asks that it may be called: `requires { F.IsAlwaysCallable question }`.
ghost use Rattle.eic.specs.Views.{code_text};
ghost use Rattle.fields.specs.Views.{display_text, function_text, object_text};
ghost use Rattle.records.specs.Views.{entry_of};
ghost use Rattle.rulebook.specs.Entries.{any, is_holder, is_namesake};
ghost use Rattle.rulebook.specs.Records.{Entry};
ghost use Rattle.std.specs.Prelude.{◌≡◌, Bool};

use super::store::Store;
use eic::codes::Code;
use fields::names::DisplayName;
use fields::numbers::{Function, ObjectNumber};
use records::Record;

pub trait Question {
    // what a record answers, by its texts
    ghost asks: { Self → Entry → Bool };

    fn ask(&self, held: &Record) -> bool
        ensures { result ≡ asks self.now (entry_of held.now) };
}

// Whether some record of a store, active or not, answers a question with yes.
pub fn any<S: Store, Q: Question>(store: &S, question: &Q) -> bool
    ensures { result ≡ any (Q.asks question.now) (S.Store.entries store.now) }
{
    let mut held = Record::placeholder();
    // Kept: the rule of the project on reading, by code or by number into the caller's record: there is no iterator.
    for k in 0..store.count() {
        let _there = store.read_at(k, &mut held);
        if question.ask(&held) {
            return true;
        }
    }
    false
}

// Whether it has this object in this function.
#[derive(Clone, Copy)]
pub(crate) struct HasHolder<'a> {
    pub(crate) object: &'a ObjectNumber,
    pub(crate) function: &'a Function,
}

impl Question for HasHolder<'_> {
    ghost asks = { λ q. is_holder (object_text q.object.now) (function_text q.function.now) };

    fn ask(&self, held: &Record) -> bool {
        held.is_holder(self.object, self.function)
    }
}

// Whether it has another code of the same type, and this display name.
#[derive(Clone, Copy)]
pub(crate) struct HasNamesake<'a> {
    pub(crate) code: &'a Code,
    pub(crate) display: &'a DisplayName,
}

impl Question for HasNamesake<'_> {
    ghost asks = { λ q. is_namesake (code_text q.code.now) (display_text q.display.now) };

    fn ask(&self, held: &Record) -> bool {
        held.is_namesake(self.code, self.display)
    }
}
