// How the records of lent rows stand, and where a write puts one.
ghost use Rattle.std.specs.Prelude.{◌≡◌, ℕ, Bool, true, List, Result};
ghost use Rattle.eic.specs.Views.{code_text};
ghost use Rattle.records.specs.Views.{entries_of};
ghost use Rattle.records.specs.declared.Record.{Record};
ghost use Rattle.rulebook.specs.Records.{Entry};
ghost use Rattle.rulebook.specs.Texts.{Text};
ghost use Rattle.stores.specs.Orders.{IsOrder};

use eic::codes::Code;
use records::Record;

pub trait Order {
    // whether records stand so
    ghost stands: { List Entry → Bool };

    // where a code stands or, as an error, where a record with it is put
    ghost located: { Text → List Entry → Result ℕ ℕ };

    // where a record that stood at a place is put when it is changed, by the last place
    ghost rests: { ℕ → ℕ → ℕ };

    // the rows after a write of a record into rows of which so many hold records
    ghost after: { Record → ℕ → List Record → List Record };

    // that all of this fits together
    ghost is_order: { IsOrder stands located rests after };

    // Where a code stands or, as an error, where a record with it is put.
    fn search(rows: &[Record], code: &Code) -> Result<usize, usize>
        ensures { stands (entries_of rows.now) ≡ true → result ≡ located (code_text code.now) (entries_of rows.now) };

    // Where a record that stood at p is put when it is changed.
    fn rest(p: usize, last: usize) -> usize
        ensures { result ≡ rests p last };
}
