// Copies from store to store.
ghost use Rattle.std.specs.Prelude.{◌≡◌, ◌-◌, true, false, length, is_ok};
ghost use Rattle.std.specs.List.Sorted.{IsPermutation};
ghost use Rattle.stores.specs.Copies.{unfit_for};

use super::store::Store;
use records::Record;

// Why a store does not take the records of another.
#[derive(Clone, Copy, PartialEq, Eq, Debug)]
pub enum Unfit {
    HoldsRecords,
    LacksRoom,
}

// Whether a store takes the records of another.
fn check_fit<A: Store, B: Store>(from: &A, into: &B) -> Result<(), Unfit>
    ensures { result ≡ unfit_for (A.Store.entries from.now) (B.Store.entries into.now) (B.Store.room into.now) }
{
    if into.count() > 0 {
        return Err(Unfit::HoldsRecords);
    }
    if into.room_left() < from.count() {
        return Err(Unfit::LacksRoom);
    }
    Ok(())
}

// Copies all records into an empty store that has room for them; else tells why not, and nothing is written.
pub fn copy_all<A: Store, B: Store>(from: &A, into: &mut B) -> Result<(), Unfit>
    ensures told { result ≡ unfit_for (A.Store.entries from.now) (B.Store.entries into.old) (B.Store.room into.old) }
    ensures copied { is_ok result ≡ true → IsPermutation (A.Store.entries from.now) (B.Store.entries into.new) }
    ensures left { is_ok result ≡ true → B.Store.room into.new ≡ B.Store.room into.old - length (A.Store.entries from.now) }
    ensures refused { is_ok result ≡ false → into.new ≡ into.old }
{
    check_fit(from, into)?;
    let mut held = Record::placeholder();
    // Kept: the rule of the project on reading, by code or by number into the caller's record: there is no iterator.
    for k in 0..from.count() {
        let _there = from.read_at(k, &mut held);
        let _ = into.write(&held);
    }
    Ok(())
}
