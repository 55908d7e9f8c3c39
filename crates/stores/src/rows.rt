// Rows that a store uses.
ghost use Rattle.rulebook.specs.Stores.{limit};
ghost use Rattle.std.specs.Prelude.{◌≡◌};

// How many records so many rows hold at most.
pub fn limit(rows: usize) -> usize
    ensures { result ≡ limit rows }
{
    rows.min(4096)
}
