// The order of last writes: a code is looked for from the front, and what is written goes to the end.
ghost use Rattle.bywrite.specs.Laws.{last_write_order};
ghost use Rattle.bywrite.specs.Places.{is_distinct, located, rows_after};

use eic::codes::Code;
use records::Record;
use stores::order::Order;

pub struct LastWrite;

impl Order for LastWrite {
    ghost stands = { is_distinct };

    ghost located = { located };

    ghost rests = { λ p last. last };

    ghost after = { rows_after };

    ghost is_order = { last_write_order };

    fn search(rows: &[Record], code: &Code) -> Result<usize, usize> {
        rows.iter()
            .position(|held| held.code == *code)
            .ok_or(rows.len())
    }

    // A changed record goes to the end.
    fn rest(_p: usize, last: usize) -> usize {
        last
    }
}
