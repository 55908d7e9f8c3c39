// Ascending order of codes: a record's place is found by halving.
ghost use Rattle.bycode.specs.Laws.{ascending_order};
ghost use Rattle.bycode.specs.Order.{is_ascending, located, rows_after};

use eic::codes::Code;
use records::Record;
use stores::order::Order;

pub struct Ascending;

impl Order for Ascending {
    ghost stands = { is_ascending };

    ghost located = { located };

    ghost rests = { λ p last. p };

    ghost after = { rows_after };

    ghost is_order = { ascending_order };

    fn search(rows: &[Record], code: &Code) -> Result<usize, usize> {
        rows.binary_search_by(|held| held.code.cmp(code))
    }

    // A change rewrites the record's row alone.
    fn rest(p: usize, _last: usize) -> usize {
        p
    }
}
