// A store by last write. A record that is written stands last, and the record that had its code goes.
use super::order::LastWrite;
use stores::lent::Lent;

pub type ByWrite<'a> = Lent<'a, LastWrite>;
