// A store by code. A change rewrites its row alone; a new record takes its place and moves those after it.
use super::order::Ascending;
use stores::lent::Lent;

pub type ByCode<'a> = Lent<'a, Ascending>;
