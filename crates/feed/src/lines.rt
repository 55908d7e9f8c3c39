// Reads an input line by line.
ghost use Rattle.std.specs.Prelude.{◌≤◌, length};

use crate::unread::Unread;
use arrayvec::ArrayVec;

pub mod reading;

// Reads lines, of each of which it keeps the first N bytes.
#[derive(Drop)]
pub struct LineReader<const N: usize> {
    line: ArrayVec<u8, N>,
    unread: Unread,
    ghost short: { length line.items ≤ N },
    ghost few: { length unread ≤ 4096 },
}
