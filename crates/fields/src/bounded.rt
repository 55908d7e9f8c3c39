// A text of at most N bytes, with zeroes after it.
ghost use Rattle.std.specs.Prelude.{◌≡◌, ◌-◌, ◌≤◌, length, drop, replicate};

pub mod making;

// Kept: a rule of the project needs it, fixed memory: a record is Copy, and an `ArrayVec` is not.
#[derive(Clone, Copy, PartialEq, Eq)]
pub struct Bounded<const N: usize> {
    bytes: [u8; N],
    len: u8,
    ghost within: { len ≤ N },
    ghost clear: { drop len bytes ≡ replicate (N - len) 0 },
    ghost long: { length bytes ≡ N },
}
