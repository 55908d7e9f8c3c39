// What is read of an input and not yet cut into lines.
ghost use Rattle.std.specs.Prelude.{◌≡◌, ◌≤◌, ◌==◌, [], length, drop, IfOk, OnErr, OnOk};
ghost use Rattle.std.specs.Io.KnownBytes.{Consumes, IsAtEnd};

use std::io;
use std::io::Read;
use std::marker::Model;

// What lies from `from` to `to` of the bytes.
// Kept: std's BufReader takes its memory from the heap, so that a reader could not be made without
// failing; here the memory is fixed. And a Range for `from` and `to` is no plainer, since it is not
// copied: `&self.bytes[self.part.start..self.part.end]`.
#[derive(Drop)]
pub(crate) struct Unread {
    bytes: [u8; 4096],
    from: usize,
    to: usize,
}

impl Model for Unread {
    ghost use Rattle.std.specs.Prelude.{List, ℕ, ◌≡◌, ◌≤◌, length, slice_range};

    ghost Value = { List ℕ };

    ghost view = { λ u. slice_range u.bytes u.from u.to };

    ghost invariant = { λ u. (u.from ≤ u.to) × (u.to ≤ 4096) × (length u.bytes ≡ 4096) };
}

impl Unread {
    pub(crate) fn new() -> Unread
        ensures { result ≡ [] }
    {
        Unread {
            bytes: [0; 4096],
            from: 0,
            to: 0,
        }
    }

    pub(crate) fn is_empty(&self) -> bool
        ensures { result ≡ (length self.now == 0) }
    {
        self.from == self.to
    }

    pub(crate) fn as_slice(&self) -> &[u8]
        ensures { result.now ≡ self.now }
    {
        &self.bytes[self.from..self.to]
    }

    pub(crate) fn consume(&mut self, n: usize)
        requires { n ≤ length self.old }
        ensures { self.new ≡ drop n self.old }
    {
        self.from += n;
    }

    pub(crate) fn clear(&mut self)
        ensures { self.new ≡ [] }
    {
        self.from = self.to;
    }

    // Reads once, where nothing is unread, and tells how many bytes came. Where that fails, nothing is unread as before.
    pub(crate) fn refill<R: Read>(&mut self, input: &mut R) -> io::Result<usize>
        requires { self.old ≡ [] }
        ensures count { IfOk result (λ n. n ≡ length self.new) }
        ensures bytes { OnOk result (Consumes (R.remaining input.old) (R.remaining input.new) self.new) }
        ensures end { IfOk result (λ n. n ≡ 0 → IsAtEnd (R.remaining input.new)) }
        ensures few { length self.new ≤ 4096 }
        ensures failed { OnErr result (self.new ≡ []) }
    {
        let n = input.read(&mut self.bytes)?;
        self.from = 0;
        self.to = n;
        Ok(n)
    }
}
