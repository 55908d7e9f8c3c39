// Goes on with a line from an input that comes in pieces.
ghost use Rattle.std.specs.Prelude.{◌≡◌, ◌<◌, ◌≤◌, ◌++◌, ◌==◌, length, take, position, IfSome};
ghost use Rattle.feed.specs.Cuts.{Cuts};
ghost use Rattle.rulebook.specs.Lines.{after_end, to_end};

use arrayvec::ArrayVec;

// Goes on with the line up to the first byte 10 of the input, and tells how many bytes of the
// input are then done, byte 10 among them; none where the input has no byte 10. The line's first N
// bytes are kept and its further bytes passed over: with N one over a limit, a line over the limit
// is kept as one of N bytes.
pub fn fill<const N: usize>(line: &mut ArrayVec<u8, N>, input: &[u8]) -> Option<usize>
    ensures bound { IfSome result (λ n. (0 < n) × (n ≤ length input.now)) }
    ensures done { result ≡ after_end 0 input.now }
    ensures cuts { Cuts N line.old.items input.now result line.new.items }
    ensures line { line.new.items ≡ take N (line.old.items ++ to_end input.now) }
{
    match first_end(input) {
        Some(at) => {
            keep(line, &input[..at]);
            Some(at + 1)
        }
        None => {
            keep(line, input);
            None
        }
    }
}

// The place of the first byte 10.
fn first_end(text: &[u8]) -> Option<usize>
    ensures place { result ≡ position (λ b. b == 10) text.now }
    ensures bound { IfSome result (λ at. at < length text.now) }
{
    text.iter().position(|byte| *byte == b'\n')
}

// Adds as much of the text to the line as there is room for.
fn keep<const N: usize>(line: &mut ArrayVec<u8, N>, text: &[u8])
    ensures kept { line.new.items ≡ take N (line.old.items ++ text.now) }
    ensures before { length line.old.items ≤ N }
{
    let room = text.len().min(line.remaining_capacity());
    let _fits = line.try_extend_from_slice(&text[..room]);
}
