// The next line of an input.
ghost use Rattle.std.specs.Prelude.{◌≡◌, ◌==◌, [], ◌++◌, length, take, is_some, IfOk, OnErr};
ghost use Rattle.feed.specs.Cuts.{Cuts};
ghost use Rattle.feed.specs.Known.{Reads};
ghost use Rattle.feed.specs.Readers.{Next, left_of, line_of, unread_text};
ghost use Rattle.rulebook.specs.Lines.{after_end, to_end};

use super::LineReader;
use crate::cutting::fill;
use crate::unread::Unread;
use arrayvec::ArrayVec;
use std::io;
use std::io::Read;

impl<const N: usize> LineReader<N> {
    ghost use Rattle.std.specs.Borrow.{sem};
    ghost use Rattle.feed.specs.Shown.{ShowsNext};

    pub fn new() -> LineReader<N>
        ensures line { line_of result ≡ [] }
        ensures unread { unread_text result ≡ [] }
    {
        LineReader {
            line: ArrayVec::new(),
            unread: Unread::new(),
        }
    }

    // The line that was read last, as far as it is kept; empty where there was none, and after a failure what had come of it.
    pub fn line(&self) -> &[u8]
        ensures { result.now ≡ line_of self.now }
    {
        self.line.as_slice()
    }

    // Whether the next line may have to be waited for.
    pub fn is_drained(&self) -> bool
        ensures { result ≡ (length (unread_text self.now) == 0) }
    {
        self.unread.is_empty()
    }

    // Goes on with the line from what is unread, up to its first byte 10, and tells whether there is one.
    // Kept: a flag, since what it finds is in the reader: `Option<()>` is no plainer.
    fn cut(&mut self) -> bool
        ensures told { result ≡ is_some (after_end 0 (unread_text self.old)) }
        ensures line { line_of self.new ≡ take N (line_of self.old ++ to_end (unread_text self.old)) }
        ensures left { unread_text self.new ≡ left_of (after_end 0 (unread_text self.old)) (unread_text self.old) }
        ensures cuts { Cuts N (line_of self.old) (unread_text self.old) (after_end 0 (unread_text self.old)) (line_of self.new) }
    {
        match fill(&mut self.line, self.unread.as_slice()) {
            Some(done) => {
                self.unread.consume(done);
                true
            }
            None => {
                self.unread.clear();
                false
            }
        }
    }

    // Reads on to the end of the next line, and tells whether there is one.
    // Kept: a flag, since the line itself, `Option<&[u8]>`, would lend the reader to the loop that
    // still fills it; `next_line` gives the Option.
    fn read_on<R: Read>(&mut self, input: &mut R) -> io::Result<bool>
        ensures next { IfOk result (λ some. Next N (unread_text self.old) some (line_of self.new) (unread_text self.new)) }
        ensures lines { IfOk result (λ some. Reads N (unread_text self.old) (R.remaining input.old) some (line_of self.new)
            (unread_text self.new) (R.remaining input.new)) }
        ensures failed { OnErr result (unread_text self.new ≡ []) }
    {
        self.line.clear();
        if self.cut() {
            return Ok(true);
        }
        // Kept: a number that nothing reads bounds the loop, since `loop` over an input that may go on for ever is not
        // proved to end.
        for _ in 0..u64::MAX {
            if self.unread.refill(input)? == 0 {
                return Ok(!self.line.is_empty());
            }
            if self.cut() {
                break;
            }
        }
        Ok(true)
    }

    // Reads the next line of the input, as far as it is kept; none where it has none. The line begins
    // with what is unread, and no more of the input is read where it ends in that. Where reading fails, nothing is unread.
    pub fn next_line<R: Read>(&mut self, input: &mut R) -> io::Result<Option<&[u8]>>
        ensures* next { sem 𝓛 (ShowsNext N.row N self.entry (R.remaining input.old) (R.remaining input.new) result) }
    {
        if self.read_on(input)? {
            Ok(Some(self.line.as_slice()))
        } else {
            Ok(None)
        }
    }
}
