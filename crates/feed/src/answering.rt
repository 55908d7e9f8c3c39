// Answers an input line by line.
ghost use Rattle.std.specs.Prelude.{⊤, List, ℕ, OnOk};
ghost use Rattle.feed.specs.Answered.{Answered};
ghost use Rattle.feed.specs.Known.{AreLines};
ghost use Rattle.feed.specs.Readers.{unread_text};
ghost use Rattle.rulebook.specs.Texts.{Text};

use crate::lines::LineReader;
use std::io;
use std::io::{Read, Write};

// One who answers lines.
// Kept: a trait and no closure, since no public call may ask anything of its caller, and one that is
// handed a closure asks that it may be called: `requires { F.IsAlwaysCallable answer }`.
pub trait Answerer {
    // How one who answers the line with this number may be changed by that.
    ghost answers: { Self → ℕ → List ℕ → Self → Type 0 } = { λ _ _ _ _. ⊤ };

    fn answer<W: Write>(&mut self, out: &mut W, number: u64, line: &[u8]) -> io::Result<()>
        ensures { OnOk result (answers self.old number line.now self.new) };
}

impl<const N: usize> LineReader<N> {
    // Answers the lines of the input, which it numbers from 1. What is answered is handed out where
    // the next line may have to be waited for.
    pub fn answer_all<R: Read, W: Write, A: Answerer>(
        &mut self,
        input: &mut R,
        out: &mut W,
        answerer: &mut A,
    ) -> io::Result<()>
        ensures { OnOk result ((lines : List Text)
            × Answered A.answers N 1 lines (unread_text self.old) answerer.old (unread_text self.new) answerer.new
            × AreLines N (unread_text self.old) (R.remaining input.old) lines) }
    {
        for number in 1..=u64::MAX {
            if self.is_drained() {
                out.flush()?;
            }
            let Some(line) = self.next_line(input)? else {
                break;
            };
            answerer.answer(out, number, line)?;
        }
        out.flush()
    }
}
