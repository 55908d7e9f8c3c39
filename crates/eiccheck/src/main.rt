// Checks codes, one a line, for a clerk: `eiccheck < FILE`.
#![tactic(auto)]

mod verdicts;

use eic::codes::Code;
use feed::answering::Answerer;
use feed::lines::LineReader;
use grounds::{Ground, Refusal};
use std::io;
use std::io::{BufWriter, Write};
use verdicts::{Verdict, examine};

// One byte over the longest text that has a verdict of its own, so that a longer line is kept as
// one that is too long.
const KEPT: usize = 17;

fn write_sound<W: Write>(out: &mut W, code: &Code) -> io::Result<()> {
    let parts = code.parts();
    let kind = parts.kind;
    let letter = char::from(u8::from(kind));
    write!(out, "sound: {kind} ({letter}) of office ")?;
    out.write_all(parts.office.text())
}

// Kept: a Display of what a clerk is told is no plainer, since a refusal has one of its own already: it would need a type,
// `struct Told<'a>(&'a Refusal)`. The same holds of the next.
fn write_refusal<W: Write>(out: &mut W, refusal: &Refusal) -> io::Result<()> {
    let number = u8::from(refusal.ground);
    let position = refusal.position;
    if position > 0 {
        write!(
            out,
            "refused with {number} at position {position}: {refusal}"
        )
    } else {
        write!(out, "refused with {number}: {refusal}")
    }
}

fn write_uncompleted<W: Write>(out: &mut W, refusal: &Refusal) -> io::Result<()> {
    match refusal.ground {
        Ground::CheckCharacter => {
            let number = u8::from(refusal.ground);
            write!(
                out,
                "refused with {number}: no check character completes these fifteen"
            )
        }
        _ => write_refusal(out, refusal),
    }
}

// Kept: a Display of Verdict is no plainer. A code's and an office's text are bytes, and Display
// writes str: `for byte in code.text() { f.write_char(char::from(*byte))?; }`.
fn write_verdict<W: Write>(out: &mut W, verdict: &Verdict) -> io::Result<()> {
    match verdict {
        Verdict::Sound(code) => write_sound(out, code),
        Verdict::Completed(code) => {
            out.write_all(b"completed: ")?;
            out.write_all(code.text())
        }
        Verdict::RightEan => out.write_all(b"right EAN-13"),
        Verdict::WrongEan => out.write_all(b"wrong EAN-13: check digit does not fit"),
        Verdict::Uncompleted(refusal) => write_uncompleted(out, refusal),
        Verdict::Refused(refusal) => write_refusal(out, refusal),
    }
}

// Tells what it finds of each line.
#[derive(Drop)]
struct Clerk;

impl Answerer for Clerk {
    fn answer<W: Write>(&mut self, out: &mut W, number: u64, text: &[u8]) -> io::Result<()> {
        let verdict = examine(text);
        write!(out, "{number}: ")?;
        write_verdict(out, &verdict)?;
        out.write_all(b"\n")
    }
}

fn main(rt: HostRuntime) -> io::Result<()> {
    let mut input = rt.stdin();
    let mut out = BufWriter::new(rt.alloc(), rt.stdout())?;
    LineReader::<KEPT>::new().answer_all(&mut input, &mut out, &mut Clerk)
}
