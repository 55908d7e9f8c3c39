// Checks a batch of request lines before it is handed in, for a clerk: `linecheck < FILE`.
#![tactic(auto)]

use answers::writing::write_refusal;
use eic::offices::Office;
use feed::answering::Answerer;
use feed::lines::LineReader;
use grounds::Refusal;
use requests::commands::{Command, Dated, read_line};
use std::io;
use std::io::{BufWriter, Read, Write};

// One byte over the longest line, so that a longer one is kept as one that is too long.
const KEPT: usize = 195;

fn write_dated<W: Write>(out: &mut W, action: &str, dated: &Dated) -> io::Result<()> {
    let day = dated.date.text();
    write!(out, "OK {action} ")?;
    out.write_all(dated.code.text())?;
    out.write_all(b" from ")?;
    out.write_all(&day)
}

// Kept: no Display, since Command is another crate's, and the text of a code and of a date is bytes:
// `for byte in code.text() { f.write_char(char::from(*byte))?; }`.
fn write_command<W: Write>(out: &mut W, command: &Command) -> io::Result<()> {
    match command {
        Command::Create(dated, _) => write_dated(out, "create", dated),
        Command::Change(dated, _) => write_dated(out, "change", dated),
        Command::Deactivate(dated) => write_dated(out, "deactivate", dated),
        Command::Reactivate(dated) => write_dated(out, "reactivate", dated),
        Command::LookUp(code) => {
            out.write_all(b"OK look up ")?;
            out.write_all(code.text())
        }
    }
}

// Kept: the answer line is written into a buffer of the caller's, whose length the call tells, since
// the office's answers use no heap.
fn write_answer<W: Write>(out: &mut W, refusal: &Refusal) -> io::Result<()> {
    let mut buffer = [0; 200];
    let n = write_refusal(refusal, &mut buffer);
    out.write_all(&buffer[..n])
}

// Checks each line for an office.
#[derive(Drop)]
struct Checker {
    office: Office,
}

impl Answerer for Checker {
    fn answer<W: Write>(&mut self, out: &mut W, number: u64, line: &[u8]) -> io::Result<()> {
        write!(out, "{number}: ")?;
        match read_line(&self.office, line) {
            Ok(command) => write_command(out, &command)?,
            Err(refusal) => {
                write_answer(out, &refusal)?;
                write!(out, " {refusal}")?;
            }
        }
        out.write_all(b"\n")
    }
}

// The office stands on the first line.
fn run<R: Read, W: Write>(input: &mut R, out: &mut W) -> io::Result<()> {
    let mut lines = LineReader::<KEPT>::new();
    let first = lines.next_line(input)?.unwrap_or(b"");
    match Office::try_from(first) {
        Ok(office) => lines.answer_all(input, out, &mut Checker { office }),
        Err(refusal) => {
            write_answer(out, &refusal)?;
            out.write_all(b"\n")?;
            out.flush()
        }
    }
}

fn main(rt: HostRuntime) -> io::Result<()> {
    let mut input = rt.stdin();
    let mut out = BufWriter::new(rt.alloc(), rt.stdout())?;
    run(&mut input, &mut out)
}
