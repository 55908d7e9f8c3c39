// Answers, written into a caller's buffer.
ghost use Rattle.std.specs.Prelude.{◌≡◌, ◌≤◌, length};
ghost use Rattle.answers.specs.Laws.{ReadFrom, ReadsBack};
ghost use Rattle.answers.specs.Views.{line_of};
ghost use Rattle.records.specs.Views.{entry_of};
ghost use Rattle.rulebook.specs.Answers.{filled, granted_line, refused_line, told_length};

use eic::codes::Code;
use fields::articles::Ean;
use fields::names::Vat;
use grounds::Refusal;
use itoa::Buffer;
use records::{Record, Status};

// Puts a word and its fields at the front of a buffer of 200 bytes or more, and tells the line's length.
// Kept: a rule of the project: where the buffer is shorter the length told is 0, and not none.
fn write_line(word: &[u8], fields: &[&[u8]], buffer: &mut [u8]) -> usize
    requires { length (line_of word.now fields.now) ≤ 200 }
    ensures told { result ≡ told_length (line_of word.now fields.now) buffer.old }
    ensures filled { buffer.new ≡ filled (line_of word.now fields.now) buffer.old }
{
    if buffer.len() < 200 {
        return 0;
    }
    let mut end = word.len();
    buffer[..end].copy_from_slice(word);
    for field in fields {
        buffer[end] = b',';
        let start = end + 1;
        end = start + field.len();
        buffer[start..end].copy_from_slice(field);
    }
    end
}

// A record's answer, whose fields are the record's own texts, those of the line that its registration
// was read from. A buffer of under 200 bytes is left as it was.
pub fn write_record(held: &Record, buffer: &mut [u8]) -> usize
    ensures told { result ≡ told_length (granted_line (entry_of held.now)) buffer.old }
    ensures filled { buffer.new ≡ filled (granted_line (entry_of held.now)) buffer.old }
    ensures short { result ≤ 197 }
    ensures fields { ReadsBack (entry_of held.now) }
    ensures own { ReadFrom (entry_of held.now) }
{
    let of = &held.registration;
    let date = held.date.text();
    let status: &[u8] = match held.status {
        Status::Active => b"A",
        Status::Inactive => b"I",
    };
    let mut object = Buffer::new();
    let mut function = Buffer::new();
    let fields = [
        held.code.text(),
        status,
        &date,
        object.format(of.object.number()).as_bytes(),
        function.format(of.function.number()).as_bytes(),
        of.name.text(),
        of.display.text(),
        of.parent.as_ref().map_or(b"", Code::text),
        of.responsible.as_ref().map_or(b"", Code::text),
        of.vat.as_ref().map_or(b"", Vat::text),
        of.ean.as_ref().map_or(b"", Ean::text),
    ];
    write_line(b"OK", &fields, buffer)
}

// A refusal's answer. A buffer of under 200 bytes is left as it was.
pub fn write_refusal(refusal: &Refusal, buffer: &mut [u8]) -> usize
    ensures told { result ≡ told_length (refused_line refusal.now) buffer.old }
    ensures filled { buffer.new ≡ filled (refused_line refusal.now) buffer.old }
    ensures short { result ≤ 14 }
{
    let mut ground = Buffer::new();
    let mut field = Buffer::new();
    let mut position = Buffer::new();
    let fields = [
        ground.format(u8::from(refusal.ground)).as_bytes(),
        field.format(refusal.field).as_bytes(),
        position.format(refusal.position).as_bytes(),
    ];
    write_line(b"NO", &fields, buffer)
}
