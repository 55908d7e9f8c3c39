// Cuts a line into its comma-parted fields.
ghost use Rattle.std.specs.Prelude.{◌≡◌, length};
ghost use Rattle.rulebook.specs.Texts.{field_of, fields};

// The field of this number, counted from 1.
pub(crate) fn field(line: &[u8], number: usize) -> &[u8]
    ensures { result.now ≡ field_of line.now number }
{
    line.split(|byte| *byte == b',')
        .nth(number.saturating_sub(1))
        .unwrap_or(b"")
}

// How many fields a line has.
pub(crate) fn count(line: &[u8]) -> usize
    ensures { result ≡ length (fields line.now) }
{
    line.iter().filter(|byte| **byte == b',').count() + 1
}
