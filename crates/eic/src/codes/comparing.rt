// Codes, compared by their characters.
ghost use Rattle.eic.specs.Views.{code_text};
ghost use Rattle.rulebook.specs.Codes.{type_of};
ghost use Rattle.rulebook.specs.Texts.{precedes};
ghost use Rattle.std.specs.Prelude.{◌≡◌, ◌==◌};

use super::Code;

impl Code {
    // Whether it stands before the other, byte by byte.
    // Kept: `a < b` at a call is no plainer: it promises the order of the fields, and this call that of the texts.
    pub fn is_before(&self, other: &Code) -> bool
        ensures { result ≡ precedes (code_text self.now) (code_text other.now) }
    {
        self.cmp(other).is_lt()
    }

    // Whether it has the other's type letter.
    // Kept: `a.parts().kind == b.parts().kind` is no plainer.
    pub fn is_of_type(&self, other: &Code) -> bool
        ensures { result ≡ (type_of (code_text self.now) == type_of (code_text other.now)) }
    {
        self.bytes[2] == other.bytes[2]
    }
}
