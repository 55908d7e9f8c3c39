// A code, read from its characters, given back and taken apart.
ghost use Rattle.eic.specs.Views.{code_text, office_text, whole_text};
ghost use Rattle.rulebook.specs.Codes.{checked, completed, eic, is_party, is_sound, read_code, read_code_for, sum_of};
ghost use Rattle.rulebook.specs.Misreading.{CatchesMisread};
ghost use Rattle.rulebook.specs.Texts.{viewed};
ghost use Rattle.std.specs.Prelude.{◌≡◌, true, length, is_ok, Ok, codes};

use super::super::checks::{check_character, sum_of};
use super::super::kinds::Kind;
use super::super::offices::Office;
use super::Code;
use grounds::{Ground, Refusal};

// A code taken apart.
#[derive(Clone, Copy)]
pub struct Parts {
    pub office: Office,
    pub kind: Kind,
    pub rest: [u8; 12],
    pub check: u8,
}

// Form, then check character. No misreading of a code that is read is sound.
impl TryFrom<&[u8]> for Code {
    type Error = Refusal;

    ghost try_from_gives = { λ text r. viewed code_text r ≡ read_code text.now };

    fn try_from(text: &[u8]) -> Result<Code, Refusal>
        ensures is { viewed code_text result ≡ read_code text.now }
        ensures sound { is_ok result ≡ is_sound text.now }
        ensures misread { is_ok result ≡ true → CatchesMisread eic text.now }
    {
        sealed(text, sum_of(16, text)?)
    }
}

impl Code {
    // Form, then office, then check character.
    // Kept: the conversion is no plainer: `Code::try_from((office, text))`.
    pub fn read_for(office: &Office, text: &[u8]) -> Result<Code, Refusal>
        ensures { viewed code_text result ≡ read_code_for (office_text office.now) text.now }
    {
        let sum = sum_of(16, text)?;
        if !office.begins(text) {
            return Err(Ground::OtherOffice.into());
        }
        sealed(text, sum)
    }

    // Fifteen characters with their check character.
    // Kept: the conversion is no plainer, since a text reads as sixteen: `Code::try_from(Fifteen(text))`.
    pub fn complete(text: &[u8]) -> Result<Code, Refusal>
        ensures { viewed code_text result ≡ completed text.now }
    {
        let check = check_character(text)?;
        let mut bytes = [check; 16];
        bytes[..15].copy_from_slice(text);
        Ok(Code { bytes })
    }

    // A sound code that stands where none has been read yet.
    pub fn placeholder() -> Code
        ensures { code_text result ≡ codes "00T0000000000001" }
    {
        Code {
            bytes: *b"00T0000000000001",
        }
    }

    // Its sixteen characters.
    pub fn text(&self) -> &[u8]
        ensures is { result.now ≡ code_text self.now }
        ensures long { length result.now ≡ 16 }
    {
        &self.bytes[..]
    }

    // Whether its type is X, a party.
    pub fn is_party(&self) -> bool
        ensures { result ≡ is_party (code_text self.now) }
    {
        self.bytes[2] == u8::from(Kind::Party)
    }

    pub fn parts(&self) -> Parts
        ensures { whole_text result ≡ code_text self.now }
    {
        let [first, second, letter, middle @ .., check] = self.text() else {
            unreachable()
        };
        let Ok(kind) = Kind::try_from(*letter) else {
            unreachable()
        };
        let mut rest = [0; 12];
        rest.copy_from_slice(middle);
        let office = Office::of(*first, *second);
        Parts {
            office,
            kind,
            rest,
            check: *check,
        }
    }
}

// The code of sixteen lawful characters with this sum.
fn sealed(text: &[u8], sum: u32) -> Result<Code, Refusal>
    requires { sum_of 16 text.now ≡ Ok sum }
    ensures { viewed code_text result ≡ checked text.now sum }
{
    if sum % 37 != 0 {
        return Err(Ground::CheckCharacter.into());
    }
    let mut bytes = [0; 16];
    bytes.copy_from_slice(text);
    Ok(Code { bytes })
}
