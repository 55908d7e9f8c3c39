// The six types of object that a code can name.
ghost use Rattle.eic.specs.Views.{kind_read, kind_words, letter_of};
ghost use Rattle.grounds.specs.declared.Ground.TheVariants.{CodeForm};
ghost use Rattle.rulebook.specs.Texts.{viewed};
ghost use Rattle.std.specs.Prelude.{◌≡◌, Some, ok_or};

use grounds::Ground;
use std::fmt;

#[derive(Clone, Copy, PartialEq, Eq, Debug)]
pub enum Kind {
    TieLine,
    ItSystem,
    Resource,
    Party,
    Zone,
    MeteringPoint,
}

// The type of a type letter.
impl TryFrom<u8> for Kind {
    type Error = Ground;

    ghost try_from_gives = { λ letter r. viewed letter_of r ≡ ok_or (kind_read letter) CodeForm };

    fn try_from(letter: u8) -> Result<Kind, Ground> {
        match letter {
            b'T' => Ok(Kind::TieLine),
            b'V' => Ok(Kind::ItSystem),
            b'W' => Ok(Kind::Resource),
            b'X' => Ok(Kind::Party),
            b'Y' => Ok(Kind::Zone),
            b'Z' => Ok(Kind::MeteringPoint),
            _ => Err(Ground::CodeForm),
        }
    }
}

// Its type letter.
impl From<Kind> for u8 {
    ghost from_gives = { λ kind letter. letter ≡ letter_of kind };

    fn from(kind: Kind) -> u8 {
        match kind {
            Kind::TieLine => b'T',
            Kind::ItSystem => b'V',
            Kind::Resource => b'W',
            Kind::Party => b'X',
            Kind::Zone => b'Y',
            Kind::MeteringPoint => b'Z',
        }
    }
}

impl Kind {
    // What the type is called.
    // Kept: it cannot fail, as Display can by its writer, which stands beside it.
    pub fn words(self) -> &'static str
        ensures { result.now ≡ kind_words self }
    {
        match self {
            Kind::TieLine => "tie line",
            Kind::ItSystem => "IT system",
            Kind::Resource => "resource",
            Kind::Party => "party",
            Kind::Zone => "zone",
            Kind::MeteringPoint => "metering point",
        }
    }
}

impl fmt::Display for Kind {
    ghost output = { λ kind. Some (kind_words kind) };

    fn fmt<W: fmt::Write>(&self, f: &mut fmt::Formatter<W>) -> fmt::Result {
        f.write_str(self.words())
    }
}
