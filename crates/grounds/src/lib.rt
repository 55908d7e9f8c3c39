// The grounds on which a call is refused, and what a refusal tells.
#![tactic(auto)]

ghost use Rattle.grounds.specs.Grounds.{in_field, number_of, refusal_words, words_of};
ghost use Rattle.std.specs.Prelude.{◌≡◌, Some};

use std::fmt;

// Why a call is refused. The numbers and the words are one definition each, in specs/Grounds.
#[derive(Clone, Copy, PartialEq, Eq, Debug)]
pub enum Ground {
    Buffer,
    LineLength,
    Action,
    FieldCount,
    Date,
    CodeForm,
    OtherOffice,
    CheckCharacter,
    FieldRule,
    AlreadyIssued,
    NotRegistered,
    StatusForbids,
    EarlierDate,
    OtherHolder,
    ObjectHasCode,
    NameHeld,
    NamedCode,
    NoRoom,
}

// A refusal tells its ground, the field in fault (from 1; 0 in a call without a line, or where no
// one field is in fault) and the position of the first unlawful character (from 1; else 0).
#[derive(Clone, Copy, PartialEq, Eq, Debug)]
pub struct Refusal {
    pub ground: Ground,
    pub field: u8,
    pub position: u8,
}

// The number that answers and documents use.
impl From<Ground> for u8 {
    ghost from_gives = { λ ground n. n ≡ number_of ground };

    fn from(ground: Ground) -> u8 {
        match ground {
            Ground::Buffer => 1,
            Ground::LineLength => 2,
            Ground::Action => 3,
            Ground::FieldCount => 4,
            Ground::Date => 5,
            Ground::CodeForm => 6,
            Ground::OtherOffice => 7,
            Ground::CheckCharacter => 8,
            Ground::FieldRule => 9,
            Ground::AlreadyIssued => 10,
            Ground::NotRegistered => 11,
            Ground::StatusForbids => 12,
            Ground::EarlierDate => 13,
            Ground::OtherHolder => 14,
            Ground::ObjectHasCode => 15,
            Ground::NameHeld => 16,
            Ground::NamedCode => 17,
            Ground::NoRoom => 18,
        }
    }
}

impl Ground {
    // What the ground means, for a person.
    fn words(self) -> &'static str
        ensures { result.now ≡ words_of self }
    {
        match self {
            Ground::Buffer => "answer buffer is under 200 bytes",
            Ground::LineLength => "line is empty or over 194 bytes",
            Ground::Action => "action is not C, U, D, R or L",
            Ground::FieldCount => "number of fields does not fit the action",
            Ground::Date => "date is not a day from 2000-01-01 to 2099-12-31",
            Ground::CodeForm => "character is not lawful at its place",
            Ground::OtherOffice => "office is not this office or not an office",
            Ground::CheckCharacter => "check character does not fit",
            Ground::FieldRule => "field breaks its rule",
            Ground::AlreadyIssued => "code is already issued",
            Ground::NotRegistered => "code is not on the register",
            Ground::StatusForbids => "status forbids the action",
            Ground::EarlierDate => "date is before the record's",
            Ground::OtherHolder => "object or function differs from the record's",
            Ground::ObjectHasCode => "object has a code in this function",
            Ground::NameHeld => "display name is held by another record of the type",
            Ground::NamedCode => "parent or responsible party may not be named",
            Ground::NoRoom => "store has no room",
        }
    }
}

impl fmt::Display for Ground {
    ghost output = { λ ground. Some (words_of ground) };

    fn fmt<W: fmt::Write>(&self, f: &mut fmt::Formatter<W>) -> fmt::Result {
        // Named by its type, so that an edit tells this line from the like of a refusal.
        f.write_str(Ground::words(*self))
    }
}

// A refusal in a call without a line, with no position to tell.
impl From<Ground> for Refusal {
    ghost from_gives = { λ ground r. r ≡ in_field 0 ground 0 };

    fn from(ground: Ground) -> Refusal {
        Refusal::new(ground, 0)
    }
}

impl Refusal {
    // A refusal in a call without a line.
    pub fn new(ground: Ground, position: u8) -> Refusal
        ensures { result ≡ in_field 0 ground position }
    {
        Refusal {
            ground,
            field: 0,
            position,
        }
    }

    // The refusal, found in the field of this number.
    pub fn in_field(self, field: u8) -> Refusal
        ensures { result ≡ in_field field self.ground self.position }
    {
        Refusal { field, ..self }
    }

    // What the refusal means, for a person.
    // Kept: it cannot fail, as Display can by its writer, which stands beside it.
    pub fn words(&self) -> &'static str
        ensures { result.now ≡ refusal_words self.now }
    {
        match self.ground {
            Ground::CodeForm if self.position == 0 => "code does not have the due length",
            ground => ground.words(),
        }
    }
}

impl fmt::Display for Refusal {
    ghost output = { λ r. Some (refusal_words r) };

    fn fmt<W: fmt::Write>(&self, f: &mut fmt::Formatter<W>) -> fmt::Result {
        f.write_str(self.words())
    }
}
