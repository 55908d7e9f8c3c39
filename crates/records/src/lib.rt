// What the register holds of a code.
#![tactic(auto)]

ghost use Rattle.eic.specs.Views.{code_text};
ghost use Rattle.fields.specs.Views.{display_text, function_text, object_text};
ghost use Rattle.records.specs.Views.{entry_of, placeholder};
ghost use Rattle.records.specs.Laws.{OneRecord};
ghost use Rattle.rulebook.specs.Entries.{is_holder, is_namesake};
ghost use Rattle.rulebook.specs.Records.{sign_of};
ghost use Rattle.std.specs.Prelude.{◌≡◌};

use eic::codes::Code;
use fields::articles::Ean;
use fields::dates::Date;
use fields::names::{DisplayName, Name, Vat};
use fields::numbers::{Function, ObjectNumber};

#[derive(Clone, Copy, PartialEq, Eq, Debug)]
pub enum Status {
    Active,
    Inactive,
}

// Fields 4 to 11 of the line that gave them.
#[derive(Clone, Copy)]
pub struct Registration {
    pub object: ObjectNumber,
    pub function: Function,
    pub name: Name,
    pub display: DisplayName,
    pub parent: Option<Code>,
    pub responsible: Option<Code>,
    pub vat: Option<Vat>,
    pub ean: Option<Ean>,
}

// A code, its status, the date of its latest granted line, and its registration.
#[derive(Clone, Copy)]
pub struct Record {
    pub code: Code,
    pub status: Status,
    pub date: Date,
    pub registration: Registration,
}

impl Record {
    // A record that stands where none has been read or written yet.
    pub fn placeholder() -> Record
        ensures { entry_of result ≡ placeholder }
    {
        let registration = Registration {
            object: ObjectNumber::first(),
            function: Function::first(),
            name: Name::placeholder(),
            display: DisplayName::placeholder(),
            parent: None,
            responsible: None,
            vat: None,
            ean: None,
        };
        Record {
            code: Code::placeholder(),
            status: Status::Inactive,
            date: Date::first(),
            registration,
        }
    }

    // Whether it has this object in this function.
    pub fn is_holder(&self, object: &ObjectNumber, function: &Function) -> bool
        ensures { result ≡ is_holder (object_text object.now) (function_text function.now) (entry_of self.now) }
    {
        self.registration.object == *object && self.registration.function == *function
    }

    // Whether it has another code of the same type, and this display name.
    pub fn is_namesake(&self, code: &Code, display: &DisplayName) -> bool
        ensures { result ≡ is_namesake (code_text code.now) (display_text display.now) (entry_of self.now) }
    {
        self.code.is_of_type(code) && self.registration.display == *display && self.code != *code
    }

    // The record's sign: the display name itself if it is active, else the notice itself.
    pub fn sign<'a>(&'a self, notice: &'a [u8]) -> &'a [u8]
        ensures { result.now ≡ sign_of (entry_of self.now) notice.now }
    {
        match self.status {
            Status::Active => self.registration.display.text(),
            Status::Inactive => notice,
        }
    }
}

// Two records with the same texts are the same record; how many texts a record has.
pub fn record_texts() -> usize
    ensures one { OneRecord }
    ensures count { result ≡ 11 }
{
    11
}
