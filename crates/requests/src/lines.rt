// A request as it stands in a line: each case holds slices of the line.
ghost use Rattle.requests.specs.Views.{order_in, texts_in};
ghost use Rattle.rulebook.specs.Requests.{cut_up, registration_in};
ghost use Rattle.rulebook.specs.Texts.{field_of, viewed};
ghost use Rattle.std.specs.Prelude.{◌≡◌};

use super::cutting::{count, field};
use grounds::{Ground, Refusal};

// The longest line.
const LONGEST: usize = 194;

// Fields 2 and 3.
#[derive(Clone, Copy)]
pub struct DatedFields<'a> {
    pub date: &'a [u8],
    pub code: &'a [u8],
}

// Fields 4 to 11.
#[derive(Clone, Copy)]
pub struct RegistrationFields<'a> {
    pub object: &'a [u8],
    pub function: &'a [u8],
    pub name: &'a [u8],
    pub display: &'a [u8],
    pub parent: &'a [u8],
    pub responsible: &'a [u8],
    pub vat: &'a [u8],
    pub ean: &'a [u8],
}

// Kept: two enums and two structs of each kind, for the reason that stands at Command.
#[derive(Clone, Copy)]
pub enum Request<'a> {
    Create(DatedFields<'a>, RegistrationFields<'a>),
    Change(DatedFields<'a>, RegistrationFields<'a>),
    Deactivate(DatedFields<'a>),
    Reactivate(DatedFields<'a>),
    LookUp(&'a [u8]),
}

fn dated_fields(line: &[u8]) -> DatedFields<'_>
    ensures date { result.date.now ≡ field_of line.now 2 }
    ensures code { result.code.now ≡ field_of line.now 3 }
{
    DatedFields {
        date: field(line, 2),
        code: field(line, 3),
    }
}

fn registration_fields(line: &[u8]) -> RegistrationFields<'_>
    ensures { texts_in result ≡ registration_in line.now }
{
    RegistrationFields {
        object: field(line, 4),
        function: field(line, 5),
        name: field(line, 6),
        display: field(line, 7),
        parent: field(line, 8),
        responsible: field(line, 9),
        vat: field(line, 10),
        ean: field(line, 11),
    }
}

// Length, then action, then number of fields.
impl<'a> TryFrom<&'a [u8]> for Request<'a> {
    type Error = Refusal;

    ghost try_from_gives = { λ line request. viewed order_in request ≡ cut_up line.now };

    fn try_from(line: &'a [u8]) -> Result<Request<'a>, Refusal> {
        if !(1..=LONGEST).contains(&line.len()) {
            return Err(Ground::LineLength.into());
        }
        let no_action = Refusal::from(Ground::Action).in_field(1);
        let [action] = field(line, 1) else {
            return Err(no_action);
        };
        match (char::from(*action), count(line)) {
            ('C', 11) => Ok(Request::Create(dated_fields(line), registration_fields(line))),
            ('U', 11) => Ok(Request::Change(dated_fields(line), registration_fields(line))),
            ('D', 3) => Ok(Request::Deactivate(dated_fields(line))),
            ('R', 3) => Ok(Request::Reactivate(dated_fields(line))),
            ('L', 2) => Ok(Request::LookUp(field(line, 2))),
            ('C' | 'U' | 'D' | 'R' | 'L', _) => Err(Ground::FieldCount.into()),
            _ => Err(no_action),
        }
    }
}
