// A request whose fields are read: what the register is asked to do.
ghost use Rattle.eic.specs.Views.{code_text, office_text};
ghost use Rattle.fields.specs.Views.{code_text_or, date_text};
ghost use Rattle.grounds.specs.declared.Refusal.{Refusal};
ghost use Rattle.records.specs.Views.{registration_texts};
ghost use Rattle.requests.specs.Views.{order_in, order_of, texts_in};
ghost use Rattle.rulebook.specs.Fields.{read_named};
ghost use Rattle.rulebook.specs.Requests.{Order, Verbatim, asked, read_dated, read_order, read_registration};
ghost use Rattle.rulebook.specs.Texts.{Text, onward, placed, viewed};
ghost use Rattle.std.specs.Prelude.{◌≡◌, Result};

use super::lines::{DatedFields, RegistrationFields, Request};
use eic::codes::Code;
use eic::offices::Office;
use fields::articles::Ean;
use fields::dates::Date;
use fields::names::{DisplayName, Name, Vat};
use fields::numbers::{Function, ObjectNumber};
use fields::parties::PartyNumber;
use grounds::Refusal;
use records::Registration;

// What every action but a look-up tells: its date and its code.
#[derive(Clone, Copy)]
pub struct Dated {
    pub date: Date,
    pub code: Code,
}

// Kept: one enum for this and Request, as Asked<DatedFields<'a>, RegistrationFields<'a>, &'a [u8]>, is no plainer.
#[derive(Clone, Copy)]
pub enum Command {
    Create(Dated, Registration),
    Change(Dated, Registration),
    Deactivate(Dated),
    Reactivate(Dated),
    LookUp(Code),
}

// Adds the field's number to a refusal found in a field.
fn place<T>(field: u8, outcome: Result<T, Refusal>) -> Result<T, Refusal>
    ensures { result ≡ placed field outcome }
{
    outcome.map_err(|refusal| refusal.in_field(field))
}

// A code of the office, or none for a blank.
fn read_named(office: &Office, text: &[u8]) -> Result<Option<Code>, Refusal>
    ensures { viewed code_text_or result ≡ read_named (office_text office.now) text.now }
{
    if text.is_empty() {
        Ok(None)
    } else {
        Code::read_for(office, text).map(Some)
    }
}

// Fields 2 and 3, whatever is read after them.
fn read_dated(office: &Office, texts: &DatedFields) -> Result<Dated, Refusal>
    ensures { (more : Text → Text → Result Order Refusal) → onward result (λ dated. more (date_text dated.date) (code_text dated.code)) ≡ read_dated (office_text office.now) texts.now.date.now texts.now.code.now more }
{
    let date = place(2, Date::try_from(texts.date))?;
    let code = place(3, Code::read_for(office, texts.code))?;
    Ok(Dated { date, code })
}

fn read_registration(
    office: &Office,
    code: &Code,
    texts: &RegistrationFields,
) -> Result<Registration, Refusal>
    ensures { viewed registration_texts result ≡ read_registration (office_text office.now) (code_text code.now) (texts_in texts.now) }
{
    let party = code.is_party();
    let object = place(4, ObjectNumber::try_from(texts.object))?;
    let function = place(5, Function::try_from(texts.function))?;
    let name = place(6, Name::try_from(texts.name))?;
    let display = place(7, DisplayName::try_from(texts.display))?;
    let parent = place(8, read_named(office, texts.parent))?;
    let responsible = place(9, read_named(office, texts.responsible))?;
    let vat = place(10, Vat::read(party, texts.vat))?;
    let ean = place(11, Ean::read(party, texts.ean))?;
    Ok(Registration {
        object,
        function,
        name,
        display,
        parent,
        responsible,
        vat,
        ean,
    })
}

fn read_fields(office: &Office, request: &Request) -> Result<Command, Refusal>
    ensures { viewed order_of result ≡ read_order (office_text office.now) (order_in request.now) }
{
    // Kept: one arm for the first two is no plainer: `let (dated, registration) = read_both(office, dated, registration)?;`.
    match request {
        Request::Create(dated, registration) => {
            let dated = read_dated(office, dated)?;
            let registration = read_registration(office, &dated.code, registration)?;
            Ok(Command::Create(dated, registration))
        }
        Request::Change(dated, registration) => {
            let dated = read_dated(office, dated)?;
            let registration = read_registration(office, &dated.code, registration)?;
            Ok(Command::Change(dated, registration))
        }
        Request::Deactivate(dated) => Ok(Command::Deactivate(read_dated(office, dated)?)),
        Request::Reactivate(dated) => Ok(Command::Reactivate(read_dated(office, dated)?)),
        Request::LookUp(code) => {
            let code = place(2, Code::read_for(office, code))?;
            Ok(Command::LookUp(code))
        }
    }
}

// What a line asks of an office. The texts of the command are the line's own fields.
pub fn read_line(office: &Office, line: &[u8]) -> Result<Command, Refusal>
    ensures is { viewed order_of result ≡ asked (office_text office.now) line.now }
    ensures verbatim { Verbatim (office_text office.now) line.now }
{
    let request = Request::try_from(line)?;
    read_fields(office, &request)
}
