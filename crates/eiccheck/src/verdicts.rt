// What a clerk is told of one line.
ghost use Rattle.eiccheck.specs.Verdicts.{examined, seen, thirteen_digits};
ghost use Rattle.std.specs.Prelude.{◌≡◌};

use eic::codes::Code;
use eic::schemes::{Ean13, is_ean};
use grounds::Refusal;

// Sixteen characters are a sound code, fifteen are completed, thirteen digits are an EAN-13; all
// else is refused as a code.
#[derive(Clone, Copy)]
pub enum Verdict {
    Sound(Code),
    Completed(Code),
    RightEan,
    WrongEan,
    Uncompleted(Refusal),
    Refused(Refusal),
}

fn is_thirteen_digits(text: &[u8]) -> bool
    ensures { result ≡ thirteen_digits text.now }
{
    text.len() == 13 && scheme::weigh::<Ean13>(text).is_ok()
}

pub fn examine(text: &[u8]) -> Verdict
    ensures { seen result ≡ examined text.now }
{
    if is_thirteen_digits(text) {
        return if is_ean(text) {
            Verdict::RightEan
        } else {
            Verdict::WrongEan
        };
    }
    if text.len() == 15 {
        return match Code::complete(text) {
            Ok(code) => Verdict::Completed(code),
            Err(refusal) => Verdict::Uncompleted(refusal),
        };
    }
    match Code::try_from(text) {
        Ok(code) => Verdict::Sound(code),
        Err(refusal) => Verdict::Refused(refusal),
    }
}
