// An office, read from its two characters and given back.
ghost use Rattle.eic.specs.Views.{office_text};
ghost use Rattle.rulebook.specs.Codes.{is_capital, is_digit, is_office, of_office, read_office};
ghost use Rattle.rulebook.specs.Texts.{viewed};
ghost use Rattle.std.specs.Prelude.{◌≡◌, ◌≤◌, true, ◌||◌, [], ◌∷◌, length};

use super::Office;
use grounds::{Ground, Refusal};

fn is_office_character(character: u8) -> bool
    ensures { result ≡ (is_digit character || is_capital character) }
{
    matches!(character, b'0'..=b'9' | b'A'..=b'Z')
}

// An office is read from exactly two characters.
impl TryFrom<&[u8]> for Office {
    type Error = Refusal;

    ghost try_from_gives = { λ text r. viewed office_text r ≡ read_office text.now };

    fn try_from(text: &[u8]) -> Result<Office, Refusal> {
        match text {
            [first, second] if is_office_character(*first) && is_office_character(*second) => {
                Ok(Office::of(*first, *second))
            }
            _ => Err(Ground::OtherOffice.into()),
        }
    }
}

impl Office {
    pub(crate) fn of(first: u8, second: u8) -> Office
        requires { is_office (first ∷ (second ∷ [])) ≡ true }
        ensures { office_text result ≡ first ∷ (second ∷ []) }
    {
        Office {
            characters: [first, second],
        }
    }

    // Its two characters.
    pub fn text(&self) -> &[u8]
        ensures { result.now ≡ office_text self.now }
    {
        &self.characters[..]
    }

    // Whether a code begins with its two characters.
    pub(crate) fn begins(&self, text: &[u8]) -> bool
        requires { 2 ≤ length text.now }
        ensures { result ≡ of_office (office_text self.now) text.now }
    {
        text.starts_with(self.text())
    }
}
