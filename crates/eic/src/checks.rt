// The check character of fifteen characters.
ghost use Rattle.std.specs.Prelude.{◌≡◌, ◌<◌};
ghost use Rattle.rulebook.specs.Codes.{OnlyCompletion, check_character, completing, sum_of};

use super::schemes::Eic;
use super::values::character_of;
use grounds::{Ground, Refusal};

// The weighted sum of so many characters, each lawful at its place.
pub(crate) fn sum_of(places: usize, text: &[u8]) -> Result<u32, Refusal>
    requires { places < 256 }
    ensures { result ≡ sum_of places text.now }
{
    if text.len() != places {
        return Err(Ground::CodeForm.into());
    }
    scheme::weigh::<Eic>(text).map_err(|position| Refusal::new(Ground::CodeForm, position as u8))
}

// The character that makes this sum a multiple of 37.
fn completion(sum: u32) -> Result<u8, Refusal>
    ensures { result ≡ completing sum }
{
    let value = (37 - sum % 37) % 37;
    if value == 36 {
        return Err(Ground::CheckCharacter.into());
    }
    Ok(character_of(value as u8))
}

// The one character that completes fifteen to a sound code.
pub fn check_character(text: &[u8]) -> Result<u8, Refusal>
    ensures is { result ≡ check_character text.now }
    ensures only { OnlyCompletion text.now result }
{
    sum_of(15, text).and_then(completion)
}
