// Object numbers and functions, read and given back.
ghost use Rattle.fields.specs.Views.{number_text};
ghost use Rattle.grounds.specs.declared.Ground.TheVariants.{FieldRule};
ghost use Rattle.rulebook.specs.Fields.{is_number};
ghost use Rattle.rulebook.specs.Texts.{passed, viewed};
ghost use Rattle.std.specs.Prelude.{◌≡◌, ◌-◌, ◌^◌, ◌<◌, ◌≤◌, true, codes, decimal, max, min};
ghost use Rattle.std.specs.Str.{all_ascii_digits, bytes_eq};
ghost use Rattle.std.specs.Str.Parse.{digits_value};

use super::super::bytes::is_up_to;
use super::Number;
use grounds::{Ground, Refusal};

fn value_of(digits: &[u8]) -> u64
    requires written { all_ascii_digits digits.now ≡ true }
    requires fits { digits_value 10 digits.now < 2 ^ 64 }
    ensures { result ≡ digits_value 10 digits.now }
{
    let mut n = 0;
    for byte in digits {
        n = n * 10 + (*byte - b'0') as u64;
    }
    n
}

// Whether a text is 1 to so many digits without leading zero.
fn is_number(most: usize, text: &[u8]) -> bool
    ensures { result ≡ is_number most text.now }
{
    is_up_to(most, text, |byte| byte.is_ascii_digit()) && text[0] != b'0'
}

// However wide the number, no more than nineteen digits are read, which 64 bits hold.
impl<const DIGITS: usize> TryFrom<&[u8]> for Number<DIGITS> {
    type Error = Refusal;

    ghost try_from_gives = { λ text r. viewed number_text r ≡ passed FieldRule (is_number (min DIGITS 19) text.now) text.now };

    fn try_from(text: &[u8]) -> Result<Self, Refusal> {
        if !is_number(DIGITS.min(19), text) {
            return Err(Ground::FieldRule.into());
        }
        Ok(Number {
            number: value_of(text),
        })
    }
}

impl<const DIGITS: usize> Number<DIGITS> {
    // The smallest.
    pub fn first() -> Self
        ensures { number_text result ≡ codes "1" }
    {
        Number { number: 1 }
    }

    // Whether the two are the same: the call that says of the texts what `==` says of the fields.
    pub fn is_same(&self, other: &Self) -> bool
        ensures { result ≡ bytes_eq (number_text self.now) (number_text other.now) }
    {
        let number = self.number();
        number == other.number()
    }

    // The number, whose decimal digits are its text.
    pub fn number(&self) -> u64
        ensures is { decimal result ≡ number_text self.now }
        ensures bound { result ≤ max 1 (10 ^ DIGITS - 1) }
    {
        self.number
    }
}
