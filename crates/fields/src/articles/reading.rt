// Article numbers, read and given back.
ghost use Rattle.fields.specs.Views.{ean_text};
ghost use Rattle.grounds.specs.declared.Ground.TheVariants.{FieldRule};
ghost use Rattle.rulebook.specs.Articles.{ean13};
ghost use Rattle.rulebook.specs.Schemes.{is_right};
ghost use Rattle.rulebook.specs.Texts.{passed, viewed};
ghost use Rattle.std.specs.Prelude.{◌≡◌, ◌≤◌, length};

use super::super::parties::PartyNumber;
use super::Ean;
use eic::schemes::is_ean;
use grounds::{Ground, Refusal};

impl TryFrom<&[u8]> for Ean {
    type Error = Refusal;

    ghost try_from_gives = { λ text r. viewed ean_text r ≡ passed FieldRule (is_right ean13 text.now) text.now };

    fn try_from(text: &[u8]) -> Result<Ean, Refusal> {
        if !is_ean(text) {
            return Err(Ground::FieldRule.into());
        }
        let mut digits = [0; 13];
        digits.copy_from_slice(text);
        Ok(Ean { digits })
    }
}

impl PartyNumber for Ean {
    ghost origin = { ean_text };

    ghost lawful = { is_right ean13 };

    fn of(text: &[u8]) -> Result<Ean, Refusal> {
        Ean::try_from(text)
    }
}

impl Ean {
    pub fn text(&self) -> &[u8]
        ensures is { result.now ≡ ean_text self.now }
        ensures short { length result.now ≤ 13 }
    {
        &self.digits[..]
    }
}
