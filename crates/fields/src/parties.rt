// The numbers that a party alone may have.
ghost use Rattle.fields.specs.Texts.{text_or};
ghost use Rattle.grounds.specs.declared.Ground.TheVariants.{FieldRule};
ghost use Rattle.rulebook.specs.Texts.{Text, passed, unless_blank, viewed};
ghost use Rattle.std.specs.Prelude.{◌≡◌, ◌&&◌, Bool};

use grounds::{Ground, Refusal};

pub trait PartyNumber: Sized {
    // The text that a number was read from, and which texts are lawful.
    ghost origin: { Self → Text };

    ghost lawful: { Text → Bool };

    // Kept: a bound that every lifetime of the text converts, `for<'a> Self: TryFrom<&'a [u8]>`, is no plainer than a call.
    fn of(text: &[u8]) -> Result<Self, Refusal>
        ensures { viewed origin result ≡ passed FieldRule (lawful text.now) text.now };

    // None for a blank; a number is lawful for a party alone.
    // Kept: the conversion is no plainer, since it takes more than a text: `Option::<Vat>::try_from((party, text))`.
    fn read(party: bool, text: &[u8]) -> Result<Option<Self>, Refusal>
        ensures { viewed (text_or origin) result ≡ unless_blank text.now (passed FieldRule (party && lawful text.now) text.now) }
    {
        if text.is_empty() {
            return Ok(None);
        }
        if !party {
            return Err(Ground::FieldRule.into());
        }
        Ok(Some(Self::of(text)?))
    }
}
