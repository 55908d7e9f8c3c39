// Names, display names and VAT numbers, read and given back.
ghost use Rattle.fields.specs.Views.{lawful_text, vat_text};
ghost use Rattle.grounds.specs.declared.Ground.TheVariants.{FieldRule};
ghost use Rattle.rulebook.specs.Fields.{is_vat};
ghost use Rattle.rulebook.specs.Texts.{passed, viewed};
ghost use Rattle.std.specs.Str.{bytes_eq};
ghost use Rattle.std.specs.Prelude.{◌≡◌, ◌≤◌, length, codes};

use super::super::bounded::Bounded;
use super::super::parties::PartyNumber;
use super::super::rules::{MinusRule, Rule};
use super::{Lawful, Vat};
use grounds::{Ground, Refusal};
use std::marker::PhantomData;

impl<const N: usize, R: Rule<N>> TryFrom<&[u8]> for Lawful<N, R> {
    type Error = Refusal;

    ghost try_from_gives = { λ text r. viewed lawful_text r ≡ passed FieldRule (R.lawful text.now) text.now };

    fn try_from(text: &[u8]) -> Result<Self, Refusal> {
        if !R::allows(text) {
            return Err(Ground::FieldRule.into());
        }
        Ok(Lawful {
            kept: Bounded::of(text),
            rule: PhantomData,
        })
    }
}

impl<const N: usize, R: Rule<N>> Lawful<N, R> {
    pub fn text(&self) -> &[u8]
        ensures is { result.now ≡ lawful_text self.now }
        ensures short { length result.now ≤ N }
    {
        self.kept.text()
    }

    // Whether the two are the same: the call that says of the texts what `==` says of the fields.
    pub fn is_same(&self, other: &Self) -> bool
        ensures { result ≡ bytes_eq (lawful_text self.now) (lawful_text other.now) }
    {
        self == other
    }
}

impl<const N: usize, R: MinusRule<N>> Lawful<N, R> {
    // A text that stands where none has been read yet.
    pub fn placeholder() -> Self
        ensures { lawful_text result ≡ codes "-" }
    {
        Lawful {
            kept: Bounded::of(b"-"),
            rule: PhantomData,
        }
    }
}

impl PartyNumber for Vat {
    ghost origin = { vat_text };

    ghost lawful = { is_vat };

    fn of(text: &[u8]) -> Result<Vat, Refusal> {
        Vat::try_from(text)
    }
}
