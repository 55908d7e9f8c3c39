// Names, display names and VAT numbers.
ghost use Rattle.fields.specs.Bounded.{bounded_text};
ghost use Rattle.std.specs.Prelude.{◌≡◌, true};

use super::bounded::Bounded;
use super::rules::{DisplayRule, NameRule, Rule, VatRule};
use std::alloc::AllocError;
use std::marker::PhantomData;

pub mod reading;

// A text of at most N bytes, lawful by the rule R.
#[derive_where(PartialEq, Eq)]
pub struct Lawful<const N: usize, R: Rule<N>> {
    kept: Bounded<N>,
    rule: PhantomData<R>,
    ghost lawful: { R.lawful (bounded_text kept) ≡ true },
}

pub type Name = Lawful<70, NameRule>;

pub type DisplayName = Lawful<16, DisplayRule>;

pub type Vat = Lawful<14, VatRule>;

// Kept: tried, and no proof is made of a derived `Clone` and `Copy` on a generic struct with a ghost
// field.
impl<const N: usize, R: Rule<N>> Copy for Lawful<N, R> {}

impl<const N: usize, R: Rule<N>> Clone for Lawful<N, R> {
    ghost is_clone = { λ x y. y ≡ x };

    ghost is_infallible = { λ _. Unit {0} };

    fn clone(&self) -> Result<Self, AllocError> {
        Ok(Lawful {
            kept: self.kept,
            rule: PhantomData,
        })
    }
}
