// The two check schemes: the EIC and EAN-13.
ghost use Rattle.rulebook.specs.Articles.{ean13};
ghost use Rattle.rulebook.specs.Codes.{eic, is_sound};
ghost use Rattle.rulebook.specs.Misreading.{CatchesMisread};
ghost use Rattle.rulebook.specs.Schemes.{CatchesOne, is_right};
ghost use Rattle.std.specs.Prelude.{◌≡◌, true};
ghost use Rattle.rulebook.proofs.EanLaws;
ghost use Rattle.rulebook.proofs.EicLaws;

use super::kinds::Kind;
use super::values::value_of;
use scheme::{CheckScheme, PairScheme};

pub struct Eic;

impl CheckScheme for Eic {
    ghost rules = { eic };

    ghost short = { EicLaws.short };

    ghost positive = { EicLaws.positive };

    ghost placed = { EicLaws.placed };

    ghost below = { EicLaws.below };

    ghost distinct = { EicLaws.distinct };

    ghost telling = { EicLaws.telling };

    fn places() -> usize {
        16
    }

    fn modulus() -> u8 {
        37
    }

    fn value(place: usize, character: u8) -> Option<u8> {
        let value = value_of(character)?;
        match place {
            0 | 1 | 15 if value < 36 => Some(value),
            2 if Kind::try_from(character).is_ok() => Some(value),
            3..=14 => Some(value),
            _ => None,
        }
    }

    fn weight(place: usize) -> u8 {
        16usize.saturating_sub(place) as u8
    }
}

impl PairScheme for Eic {
    ghost prime = { EicLaws.prime };

    ghost differences = { EicLaws.differences_apart };

    ghost sums = { EicLaws.sums_apart };
}

pub struct Ean13;

impl CheckScheme for Ean13 {
    ghost rules = { ean13 };

    ghost short = { EanLaws.short };

    ghost positive = { EanLaws.positive };

    ghost placed = { EanLaws.placed };

    ghost below = { EanLaws.below };

    ghost distinct = { EanLaws.distinct };

    ghost telling = { EanLaws.telling };

    fn places() -> usize {
        13
    }

    fn modulus() -> u8 {
        10
    }

    fn value(place: usize, character: u8) -> Option<u8> {
        match character {
            b'0'..=b'9' if place < 13 => Some(character - b'0'),
            _ => None,
        }
    }

    fn weight(place: usize) -> u8 {
        if place % 2 == 0 { 1 } else { 3 }
    }
}

// Whether sixteen characters are a sound code. Where they are, no misreading of them is.
pub fn is_sound(text: &[u8]) -> bool
    ensures decides { result ≡ is_sound text.now }
    ensures misread { result ≡ true → CatchesMisread eic text.now }
{
    scheme::right_paired::<Eic>(text)
}

// Whether a text is a right EAN-13. Where it is, no text with one character replaced is.
pub fn is_ean(text: &[u8]) -> bool
    ensures decides { result ≡ is_right ean13 text.now }
    ensures replaced { result ≡ true → CatchesOne ean13 text.now }
{
    scheme::right::<Ean13>(text)
}
