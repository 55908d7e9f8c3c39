// Schemes of check characters: what one is, the one check for all of them, and what each catches.
#![tactic(auto)]

ghost use Rattle.std.specs.Prelude.{◌≡◌, ◌<◌, ◌≤◌, true, false, length, MatchOption, MatchResult};
ghost use Rattle.rulebook.specs.Misreading.{CatchesMisread};
ghost use Rattle.rulebook.specs.Schemes.{Below, CatchesOne, DifferencesApart, Distinct, Placed, PrimeModulus, Scheme, SumsApart, Telling, is_right, weighed};

// A scheme of check characters. Places are counted from 0.
pub trait CheckScheme {
    // Its length, modulus, lawful characters, values and weights.
    ghost rules: { Scheme };

    fn places() -> usize
        ensures { result ≡ rules.places };

    fn modulus() -> u8
        ensures { result ≡ rules.modulus };

    // The value of a character that is lawful at the place.
    fn value(place: usize, character: u8) -> Option<u8>
        ensures { MatchOption result (rules.lawful place character ≡ false) (λ v. (rules.lawful place character ≡ true) × (v ≡ rules.value character)) };

    fn weight(place: usize) -> u8
        ensures { result ≡ rules.weight place };

    // It has few places, so that a weighted sum fits 32 bits.
    ghost short: { rules.places < 256 };

    ghost positive: { 0 < rules.modulus };

    ghost placed: { Placed rules };

    ghost below: { Below rules };

    ghost distinct: { Distinct rules };

    ghost telling: { Telling rules };
}

// A scheme that catches errors in two characters too.
pub trait PairScheme: CheckScheme {
    ghost prime: { PrimeModulus Self.CheckScheme.rules };

    ghost differences: { DifferencesApart Self.CheckScheme.rules };

    ghost sums: { SumsApart Self.CheckScheme.rules };
}

// The weighted sum of a text whose characters are lawful at their places, else the position,
// counted from 1, of the first that is not.
pub fn weigh<S: CheckScheme>(text: &[u8]) -> Result<u32, usize>
    ensures is { result ≡ weighed S.CheckScheme.rules text.now }
    ensures bound { MatchResult result (λ _. length text.now < 256) (λ p. (0 < p) × (p ≤ length text.now)) }
{
    let mut sum: u32 = 0;
    for (i, character) in text.iter().enumerate() {
        let value = S::value(i, *character).ok_or(i + 1)?;
        sum += S::weight(i) as u32 * value as u32;
    }
    Ok(sum)
}

// Whether a text is right by the scheme. Where it is, no text with one character replaced is.
pub fn right<S: CheckScheme>(text: &[u8]) -> bool
    ensures decides { result ≡ is_right S.CheckScheme.rules text.now }
    ensures catches { result ≡ true → CatchesOne S.CheckScheme.rules text.now }
{
    text.len() == S::places() && weigh::<S>(text).is_ok_and(|sum| sum % S::modulus() as u32 == 0)
}

// Whether a text is right by a scheme that catches errors in two characters. Where it is, no
// misreading of it is: one character replaced, two exchanged, or two equal ones both replaced.
pub fn right_paired<S: PairScheme>(text: &[u8]) -> bool
    ensures decides { result ≡ is_right S.CheckScheme.rules text.now }
    ensures catches { result ≡ true → CatchesMisread S.CheckScheme.rules text.now }
{
    right::<S>(text)
}
