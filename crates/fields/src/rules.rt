// The rules of names, display names and VAT numbers.
ghost use Rattle.fields.specs.Fits.{display_fits, name_fits, vat_fits};
ghost use Rattle.rulebook.specs.Fields.{is_display, is_name, is_vat};
ghost use Rattle.rulebook.specs.Texts.{Text};
ghost use Rattle.std.specs.Prelude.{◌≡◌, ◌≤◌, Bool, true, length, codes, refl};
ghost use Rattle.std.proofs.Common.{lit≤};

use super::bytes::is_up_to;

// Which texts are lawful. Each of them has at most N bytes.
pub trait Rule<const N: usize> {
    ghost lawful: { Text → Bool };

    fn allows(text: &[u8]) -> bool
        ensures { result ≡ lawful text.now };

    ghost fits: { (t : Text) → lawful t ≡ true → length t ≤ N };

    ghost few: { N ≤ 255 };
}

// A rule by which a minus alone is lawful.
pub trait MinusRule<const N: usize>: Rule<N> {
    ghost minus: { Self.Rule.lawful (codes "-") ≡ true };
}

// 1 to 70 bytes from 32 to 126, no comma.
pub struct NameRule;

impl Rule<70> for NameRule {
    ghost lawful = { is_name };

    ghost fits = { name_fits };

    ghost few = { lit≤ tt };

    fn allows(text: &[u8]) -> bool {
        is_up_to(70, text, |byte| 32 <= byte && byte <= 126 && byte != b',')
    }
}

impl MinusRule<70> for NameRule {
    ghost minus = { refl };
}

// 1 to 16 of A to Z, 0 to 9, minus, plus, underscore.
pub struct DisplayRule;

impl Rule<16> for DisplayRule {
    ghost lawful = { is_display };

    ghost fits = { display_fits };

    ghost few = { lit≤ tt };

    fn allows(text: &[u8]) -> bool {
        is_up_to(16, text, |byte| {
            matches!(byte, b'0'..=b'9' | b'A'..=b'Z' | b'-' | b'+' | b'_')
        })
    }
}

impl MinusRule<16> for DisplayRule {
    ghost minus = { refl };
}

// Two capitals, then 1 to 12 capitals or digits.
pub struct VatRule;

impl Rule<14> for VatRule {
    ghost lawful = { is_vat };

    ghost fits = { vat_fits };

    ghost few = { lit≤ tt };

    fn allows(text: &[u8]) -> bool {
        text.len() >= 3
            && is_up_to(
                14,
                text,
                |byte| byte.is_ascii_digit() || byte.is_ascii_uppercase(),
            )
            && text[0].is_ascii_uppercase()
            && text[1].is_ascii_uppercase()
    }
}
