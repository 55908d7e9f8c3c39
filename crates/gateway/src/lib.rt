// The three checks that a gateway written in C calls, each answered by one number. The crate gateway_c exports them to C.
#![tactic(auto)]

ghost use Rattle.grounds.specs.Grounds.{number_of};
ghost use Rattle.rulebook.specs.Gateway.{check_character_number, ean_number, soundness};
ghost use Rattle.std.specs.Prelude.{◌≡◌};

use eic::checks::check_character;
use eic::codes::Code;
use eic::schemes::is_ean;
use grounds::Ground;

// The number of a ground, as C is told it.
fn number_of(ground: Ground) -> u32
    ensures { result ≡ number_of ground }
{
    u32::from(u8::from(ground))
}

// 0 for a sound code, else the number of the ground: 6 or 8.
// Kept: C takes one number, a refusal's too; it is made here, since no test can stand on the library that C links.
pub fn eic_soundness(bytes: &[u8]) -> u32
    ensures { result ≡ soundness bytes.now }
{
    Code::try_from(bytes).map_or_else(|refusal| number_of(refusal.ground), |_| 0)
}

// The byte of the check character of fifteen characters, else the number of the ground: 6 or 8.
// Kept: C takes one number, a refusal's too; it is made here, since no test can stand on the library that C links.
pub fn eic_check_character(bytes: &[u8]) -> u32
    ensures { result ≡ check_character_number bytes.now }
{
    check_character(bytes).map_or_else(|refusal| number_of(refusal.ground), u32::from)
}

// 0 for a right EAN-13, else 9.
// Kept: C takes one number, a refusal's too; it is made here, since no test can stand on the library that C links.
pub fn eic_ean(bytes: &[u8]) -> u32
    ensures { result ≡ ean_number bytes.now }
{
    if is_ean(bytes) {
        0
    } else {
        number_of(Ground::FieldRule)
    }
}
