// The gateway's three checks as C calls them, each under its own name and with the same promise.
#![tactic(auto)]

ghost use Rattle.rulebook.specs.Gateway.{check_character_number, ean_number, soundness};
ghost use Rattle.std.specs.Prelude.{◌≡◌};

// 0 for a sound code, else the number of the ground: 6 or 8.
// Kept: C calls this name, and no crate can stand on the static library that has it.
#[unsafe(no_mangle)]
pub extern "C" fn eic_soundness(bytes: &[u8]) -> u32
    ensures { result ≡ soundness bytes.now }
{
    gateway::eic_soundness(bytes)
}

// The byte of the check character of fifteen characters, else the number of the ground: 6 or 8.
// Kept: C calls this name, and no crate can stand on the static library that has it.
#[unsafe(no_mangle)]
pub extern "C" fn eic_check_character(bytes: &[u8]) -> u32
    ensures { result ≡ check_character_number bytes.now }
{
    gateway::eic_check_character(bytes)
}

// 0 for a right EAN-13, else 9.
// Kept: C calls this name, and no crate can stand on the static library that has it.
#[unsafe(no_mangle)]
pub extern "C" fn eic_ean(bytes: &[u8]) -> u32
    ensures { result ≡ ean_number bytes.now }
{
    gateway::eic_ean(bytes)
}
