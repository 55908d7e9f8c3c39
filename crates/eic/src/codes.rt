// A code that is known to be sound.
ghost use Rattle.rulebook.specs.Codes.{is_sound};
ghost use Rattle.std.specs.Prelude.{◌≡◌, true};

pub mod comparing;
pub mod reading;

#[derive(Clone, Copy, PartialEq, Eq, PartialOrd, Ord)]
pub struct Code {
    bytes: [u8; 16],
    ghost sound: { is_sound bytes ≡ true },
}
