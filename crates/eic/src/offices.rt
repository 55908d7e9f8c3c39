// The two characters of an issuing office.
ghost use Rattle.rulebook.specs.Codes.{is_office};
ghost use Rattle.std.specs.Prelude.{◌≡◌, true};

pub mod reading;

#[derive(Clone, Copy)]
pub struct Office {
    characters: [u8; 2],
    ghost formed: { is_office characters ≡ true },
}
