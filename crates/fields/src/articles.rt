// Article numbers.
ghost use Rattle.rulebook.specs.Articles.{ean13};
ghost use Rattle.rulebook.specs.Schemes.{is_right};
ghost use Rattle.std.specs.Prelude.{◌≡◌, true};

pub mod reading;

// A right EAN-13.
#[derive(Clone, Copy)]
pub struct Ean {
    digits: [u8; 13],
    ghost right: { is_right ean13 digits ≡ true },
}
