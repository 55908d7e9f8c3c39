// The values of the 37 characters.
ghost use Rattle.eic.specs.Views.{value_if_any};
ghost use Rattle.rulebook.specs.Codes.{character_of, value_of};
ghost use Rattle.std.specs.Prelude.{◌≡◌, ◌<◌};

// Stands in the table for a character that has no value.
// Kept: a number and no option, since a table of options is looked up at twice the cost.
const NO_VALUE: u8 = 255;

const FIRST: u8 = b'-';

const END: u8 = b'Z' + 1;

// The value of each character from FIRST up to END, if it has one.
const VALUES: [u8; 46] = [
    36, // -
    NO_VALUE, // .
    NO_VALUE, // /
    0, // 0
    1, // 1
    2, // 2
    3, // 3
    4, // 4
    5, // 5
    6, // 6
    7, // 7
    8, // 8
    9, // 9
    NO_VALUE, // :
    NO_VALUE, // ;
    NO_VALUE, // <
    NO_VALUE, // =
    NO_VALUE, // >
    NO_VALUE, // ?
    NO_VALUE, // @
    10, // A
    11, // B
    12, // C
    13, // D
    14, // E
    15, // F
    16, // G
    17, // H
    18, // I
    19, // J
    20, // K
    21, // L
    22, // M
    23, // N
    24, // O
    25, // P
    26, // Q
    27, // R
    28, // S
    29, // T
    30, // U
    31, // V
    32, // W
    33, // X
    34, // Y
    35, // Z
];

// What the table has of a character.
fn table_value(character: u8) -> u8
    ensures { result ≡ value_of character }
{
    match character {
        FIRST..END => VALUES[(character - FIRST) as usize],
        _ => NO_VALUE,
    }
}

// The value of a character, if it has one.
pub(crate) fn value_of(character: u8) -> Option<u8>
    ensures { result ≡ value_if_any character }
{
    match table_value(character) {
        NO_VALUE => None,
        value => Some(value),
    }
}

// The character that has this value in the table.
pub(crate) fn character_of(value: u8) -> u8
    requires { value < 37 }
    ensures { result ≡ character_of value }
{
    let Some(found) = (FIRST..END).find(|character| value_of(*character) == Some(value)) else {
        unreachable()
    };
    found
}
