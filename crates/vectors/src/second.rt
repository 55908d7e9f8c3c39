// The check of codes and article numbers by another method, which shares nothing with the proved
// one but the names of the grounds: a running sum of running sums in place of products with weights, trial of every candidate in
// place of the inverse, and the check digit counted out in place of the sum.
// Kept: the tests of lines have these values, places and sums too, and to share them would need a library of public calls,
// each of which has to state its outcome by a rule of the project: then it would be the first implementation again.
use grounds::Ground;

const CHARACTERS: &[u8] = b"0123456789ABCDEFGHIJKLMNOPQRSTUVWXYZ-";

fn value(character: u8) -> Option<usize> {
    CHARACTERS.iter().position(|c| *c == character)
}

fn fits(place: usize, character: u8) -> bool {
    if place == 2 {
        return b"TVWXYZ".contains(&character);
    }
    character.is_ascii_digit()
        || character.is_ascii_uppercase()
        || (character == b'-' && place > 2 && place < 15)
}

pub(crate) fn soundness(text: &[u8]) -> Result<(), Ground> {
    if text.len() != 16 {
        return Err(Ground::CodeForm);
    }
    let mut running: usize = 0;
    let mut total: usize = 0;
    for (place, character) in text.iter().enumerate() {
        if !fits(place, *character) {
            return Err(Ground::CodeForm);
        }
        running = running.saturating_add(value(*character).unwrap_or(0)) % 37;
        total = total.saturating_add(running) % 37;
    }
    if total == 0 {
        Ok(())
    } else {
        Err(Ground::CheckCharacter)
    }
}

pub(crate) fn completed(text: &[u8; 15], last: u8) -> [u8; 16] {
    let mut code = [last; 16];
    code[0..15].copy_from_slice(text);
    code
}

// The check character of fifteen characters.
pub(crate) fn check_character(text: &[u8; 15]) -> Result<u8, Ground> {
    if !text
        .iter()
        .enumerate()
        .all(|(place, character)| fits(place, *character))
    {
        return Err(Ground::CodeForm);
    }
    (b'0'..=b'Z')
        .find(|last| soundness(&completed(text, *last)).is_ok())
        .ok_or(Ground::CheckCharacter)
}

pub(crate) fn ean(text: &[u8]) -> Result<(), Ground> {
    if text.len() != 13 {
        return Err(Ground::FieldRule);
    }
    let mut needed: u32 = 0;
    let mut last: u32 = 0;
    for (place, character) in text.iter().enumerate() {
        if !character.is_ascii_digit() {
            return Err(Ground::FieldRule);
        }
        needed = needed.saturating_add(last) % 10;
        last = u32::from(*character - b'0');
        if place % 2 == 1 && place < 12 {
            needed = needed.saturating_add(last).saturating_add(last) % 10;
        }
    }
    if (10 - needed % 10) % 10 == last {
        Ok(())
    } else {
        Err(Ground::FieldRule)
    }
}

// The one number that the gateway answers, by its documents.
// Kept: a table of its own, since `u8::from` is what it checks.
pub(crate) fn number(outcome: Result<u8, Ground>) -> u32 {
    match outcome {
        Ok(byte) => u32::from(byte),
        Err(Ground::CodeForm) => 6,
        Err(Ground::CheckCharacter) => 8,
        Err(Ground::FieldRule) => 9,
        Err(_) => u32::MAX,
    }
}
