// The rules of a request line by another method, which shares nothing with the proved ones but the type of refusals: fields
// are found by counting commas, days come from a table, numbers are counted by their length, and a
// code is checked by a running sum of running sums.
use grounds::{Ground, Refusal};

// Kept: refusals are written out, since `Refusal::new`, `from` and `in_field` are of the proved code.
fn refused(ground: Ground, field: u8, position: u8) -> Refusal {
    Refusal {
        ground,
        field,
        position,
    }
}

// The refusal, found in the field of this number.
fn placed(refusal: Refusal, field: u8) -> Refusal {
    refused(refusal.ground, field, refusal.position)
}

// The field after so many commas.
// Kept: commas are counted by hand, since `line.split(|b| *b == b',').nth(after)` is how the proved code goes.
fn field(line: &[u8], after: usize) -> &[u8] {
    let mut start = 0;
    let mut commas: usize = 0;
    for (i, byte) in line.iter().enumerate() {
        if *byte == b',' {
            if commas == after && start <= i {
                return &line[start..i];
            }
            commas = commas.saturating_add(1);
            start = i + 1;
        }
    }
    if commas == after && start <= line.len() {
        &line[start..]
    } else {
        b""
    }
}

fn commas(line: &[u8]) -> usize {
    line.iter().filter(|byte| **byte == b',').count()
}

// Kept: the tests of codes have these values, places and sums too, and to share them would need a library of public calls,
// each of which has to state its outcome by a rule of the project: then it would be the first implementation again.
fn value(character: u8) -> Option<usize> {
    b"0123456789ABCDEFGHIJKLMNOPQRSTUVWXYZ-"
        .iter()
        .position(|c| *c == character)
}

fn fits(place: usize, character: u8) -> bool {
    match place {
        2 => b"TVWXYZ".contains(&character),
        0 | 1 | 15 => b"0123456789ABCDEFGHIJKLMNOPQRSTUVWXYZ".contains(&character),
        _ => b"0123456789ABCDEFGHIJKLMNOPQRSTUVWXYZ-".contains(&character),
    }
}

fn code(office: &[u8; 2], text: &[u8]) -> Result<(), Refusal> {
    if text.len() != 16 {
        return Err(refused(Ground::CodeForm, 0, 0));
    }
    let mut running: usize = 0;
    let mut total: usize = 0;
    for ((place, character), position) in text.iter().enumerate().zip(1..=16) {
        if !fits(place, *character) {
            return Err(refused(Ground::CodeForm, 0, position));
        }
        running = running.saturating_add(value(*character).unwrap_or(0)) % 37;
        total = total.saturating_add(running) % 37;
    }
    if !text.starts_with(office) {
        return Err(refused(Ground::OtherOffice, 0, 0));
    }
    if total != 0 {
        return Err(refused(Ground::CheckCharacter, 0, 0));
    }
    Ok(())
}

fn code_or_blank(office: &[u8; 2], text: &[u8]) -> Result<(), Refusal> {
    if text.is_empty() {
        Ok(())
    } else {
        code(office, text)
    }
}

fn all_in(set: &[u8], text: &[u8]) -> bool {
    text.iter().all(|byte| set.contains(byte))
}

fn two(text: &[u8], at: usize) -> Option<usize> {
    match text.get(at..)? {
        [tens @ b'0'..=b'9', ones @ b'0'..=b'9', ..] => {
            Some(usize::from(*tens - b'0') * 10 + usize::from(*ones - b'0'))
        }
        _ => None,
    }
}

fn is_date(text: &[u8]) -> bool {
    if text.len() != 10
        || text[0] != b'2'
        || text[1] != b'0'
        || text[4] != b'-'
        || text[7] != b'-'
    {
        return false;
    }
    let (Some(year), Some(month), Some(day)) = (two(text, 2), two(text, 5), two(text, 8)) else {
        return false;
    };
    let days: [usize; 13] = [0, 31, 28, 31, 30, 31, 30, 31, 31, 30, 31, 30, 31];
    if month > 12 || day == 0 {
        return false;
    }
    if month == 2 && year % 4 == 0 {
        day <= 29
    } else {
        day <= days[month]
    }
}

fn is_number(most: usize, text: &[u8]) -> bool {
    if text.is_empty() || text.len() > most {
        return false;
    }
    all_in(b"0123456789", text) && text[0] > b'0'
}

fn is_name(text: &[u8]) -> bool {
    !text.is_empty() && text.len() < 71 && text.iter().all(|byte| (b' '..=b'~').contains(byte))
}

fn is_display(text: &[u8]) -> bool {
    !text.is_empty() && text.len() < 17 && all_in(b"ABCDEFGHIJKLMNOPQRSTUVWXYZ0123456789-+_", text)
}

fn is_vat(text: &[u8]) -> bool {
    if text.len() < 3 || text.len() > 14 {
        return false;
    }
    let capitals = b"ABCDEFGHIJKLMNOPQRSTUVWXYZ";
    all_in(capitals, &text[0..2]) && all_in(b"ABCDEFGHIJKLMNOPQRSTUVWXYZ0123456789", &text[2..])
}

fn is_ean(text: &[u8]) -> bool {
    if text.len() != 13 || !all_in(b"0123456789", text) {
        return false;
    }
    let mut sum: u32 = 0;
    for (place, digit) in text.iter().enumerate() {
        let d = u32::from(*digit).saturating_sub(48);
        sum = sum.saturating_add(d);
        if place % 2 == 1 {
            sum = sum.saturating_add(d).saturating_add(d);
        }
    }
    sum % 10 == 0
}

fn rule(field: u8, kept: bool) -> Result<(), Refusal> {
    if kept {
        Ok(())
    } else {
        Err(refused(Ground::FieldRule, field, 0))
    }
}

// Fields 4 to 11.
fn registration(office: &[u8; 2], line: &[u8], party: bool) -> Result<(), Refusal> {
    rule(4, is_number(10, field(line, 3)))?;
    rule(5, is_number(2, field(line, 4)))?;
    rule(6, is_name(field(line, 5)))?;
    rule(7, is_display(field(line, 6)))?;
    code_or_blank(office, field(line, 7)).map_err(|refusal| placed(refusal, 8))?;
    code_or_blank(office, field(line, 8)).map_err(|refusal| placed(refusal, 9))?;
    let vat = field(line, 9);
    rule(10, vat.is_empty() || (party && is_vat(vat)))?;
    let ean = field(line, 10);
    rule(11, ean.is_empty() || (party && is_ean(ean)))
}

fn dated(office: &[u8; 2], line: &[u8], long: bool) -> Result<(), Refusal> {
    if commas(line) != if long { 10 } else { 2 } {
        return Err(refused(Ground::FieldCount, 0, 0));
    }
    if !is_date(field(line, 1)) {
        return Err(refused(Ground::Date, 2, 0));
    }
    let text = field(line, 2);
    code(office, text).map_err(|refusal| placed(refusal, 3))?;
    if long {
        registration(office, line, text.get(2) == Some(&b'X'))?;
    }
    Ok(())
}

// Whether a line is lawful for an office, or why not.
pub(crate) fn check(office: &[u8; 2], line: &[u8]) -> Result<(), Refusal> {
    if line.is_empty() || line.len() > 194 {
        return Err(refused(Ground::LineLength, 0, 0));
    }
    match field(line, 0) {
        b"C" | b"U" => dated(office, line, true),
        b"D" | b"R" => dated(office, line, false),
        b"L" if commas(line) == 1 => {
            code(office, field(line, 1)).map_err(|refusal| placed(refusal, 2))
        }
        b"L" => Err(refused(Ground::FieldCount, 0, 0)),
        _ => Err(refused(Ground::Action, 1, 0)),
    }
}

// A ground's number, by the documents.
// Kept: a table of its own, since `u8::from` is what it checks.
pub(crate) fn number(ground: Ground) -> u8 {
    match ground {
        Ground::LineLength => 2,
        Ground::Action => 3,
        Ground::FieldCount => 4,
        Ground::Date => 5,
        Ground::CodeForm => 6,
        Ground::OtherOffice => 7,
        Ground::CheckCharacter => 8,
        Ground::FieldRule => 9,
        _ => 0,
    }
}
