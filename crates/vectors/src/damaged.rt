// Damaged and generated codes, by both implementations.
use super::second;
use eic::checks::check_character;
use eic::codes::Code;
use eic::offices::Office;
use eic::schemes::{is_ean, is_sound};
use grounds::Ground;
use std::process::Abort;
use std::test::Fail;

fn replaced(code: &[u8; 16], place: usize, byte: u8) -> [u8; 16] {
    let mut text = *code;
    if place < 16 {
        text[place] = byte;
    }
    text
}

// Every byte at every place: the two agree, and only the code itself is sound.
fn replaced_everywhere(rt: &impl Abort, code: &[u8; 16]) {
    for place in 0..16 {
        for byte in 0..=255 {
            let text = replaced(code, place, byte);
            assert_eq!(rt;
                gateway::eic_soundness(&text),
                second::number(second::soundness(&text).map(|()| 0))
            );
            assert_eq!(rt; is_sound(&text), text == *code);
        }
    }
}

#[test]
fn one_replaced(rt: HostRuntime) {
    replaced_everywhere(&rt, b"11XRWENET12345-2");
    replaced_everywhere(&rt, b"10YDK-BALANCE-WM");
    replaced_everywhere(&rt, b"9QX0000000000011");
}

// Any two unlike characters exchanged: the text is not sound.
#[test]
fn two_exchanged(rt: HostRuntime) {
    let code = b"11XRWENET12345-2";
    for i in 0..16usize {
        for j in 0..16usize {
            let text = replaced(&replaced(code, i, code[j]), j, code[i]);
            assert_eq!(rt; is_sound(&text), text == *code);
            assert_eq!(rt; second::soundness(&text).is_ok(), text == *code);
        }
    }
}

#[test]
fn articles_replaced(rt: HostRuntime) {
    let article = b"4820000000017";
    for place in 0..13usize {
        for byte in 0..=255 {
            let mut text = *article;
            text[place] = byte;
            assert_eq!(rt;
                gateway::eic_ean(&text),
                second::number(second::ean(&text).map(|()| 0))
            );
            assert_eq!(rt; is_ean(&text), text == *article);
        }
    }
}

// Kept: the tests of lines have this step too; to share it would need a library of its own for one line.
fn stepped(seed: u64) -> u64 {
    seed.wrapping_mul(6364136223846793005)
        .wrapping_add(1442695040888963407)
}

fn picked(seed: u64, from: &[u8]) -> u8 {
    if from.is_empty() {
        return 0;
    }
    let n = from.len() as u64;
    let at = (seed >> 33) % n;
    from[at as usize]
}

// Fifteen characters, each lawful at its place.
fn generated(seed: u64) -> [u8; 15] {
    let mut text = [b'0'; 15];
    let mut s = seed;
    for place in 0..15usize {
        s = stepped(s);
        text[place] = match place {
            0 | 1 => picked(s, b"0123456789ABCDEFGHIJKLMNOPQRSTUVWXYZ"),
            2 => picked(s, b"TVWXYZ"),
            _ => picked(s, b"0123456789ABCDEFGHIJKLMNOPQRSTUVWXYZ-"),
        };
    }
    text
}

// Each generated text takes the check character that trial finds, and the code is then read by
// both; or trial finds none, and the refusal is on ground 8.
fn completed_by_both(rt: &impl Abort, text: &[u8; 15]) {
    let number = gateway::eic_check_character(text);
    assert_eq!(rt; number, second::number(second::check_character(text)));
    if let Ok(last) = check_character(text) {
        let code = second::completed(text, last);
        assert!(rt; is_sound(&code));
        assert_eq!(rt; second::soundness(&code), Ok(()));
    }
}

#[test]
fn completed(rt: HostRuntime) {
    let mut seed = 2026;
    for _ in 0..2000 {
        seed = stepped(seed);
        completed_by_both(&rt, &generated(seed));
    }
}

// A code is read for its own office alone, and the office is looked at before the check character.
#[test]
fn read_for_an_office(rt: HostRuntime) -> Result<(), Fail> {
    let Ok(office) = Office::try_from(&b"9Q"[..]) else {
        return Err(Fail::new("9Q is an office"));
    };
    assert!(rt; Code::read_for(&office, b"9QXALPHA-------9").is_ok());
    assert_eq!(rt;
        ground_of(&office, b"9RXALPHA-------9"),
        Some(Ground::OtherOffice)
    );
    assert_eq!(rt;
        ground_of(&office, b"9QXALPHB-------9"),
        Some(Ground::CheckCharacter)
    );
    assert_eq!(rt;
        ground_of(&office, b"9QXALPHa-------9"),
        Some(Ground::CodeForm)
    );
    assert!(rt; Office::try_from(&b"9q"[..]).is_err());
    assert!(rt; Office::try_from(&b"9"[..]).is_err());
    assert!(rt; Office::try_from(&b"9QQ"[..]).is_err());
    Ok(())
}

fn ground_of(office: &Office, text: &[u8]) -> Option<Ground> {
    Code::read_for(office, text)
        .err()
        .map(|refusal| refusal.ground)
}
