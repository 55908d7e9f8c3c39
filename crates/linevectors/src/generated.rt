// Generated lines, by both implementations.
use super::second;
use eic::offices::Office;
use requests::commands::read_line;
use std::process::Abort;
use std::test::Fail;

const LINES: [&[u8]; 6] = [
    b"C,2026-03-01,9QXALPHA-------9,17,1,Alpha Energy,ALPHA,,,UA123,4820000000017",
    b"U,2024-02-29,9QYNORTH-------T,9999999999,99,North zone,NORTH+_-,9QX0000000000011,9QXALPHA-------9,,",
    b"D,2099-12-31,9QXALPHA-------9",
    b"R,2000-01-01,9QYNORTH-------T",
    b"L,9QX0000000000003",
    b"C,2026-04-30,9QX0000000000003,1,9,N,N,9QYNORTH-------T,,DE123456789012,5790000432752",
];

const BYTES: &[u8] = b"0123456789ABCDLQRUXYZ-,+_ .az~\x00\x1f\x7f\xff";

// Kept: the tests of codes have this step too; to share it would need a library of its own for one line.
fn stepped(seed: u64) -> u64 {
    seed.wrapping_mul(6364136223846793005)
        .wrapping_add(1442695040888963407)
}

fn below(seed: u64, n: usize) -> usize {
    if n == 0 {
        return 0;
    }
    ((seed >> 33) % n as u64) as usize
}

fn agree(rt: &impl Abort, office: &Office, line: &[u8]) -> Result<(), Fail> {
    let refused = read_line(office, line).err();
    assert_eq!(rt; refused, second::check(b"9Q", line).err());
    if let Some(refusal) = refused {
        assert_eq!(rt; u8::from(refusal.ground), second::number(refusal.ground));
    }
    Ok(())
}

// One byte of the line is replaced by another, and what is left of it from some place on is cut off.
fn damaged(rt: &impl Abort, office: &Office, line: &[u8], seed: u64) -> Result<(), Fail> {
    let mut text = [b','; 128];
    let n = line.len();
    if n > 128 {
        return Err(Fail::new("a line of at most 128 bytes"));
    }
    text[0..n].copy_from_slice(line);
    let at = below(seed, n);
    if at < 128 {
        text[at] = BYTES[below(stepped(seed), 34) % 34];
    }
    agree(rt, office, &text[0..n])?;
    let cut = below(stepped(stepped(seed)), n);
    if cut <= 128 {
        return agree(rt, office, &text[0..cut]);
    }
    Ok(())
}

#[test]
fn lines(rt: HostRuntime) -> Result<(), Fail> {
    let Ok(office) = Office::try_from(&b"9Q"[..]) else {
        return Err(Fail::new("9Q is an office"));
    };
    let mut seed = 194;
    for line in LINES {
        assert!(rt; read_line(&office, line).is_ok());
        agree(&rt, &office, line)?;
        for _ in 0..1500 {
            seed = stepped(seed);
            damaged(&rt, &office, line, seed)?;
        }
    }
    Ok(())
}
