// Whole lines: the longest, one byte more, and their answers.
use answers::writing::{write_record, write_refusal};
use eic::offices::Office;
use grounds::{Ground, Refusal};
use records::{Record, Status};
use requests::commands::{Command, Dated, read_line};
use std::test::Fail;

// 194 bytes.
const LONGEST: &[u8] =
    b"C,2026-03-05,9QX0000000000011,9999999999,99,NNNNNNNNNNNNNNNNNNNNNNNNNNNNNNNNNNNNNNNNNNNNNNNNNNNNNNNNNNNNNNNNNNNNNN,ABCDEFGHIJKLMNOP,9QXALPHA-------9,9QXALPHA-------9,UA123456789012,4820000000017";

// 197 bytes.
const ANSWER: &[u8] =
    b"OK,9QX0000000000011,I,2026-03-05,9999999999,99,NNNNNNNNNNNNNNNNNNNNNNNNNNNNNNNNNNNNNNNNNNNNNNNNNNNNNNNNNNNNNNNNNNNNNN,ABCDEFGHIJKLMNOP,9QXALPHA-------9,9QXALPHA-------9,UA123456789012,4820000000017";

fn created(line: &[u8], status: Status) -> Option<Record> {
    let Ok(office) = Office::try_from(&b"9Q"[..]) else {
        return None;
    };
    let Ok(command) = read_line(&office, line) else {
        return None;
    };
    match command {
        Command::Create(Dated { date, code }, registration) => Some(Record {
            code,
            status,
            date,
            registration,
        }),
        _ => None,
    }
}

#[test]
fn longest_line(rt: HostRuntime) -> Result<(), Fail> {
    assert_eq!(rt; LONGEST.len(), 194);
    assert_eq!(rt; ANSWER.len(), 197);
    let Some(held) = created(LONGEST, Status::Inactive) else {
        return Err(Fail::new("a creation"));
    };
    let mut buffer = [b'#'; 200];
    let n = write_record(&held, &mut buffer);
    assert_eq!(rt; n, 197);
    assert!(rt; &buffer[0..197] == ANSWER);
    assert!(rt; &buffer[197..200] == b"###".as_slice());
    assert!(rt; held.sign(b"closed") == b"closed".as_slice());
    Ok(())
}

#[test]
fn one_byte_more(rt: HostRuntime) -> Result<(), Fail> {
    let mut line = [b'7'; 195];
    line[0..194].copy_from_slice(LONGEST);
    let Ok(office) = Office::try_from(&b"9Q"[..]) else {
        return Err(Fail::new("9Q is an office"));
    };
    match read_line(&office, &line) {
        Ok(_) => Err(Fail::new("a line of 195 bytes")),
        Err(refusal) => {
            assert_eq!(rt; refusal.ground, Ground::LineLength);
            Ok(())
        },
    }
}

// The answer to a granted creation as it is documented, and the sign of an active record.
#[test]
fn granted(rt: HostRuntime) -> Result<(), Fail> {
    let line = b"C,2026-03-01,9QXALPHA-------9,17,1,Alpha Energy,ALPHA,,,UA123,4820000000017";
    let Some(held) = created(line, Status::Active) else {
        return Err(Fail::new("a creation"));
    };
    let mut buffer = [0; 256];
    let n = write_record(&held, &mut buffer);
    assert!(rt; n == 78);
    assert!(rt;
        &buffer[0..78]
            == b"OK,9QXALPHA-------9,A,2026-03-01,17,1,Alpha Energy,ALPHA,,,UA123,4820000000017".as_slice()
    );
    assert!(rt; buffer[78] == 0);
    assert!(rt; held.sign(b"closed") == b"ALPHA".as_slice());
    Ok(())
}

// A buffer of 199 bytes is left as it was.
#[test]
fn short_buffer(rt: HostRuntime) -> Result<(), Fail> {
    let Some(held) = created(LONGEST, Status::Active) else {
        return Err(Fail::new("a creation"));
    };
    let mut buffer = [b'#'; 199];
    assert_eq!(rt; write_record(&held, &mut buffer), 0);
    assert!(rt; buffer == [b'#'; 199]);
    let refusal = Refusal {
        ground: Ground::CodeForm,
        field: 11,
        position: 16,
    };
    assert_eq!(rt; write_refusal(&refusal, &mut buffer), 0);
    assert!(rt; buffer == [b'#'; 199]);
    let mut long = [b'#'; 200];
    assert_eq!(rt; write_refusal(&refusal, &mut long), 10);
    assert!(rt; &long[0..11] == b"NO,6,11,16#".as_slice());
    Ok(())
}
