// Lawful and unlawful texts of each field, at every bound.
use fields::articles::Ean;
use fields::dates::Date;
use fields::names::{DisplayName, Name, Vat};
use fields::numbers::{Function, ObjectNumber};
use fields::parties::PartyNumber;
use grounds::Refusal;
use std::test::Fail;

fn reads<'a, T: TryFrom<&'a [u8], Error = Refusal> + Drop>(text: &'a [u8]) -> bool {
    T::try_from(text).is_ok()
}

#[test]
fn dates(rt: HostRuntime) {
    for text in [
        b"2000-01-01",
        b"2099-12-31",
        b"2024-02-29",
        b"2000-02-29",
        b"2026-04-30",
        b"2026-12-31",
        b"2026-02-28",
    ] {
        assert!(rt; reads::<Date>(text));
    }
    for text in [
        b"1999-12-31",
        b"2100-01-01",
        b"2023-02-29",
        b"2026-04-31",
        b"2026-02-30",
        b"2026-00-10",
        b"2026-13-10",
        b"2026-01-00",
        b"2026-01-32",
        b"2026/01/01",
        b"20260-1-01",
        b"2026-1-001",
        b" 026-01-01",
    ] {
        assert!(rt; !reads::<Date>(text));
    }
    assert!(rt; !reads::<Date>(b""));
    assert!(rt; !reads::<Date>(b"2026-01-011"));
}

// A day is before each later one, and not before itself.
#[test]
fn order_of_days(rt: HostRuntime) -> Result<(), Fail> {
    let days = [
        b"2000-01-01",
        b"2000-01-02",
        b"2000-02-01",
        b"2001-01-01",
        b"2026-12-31",
        b"2027-01-01",
        b"2099-12-31",
    ];
    for (i, a) in days.iter().enumerate() {
        for (j, b) in days.iter().enumerate() {
            let Ok(first) = Date::try_from(a.as_slice()) else {
                return Err(Fail::new("a date"));
            };
            let Ok(second) = Date::try_from(b.as_slice()) else {
                return Err(Fail::new("a date"));
            };
            assert_eq!(rt; first.is_before(&second), i < j);
        }
    }
    Ok(())
}

#[test]
fn numbers(rt: HostRuntime) {
    assert!(rt; reads::<ObjectNumber>(b"1"));
    assert!(rt; reads::<ObjectNumber>(b"9999999999"));
    assert!(rt; !reads::<ObjectNumber>(b"10000000000"));
    assert!(rt; !reads::<ObjectNumber>(b"0"));
    assert!(rt; !reads::<ObjectNumber>(b"01"));
    assert!(rt; !reads::<ObjectNumber>(b""));
    assert!(rt; !reads::<ObjectNumber>(b"1a"));
    assert!(rt; !reads::<ObjectNumber>(b"+1"));
    assert!(rt; reads::<Function>(b"1"));
    assert!(rt; reads::<Function>(b"99"));
    assert!(rt; !reads::<Function>(b"100"));
    assert!(rt; !reads::<Function>(b"0"));
    assert!(rt; !reads::<Function>(b"09"));
}

#[test]
fn names(rt: HostRuntime) {
    let long = [b'n'; 71];
    assert!(rt; reads::<Name>(b" "));
    assert!(rt; reads::<Name>(b"a~"));
    assert!(rt; reads::<Name>(&long[0..70]));
    assert!(rt; !reads::<Name>(&long));
    assert!(rt; !reads::<Name>(b""));
    assert!(rt; !reads::<Name>(b"a,b"));
    assert!(rt; !reads::<Name>(b"\x1f"));
    assert!(rt; !reads::<Name>(b"\x7f"));
    assert!(rt; reads::<DisplayName>(b"AZ09-+_"));
    assert!(rt; reads::<DisplayName>(b"ABCDEFGHIJKLMNOP"));
    assert!(rt; !reads::<DisplayName>(b"ABCDEFGHIJKLMNOPQ"));
    assert!(rt; !reads::<DisplayName>(b""));
    assert!(rt; !reads::<DisplayName>(b"a"));
    assert!(rt; !reads::<DisplayName>(b"A B"));
}

#[test]
fn tax_and_article_numbers(rt: HostRuntime) {
    assert!(rt; Vat::read(true, b"").is_ok());
    assert!(rt; Vat::read(false, b"").is_ok());
    assert!(rt; Vat::read(true, b"UA1").is_ok());
    assert!(rt; Vat::read(true, b"DE123456789012").is_ok());
    assert!(rt; Vat::read(true, b"DE1234567890123").is_err());
    assert!(rt; Vat::read(true, b"UA").is_err());
    assert!(rt; Vat::read(true, b"U11").is_err());
    assert!(rt; Vat::read(true, b"UAa").is_err());
    assert!(rt; Vat::read(false, b"UA1").is_err());
    assert!(rt; Ean::read(true, b"").is_ok());
    assert!(rt; Ean::read(true, b"4820000000017").is_ok());
    assert!(rt; Ean::read(false, b"4820000000017").is_err());
    assert!(rt; Ean::read(true, b"4820000000018").is_err());
    assert!(rt; Ean::read(true, b"482000000001").is_err());
}
