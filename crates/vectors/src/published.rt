// Codes and article numbers as published, and what is said of them there or follows by hand.
use super::second;

// Sixteen characters that published lists and examples give as codes. Those with 8 are misprints:
// their check character is not the one that the published rule gives.
const CODES: [(&[u8; 16], u32); 42] = [
    (b"11XRWENET12345-2", 0),
    (b"10YDK-BALANCE-WM", 0),
    (b"11XEDFTRADING--G", 0),
    (b"16XPT-OMICLEAR-9", 0),
    (b"38Z310005001000N", 0),
    (b"10X1001A1001A094", 0),
    (b"10X1001A1001A248", 0),
    (b"10X1001A1001A264", 0),
    (b"10X1001A1001A329", 0),
    (b"10X1001A1001A345", 0),
    (b"10Y1001A1001A008", 0),
    (b"10Y1001A1001A016", 0),
    (b"10Y1001A1001A39I", 0),
    (b"10Y1001A1001A42T", 0),
    (b"10Y1001A1001A43R", 0),
    (b"10Y1001A1001A44P", 0),
    (b"10Y1001A1001A45N", 0),
    (b"10Y1001A1001A46L", 0),
    (b"10Y1001A1001A47J", 0),
    (b"10Y1001A1001A48H", 0),
    (b"10Y1001A1001A49F", 0),
    (b"10Y1001A1001A50U", 0),
    (b"17X100A100F0054X", 0),
    (b"17X100A100I014ND", 0),
    (b"17X100A100I0222K", 0),
    (b"17X100A100I023VX", 0),
    (b"17X100A100R00182", 0),
    (b"17X100A100R0056V", 0),
    (b"17X100A100R008H0", 0),
    (b"17X100A100R0128W", 0),
    (b"20Z12345678901E2", 8),
    (b"11Y1234567890123", 8),
    (b"38W310005001000I", 8),
    (b"16XPT-OMIP-----Y", 8),
    (b"17X100A100I0091C", 8),
    (b"17X100A100R0076F", 8),
    (b"17X100A100R0133Z", 8),
    (b"38T-UA-SR-00001A", 8),
    (b"38VBUTES---0011R", 8),
    (b"38VUA-LVIV-----7", 8),
    (b"38YUA-BURSHT---O", 8),
    (b"38Z-UA-SR-000010", 8),
];

// Article numbers of listed parties.
const ARTICLES: [&[u8; 13]; 8] = [
    b"5790000432752",
    b"3027800026402",
    b"7609999010125",
    b"3014331700208",
    b"3027800014706",
    b"8099999000582",
    b"3027800015000",
    b"5030704010000",
];

#[test]
fn codes(rt: HostRuntime) {
    for (code, number) in CODES {
        assert_eq!(rt; gateway::eic_soundness(code), number);
        assert_eq!(rt; second::number(second::soundness(code).map(|()| 0)), number);
    }
}

#[test]
fn articles(rt: HostRuntime) {
    for article in ARTICLES {
        assert_eq!(rt; gateway::eic_ean(article), 0);
        assert_eq!(rt; second::ean(article), Ok(()));
    }
}

// Fifteen characters whose check character is told, by a published example or by hand.
#[test]
fn check_characters(rt: HostRuntime) {
    let told: [(&[u8; 15], u32); 7] = [
        (b"11XRWENET12345-", 50),
        (b"10YDK-BALANCE-W", 77),
        (b"38Z310005001000", 78),
        (b"20Z12345678901E", 82),
        (b"11Y123456789012", 84),
        (b"38W310005001000", 83),
        (b"9QX000000000002", 8),
    ];
    for (text, answer) in told {
        assert_eq!(rt; gateway::eic_check_character(text), answer);
        assert_eq!(rt; second::number(second::check_character(text)), answer);
    }
}

// The asterisk is no check character, nor is the minus, and other lengths are no codes.
#[test]
fn unlawful(rt: HostRuntime) {
    for text in [
        b"11XRWENET12345-*",
        b"11XRWENET12345--",
        b"11ARWENET12345-2",
        b"-1XRWENET12345-2",
        b"11xRWENET12345-2",
    ] {
        assert_eq!(rt; gateway::eic_soundness(text), 6);
    }
    assert_eq!(rt; gateway::eic_soundness(b""), 6);
    assert_eq!(rt; gateway::eic_soundness(b"11XRWENET12345-21"), 6);
    assert_eq!(rt; gateway::eic_ean(b"57900004327520"), 9);
}
