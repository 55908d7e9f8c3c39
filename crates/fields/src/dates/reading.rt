// Dates, read, given back and compared.
ghost use Rattle.std.specs.Prelude.{◌≡◌, ◌+◌, ◌-◌, ◌*◌, ◌≤◌, ◌&&◌, true, false, length, codes, MatchOption};
ghost use Rattle.fields.specs.Views.{date_text};
ghost use Rattle.rulebook.specs.Codes.{is_digit};
ghost use Rattle.rulebook.specs.Dates.{is_date_form, is_day, is_earlier, is_leap, month_days, number_at, read_date, year_of};
ghost use Rattle.rulebook.specs.Texts.{viewed};

use super::Date;
use grounds::{Ground, Refusal};

fn is_leap(year: u16) -> bool
    ensures { result ≡ is_leap year }
{
    (year % 4 == 0 && year % 100 != 0) || year % 400 == 0
}

fn month_days(year: u16, month: u8) -> u8
    ensures { result ≡ month_days year month }
{
    match month {
        2 => { if is_leap(year) { 29 } else { 28 } }
        4 | 6 | 9 | 11 => 30,
        _ => 31,
    }
}

fn is_day(year: u16, month: u8, day: u8) -> bool
    ensures { result ≡ is_day year month day }
{
    year >= 2000
        && year <= 2099
        && month >= 1
        && month <= 12
        && day >= 1
        && day <= month_days(year, month)
}

// What is written at the places of year, month and day.
#[derive(Clone, Copy)]
struct Written {
    year: u16,
    month: u8,
    day: u8,
}

fn two_digits(tens: u8, ones: u8) -> Option<u8>
    ensures { MatchOption result ((is_digit tens && is_digit ones) ≡ false) (λ n. ((is_digit tens && is_digit ones) ≡ true) × (n ≡ (tens - 48) * 10 + (ones - 48)) × (n ≤ 99)) }
{
    if !tens.is_ascii_digit() || !ones.is_ascii_digit() {
        return None;
    }
    Some((tens - b'0') * 10 + (ones - b'0'))
}

fn read_written(text: &[u8]) -> Option<Written>
    ensures { MatchOption result (is_date_form text.now ≡ false) (λ n. (is_date_form text.now ≡ true) × (n.year ≡ year_of text.now) × (n.month ≡ number_at text.now 5) × (n.day ≡ number_at text.now 8)) }
{
    let [y1, y2, y3, y4, b'-', m1, m2, b'-', d1, d2] = text else {
        return None;
    };
    let century = two_digits(*y1, *y2)?;
    let year = two_digits(*y3, *y4)?;
    Some(Written {
        year: century as u16 * 100 + year as u16,
        month: two_digits(*m1, *m2)?,
        day: two_digits(*d1, *d2)?,
    })
}

fn digit(n: u16) -> u8
    requires { n ≤ 9 }
    ensures { result ≡ 48 + n }
{
    b'0' + n as u8
}

impl TryFrom<&[u8]> for Date {
    type Error = Refusal;

    ghost try_from_gives = { λ text r. viewed date_text r ≡ read_date text.now };

    fn try_from(text: &[u8]) -> Result<Date, Refusal> {
        let Written { year, month, day } = read_written(text).ok_or(Ground::Date)?;
        if !is_day(year, month, day) {
            return Err(Ground::Date.into());
        }
        Ok(Date { year, month, day })
    }
}

impl Date {
    // The first day that can be written.
    pub fn first() -> Date
        ensures { date_text result ≡ codes "2000-01-01" }
    {
        Date {
            year: 2000,
            month: 1,
            day: 1,
        }
    }

    // YYYY-MM-DD
    // Kept: no Display, since it writes str and an answer is bytes: `write!(f, "{:04}-{:02}-{:02}", self.year, ..)`.
    pub fn text(&self) -> [u8; 10]
        ensures { result ≡ date_text self.now }
    {
        let y = self.year;
        let m = self.month;
        let d = self.day;
        [
            digit(y / 1000),
            digit(y / 100 % 10),
            digit(y / 10 % 10),
            digit(y % 10),
            b'-',
            b'0' + m / 10,
            b'0' + m % 10,
            b'-',
            b'0' + d / 10,
            b'0' + d % 10,
        ]
    }

    // Whether its day lies before the other's.
    // Kept: `date < held.date` at a call is no plainer, since it names no rule of the office.
    pub fn is_before(&self, other: &Date) -> bool
        ensures { result ≡ is_earlier (date_text self.now) (date_text other.now) }
    {
        self < other
    }
}
