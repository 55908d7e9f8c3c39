// A day of 2000 to 2099.
ghost use Rattle.std.specs.Prelude.{◌≤◌};
ghost use Rattle.rulebook.specs.Dates.{month_days};

pub mod reading;

#[derive(Clone, Copy, PartialEq, Eq, PartialOrd, Ord, Debug)]
pub struct Date {
    year: u16,
    month: u8,
    day: u8,
    ghost since: { 2000 ≤ year },
    ghost until: { year ≤ 2099 },
    ghost january: { 1 ≤ month },
    ghost december: { month ≤ 12 },
    ghost first: { 1 ≤ day },
    ghost last: { day ≤ month_days year month },
}
