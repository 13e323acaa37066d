//! Dates of days.
ghost use Rattle.std.specs.Prelude.{◌≡◌, ◌+◌, ◌-◌, ◌<◌, ◌≤◌};
ghost use Rattle.httpdate.specs.Calendar.{IsCivilDate, days_from_civil, days_in_month, days_in_year, days_of_years, is_leap_year};

/// The days from 1970 to 2000.
const FIRST_DAY: u32 = 10_957;

/// Whether February has 29 days.
fn is_leap_year(year: u16) -> bool
    ensures { result ≡ is_leap_year year }
{
    year % 4 == 0 && (year % 100 != 0 || year % 400 == 0)
}

/// How many days a year has.
fn days_in_year(year: u16) -> u32
    ensures { result ≡ days_in_year year }
{
    if is_leap_year(year) { 366 } else { 365 }
}

/// How many days a month has.
fn days_in_month(year: u16, month: u8) -> u32
    ensures { result ≡ days_in_month year month }
{
    match month {
        2 if is_leap_year(year) => 29,
        2 => 28,
        4 | 6 | 9 | 11 => 30,
        _ => 31,
    }
}

/// The year of a day that is counted from 1970, and how many days of it are past.
fn year_of(days: u32) -> (u16, u32)
    requires from { 10_957 ≤ days }
    requires to { days < 2_932_897 }
    ensures year { (2000 ≤ result.0) × (result.0 ≤ 9999) }
    ensures past { result.1 < days_in_year result.0 }
    ensures value { days_of_years (result.0 - 1970) + result.1 ≡ days }
{
    let mut year = 2000;
    let mut past = days - FIRST_DAY;
    while past >= days_in_year(year) {
        past -= days_in_year(year);
        year += 1;
    }
    (year, past)
}

/// Year, month and day of a day that is counted from 1970.
pub fn date_of(days: u32) -> (u16, u8, u8)
    requires from { 10_957 ≤ days }
    requires to { days < 2_932_897 }
    ensures civil { IsCivilDate result.0 result.1 result.2 }
    ensures value { days_from_civil result.0 result.1 result.2 ≡ days }
{
    let (year, mut past) = year_of(days);
    let mut month = 1;
    while past >= days_in_month(year, month) {
        past -= days_in_month(year, month);
        month += 1;
    }
    (year, month, past as u8 + 1)
}
