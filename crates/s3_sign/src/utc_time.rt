//! Seconds of the calendar.
ghost use Rattle.std.specs.Prelude.{◌≡◌, ◌≤◌, ◌<◌, ◌↔◌, IsOk, IfOk};
ghost use Rattle.httpdate.specs.Calendar.{IsCivilDate, IsTimeOfDay};

use crate::calendar::date_of;
use crate::fault::ClockFault;

/// The first second of the year 2000, since 1970.
const FIRST_SECOND: u64 = 946_684_800;

/// The first second of the year 10000.
const END: u64 = 253_402_300_800;

/// A second from 1970 to 9999, in UTC.
#[derive(Clone, Copy)]
pub struct UtcTime {
    /// Of four digits.
    pub year: u16,
    /// From 1 on.
    pub month: u8,
    /// From 1 on.
    pub day: u8,
    /// From 0 to 23.
    pub hour: u8,
    /// From 0 to 59.
    pub minute: u8,
    /// From 0 to 59.
    pub second: u8,
    ghost civil: { IsCivilDate year month day },
    ghost time_of_day: { IsTimeOfDay hour minute second },
}

impl UtcTime {
    ghost use Rattle.s3_sign.specs.Instants.{seconds_of, day_text, time_text};

    /// The second that is so many seconds after the beginning of 1970. `NoClock` before 2000 and past 9999.
    pub fn from_unix_seconds(seconds: u64) -> Result<UtcTime, ClockFault>
        ensures given { IsOk result ↔ ((946_684_800 ≤ seconds) × (seconds < 253_402_300_800)) }
        ensures value { IfOk result (λ time. seconds_of time ≡ seconds) }
    {
        if seconds < FIRST_SECOND || seconds >= END {
            return Err(ClockFault::NoClock);
        }
        let (year, month, day) = date_of((seconds / 86400) as u32);
        let past = seconds % 86400;
        Ok(UtcTime {
            year,
            month,
            day,
            hour: (past / 3600) as u8,
            minute: (past % 3600 / 60) as u8,
            second: (past % 60) as u8,
        })
    }

    /// The day as `YYYYMMDD`.
    #[tactic(auto, unfolding(crate::specs::Instants::day_text))]
    pub fn day_text(&self) -> [u8; 8]
        ensures { result ≡ day_text self.now }
    {
        let time = *self;
        let (century, year) = ((time.year / 100) as u8, (time.year % 100) as u8);
        [
            b'0' + century / 10,
            b'0' + century % 10,
            b'0' + year / 10,
            b'0' + year % 10,
            b'0' + time.month / 10,
            b'0' + time.month % 10,
            b'0' + time.day / 10,
            b'0' + time.day % 10,
        ]
    }

    /// The second as `YYYYMMDDTHHMMSSZ`, the value of the field `x-amz-date`.
    #[tactic(auto, unfolding(crate::specs::Instants::day_text, crate::specs::Instants::time_text))]
    pub fn text(&self) -> [u8; 16]
        ensures { result ≡ time_text self.now }
    {
        let time = *self;
        let [c, d, e, f, m, n, p, q] = self.day_text();
        [
            c,
            d,
            e,
            f,
            m,
            n,
            p,
            q,
            b'T',
            b'0' + time.hour / 10,
            b'0' + time.hour % 10,
            b'0' + time.minute / 10,
            b'0' + time.minute % 10,
            b'0' + time.second / 10,
            b'0' + time.second % 10,
            b'Z',
        ]
    }
}
