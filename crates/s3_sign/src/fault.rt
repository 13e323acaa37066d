//! Why a second has no text.

use std::fmt;

/// The clock can't be right.
#[derive(Clone, Copy, PartialEq, Eq)]
pub enum ClockFault {
    /// The second is before the year 2000 or past the year 9999.
    NoClock,
}

impl fmt::Display for ClockFault {
    fn fmt<W: fmt::Write>(&self, f: &mut fmt::Formatter<W>) -> fmt::Result {
        match self {
            ClockFault::NoClock => f.write_str("the clock is before 2000 or past 9999"),
        }
    }
}
