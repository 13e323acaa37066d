//! How many lines a second are told of connections.
ghost use Rattle.std.specs.Prelude.{◌≡◌, IsTrue, ◌↔◌};

use log::{Log, warn};
use std::time::Instant;

/// How many lines a second there are at most.
const LINES: u32 = 20;

/// How long a second is, in milliseconds.
const SECOND_MILLIS: u128 = 1000;

/// Lines of connections that are cut: at most 20 a second, so that many connections which are reset make no flood of them.
/// The others are counted.
#[derive(Clone, Copy)]
pub struct Journal {
    /// When the second began.
    began: Instant,
    /// How many lines there may still be in it.
    left: u32,
    /// How many were left out since that was told.
    omitted: u64,
}

impl Journal {
    ghost use Rattle.gate_limits.specs.Journal.{after_line, IsAdmitted};

    /// Nothing was told yet.
    pub fn new(now: Instant) -> Journal
        ensures began { result.began ≡ now }
        ensures left { result.left ≡ 20 }
        ensures omitted { result.omitted ≡ 0 }
    {
        Journal {
            began: now,
            left: LINES,
            omitted: 0,
        }
    }

    /// Whether a line is told now. One that isn't is counted.
    pub fn admits(&mut self, now: Instant) -> bool
        ensures admitted { IsTrue result ↔ IsAdmitted self.old now }
        ensures after { self.new ≡ after_line result self.old now }
    {
        if now.duration_since(self.began).as_millis() >= SECOND_MILLIS {
            self.began = now;
            self.left = LINES;
        }
        if self.left == 0 {
            self.omitted = self.omitted.saturating_add(1);
            return false;
        }
        self.left -= 1;
        true
    }

    /// Tells how many lines were left out, if any were.
    pub fn tell<R: Log>(&mut self, rt: &R)
        ensures { self.new ≡ record self.old { omitted = 0 } }
    {
        if self.omitted > 0 {
            warn!(rt; "{} lines were left out", self.omitted);
        }
        self.omitted = 0;
    }
}
