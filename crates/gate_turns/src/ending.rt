//! When a stop is over.
ghost use Rattle.std.specs.Prelude.{◌≡◌, ◌≤◌, ◌-◌, ◌↔◌, ◌⊎◌, IsTrue, true, false, Some, None, is_some};
ghost use Rattle.gate_turns.specs.Ending.{IsStopOver};

use std::time::{Duration, Instant};

/// Since when serving is to stop.
#[derive(Clone, Copy)]
pub struct Ending {
    pub since: Option<Instant>,
}

impl Ending {
    /// Serving goes on.
    pub fn new() -> Ending
        ensures { result.since ≡ None }
    {
        Ending { since: None }
    }

    /// Serving is to stop. Where it is to already, nothing changes: no later request gives more time.
    pub fn asks(&mut self, now: Instant)
        ensures first { self.old.since ≡ None → self.new.since ≡ Some now }
        ensures again { IsTrue (is_some self.old.since) → self.new ≡ self.old }
    {
        if self.since.is_none() {
            self.since = Some(now);
        }
    }

    /// Whether serving is to stop.
    pub fn is_asked(&self) -> bool
        ensures { result ≡ is_some self.now.since }
    {
        self.since.is_some()
    }

    /// Whether a stop is over: it was asked, and no connection is open or the time for what is owed is over.
    pub fn is_over(&self, count: usize, now: Instant, time: Duration) -> bool
        ensures { IsTrue result ↔ IsStopOver self.now count now time }
    {
        let Some(since) = self.since else {
            return false;
        };
        count == 0 || now.duration_since(since).as_nanos() >= time.as_nanos()
    }
}
