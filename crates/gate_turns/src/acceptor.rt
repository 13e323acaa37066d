//! When connections may be accepted.
ghost use Rattle.std.specs.Prelude.{◌≡◌, ◌≤◌, ◌-◌, ◌↔◌, IsTrue, true, false, Some, None, IfSome, MatchOption};
ghost use Rattle.std.specs.Time.{instant_nanos};
ghost use Rattle.gate_turns.specs.Acceptor.{MayAccept, acceptor_after};

use std::time::Instant;

/// For how many milliseconds nothing is accepted after the system gave no socket.
const PAUSE_MILLIS: u128 = 500;

/// What came of an attempt to accept a connection.
#[derive(Clone, Copy, PartialEq, Eq)]
pub enum Accepted {
    /// A socket, or one that is gone again.
    One,
    /// None waits.
    Nobody,
    /// The system gives none for now.
    Starved,
}

/// Whether connections may be accepted.
#[derive(Clone, Copy)]
pub struct Acceptor {
    /// Whether connections may wait: none of the attempts since the last knock found that none does.
    pub waiting: bool,
    /// Since when nothing is accepted, since the system gave no socket.
    pub paused: Option<Instant>,
}

impl Acceptor {
    /// Connections may wait.
    pub fn new() -> Acceptor
        ensures waiting { result.waiting ≡ true }
        ensures paused { result.paused ≡ None }
    {
        Acceptor {
            waiting: true,
            paused: None,
        }
    }

    /// The listener was reported ready.
    pub fn knocks(&mut self)
        ensures { self.new ≡ record self.old { waiting = true } }
    {
        self.waiting = true;
    }

    /// Whether one may be accepted now, where there is room for it or not.
    pub fn may_accept(&self, now: Instant, room: bool) -> bool
        ensures { IsTrue result ↔ MayAccept self.now now room }
    {
        if !self.waiting || !room {
            return false;
        }
        match self.paused {
            None => true,
            Some(since) => now.duration_since(since).as_millis() >= PAUSE_MILLIS,
        }
    }

    /// What came of an attempt to accept one.
    pub fn came(&mut self, came: Accepted, now: Instant)
        ensures { self.new ≡ acceptor_after came self.old now }
    {
        match came {
            Accepted::One => self.paused = None,
            Accepted::Nobody => {
                self.waiting = false;
                self.paused = None;
            }
            Accepted::Starved => self.paused = Some(now),
        }
    }
}
