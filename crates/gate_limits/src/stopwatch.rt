//! How long the request takes that a connection sends.
ghost use Rattle.std.specs.Prelude.{◌≡◌, None, is_some};
ghost use Rattle.gate_limits.specs.Stopwatch.{begun_with, stopwatch_at};

use crate::latencies::RequestKind;
use std::time::Instant;

/// A request to which no reply was made yet.
#[derive(Clone, Copy)]
pub struct Begun {
    /// What it is.
    pub kind: RequestKind,
    /// Since when bytes of it are at hand.
    pub since: Instant,
}

/// How long the request takes that a connection sends, from its first byte until a reply to it is made.
#[derive(Clone, Copy)]
pub struct Stopwatch {
    begun: Option<Begun>,
}

impl Stopwatch {
    /// No request began.
    pub fn new() -> Stopwatch
        ensures { result ≡ stopwatch_at None }
    {
        Stopwatch { begun: None }
    }

    /// These bytes are at hand for the gateway. Where there are any, and no request began, one begins with them.
    pub fn sees(&mut self, bytes: &[u8], now: Instant)
        ensures { self.new ≡ begun_with bytes.now now self.old }
    {
        if self.begun.is_none() && !bytes.is_empty() {
            self.begun = Some(Begun {
                kind: RequestKind::of(bytes),
                since: now,
            });
        }
    }

    /// Whether a request began to which no reply was made yet.
    pub fn runs(&self) -> bool
        ensures { result ≡ is_some self.now.begun }
    {
        self.begun.is_some()
    }

    /// A reply was made: the request that it answers is over, which is given if one had begun.
    pub fn stops(&mut self) -> Option<Begun>
        ensures stopped { self.new ≡ stopwatch_at None }
        ensures given { self.old ≡ stopwatch_at result }
    {
        let begun = self.begun;
        self.begun = None;
        begun
    }
}
