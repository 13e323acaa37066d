//! What happened so far.
ghost use Rattle.std.specs.Prelude.{◌≡◌, ◌+◌, ◌-◌, ◌/◌, ◌^◌, min};
ghost use Rattle.std.specs.Duration.{as_nanos};
ghost use Rattle.gate_limits.specs.Latencies.{empty_latencies, latencies_after};

use crate::latencies::{Latencies, RequestKind};
use std::time::Duration;

/// What happened so far. A number that reached its largest value stays there.
#[derive(Clone, Copy, PartialEq, Eq)]
pub struct Counts {
    /// Connections that are open now.
    pub open: u64,
    /// Connections that were opened in the gateway.
    pub opened: u64,
    /// Connections that were given all replies to what they sent, and then closed.
    pub over: u64,
    /// Connections that were cut since their socket failed or memory was refused.
    pub failed: u64,
    /// Connections that were cut since their time was over.
    pub late: u64,
    /// Connections that were closed since serving was to stop.
    pub stopped: u64,
    /// Idle connections that were closed for newcomers.
    pub replaced: u64,
    /// Sockets that were closed at once, since the system, memory or the gateway refused them, or their address had as many
    /// places as it may.
    pub refused: u64,
    /// How often no socket could be accepted, since handles or the system's memory ran out.
    pub starved: u64,
    /// Bytes that are kept of all connections: of requests that aren't whole yet, and of replies that wait.
    pub kept: u64,
    /// Connections that wait until less is kept.
    pub waiting: u64,
    /// Bytes that were read.
    pub bytes_in: u64,
    /// Bytes that were written.
    pub bytes_out: u64,
    /// For how many seconds connections have been served.
    pub seconds: u64,
    /// How long requests took, from their first byte until a reply to them was made.
    pub latencies: Latencies,
}

impl Counts {
    /// Nothing happened yet.
    pub fn new() -> Counts
        ensures { result ≡ record {
          «open» = 0;
          opened = 0;
          over = 0;
          failed = 0;
          late = 0;
          stopped = 0;
          replaced = 0;
          refused = 0;
          starved = 0;
          kept = 0;
          waiting = 0;
          bytes_in = 0;
          bytes_out = 0;
          seconds = 0;
          latencies = empty_latencies;
        } }
    {
        Counts {
            open: 0,
            opened: 0,
            over: 0,
            failed: 0,
            late: 0,
            stopped: 0,
            replaced: 0,
            refused: 0,
            starved: 0,
            kept: 0,
            waiting: 0,
            bytes_in: 0,
            bytes_out: 0,
            seconds: 0,
            latencies: Latencies::new(),
        }
    }

    /// So many bytes were read.
    pub fn reads(&mut self, count: usize)
        ensures { self.new ≡ record self.old {
          bytes_in = min (self.old.bytes_in + count) (2 ^ 64 - 1);
        } }
    {
        self.bytes_in = self.bytes_in.saturating_add(count as u64);
    }

    /// So many bytes were written.
    pub fn writes(&mut self, count: usize)
        ensures { self.new ≡ record self.old {
          bytes_out = min (self.old.bytes_out + count) (2 ^ 64 - 1);
        } }
    {
        self.bytes_out = self.bytes_out.saturating_add(count as u64);
    }

    /// So many bytes are kept of all connections, and so many of these wait until less is.
    pub fn keeps(&mut self, bytes: u64, waiting: usize)
        ensures { self.new ≡ record self.old { kept = bytes; waiting = waiting } }
    {
        self.kept = bytes;
        self.waiting = waiting as u64;
    }

    /// Connections have been served for so long.
    pub fn lasts(&mut self, time: Duration)
        ensures { self.new ≡ record self.old { seconds = as_nanos time / 1_000_000_000 } }
    {
        self.seconds = time.as_secs();
    }

    /// A reply was made to a request of this kind, which took so long.
    pub fn answers(&mut self, kind: RequestKind, time: Duration)
        ensures { self.new ≡ record self.old {
          latencies = latencies_after kind (min (as_nanos time) (2 ^ 64 - 1)) self.old.latencies;
        } }
    {
        self.latencies.observes(kind, time);
    }

    /// A connection was opened, and so many are open.
    pub fn opens(&mut self, count: usize) {
        self.opened = self.opened.saturating_add(1);
        self.open = count as u64;
    }

    /// A connection was closed, and so many are open.
    pub fn closes(&mut self, count: usize) {
        self.open = count as u64;
    }

    /// A socket was closed at once.
    pub fn refuses(&mut self) {
        self.refused = self.refused.saturating_add(1);
    }

    /// A connection was given all replies to what it sent.
    pub fn ends(&mut self) {
        self.over = self.over.saturating_add(1);
    }

    /// A connection was cut since its socket failed or memory was refused.
    pub fn fails(&mut self) {
        self.failed = self.failed.saturating_add(1);
    }

    /// A connection was closed since serving was to stop.
    pub fn stops(&mut self) {
        self.stopped = self.stopped.saturating_add(1);
    }

    /// An idle connection was closed for a newcomer.
    pub fn replaces(&mut self) {
        self.replaced = self.replaced.saturating_add(1);
    }

    /// A connection was cut since its time was over.
    pub fn cuts(&mut self) {
        self.late = self.late.saturating_add(1);
    }

    /// No socket could be accepted.
    pub fn starves(&mut self) {
        self.starved = self.starved.saturating_add(1);
    }
}
