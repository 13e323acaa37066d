//! How long a peer may take.
ghost use Rattle.std.specs.Prelude.{◌≡◌, ◌↔◌, IsTrue};
ghost use Rattle.gate_limits.specs.Late.{IsLate, IsPast, has_lasted, moved_by, blocked_at, begun_at, turned_at};
ghost use Rattle.gate_limits.specs.declared.pace.Way.TheVariants.{Sends};

use crate::limits::Limits;
use std::time::{Duration, Instant};

/// What a peer does.
#[derive(Clone, Copy, PartialEq, Eq)]
pub enum Way {
    /// It sends a request.
    Sends,
    /// It takes a reply.
    Takes,
}

/// When a peer last moved a byte, and how many bytes it moved since they count. Those of a request count from the first
/// one on. Those of a reply count once a write blocks: what went before may stand in the system's buffer. Of both the
/// count begins anew where it lasted as long as a peer may be silent, so that bytes that were moved fast allow for no
/// slow ones later.
#[derive(Clone, Copy)]
pub struct Pace {
    way: Way,
    /// Whether its bytes count.
    counts: bool,
    /// Whether their count began anew since it turned.
    again: bool,
    /// Since when they do, or since when it goes this way.
    began: Instant,
    /// When it last moved a byte.
    last: Instant,
    /// How many bytes it moved since they count.
    moved: u64,
}

impl Pace {
    /// A peer that begins to send.
    pub fn new(now: Instant) -> Pace
        ensures { result ≡ turned_at Sends now }
    {
        Pace {
            way: Way::Sends,
            counts: false,
            again: false,
            began: now,
            last: now,
            moved: 0,
        }
    }

    /// It turns to sending or to taking.
    pub fn turns(&mut self, now: Instant, way: Way)
        ensures { self.new ≡ turned_at way now }
    {
        *self = Pace::new(now);
        self.way = way;
    }

    /// So many bytes were moved.
    pub fn moves(&mut self, now: Instant, count: usize, limits: &Limits)
        ensures { self.new ≡ moved_by limits.now now count self.old }
    {
        if count == 0 {
            return;
        }
        if self.way == Way::Sends && (!self.counts || self.has_lasted(now, limits)) {
            self.begins(now);
        }
        if self.counts {
            self.moved = self.moved.saturating_add(count as u64);
        }
        self.last = now;
    }

    /// A write blocked.
    pub fn blocks(&mut self, now: Instant, limits: &Limits)
        ensures { self.new ≡ blocked_at limits.now now self.old }
    {
        if !self.counts || self.has_lasted(now, limits) {
            self.begins(now);
        }
    }

    /// Whether its bytes have counted for as long as a peer may be silent.
    fn has_lasted(&self, now: Instant, limits: &Limits) -> bool
        ensures { result ≡ has_lasted limits.now now self.now }
    {
        limits.idle.as_nanos() <= now.duration_since(self.began).as_nanos()
    }

    /// Its bytes count from now on.
    fn begins(&mut self, now: Instant)
        ensures { self.new ≡ begun_at now self.old }
    {
        self.again = self.counts;
        self.counts = true;
        self.began = now;
        self.moved = 0;
    }

    /// Whether its time is over: no byte moved for too long, or too few did since they count.
    pub fn is_late(&self, now: Instant, limits: &Limits) -> bool
        ensures { IsTrue result ↔ IsLate self.now limits.now now }
    {
        let silent = now.duration_since(self.last).as_nanos();
        if limits.idle.as_nanos() < silent {
            return true;
        }
        if !self.counts {
            return false;
        }
        let slack = match self.way {
            Way::Sends if !self.again => limits.grace.as_nanos(),
            _ => limits.idle.as_nanos(),
        };
        let needed = u128::from(self.moved / limits.rate.max(1)) * 1_000_000_000;
        slack.saturating_add(needed) < now.duration_since(self.began).as_nanos()
    }

    /// Whether so long has passed since it last turned.
    pub fn is_over(&self, now: Instant, time: Duration) -> bool
        ensures { IsTrue result ↔ IsPast self.now now time }
    {
        time.as_nanos() < now.duration_since(self.began).as_nanos()
    }
}
