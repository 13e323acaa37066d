//! What turns are had with.
use crate::peer::Outcome;
use gate_limits::{Counts, Journal, Limits, Memory};
use gate_turns::End;
use log::{Log, warn};
use std::alloc::{AllocError, Global};
use std::time::Instant;

/// How many bytes of a connection that was closed are dropped at a time.
const SCRATCH: usize = 4096;

/// What turns are had with: what is allowed to connections, what is counted and told of them, and room for bytes that are
/// dropped.
#[derive(Drop)]
pub struct Tools {
    pub limits: Limits,
    pub counts: Counts,
    pub journal: Journal,
    pub memory: Memory,
    pub scratch: Vec<u8>,
    /// Since when connections are served.
    began: Instant,
}

impl Tools {
    /// Nothing happened yet.
    pub fn new(alloc: Global, limits: &Limits, now: Instant) -> Result<Tools, AllocError> {
        Ok(Tools {
            limits: *limits,
            counts: Counts::new(),
            journal: Journal::new(now),
            memory: Memory::new(alloc, limits.memory),
            scratch: vec![in alloc; 0u8; SCRATCH]?,
            began: now,
        })
    }

    /// Counts what is kept of connections now.
    pub fn counts_kept(&mut self) {
        self.counts.keeps(self.memory.kept(), self.memory.len());
    }

    /// Tells how many lines were left out, and counts for how long connections have been served.
    pub fn passes<R: Log>(&mut self, rt: &R, now: Instant) {
        self.journal.tell(rt);
        self.counts.lasts(now.duration_since(self.began));
    }

    /// Tells and counts why a connection is closed after its turn.
    pub fn tells<R: Log>(&mut self, rt: &R, id: u64, outcome: &Outcome, now: Instant) {
        if let Some(fault) = outcome.fault {
            if self.journal.admits(now) {
                warn!(rt; "connection {} cut: {}", id, fault);
            }
            self.counts.fails();
        } else if outcome.turned.end == End::Over {
            self.counts.ends();
        } else {
            self.counts.stops();
        }
    }

    /// Tells and counts a connection whose time was over. One to which all was said is over.
    pub fn cuts<R: Log>(&mut self, rt: &R, id: u64, told: bool, now: Instant) {
        if told {
            self.counts.ends();
            return;
        }
        if self.journal.admits(now) {
            warn!(rt; "connection {} cut: its time was over", id);
        }
        self.counts.cuts();
    }
}
