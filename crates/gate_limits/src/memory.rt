//! How much memory connections may take.
ghost use Rattle.std.specs.Prelude.{◌≡◌, ◌≢◌, ◌<◌, ◌≤◌, ◌+◌, ◌-◌, ◌^◌, ◌↔◌, ◌⊎◌, ◌∷◌, [], length, min, true, IsTrue, IsFalse, IsSome, IfSome, IfNone, IfOk, OnErr, Some, None, Ok};
ghost use Rattle.gate_limits.specs.Memory.{MayGoOn, MayBeCalled, is_queued, queued, unqueued};

use std::alloc::{AllocError, Global};

/// From how many kept bytes on a request is long.
pub const LONG: usize = 16_384;

/// What is kept of all connections, of their requests that aren't whole yet and by their replies that wait, and who waits
/// until there is less of it. Where the budget is used up, those that send long requests are read no further, and none is
/// carried out whose reply would hold much, but for one: it goes on until less is kept of it, so that somebody always does.
/// Shorter ones never wait.
#[derive(Drop)]
pub struct Memory {
    /// How many bytes may be kept.
    most: u64,
    /// How many are.
    kept: u64,
    /// The one that goes on although the budget is used up.
    first: Option<u64>,
    /// Those that wait, each once, in the order in which they came.
    waiting: Vec<u64>,
}

impl Memory {
    /// Nothing is kept yet, and so many bytes may be. Takes no memory.
    pub fn new(alloc: Global, most: u64) -> Memory
        ensures most { result.most ≡ most }
        ensures kept { result.kept ≡ 0 }
        ensures first { result.first ≡ None }
        ensures waiting { result.waiting.items ≡ [] }
    {
        Memory {
            most,
            kept: 0,
            first: None,
            waiting: Vec::new(alloc),
        }
    }

    /// Whether the budget is used up.
    pub fn is_full(&self) -> bool
        ensures { IsTrue result ↔ (self.now.most ≤ self.now.kept) }
    {
        self.most <= self.kept
    }

    /// Whether a connection waits until less is kept.
    pub fn waits(&self, id: u64) -> bool
        ensures { result ≡ is_queued id self.now.waiting.items }
    {
        self.waiting.contains(&id)
    }

    /// Whether a connection is the one that goes on although the budget is used up.
    pub fn is_first(&self, id: u64) -> bool
        ensures { IsTrue result ↔ (self.now.first ≡ Some id) }
    {
        self.first == Some(id)
    }

    /// Whether a connection might go on of which much is kept, or would be.
    pub fn has_room_for(&self, id: u64) -> bool
        ensures { IsTrue result ↔ MayGoOn self.now id 16384 }
    {
        !self.is_full() || self.first.is_none() || self.first == Some(id)
    }

    /// So many bytes are kept of a connection, where it was so many before.
    pub fn changes(&mut self, before: usize, now: usize)
        ensures kept { self.new.kept ≡ min (self.old.kept - before + now) (2 ^ 64 - 1) }
        ensures most { self.new.most ≡ self.old.most }
        ensures first { self.new.first ≡ self.old.first }
        ensures waiting { self.new.waiting ≡ self.old.waiting }
    {
        self.kept = self
            .kept
            .saturating_sub(before as u64)
            .saturating_add(now as u64);
    }

    /// Little is kept of a connection any more, or it is gone.
    pub fn lets_go(&mut self, id: u64)
        ensures kept { self.new.kept ≡ self.old.kept }
        ensures most { self.new.most ≡ self.old.most }
        ensures first { self.new.first ≢ Some id }
        ensures others { self.old.first ≢ Some id → self.new.first ≡ self.old.first }
        ensures gone { self.new.waiting.items ≡ unqueued id self.old.waiting.items }
    {
        if self.first == Some(id) {
            self.first = None;
        }
        take_out(&mut self.waiting, id);
    }

    /// Whether a connection of which so many bytes are kept, or would be, may go on. If so it is none of those that wait. Else
    /// it is the last of them, or stays at its place, until it is called by [`Memory::next`]. Refused memory is that of its
    /// place among them; then it may go on too.
    pub fn admits(&mut self, id: u64, kept: usize) -> Result<bool, AllocError>
        ensures exact { IfOk result (λ yes. IsTrue yes ↔ MayGoOn self.old id kept) }
        ensures short { kept < 16384 → result ≡ Ok true }
        ensures waits { IfOk result (λ yes. IsFalse yes →
            self.new.waiting.items ≡ queued id self.old.waiting.items) }
        ensures goes_on { IfOk result (λ yes. IsTrue yes →
            self.new.waiting.items ≡ unqueued id self.old.waiting.items) }
        ensures refused { OnErr result (self.new.waiting.items ≡ self.old.waiting.items) }
        ensures goes_first { self.old.most ≤ self.old.kept → 16384 ≤ kept → self.old.first ≡ None →
            self.new.first ≡ Some id }
        ensures first { self.old.first ≢ None → self.new.first ≡ self.old.first }
        ensures room { (kept < 16384) ⊎ (self.old.kept < self.old.most) →
            self.new.first ≡ self.old.first }
        ensures kept { self.new.kept ≡ self.old.kept }
        ensures most { self.new.most ≡ self.old.most }
    {
        let is_long = kept >= LONG && self.is_full();
        if is_long && !self.has_room_for(id) {
            put_in(&mut self.waiting, id)?;
            return Ok(false);
        }
        if is_long {
            self.first = Some(id);
        }
        take_out(&mut self.waiting, id);
        Ok(true)
    }

    /// The next one that waits and may go on now, if there is one: the one that came first. Where the budget is used up it is
    /// the one that goes on.
    pub fn next(&mut self) -> Option<u64>
        ensures called { IsSome result
            ↔ (MayBeCalled self.old × (0 < length self.old.waiting.items)) }
        ensures oldest { IfSome result (λ id.
            self.old.waiting.items ≡ id ∷ self.new.waiting.items) }
        ensures first { self.old.most ≤ self.old.kept →
            IfSome result (λ id. self.new.first ≡ Some id) }
        ensures room { self.old.kept < self.old.most → self.new.first ≡ self.old.first }
        ensures none { IfNone result (self.new ≡ self.old) }
        ensures kept { self.new.kept ≡ self.old.kept }
        ensures most { self.new.most ≡ self.old.most }
    {
        if !self.may_resume() {
            return None;
        }
        let id = self.waiting.remove(0);
        if self.is_full() {
            self.first = Some(id);
        }
        Some(id)
    }

    /// Whether one that waits may go on now.
    pub fn may_resume(&self) -> bool
        ensures { IsTrue result
            ↔ (MayBeCalled self.now × (0 < length self.now.waiting.items)) }
    {
        !self.waiting.is_empty() && (!self.is_full() || self.first.is_none())
    }

    /// How many bytes are kept.
    pub fn kept(&self) -> u64
        ensures { result ≡ self.now.kept }
    {
        self.kept
    }

    /// How many wait.
    pub fn len(&self) -> usize
        ensures { result ≡ length self.now.waiting.items }
    {
        self.waiting.len()
    }
}

/// An id is the last of those that wait, or stays at its place.
fn put_in(waiting: &mut Vec<u64>, id: u64) -> Result<(), AllocError>
    ensures put { IfOk result (λ _. waiting.new.items ≡ queued id waiting.old.items) }
    ensures refused { OnErr result (waiting.new.items ≡ waiting.old.items) }
{
    if !waiting.contains(&id) && waiting.push(id).is_err() {
        return Err(AllocError);
    }
    Ok(())
}

/// An id is none of those that wait. The others stay in their order.
fn take_out(waiting: &mut Vec<u64>, id: u64)
    ensures { waiting.new.items ≡ unqueued id waiting.old.items }
{
    waiting.retain(|other| *other != id);
}
