//! The acceptors by which connections come, and at which of them one is accepted next.
ghost use Rattle.std.specs.Prelude.{◌≡◌, ◌≢◌, ◌≤◌, ◌<◌, ◌↔◌, ℕ, IsTrue, IfOk, IfSome, IfNone, length, replicate};
ghost use Rattle.gate_turns.specs.Acceptor.{acceptor_after};
ghost use Rattle.gate_turns.specs.Acceptors.{MayAcceptAt, acceptors_before, knocked, new_acceptor, with_acceptor};

use crate::acceptor::{Accepted, Acceptor};
use std::alloc::{AllocError, Global};
use std::marker::Model;
use std::time::Instant;

/// The acceptors of several listeners, in a circle. A connection is accepted at the first one, from the one behind the last
/// attempt on, at which that may be: so an acceptor at which many wait keeps nobody out at another.
#[derive(Drop)]
pub struct Acceptors {
    acceptors: Vec<Acceptor>,
    first: usize,
}

impl Model for Acceptors {
    ghost use Rattle.std.specs.Prelude.{◌≤◌, length};
    ghost use Rattle.gate_turns.specs.Acceptors.{AcceptorsState};

    ghost Value = { AcceptorsState };

    ghost view = { λ d. record { acceptors = d.acceptors.items; first = d.first } };

    ghost invariant = { λ d. d.first ≤ length d.acceptors.items };
}

impl Acceptors {
    /// So many acceptors, at each of which connections may wait.
    pub fn new(alloc: Global, count: usize) -> Result<Acceptors, AllocError>
        ensures acceptors { IfOk result (λ acceptors. acceptors.acceptors ≡ replicate count new_acceptor) }
        ensures first { IfOk result (λ acceptors. acceptors.first ≡ 0) }
    {
        Ok(Acceptors {
            acceptors: vec![in alloc; Acceptor::new(); count]?,
            first: 0,
        })
    }

    /// The listener of an acceptor was reported ready. Where there is no such acceptor nothing changes.
    pub fn knocks(&mut self, place: usize)
        ensures { self.new ≡ with_acceptor place knocked self.old }
    {
        if let Some(acceptor) = self.acceptors.get_mut(place) {
            acceptor.knocks();
        }
    }

    /// Whether one may be accepted at one of the acceptors now, where there is room for it or not.
    pub fn may_accept(&self, now: Instant, room: bool) -> bool
        ensures yes { IsTrue result → (place : ℕ) × MayAcceptAt self.now.acceptors place now room }
        ensures no { (place : ℕ) → MayAcceptAt self.now.acceptors place now room → IsTrue result }
    {
        match first_open(&self.acceptors, 0, self.acceptors.len(), now, room) {
            Some(_) => true,
            None => false,
        }
    }

    /// The acceptor at which one is to be accepted now, where there is room for it or not. `None` where that may be at
    /// none. Each other acceptor at which one might be accepted is nearer to its turn then.
    pub fn next(&mut self, now: Instant, room: bool) -> Option<usize>
        ensures may { IfSome result (λ place. MayAcceptAt self.old.acceptors place now room) }
        ensures none { IfNone result ((place : ℕ) → ¬ (MayAcceptAt self.old.acceptors place now room)) }
        ensures nearer { IfSome result (λ place. (other : ℕ) → other ≢ place →
            MayAcceptAt self.old.acceptors other now room →
            acceptors_before other self.new < acceptors_before other self.old) }
        ensures acceptors { self.new.acceptors ≡ self.old.acceptors }
        ensures bounded { self.old.first ≤ length self.old.acceptors }
    {
        let place = self.first_from_here(now, room)?;
        self.first = place + 1;
        Some(place)
    }

    /// The first acceptor, from the one whose turn it is on, at which one may be accepted.
    fn first_from_here(&self, now: Instant, room: bool) -> Option<usize>
        ensures may { IfSome result (λ place. MayAcceptAt self.now.acceptors place now room) }
        ensures none { IfNone result ((place : ℕ) → ¬ (MayAcceptAt self.now.acceptors place now room)) }
        ensures first { IfSome result (λ place. (other : ℕ) →
            MayAcceptAt self.now.acceptors other now room →
            acceptors_before place self.now ≤ acceptors_before other self.now) }
        ensures within { IfSome result (λ place. place < length self.now.acceptors) }
    {
        let behind = first_open(&self.acceptors, self.first, self.acceptors.len(), now, room);
        if behind.is_some() {
            return behind;
        }
        first_open(&self.acceptors, 0, self.first, now, room)
    }

    /// What came of an attempt to accept one at an acceptor. Where there is no such acceptor nothing changes.
    pub fn came(&mut self, place: usize, came: Accepted, now: Instant)
        ensures { self.new ≡ with_acceptor place (λ acceptor. acceptor_after came acceptor now) self.old }
    {
        if let Some(acceptor) = self.acceptors.get_mut(place) {
            acceptor.came(came, now);
        }
    }
}

/// The first of the acceptors from one place on, and before another, at which one may be accepted.
fn first_open(
    acceptors: &[Acceptor],
    from: usize,
    to: usize,
    now: Instant,
    room: bool,
) -> Option<usize>
    ensures may { IfSome result (λ place. MayAcceptAt acceptors.now place now room) }
    ensures within { IfSome result (λ place. (from ≤ place) × (place < to)
        × (place < length acceptors.now)) }
    ensures first { IfSome result (λ place. (other : ℕ) → from ≤ other → other < place →
        ¬ (MayAcceptAt acceptors.now other now room)) }
    ensures none { IfNone result ((other : ℕ) → from ≤ other → other < to →
        ¬ (MayAcceptAt acceptors.now other now room)) }
{
    for place in from..to {
        if may_accept_at(acceptors, place, now, room) {
            return Some(place);
        }
    }
    None
}

/// Whether one may be accepted at an acceptor.
fn may_accept_at(acceptors: &[Acceptor], place: usize, now: Instant, room: bool) -> bool
    ensures may { IsTrue result ↔ MayAcceptAt acceptors.now place now room }
    ensures within { IsTrue result → place < length acceptors.now }
{
    match acceptors.get(place) {
        Some(acceptor) => acceptor.may_accept(now, room),
        None => false,
    }
}
