//! The lanes in which connections wait for their turns.
ghost use Rattle.std.specs.Prelude.{◌≡◌, ◌≤◌, ◌<◌, IfSome, IfNone, IfOk, IsTrue, ◌↔◌, ℕ};
ghost use Rattle.gate_turns.specs.Lanes.{empty_lanes, AreBounded, HasTurn, lanes_with, lanes_at_round, lanes_cut_short, turns_due, queued_count};

use crate::seat::Lane;
use std::alloc::{AllocError, Global};
use std::collections::VecDeque;
use std::marker::Model;

/// A connection that has its turn, and the lane in which it stood.
#[derive(Clone, Copy, PartialEq, Eq)]
pub struct Chosen {
    pub id: u64,
    pub lane: Lane,
}

/// Connections that have a turn to come, in three lanes, and how many of each lane have it in this round: all quick ones
/// that stood there when the round began, the first fresh one, the other fresh ones up to the first long step, and the
/// first slow one. There is room from the beginning, so that none is left out for want of memory.
#[derive(Drop)]
pub struct Lanes {
    quick: VecDeque<u64>,
    fresh: VecDeque<u64>,
    slow: VecDeque<u64>,
    room: usize,
    due_quick: usize,
    due_first: usize,
    due_fresh: usize,
    due_slow: usize,
}

impl Model for Lanes {
    ghost use Rattle.std.specs.Prelude.{◌≤◌, ◌≡◌, length};
    ghost use Rattle.std.specs.VecDeque.{deque_len, deque_capacity};
    ghost use Rattle.gate_turns.specs.Lanes.{LanesState, AreBounded};

    ghost Value = { LanesState };

    ghost view = { λ l. record {
      quick = l.quick.items;
      fresh = l.fresh.items;
      slow = l.slow.items;
      room = l.room;
      due_quick = l.due_quick;
      due_first = l.due_first;
      due_fresh = l.due_fresh;
      due_slow = l.due_slow;
    } };

    ghost invariant = { λ l. (l.room ≤ deque_capacity l.quick) × (l.room ≤ deque_capacity l.fresh)
        × (l.room ≤ deque_capacity l.slow)
        × (deque_len l.quick ≡ length l.quick.items) × (deque_len l.fresh ≡ length l.fresh.items)
        × (deque_len l.slow ≡ length l.slow.items)
        × AreBounded (record {
          quick = l.quick.items;
          fresh = l.fresh.items;
          slow = l.slow.items;
          room = l.room;
          due_quick = l.due_quick;
          due_first = l.due_first;
          due_fresh = l.due_fresh;
          due_slow = l.due_slow;
        }) };
}

impl Lanes {
    /// Empty lanes, with room for so many connections in all.
    pub fn new(alloc: Global, room: usize) -> Result<Lanes, AllocError>
        ensures { IfOk result (λ lanes. lanes ≡ empty_lanes room) }
    {
        Ok(Lanes {
            quick: VecDeque::with_capacity(alloc, room)?,
            fresh: VecDeque::with_capacity(alloc, room)?,
            slow: VecDeque::with_capacity(alloc, room)?,
            room,
            due_quick: 0,
            due_first: 0,
            due_fresh: 0,
            due_slow: 0,
        })
    }

    /// Whether nobody has a turn to come.
    pub fn is_empty(&self) -> bool
        ensures empty { IsTrue result ↔ (queued_count self.now ≡ 0) }
        ensures bounded { AreBounded self.now }
    {
        self.quick.is_empty() && self.fresh.is_empty() && self.slow.is_empty()
    }

    /// For how many connections there is room.
    pub fn room(&self) -> usize
        ensures { result ≡ self.now.room }
    {
        self.room
    }

    /// Puts a connection behind those of a lane.
    pub fn push(&mut self, lane: Lane, id: u64)
        requires room { queued_count self.old < self.old.room }
        ensures { self.new ≡ lanes_with lane id self.old }
    {
        match lane {
            Lane::Quick => self.quick.push_back_reserved(id),
            Lane::Fresh => self.fresh.push_back_reserved(id),
            Lane::Slow => self.slow.push_back_reserved(id),
        }
    }

    /// A round begins, once the last one is over.
    pub fn begin_round(&mut self)
        requires over { turns_due self.old ≡ 0 }
        ensures { self.new ≡ lanes_at_round self.old }
    {
        self.due_quick = self.quick.len();
        self.due_first = self.fresh.len().min(1);
        self.due_fresh = self.fresh.len() - self.due_first;
        self.due_slow = self.slow.len().min(1);
    }

    /// The fresh ones that are left in this round have no turn in it, since one of them had a long step.
    pub fn cut_short(&mut self)
        ensures { self.new ≡ lanes_cut_short self.old }
    {
        self.due_fresh = 0;
    }

    /// Who has its turn now. `None` where the round is over.
    pub fn next(&mut self) -> Option<Chosen>
        ensures some { IfSome result (λ chosen. HasTurn chosen.lane chosen.id self.old self.new) }
        ensures none { IfNone result ((self.new ≡ self.old) × (turns_due self.old ≡ 0)) }
    {
        if self.due_quick > 0 {
            self.due_quick -= 1;
            let id = self.quick.pop_front()?;
            return Some(Chosen {
                id,
                lane: Lane::Quick,
            });
        }
        if self.due_first > 0 {
            self.due_first -= 1;
            let id = self.fresh.pop_front()?;
            return Some(Chosen {
                id,
                lane: Lane::Fresh,
            });
        }
        if self.due_fresh > 0 {
            self.due_fresh -= 1;
            let id = self.fresh.pop_front()?;
            return Some(Chosen {
                id,
                lane: Lane::Fresh,
            });
        }
        if self.due_slow > 0 {
            self.due_slow -= 1;
            let id = self.slow.pop_front()?;
            return Some(Chosen {
                id,
                lane: Lane::Slow,
            });
        }
        None
    }
}
