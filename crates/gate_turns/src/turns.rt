//! All connections, with their places.
ghost use Rattle.std.specs.Prelude.{◌≡◌, ◌≢◌, ◌≤◌, ◌<◌, ◌+◌, ◌-◌, ◌^◌, ◌⊎◌, min, IfOk, IfSome, IfNone, MatchBool, IsTrue, ◌↔◌, Some, None, false, not, ℕ, length, IsSome, IsSomeAnd, if◌then◌else◌};
ghost use Rattle.gate_turns.specs.Seat.{new_seat, IsReported, IsTurned, is_closing, is_woken};
ghost use Rattle.gate_turns.specs.declared.seat.Place.TheVariants as place;
ghost use Rattle.gate_turns.specs.Places.{IsLongestIdle, IsChoiceFor, NobodyIsIdle, places_taken};
ghost use Rattle.gate_turns.specs.Lanes.{HasTurn, lanes_with, lanes_at_round, lanes_cut_short, turns_due, queued_count, empty_lanes};
ghost use Rattle.gate_turns.specs.Turns.{IsSeated, TurnsState, seat_at, seat_in, lanes_after, OthersStay, HasCome, HasLeft, HasBegun, IsAwaiting, IsDismissible};

use crate::lanes::{Chosen, Lanes};
use crate::places::{Choice, count_of, longest_idle};
use crate::seat::{Lane, Place, Seat, Turned};
use std::alloc::{AllocError, Global};
use std::collections::BTreeMap;
use std::marker::Model;

/// The connections that are open, each in exactly one place.
#[derive(Drop)]
pub struct Turns {
    seats: BTreeMap<u64, Seat>,
    lanes: Lanes,
    turn: Option<u64>,
    /// How many turns are over.
    count: u64,
}

impl Model for Turns {
    ghost use Rattle.gate_turns.specs.Turns.{TurnsState, IsSeated};

    ghost Value = { TurnsState };

    ghost view = { λ t. record { seats = t.seats.entries; lanes = t.lanes; turn = t.turn; count = t.count } };

    ghost invariant = { λ t. IsSeated t.seats.entries t.lanes t.turn };
}

impl Turns {
    /// No connections, and room for so many.
    pub fn new(alloc: Global, room: usize) -> Result<Turns, AllocError>
        ensures lanes { IfOk result (λ turns. turns.lanes ≡ empty_lanes room) }
        ensures idle { IfOk result (λ turns. turns.turn ≡ None) }
        ensures none { IfOk result (λ turns. (id : ℕ) → seat_at turns id ≡ None) }
    {
        Ok(Turns {
            seats: BTreeMap::new(alloc),
            lanes: Lanes::new(alloc, room)?,
            turn: None,
            count: 0,
        })
    }

    /// What is known of a connection, if it is open: where it is, and which sides of its socket may be called.
    pub fn seat(&self, id: u64) -> Option<Seat>
        ensures value { result ≡ seat_at self.now id }
        ensures seated { IsSeated self.now.seats self.now.lanes self.now.turn }
    {
        self.seats.get(&id).copied()
    }

    /// How many connections are open.
    pub fn len(&self) -> usize
        ensures { result ≡ length self.now.seats }
    {
        self.seats.len()
    }

    /// Whether one has a turn to come.
    pub fn has_turns(&self) -> bool
        ensures { IsTrue result ↔ (0 < queued_count self.now.lanes) }
    {
        !self.lanes.is_empty()
    }

    /// A round begins, once the last one is over.
    pub fn begin_round(&mut self)
        requires { turns_due self.old.lanes ≡ 0 }
        ensures { self.new ≡ record self.old { lanes = lanes_at_round self.old.lanes } }
    {
        self.lanes.begin_round();
    }

    /// Who has its turn now. `None` where the round is over.
    pub fn next(&mut self) -> Option<Chosen>
        requires idle { self.old.turn ≡ None }
        ensures some { IfSome result (λ chosen.
            HasTurn chosen.lane chosen.id self.old.lanes self.new.lanes) }
        ensures turn { IfSome result (λ chosen. HasBegun chosen.id self.old self.new) }
        ensures others { IfSome result (λ chosen. OthersStay chosen.id self.old self.new) }
        ensures none { IfNone result ((self.new ≡ self.old) × (turns_due self.old.lanes ≡ 0)) }
    {
        let chosen = self.lanes.next()?;
        let mut seat = self.seats.get(&chosen.id).copied()?;
        seat.begin();
        set_seat(&mut self.seats, chosen.id, seat);
        self.turn = Some(chosen.id);
        Some(chosen)
    }

    /// The fresh ones that are left in this round have no turn in it, since one of them had a long step.
    pub fn cut_short(&mut self)
        ensures { self.new ≡ record self.old { lanes = lanes_cut_short self.old.lanes } }
    {
        self.lanes.cut_short();
    }

    /// What becomes of a newcomer of an address that may have so many places. All are looked at only where no place is
    /// free, or as many are taken as it may have.
    pub fn place_for(&self, address: u64, most: usize) -> Choice
        ensures { IsChoiceFor self.now.lanes.room most address self.now.seats result }
    {
        let longest = if !self.may_have(address, most) {
            longest_idle(&self.seats, Some(address))
        } else if self.seats.len() >= self.lanes.room() {
            longest_idle(&self.seats, None)
        } else {
            return Choice::Opens;
        };
        match longest {
            Some(id) => Choice::Replaces(id),
            None => Choice::Refused,
        }
    }

    /// Whether an address that may have so many places has fewer.
    fn may_have(&self, address: u64, most: usize) -> bool
        ensures { IsTrue result ↔ (places_taken address self.now.seats < most) }
    {
        self.seats.len() < most || count_of(&self.seats, address) < most
    }

    /// Whether a place is free, or one could be: where somebody is idle.
    pub fn has_place(&self) -> bool
        ensures { MatchBool result ((length self.now.seats < self.now.lanes.room)
            ⊎ ((id : ℕ) × IsLongestIdle None self.now.seats id))
            ((self.now.lanes.room ≤ length self.now.seats) × NobodyIsIdle None self.now.seats) }
    {
        if self.seats.len() < self.lanes.room() {
            return true;
        }
        match longest_idle(&self.seats, None) {
            Some(_) => true,
            None => false,
        }
    }

    /// Takes a connection of an address in, which may have so many places, under an id that is not open: it stands among
    /// the fresh ones. `false` where there is no room, the address has as many places as it may, or memory was refused:
    /// then nothing changed.
    pub fn open(&mut self, id: u64, address: u64, most: usize) -> bool
        requires fresh { seat_at self.old id ≡ None }
        requires idle { self.old.turn ≡ None }
        ensures came { MatchBool result (HasCome id (new_seat address) self.old self.new)
            (self.new ≡ self.old) }
        ensures room { IsTrue result → length self.old.seats < self.old.lanes.room }
        ensures own { IsTrue result → places_taken address self.old.seats < most }
        ensures others { OthersStay id self.old self.new }
        ensures turn { self.new.turn ≡ self.old.turn }
    {
        if self.seats.len() >= self.lanes.room() || !self.may_have(address, most) {
            return false;
        }
        if !add_seat(&mut self.seats, id, Seat::new(address)) {
            return false;
        }
        self.lanes.push(Lane::Fresh, id);
        true
    }

    /// The socket of a connection was reported ready: where it waited for that, it has a turn to come. An id that is not
    /// open changes nothing.
    pub fn report(&mut self, id: u64, readable: bool, writable: bool)
        ensures told { IfSome (seat_at self.old id) (λ was. IsSomeAnd (seat_at self.new id)
            (λ now. IsReported was now readable writable
            × (self.new.lanes ≡ (if is_woken was.place now
            then lanes_after now.place id self.old.lanes else self.old.lanes)))) }
        ensures unknown { (seat_at self.old id ≡ None) → self.new ≡ self.old }
        ensures others { OthersStay id self.old self.new }
        ensures turn { self.new.turn ≡ self.old.turn }
    {
        let Some(mut seat) = self.seats.get(&id).copied() else {
            return;
        };
        match seat.report(readable, writable) {
            Some(lane) => come(&mut self.seats, &mut self.lanes, id, seat, lane),
            None => set_seat(&mut self.seats, id, seat),
        }
    }

    /// The turn of the one that has it is over. `false` where it is closed: it is over, or serving is to stop and nothing
    /// is owed to it.
    pub fn turned(&mut self, id: u64, turned: Turned, stopping: bool) -> bool
        requires turn { self.old.turn ≡ Some id }
        ensures stays { result ≡ not (is_closing turned stopping) }
        ensures turned { IfSome (seat_at self.old id) (λ was. MatchBool result
            (IsSomeAnd (seat_at self.new id) (λ now. IsTurned self.new.count was turned now
            × HasCome id now self.old self.new))
            (HasLeft id self.old self.new)) }
        ensures idle { self.new.turn ≡ None }
        ensures others { OthersStay id self.old self.new }
        ensures count { self.new.count ≡ min (self.old.count + 1) (2 ^ 64 - 1) }
    {
        self.turn = None;
        self.count = self.count.saturating_add(1);
        let Some(mut seat) = self.seats.get(&id).copied() else {
            return false;
        };
        let lane = seat.turns(turned, self.count);
        if turned.closes(stopping) {
            drop_seat(&mut self.seats, id);
            return false;
        }
        match lane {
            Some(lane) => come(&mut self.seats, &mut self.lanes, id, seat, lane),
            None => set_seat(&mut self.seats, id, seat),
        }
        true
    }

    /// Closes a connection that waits for its socket, as one whose time is over. `false` where it doesn't wait: one that
    /// has a turn to come is waited for by nobody.
    pub fn leave(&mut self, id: u64) -> bool
        ensures left { MatchBool result (IsAwaiting (seat_at self.old id)
            × HasLeft id self.old self.new)
            ((self.new ≡ self.old) × (IsAwaiting (seat_at self.old id) → ⊥)) }
        ensures others { OthersStay id self.old self.new }
        ensures turn { self.new.turn ≡ self.old.turn }
    {
        let Some(seat) = self.seats.get(&id).copied() else {
            return false;
        };
        match seat.place {
            Place::Awaits(_) => {
                drop_seat(&mut self.seats, id);
                true
            }
            Place::Queued(_) | Place::Turn => false,
        }
    }

    /// Closes a connection that waits for its socket and to which nothing is owed, since serving is to stop. `false`
    /// where it doesn't wait, or something is owed to it.
    pub fn dismiss(&mut self, id: u64) -> bool
        ensures left { MatchBool result (IsDismissible (seat_at self.old id)
            × HasLeft id self.old self.new)
            ((self.new ≡ self.old) × (IsDismissible (seat_at self.old id) → ⊥)) }
        ensures others { OthersStay id self.old self.new }
        ensures turn { self.new.turn ≡ self.old.turn }
    {
        match self.seats.get(&id).copied() {
            Some(seat) if !seat.owed => self.leave(id),
            _ => false,
        }
    }
}

/// Puts an open connection into a lane, which is its place from now on.
fn come(seats: &mut BTreeMap<u64, Seat>, lanes: &mut Lanes, id: u64, seat: Seat, lane: Lane)
    requires known { IsSome (seat_in seats.old.entries id) }
    requires place { seat.place ≡ place.Queued lane }
    requires room { queued_count lanes.old < lanes.old.room }
    ensures own { seat_in seats.new.entries id ≡ Some seat }
    ensures lanes { lanes.new ≡ lanes_with lane id lanes.old }
    ensures others { (q : ℕ) → q ≢ id →
        seat_in seats.new.entries q ≡ seat_in seats.old.entries q }
    ensures count { length seats.new.entries ≡ length seats.old.entries }
{
    lanes.push(lane, id);
    set_seat(seats, id, seat);
}

/// Adds a connection, and says whether there was memory for it.
fn add_seat(seats: &mut BTreeMap<u64, Seat>, id: u64, seat: Seat) -> bool
    requires { seat_in seats.old.entries id ≡ None }
    ensures own { MatchBool result (seat_in seats.new.entries id ≡ Some seat)
        (seats.new.entries ≡ seats.old.entries) }
    ensures others { (q : ℕ) → q ≢ id →
        seat_in seats.new.entries q ≡ seat_in seats.old.entries q }
    ensures count { length seats.new.entries ≤ length seats.old.entries + 1 }
{
    seats.insert(id, seat).is_ok()
}

/// Gives an open connection another place.
fn set_seat(seats: &mut BTreeMap<u64, Seat>, id: u64, seat: Seat)
    requires { IsSome (seat_in seats.old.entries id) }
    ensures own { seat_in seats.new.entries id ≡ Some seat }
    ensures others { (q : ℕ) → q ≢ id →
        seat_in seats.new.entries q ≡ seat_in seats.old.entries q }
    ensures count { length seats.new.entries ≡ length seats.old.entries }
{
    if let Some(place) = seats.get_mut(&id) {
        *place = seat;
    }
}

/// Takes a connection out.
fn drop_seat(seats: &mut BTreeMap<u64, Seat>, id: u64)
    ensures own { seat_in seats.new.entries id ≡ None }
    ensures others { (q : ℕ) → q ≢ id →
        seat_in seats.new.entries q ≡ seat_in seats.old.entries q }
    ensures count { length seats.new.entries ≤ length seats.old.entries }
{
    drop(seats.remove(&id));
}
