//! Who is given up for a newcomer.
ghost use Rattle.std.specs.Prelude.{◌≡◌, IfSome, IfNone};
ghost use Rattle.gate_turns.specs.Places.{IsLongestIdle, NobodyIsIdle, idle_for, longer_idle, places_taken};

use crate::seat::Seat;
use std::collections::BTreeMap;

/// What becomes of a newcomer.
#[derive(Clone, Copy, PartialEq, Eq)]
pub enum Choice {
    /// There is a place for it.
    Opens,
    /// It has the place of this connection, which is to be closed.
    Replaces(u64),
    /// There is no place for it.
    Refused,
}

/// How many connections of an address are open. Each is looked at.
pub fn count_of(seats: &BTreeMap<u64, Seat>, address: u64) -> usize
    ensures { result ≡ places_taken address seats.now.entries }
{
    seats
        .iter()
        .filter(|(_, seat)| seat.address == address)
        .count()
}

/// The connection that has been idle longest, of an address, or of all where there is none. Each is looked at.
pub fn longest_idle(seats: &BTreeMap<u64, Seat>, wanted: Option<u64>) -> Option<u64>
    ensures some { IfSome result (λ id. IsLongestIdle wanted seats.now.entries id) }
    ensures none { IfNone result (NobodyIsIdle wanted seats.now.entries) }
{
    let mut best: Option<(u64, u64)> = None;
    for (id, seat) in seats.iter() {
        best = longer_idle(best, *id, idle_for(seat, wanted));
    }
    match best {
        Some((id, _)) => Some(id),
        None => None,
    }
}

/// Since when a connection is idle, if it is of the address that is asked for.
fn idle_for(seat: &Seat, wanted: Option<u64>) -> Option<u64>
    ensures { result ≡ idle_for wanted seat.now }
{
    match wanted {
        Some(address) if address != seat.address => None,
        _ => seat.idle_since(),
    }
}

/// The one that has been idle longer: the best one of those before, or this one, where it is idle.
fn longer_idle(best: Option<(u64, u64)>, id: u64, idle: Option<u64>) -> Option<(u64, u64)>
    ensures { result ≡ longer_idle best id idle }
{
    match (best, idle) {
        (_, None) => best,
        (None, Some(since)) => Some((id, since)),
        (Some((_, before)), Some(since)) => {
            if since < before {
                Some((id, since))
            } else {
                best
            }
        }
    }
}
