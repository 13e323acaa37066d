//! Rows of small files in a directory, of which several are asked for at once.

use caps::Cap;
use client_core::{Exchange, begin_fetch, lane_at};
use dir_codec::Entry;

/// The most bytes of a file that is asked for beside others.
const MOST_BESIDE: u64 = 262_144;

/// A place among a directory's entries, and where the row of small files ends that it stands in.
#[derive(Clone, Copy)]
pub(crate) struct Row {
    /// The place behind it.
    after: usize,
    end: usize,
}

impl Row {
    /// In front of the first entry.
    pub fn new() -> Row {
        Row { after: 0, end: 0 }
    }

    /// Goes on to the next entry. Where a row begins there, its first files are asked for, one on each lane.
    pub fn go_on<E: Exchange>(&mut self, gateway: &mut E, entries: &[Entry]) {
        if self.after >= self.end {
            self.end = begin_row(gateway, entries, self.after);
        }
        self.after = self.after.saturating_add(1);
    }

    /// Whether the entry is of a small file.
    pub fn is_within(&self) -> bool {
        self.after <= self.end
    }

    /// The lane on which it is asked for.
    pub fn lane<E: Exchange>(&self, gateway: &E) -> usize {
        lane_at(gateway, self.after.saturating_sub(1))
    }

    /// The cap of the next file in the row that is asked for on this lane.
    pub fn next<'a, E: Exchange>(&self, gateway: &E, entries: &'a [Entry]) -> Option<&'a Cap> {
        let place = self.after.saturating_sub(1).saturating_add(gateway.lanes());
        if place >= self.end {
            return None;
        }
        Some(&entries.get(place)?.cap)
    }
}

/// Asks for the first of the small files that stand one behind the other from a place on, one on each lane, and gives the place
/// where they end.
fn begin_row<E: Exchange>(gateway: &mut E, entries: &[Entry], place: usize) -> usize {
    let mut end = place;
    for entry in entries.get(place..).unwrap_or(&[]) {
        if !is_small(&entry.cap) {
            return end;
        }
        if end.saturating_sub(place) < gateway.lanes() {
            let lane = lane_at(gateway, end);
            begin_fetch(gateway, lane, &entry.cap);
        }
        end = end.saturating_add(1);
    }
    end
}

/// Whether a cap is of a file that is small.
fn is_small(cap: &Cap) -> bool {
    match cap {
        Cap::Chk(fields) => fields.size <= MOST_BESIDE,
        Cap::Lit(_) => true,
        _ => false,
    }
}
