//! Which file it is whose shares stand under a storage index, and which of them are where they are to be.
ghost use Rattle.std.specs.Prelude.{◌≡◌, ◌<◌, ℕ, Some, All, Any, Contains, IfOk, IfSome, IsTrue};
ghost use Rattle.std.specs.Rc.{rc_slice_items};
ghost use Rattle.grid.specs.Placement.{server_of};
ghost use Rattle.share_repair.specs.Judged.{IsTheGiven};
ghost use Rattle.share_repair.specs.Whole.{IsAtServer};

use crate::judging::Judged;
use crate::label::Label;
use std::alloc::{AllocError, Global};
use std::rc::RcSlice;

/// The first of these that is a good share of a file of which there are enough.
pub(crate) fn chosen(judged: &[Judged]) -> Option<&Judged> {
    for one in judged {
        if is_enough(judged, one) {
            return Some(one);
        }
    }
    None
}

/// Whether there are enough good shares of another file than this one.
pub(crate) fn has_rival(judged: &[Judged], label: &Label) -> bool {
    for one in judged {
        if !is_of(one, label) && is_enough(judged, one) {
            return true;
        }
    }
    false
}

/// Whether a string is a good share of a file of which there are enough.
fn is_enough(judged: &[Judged], one: &Judged) -> bool {
    match &one.label {
        Some(label) => has_enough(judged, label),
        None => false,
    }
}

/// Whether good shares of as many numbers stand as a file needs.
fn has_enough(judged: &[Judged], label: &Label) -> bool {
    let mut numbers = 0;
    for number in 0..label.params.n {
        if first_of(judged, label, number).is_some() {
            numbers += 1;
        }
    }
    numbers >= label.params.k
}

/// The first good share of a file with this number.
fn first_of<'a>(judged: &'a [Judged], label: &Label, number: u16) -> Option<&'a Judged>
    ensures { IfSome result (λ one. Contains judged.now one.now × (one.now.number ≡ number)) }
{
    for one in judged {
        if one.number == number && is_of(one, label) {
            return Some(one);
        }
    }
    None
}

/// Whether a string is a good share of that file.
fn is_of(one: &Judged, label: &Label) -> bool
    ensures { IsTrue result → one.now.label ≡ Some label.now }
{
    match &one.label {
        Some(own) => *own == *label,
        None => false,
    }
}

/// The good shares of the least numbers, as many as the file needs, one of each number.
pub(crate) fn given(
    alloc: Global,
    judged: &[Judged],
    label: &Label,
) -> Result<Vec<(u16, RcSlice<u8>)>, AllocError>
    ensures { IfOk result (λ given. All (λ g. Any (IsTheGiven g.0 (rc_slice_items g.1)) judged.now) given.items) }
{
    let mut given = Vec::with_capacity(alloc, label.params.k as usize)?;
    for number in 0..label.params.n {
        if given.len() == label.params.k as usize {
            return Ok(given);
        }
        if let Some(one) = first_of(judged, label, number) {
            given.push((number, one.bytes.clone()?))?;
        }
    }
    Ok(given)
}

/// In how many places of a file's shares no good one of it stands, where there are so many servers.
pub(crate) fn missing(judged: &[Judged], label: &Label, index: &[u8; 16], servers: usize) -> u32
    requires { 0 < servers }
    ensures none { result ≡ 0 → (number : ℕ) → number < label.now.params.n →
        Any (IsAtServer label.now (server_of servers index.now number) number) judged.now }
{
    let mut missing = 0;
    for number in 0..label.params.n {
        if !stands(judged, label, number, place_of(index, number, servers)) {
            missing += 1;
        }
    }
    missing
}

/// Whether a good share of a file with this number stands at this server.
fn stands(judged: &[Judged], label: &Label, number: u16, server: usize) -> bool
    ensures { IsTrue result → Any (IsAtServer label.now server number) judged.now }
{
    for one in judged {
        if one.server == server && one.number == number && is_of(one, label) {
            return true;
        }
    }
    false
}

/// The server at which the share of a number is to stand, as uploads place it.
pub(crate) fn place_of(index: &[u8; 16], number: u16, servers: usize) -> usize
    requires { 0 < servers }
    ensures { result ≡ server_of servers index.now number }
{
    (usize::from(index[15]) + usize::from(number)) % servers
}
