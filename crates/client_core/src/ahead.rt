//! Requests that are under way at once: while one is waited for, the next ones are sent ahead, each on a lane of its own.
ghost use Rattle.std.specs.Prelude.{◌≡◌, ◌≢◌, [], Result, IfOk, OnOk, IfErr, OnErr, MatchResult, Ok};
ghost use Rattle.client_core.specs.declared.ask.Ask.TheVariants as asked;
ghost use Rattle.cap_binding.specs.Binds.{Binds, AreFileOf};
ghost use Rattle.client_core.specs.Given.{IsBoundAnswer, IsUnboundAnswer, IsNamedAnswer};
ghost use Rattle.client_core.specs.declared.exchange.Answer.{Answer as Answered};
ghost use Rattle.client_core.specs.declared.exchange.LinkFault.{LinkFault as Fault};

use crate::ask::Ask;
use crate::exchange::{Answer, Exchange, LinkFault};
use crate::fault::ClientFault;
use crate::fetch::{body_of, fetch_file, most_of};
use crate::held::file_held;
use crate::store::MOST_OF_A_CAP;
use cap_binding::bound;
use caps::{Cap, ReadFields};
use std::alloc::Global;

/// The lane of the request at a place in a row of them, the first of which has place 0.
pub fn lane_at<E: Exchange>(gateway: &E, place: usize) -> usize {
    place.checked_rem(gateway.lanes()).unwrap_or(0)
}

/// Sends a file ahead on a lane.
pub fn begin_put<E: Exchange>(gateway: &mut E, lane: usize, bytes: &[u8]) {
    gateway.begin(lane, &Ask::Put, bytes);
}

/// Stores a file that may have been sent ahead on a lane, and gives its cap. The next one is sent ahead there before the cap is
/// held against the file, so that the gateway isn't idle meanwhile.
///
/// Whatever the gateway answers, to this request or to others, the cap is of these bytes, or the call is refused with
/// [`ClientFault::NotBound`].
pub fn put_begun<E: Exchange>(
    alloc: Global,
    gateway: &mut E,
    lane: usize,
    bytes: &[u8],
    next: Option<&[u8]>,
) -> Result<Cap, ClientFault>
    ensures bound { IfOk result (λ cap. AreFileOf cap bytes.now) }
    ensures answered { (r : Result Answered Fault) × (after : E)
        × (E.told gateway.old asked.Put bytes.now r after)
        × IfOk result (IsNamedAnswer r) }
{
    let answer = gateway.finish(lane, &Ask::Put, bytes, MOST_OF_A_CAP);
    if let Some(next) = next {
        begin_put(gateway, lane, next);
    }
    cap_of(alloc, answer, bytes)
}

/// The cap that an answer names, where it is of these bytes.
fn cap_of(
    alloc: Global,
    answer: Result<Answer, LinkFault>,
    bytes: &[u8],
) -> Result<Cap, ClientFault>
    ensures bound { IfOk result (λ cap. AreFileOf cap bytes.now) }
    ensures named { IfOk result (IsNamedAnswer answer) }
{
    let text = body_of(answer?)?;
    let copy = Vec::from_slice(alloc, bytes)?;
    let (cap, _) = file_held(alloc, &text, copy)?;
    Ok(cap)
}

/// Asks ahead on a lane for what is stored under a cap, if it is one of a stored file.
pub fn begin_fetch<E: Exchange>(gateway: &mut E, lane: usize, cap: &Cap) {
    if let Cap::Chk(fields) = cap {
        gateway.begin(lane, &Ask::Read(*fields), &[]);
    }
}

/// The bytes of a file that may have been asked for ahead on a lane. The next one is asked for there before they are held
/// against their cap.
pub fn fetch_begun<E: Exchange>(
    alloc: Global,
    gateway: &mut E,
    lane: usize,
    cap: &Cap,
    next: Option<&Cap>,
) -> Result<Vec<u8>, ClientFault>
    ensures { IfOk result (λ bytes. AreFileOf cap.now bytes.items) }
{
    if let Cap::Chk(fields) = cap {
        return stored_begun(alloc, gateway, lane, fields, next);
    }
    if let Some(next) = next {
        begin_fetch(gateway, lane, next);
    }
    fetch_file(alloc, gateway, cap)
}

/// The same of the bytes that are stored under these fields.
///
/// Whatever the gateway answers, to this request or to others, they are those that the fields bind, or the call is refused:
/// with [`ClientFault::NotBound`] where others came.
pub fn stored_begun<E: Exchange>(
    alloc: Global,
    gateway: &mut E,
    lane: usize,
    fields: &ReadFields,
    next: Option<&Cap>,
) -> Result<Vec<u8>, ClientFault>
    ensures bound { IfOk result (λ bytes. Binds fields.now bytes.items) }
    ensures exact { (r : Result Answered Fault) × (after : E)
        × (E.told gateway.old (asked.Read fields.now) [] r after)
        × MatchResult result (λ bytes. IsBoundAnswer fields.now r bytes.items)
        (λ fault. fault ≢ ClientFault.NoMemory → IsUnboundAnswer fields.now r) }
{
    let answer = gateway.finish(lane, &Ask::Read(*fields), &[], most_of(fields));
    if let Some(next) = next {
        begin_fetch(gateway, lane, next);
    }
    bytes_of(alloc, answer, fields)
}

/// The bytes of an answer, where they are those that the fields bind.
fn bytes_of(
    alloc: Global,
    answer: Result<Answer, LinkFault>,
    fields: &ReadFields,
) -> Result<Vec<u8>, ClientFault>
    ensures bound { IfOk result (λ bytes. Binds fields.now bytes.items) }
    ensures exact { MatchResult result (λ bytes. IsBoundAnswer fields.now answer bytes.items)
        (λ fault. fault ≢ ClientFault.NoMemory → IsUnboundAnswer fields.now answer) }
{
    let bytes = body_of(answer?)?;
    match bound(alloc, fields, bytes)? {
        Some(bytes) => Ok(bytes),
        None => Err(ClientFault::NotBound),
    }
}
