//! What a reply is read from.
ghost use Rattle.std.specs.Prelude.{◌≡◌, ◌<◌, ◌≤◌, ◌++◌, ◌⊎◌, ℕ, List, Some, None, Ok, length, take, IfSome, IsErrOf};
ghost use Rattle.resp.specs.Reading.{Gives, item_at, array_at, element_after, element_at, reply_after, reply_at, all_at};
ghost use Rattle.resp.specs.Command.{line, line_end};
ghost use Rattle.resp.specs.Spelled.{Writes, SpellsReply, IsBegun};
ghost use Rattle.resp.specs.Verdict.{IsReadAs};
ghost use Rattle.resp.specs.declared.reply.Item.TheVariants as item;
ghost use Rattle.resp.specs.declared.reply.Reply.{Reply};
ghost use Rattle.resp.specs.declared.reply.Reply.TheVariants as reply;

use crate::fault::{ReadStop, RespFault};
use crate::items::{Kind, item_after, mark_of, next_item};
use crate::lines::number;
use crate::{Element, Elements, Items, Limits, Reply};
use std::alloc::Global;

/// So many items. Memory is asked for as they come.
fn all_items(
    alloc: Global,
    limits: Limits,
    count: u64,
    bytes: &[u8],
) -> Result<(Items, &[u8]), ReadStop>
    ensures { Gives (Unit {0}) (λ x. (x.0, x.1.now)) result
        (all_at (item_at limits) count bytes.now) }
{
    let mut items = Vec::new(alloc);
    let mut rest = bytes;
    for _ in 0..count {
        let (read, after) = next_item(alloc, limits, rest)?;
        items.push(read)?;
        rest = after;
    }
    Ok((Items::from_vec(items), rest))
}

/// An array of items, behind its mark.
#[tactic(auto, unfolding(crate::specs::Reading::array_at))]
fn item_array(alloc: Global, limits: Limits, bytes: &[u8]) -> Result<(Items, &[u8]), ReadStop>
    ensures { Gives (Unit {0}) (λ x. (x.0, x.1.now)) result
        (array_at limits (item_at limits) bytes.now) }
{
    let (count, rest) = number(limits, u64::from(limits.elements), bytes)?;
    all_items(alloc, limits, count, rest)
}

/// An element, behind its mark.
#[tactic(auto, unfolding(crate::specs::Reading::element_after))]
fn element_after(
    alloc: Global,
    limits: Limits,
    mark: Option<Kind>,
    bytes: &[u8],
) -> Result<(Element, &[u8]), ReadStop>
    ensures { Gives (Unit {0}) (λ x. (x.0, x.1.now)) result
        (element_after limits mark bytes.now) }
{
    match mark {
        None => {
            let (all, rest) = item_array(alloc, limits, bytes)?;
            Ok((Element::Several(all), rest))
        }
        Some(kind) => {
            let (one, rest) = item_after(alloc, limits, kind, bytes)?;
            Ok((Element::One(one), rest))
        }
    }
}

/// An element.
#[tactic(auto, unfolding(crate::specs::Reading::element_at))]
fn next_element(alloc: Global, limits: Limits, bytes: &[u8]) -> Result<(Element, &[u8]), ReadStop>
    ensures { Gives (Unit {0}) (λ x. (x.0, x.1.now)) result (element_at limits bytes.now) }
{
    let [byte, rest @ ..] = bytes else {
        return Err(ReadStop::More);
    };
    match mark_of(*byte) {
        Ok(mark) => element_after(alloc, limits, mark, rest),
        Err(wrong) => Err(ReadStop::Wrong(wrong, bytes.len())),
    }
}

/// So many elements. Memory is asked for as they come.
fn all_elements(
    alloc: Global,
    limits: Limits,
    count: u64,
    bytes: &[u8],
) -> Result<(Elements, &[u8]), ReadStop>
    ensures { Gives (Unit {0}) (λ x. (x.0, x.1.now)) result
        (all_at (element_at limits) count bytes.now) }
{
    let mut elements = Vec::new(alloc);
    let mut rest = bytes;
    for _ in 0..count {
        let (read, after) = next_element(alloc, limits, rest)?;
        elements.push(read)?;
        rest = after;
    }
    Ok((Elements::from_vec(elements), rest))
}

/// An array, behind its mark.
#[tactic(auto, unfolding(crate::specs::Reading::array_at))]
fn element_array(alloc: Global, limits: Limits, bytes: &[u8]) -> Result<(Elements, &[u8]), ReadStop>
    ensures { Gives (Unit {0}) (λ x. (x.0, x.1.now)) result
        (array_at limits (element_at limits) bytes.now) }
{
    let (count, rest) = number(limits, u64::from(limits.elements), bytes)?;
    all_elements(alloc, limits, count, rest)
}

/// A reply, behind its mark.
#[tactic(auto, unfolding(crate::specs::Reading::reply_after))]
fn reply_after(
    alloc: Global,
    limits: Limits,
    mark: Option<Kind>,
    bytes: &[u8],
) -> Result<(Reply, &[u8]), ReadStop>
    ensures { Gives (Unit {0}) (λ x. (x.0, x.1.now)) result (reply_after limits mark bytes.now) }
{
    match mark {
        None => {
            let (all, rest) = element_array(alloc, limits, bytes)?;
            Ok((Reply::Several(all), rest))
        }
        Some(kind) => {
            let (one, rest) = item_after(alloc, limits, kind, bytes)?;
            Ok((Reply::One(one), rest))
        }
    }
}

/// A reply.
#[tactic(auto, unfolding(crate::specs::Reading::reply_at))]
fn next_reply(alloc: Global, limits: Limits, bytes: &[u8]) -> Result<(Reply, &[u8]), ReadStop>
    ensures { Gives (Unit {0}) (λ x. (x.0, x.1.now)) result (reply_at limits bytes.now) }
{
    let [byte, rest @ ..] = bytes else {
        return Err(ReadStop::More);
    };
    match mark_of(*byte) {
        Ok(mark) => reply_after(alloc, limits, mark, rest),
        Err(wrong) => Err(ReadStop::Wrong(wrong, bytes.len())),
    }
}

/// How many bytes a bulk string has whose line the bytes begin with, and how many bytes that line has with its mark and
/// its end: as many bytes of content and CR and LF behind it are a reply. `None` where they begin with no such line, or
/// not with the whole of it. So a caller can read a long bulk string to where it stays.
pub fn read_bulk_line(limits: Limits, bytes: &[u8]) -> Option<(usize, usize)>
    requires { 0 < limits.line }
    // With as many bytes and the end of a line behind it, what is read is a bulk string.
    ensures sound { IfSome result (λ line. (line.1 ≤ length bytes.now) × ((content : List ℕ) →
        length content ≡ line.0 → SpellsReply limits (reply.One (item.Bulk content))
        (take line.1 bytes.now ++ content ++ line_end))) }
    // What begins so is read, whatever follows.
    ensures whole { (digits rest : List ℕ) (len : ℕ) → Writes limits limits.bulk digits len →
        bytes.now ≡ line 36 digits ++ rest → result ≡ Some (len, length (line 36 digits)) }
{
    let [mark, rest @ ..] = bytes else {
        return None;
    };
    if *mark != b'$' {
        return None;
    }
    match number(limits, u64::from(limits.bulk), rest) {
        Ok((len, after)) => Some((len as usize, bytes.len() - after.len())),
        Err(_) => None,
    }
}

/// The reply with which the bytes begin, and how many bytes it has; `None` where they are a proper beginning of some
/// reply. What follows a reply isn't looked at.
///
/// Refused with [`RespFault::Wrong`] where the bytes before that place are a beginning and with the byte there they are
/// none, whatever follows, and with [`RespFault::NoMemory`] where there was no memory.
pub fn read_reply(
    alloc: Global,
    limits: Limits,
    bytes: &[u8],
) -> Result<Option<(Reply, usize)>, RespFault>
    requires { 0 < limits.line }
    // What is read is spelled so, or begun, or wrong there.
    ensures sound { IsReadAs (SpellsReply limits) bytes.now result }
    // What is spelled so is read, whatever follows.
    ensures whole { (reply : Reply) (front rest : List ℕ) → SpellsReply limits reply front →
        bytes.now ≡ front ++ rest →
        (result ≡ Ok (Some (reply, length front))) ⊎ IsErrOf result RespFault.NoMemory }
    // What is a beginning is told so.
    ensures begun { IsBegun (SpellsReply limits) bytes.now →
        (result ≡ Ok None) ⊎ IsErrOf result RespFault.NoMemory }
{
    match next_reply(alloc, limits, bytes) {
        Ok((read, rest)) => Ok(Some((read, bytes.len() - rest.len()))),
        Err(ReadStop::More) => Ok(None),
        Err(ReadStop::Wrong(wrong, left)) => Err(RespFault::Wrong(wrong, bytes.len() - left)),
        Err(ReadStop::NoMemory) => Err(RespFault::NoMemory),
    }
}
