//! What a lone item is read from.
ghost use Rattle.std.specs.Prelude.{◌≡◌, ◌^◌, ◌≤◌, ◌-◌, pos, neg_ℤ, IsOk, IfOk, IfSome};
ghost use Rattle.std.specs.Option.{ForSome};
ghost use Rattle.resp.specs.Reading.{Gives, byte_at, only, lead_of, FitsLead, integer_after, integer_at, bulk_lead, bulk_after, bulk_at, kind_of, item_after, item_at, mark_of, content_at};

use crate::fault::{ReadStop, Wrong};
use crate::lines::{digit_step, digits, line_end, number, text};
use crate::{Item, Limits};
use octets::Bytes;
use std::alloc::Global;

/// The greatest integer.
const GREATEST: u64 = 9_223_372_036_854_775_807;

/// What an item is, by its mark.
#[derive(Clone, Copy)]
pub(crate) enum Kind {
    Text,
    Error,
    Integer,
    Bulk,
}

/// The first byte of an integer.
#[derive(Clone, Copy)]
pub(crate) enum Lead {
    Plus,
    Minus,
    Digit(u64),
}

#[tactic(auto, unfolding(crate::specs::Reading::lead_of))]
fn lead_of(limits: Limits, byte: u8) -> Result<Lead, Wrong>
    ensures lead { result ≡ lead_of limits byte }
    ensures fits { IfOk result FitsLead }
{
    if byte == b'+' {
        return Ok(Lead::Plus);
    }
    if byte == b'-' {
        return Ok(Lead::Minus);
    }
    match digit_step(limits, GREATEST, 0, 0, byte) {
        Ok((value, _)) => Ok(Lead::Digit(value)),
        Err(wrong) => Err(wrong),
    }
}

/// An integer that isn't negative.
fn positive(magnitude: u64) -> i64
    requires { magnitude ≤ 2 ^ 63 - 1 }
    ensures { result ≡ pos magnitude }
{
    magnitude as i64
}

/// The negative of a number.
fn negative(magnitude: u64) -> i64
    requires { magnitude ≤ 2 ^ 63 }
    ensures { result ≡ neg_ℤ (pos magnitude) }
{
    if magnitude == 0 {
        0
    } else {
        -((magnitude - 1) as i64) - 1
    }
}

#[tactic(auto, unfolding(crate::specs::Reading::integer_after))]
fn integer_after(limits: Limits, lead: Lead, bytes: &[u8]) -> Result<(i64, &[u8]), ReadStop>
    requires { FitsLead lead }
    ensures { Gives ⊥ (λ x. (x.0, x.1.now)) result (integer_after limits lead bytes.now) }
{
    match lead {
        Lead::Plus => {
            let (magnitude, rest) = number(limits, GREATEST, bytes)?;
            Ok((positive(magnitude), rest))
        }
        Lead::Minus => {
            let (magnitude, rest) = number(limits, GREATEST + 1, bytes)?;
            Ok((negative(magnitude), rest))
        }
        Lead::Digit(value) => {
            let (magnitude, rest) = digits(limits, GREATEST, value, 1, bytes)?;
            Ok((positive(magnitude), rest))
        }
    }
}

/// An integer.
#[tactic(auto, unfolding(crate::specs::Reading::integer_at))]
fn next_integer(limits: Limits, bytes: &[u8]) -> Result<(i64, &[u8]), ReadStop>
    ensures { Gives ⊥ (λ x. (x.0, x.1.now)) result (integer_at limits bytes.now) }
{
    let [byte, rest @ ..] = bytes else {
        return Err(ReadStop::More);
    };
    match lead_of(limits, *byte) {
        Ok(lead) => integer_after(limits, lead, rest),
        Err(wrong) => Err(ReadStop::Wrong(wrong, bytes.len())),
    }
}

/// The first byte of a bulk string's length: its first digit, or `None` for a minus.
#[tactic(auto, unfolding(crate::specs::Reading::bulk_lead))]
fn bulk_lead(limits: Limits, byte: u8) -> Result<Option<u64>, Wrong>
    ensures lead { result ≡ bulk_lead limits byte }
    ensures fits { IfOk result (λ lead. IfSome lead (λ value. value ≤ limits.bulk)) }
{
    if byte == b'-' {
        return Ok(None);
    }
    match digit_step(limits, u64::from(limits.bulk), 0, 0, byte) {
        Ok((value, _)) => Ok(Some(value)),
        Err(wrong) => Err(wrong),
    }
}

/// The digit 1.
fn digit_one(bytes: &[u8]) -> Result<(u8, &[u8]), ReadStop>
    ensures { Gives ⊥ (λ x. (x.0, x.1.now)) result (byte_at (only 49) bytes.now) }
{
    let [byte, rest @ ..] = bytes else {
        return Err(ReadStop::More);
    };
    if *byte == b'1' {
        Ok((*byte, rest))
    } else {
        Err(ReadStop::Wrong(Wrong::Malformed, bytes.len()))
    }
}

/// So many bytes, once they came.
#[tactic(auto, unfolding(crate::specs::Reading::content_at))]
fn content(len: u64, bytes: &[u8]) -> Result<(&[u8], &[u8]), ReadStop>
    ensures { Gives ⊥ (λ x. (x.0.now, x.1.now)) result (content_at len bytes.now) }
{
    if (bytes.len() as u64) < len {
        return Err(ReadStop::More);
    }
    Ok(bytes.split_at(len as usize))
}

/// The rest of a bulk string. Memory is asked for once all of it came.
#[tactic(auto, unfolding(crate::specs::Reading::bulk_after))]
fn bulk_after(
    alloc: Global,
    limits: Limits,
    lead: Option<u64>,
    bytes: &[u8],
) -> Result<(Item, &[u8]), ReadStop>
    requires { ForSome lead (λ value. value ≤ limits.bulk) }
    ensures { Gives (IsOk (bulk_after limits lead bytes.now)) (λ x. (x.0, x.1.now)) result
        (bulk_after limits lead bytes.now) }
{
    match lead {
        None => {
            let (_, rest) = digit_one(bytes)?;
            let (_, after) = line_end(rest)?;
            Ok((Item::Null, after))
        }
        Some(value) => {
            let (len, rest) = digits(limits, u64::from(limits.bulk), value, 1, bytes)?;
            let (content, after) = content(len, rest)?;
            let (_, end) = line_end(after)?;
            Ok((Item::Bulk(Bytes::from_slice(alloc, content)?), end))
        }
    }
}

/// A bulk string, behind its mark.
#[tactic(auto, unfolding(crate::specs::Reading::bulk_at))]
fn next_bulk(alloc: Global, limits: Limits, bytes: &[u8]) -> Result<(Item, &[u8]), ReadStop>
    ensures { Gives (IsOk (bulk_at limits bytes.now)) (λ x. (x.0, x.1.now)) result
        (bulk_at limits bytes.now) }
{
    let [byte, rest @ ..] = bytes else {
        return Err(ReadStop::More);
    };
    match bulk_lead(limits, *byte) {
        Ok(lead) => bulk_after(alloc, limits, lead, rest),
        Err(wrong) => Err(ReadStop::Wrong(wrong, bytes.len())),
    }
}

/// What an item is by its mark.
#[tactic(auto, unfolding(crate::specs::Reading::kind_of))]
fn kind_of(byte: u8) -> Result<Kind, Wrong>
    ensures { result ≡ kind_of byte }
{
    match byte {
        b'+' => Ok(Kind::Text),
        b'-' => Ok(Kind::Error),
        b':' => Ok(Kind::Integer),
        b'$' => Ok(Kind::Bulk),
        _ => Err(Wrong::Malformed),
    }
}

/// What an item is by its mark, or `None` for an array.
#[tactic(auto, unfolding(crate::specs::Reading::mark_of))]
pub(crate) fn mark_of(byte: u8) -> Result<Option<Kind>, Wrong>
    ensures { result ≡ mark_of byte }
{
    if byte == b'*' {
        return Ok(None);
    }
    match kind_of(byte) {
        Ok(kind) => Ok(Some(kind)),
        Err(wrong) => Err(wrong),
    }
}

/// An item, behind its mark. Memory is asked for once all of it came.
#[tactic(auto, unfolding(crate::specs::Reading::item_after))]
pub(crate) fn item_after(
    alloc: Global,
    limits: Limits,
    kind: Kind,
    bytes: &[u8],
) -> Result<(Item, &[u8]), ReadStop>
    ensures { Gives (IsOk (item_after limits kind bytes.now)) (λ x. (x.0, x.1.now)) result
        (item_after limits kind bytes.now) }
{
    match kind {
        Kind::Text => {
            let (content, rest) = text(alloc, limits, bytes)?;
            Ok((Item::Text(content), rest))
        }
        Kind::Error => {
            let (content, rest) = text(alloc, limits, bytes)?;
            Ok((Item::Error(content), rest))
        }
        Kind::Integer => {
            let (value, rest) = next_integer(limits, bytes)?;
            Ok((Item::Integer(value), rest))
        }
        Kind::Bulk => next_bulk(alloc, limits, bytes),
    }
}

/// An item.
#[tactic(auto, unfolding(crate::specs::Reading::item_at))]
pub(crate) fn next_item(
    alloc: Global,
    limits: Limits,
    bytes: &[u8],
) -> Result<(Item, &[u8]), ReadStop>
    ensures { Gives (IsOk (item_at limits bytes.now)) (λ x. (x.0, x.1.now)) result
        (item_at limits bytes.now) }
{
    let [byte, rest @ ..] = bytes else {
        return Err(ReadStop::More);
    };
    match kind_of(*byte) {
        Ok(kind) => item_after(alloc, limits, kind, rest),
        Err(wrong) => Err(ReadStop::Wrong(wrong, bytes.len())),
    }
}
