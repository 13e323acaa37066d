//! Lines and numbers.
ghost use Rattle.std.specs.Prelude.{◌≡◌, ◌^◌, ◌<◌, ◌≤◌, IsOk, IfOk, length, take};
ghost use Rattle.std.specs.Char.{digit_value};
ghost use Rattle.std.specs.Option.{SomeIff};
ghost use Rattle.resp.specs.Reading.{Gives, byte_at, only, line_end_at, text_at, digit_step, digits_at, number_at};

use crate::Limits;
use crate::fault::{ReadStop, Wrong};
use octets::Bytes;
use std::alloc::Global;

pub(crate) const CR: u8 = b'\r';

pub(crate) const LF: u8 = b'\n';

/// The line feed behind a CR, which is no more than the byte that was read.
pub(crate) fn line_feed(bytes: &[u8]) -> Result<(u8, &[u8]), ReadStop>
    ensures { Gives ⊥ (λ x. (x.0, x.1.now)) result (byte_at (only 10) bytes.now) }
{
    let [byte, rest @ ..] = bytes else {
        return Err(ReadStop::More);
    };
    if *byte == LF {
        Ok((*byte, rest))
    } else {
        Err(ReadStop::Wrong(Wrong::Malformed, bytes.len()))
    }
}

/// The end of a line, with its last byte.
#[tactic(auto, unfolding(crate::specs::Reading::line_end_at))]
pub(crate) fn line_end(bytes: &[u8]) -> Result<(u8, &[u8]), ReadStop>
    ensures { Gives ⊥ (λ x. (x.0, x.1.now)) result (line_end_at bytes.now) }
{
    let [byte, rest @ ..] = bytes else {
        return Err(ReadStop::More);
    };
    if *byte == CR {
        line_feed(rest)
    } else {
        Err(ReadStop::Wrong(Wrong::Malformed, bytes.len()))
    }
}

/// How many bytes a text has that ends with its line.
#[tactic(auto, unfolding(crate::specs::Reading::text_at))]
fn text_len(limits: Limits, bytes: &[u8]) -> Result<(usize, &[u8]), ReadStop>
    ensures gives { Gives ⊥ (λ x. (take x.0 bytes.now, x.1.now)) result
        (text_at limits bytes.now) }
    ensures within { IfOk result (λ x. x.0 ≤ length bytes.now) }
{
    for (at, byte) in bytes.iter().enumerate() {
        if *byte == CR {
            let (_, rest) = line_feed(&bytes[at + 1..])?;
            return Ok((at, rest));
        }
        if *byte == LF {
            return Err(ReadStop::Wrong(Wrong::Malformed, bytes.len() - at));
        }
        if at >= limits.line {
            return Err(ReadStop::Wrong(Wrong::TooLarge, bytes.len() - at));
        }
    }
    Err(ReadStop::More)
}

/// A text that ends with its line.
pub(crate) fn text(alloc: Global, limits: Limits, bytes: &[u8]) -> Result<(Bytes, &[u8]), ReadStop>
    ensures { Gives (IsOk (text_at limits bytes.now)) (λ x. (x.0, x.1.now)) result
        (text_at limits bytes.now) }
{
    let (len, rest) = text_len(limits, bytes)?;
    Ok((Bytes::from_slice(alloc, &bytes[..len])?, rest))
}

/// The digit that a byte writes.
fn digit(byte: u8) -> Option<u32>
    ensures { SomeIff result (digit_value byte < 10) (digit_value byte) }
{
    char::from(byte).to_digit(10)
}

/// One more digit of a number of which there is its value so far and how many digits there were.
#[tactic(auto, unfolding(crate::specs::Reading::digit_step))]
pub(crate) fn digit_step(
    limits: Limits,
    most: u64,
    value: u64,
    count: usize,
    byte: u8,
) -> Result<(u64, usize), Wrong>
    requires most { most ≤ 2 ^ 63 }
    requires value { value ≤ most }
    ensures step { result ≡ digit_step limits most (value, count) byte }
    ensures fits { IfOk result (λ s. s.0 ≤ most) }
{
    let Some(digit) = digit(byte) else {
        return Err(Wrong::Malformed);
    };
    let digit = u64::from(digit);
    if count < limits.line && value <= most / 10 && value * 10 + digit <= most {
        Ok((value * 10 + digit, count + 1))
    } else {
        Err(Wrong::TooLarge)
    }
}

/// The rest of a number, up to the end of its line, of which there is its value so far and how many digits there were.
#[tactic(auto, unfolding(crate::specs::Reading::digits_at))]
pub(crate) fn digits(
    limits: Limits,
    most: u64,
    value: u64,
    count: usize,
    bytes: &[u8],
) -> Result<(u64, &[u8]), ReadStop>
    requires most { most ≤ 2 ^ 63 }
    requires value { value ≤ most }
    ensures gives { Gives ⊥ (λ x. (x.0, x.1.now)) result
        (digits_at limits most (value, count) bytes.now) }
    ensures fits { IfOk result (λ x. x.0 ≤ most) }
{
    let mut value = value;
    let mut count = count;
    for (at, byte) in bytes.iter().enumerate() {
        if *byte == CR {
            let (_, rest) = line_feed(&bytes[at + 1..])?;
            return Ok((value, rest));
        }
        match digit_step(limits, most, value, count, *byte) {
            Ok((longer, more)) => {
                value = longer;
                count = more;
            }
            Err(wrong) => return Err(ReadStop::Wrong(wrong, bytes.len() - at)),
        }
    }
    Err(ReadStop::More)
}

/// A number that is at most so much, and ends with its line.
#[tactic(auto, unfolding(crate::specs::Reading::number_at))]
pub(crate) fn number(limits: Limits, most: u64, bytes: &[u8]) -> Result<(u64, &[u8]), ReadStop>
    requires most { most ≤ 2 ^ 63 }
    ensures gives { Gives ⊥ (λ x. (x.0, x.1.now)) result (number_at limits most bytes.now) }
    ensures fits { IfOk result (λ x. x.0 ≤ most) }
{
    let [byte, rest @ ..] = bytes else {
        return Err(ReadStop::More);
    };
    match digit_step(limits, most, 0, 0, *byte) {
        Ok((value, count)) => digits(limits, most, value, count, rest),
        Err(wrong) => Err(ReadStop::Wrong(wrong, bytes.len())),
    }
}
