//! Netstrings: bytes that say how many they are, as `3:abc,`.
ghost use Rattle.std.specs.Prelude.{◌≡◌, ◌+◌, ◌^◌, ◌<◌, ◌≤◌, ◌++◌, length, drop, IfOk, OnOk, OnErr, Ok, true, Some, None, if◌then◌else◌, nat_lt};
ghost use Rattle.std.specs.List.{list_all, prefix_len};
ghost use Rattle.std.specs.Char.{is_ascii_digit};
ghost use Rattle.std.specs.Str.Parse.{digits_value};
ghost use Rattle.tag_hash.specs.Netstring.{netstring};
ghost use Rattle.tag_hash.specs.NetstringAt.{netstring_at, announced, closed, digit_count};

use crate::decimals::Decimal;
use std::alloc::{AllocError, Global};
use std::fmt;

/// A part of a list of bytes: the place of its first byte, and how many bytes it has.
#[derive(Clone, Copy, PartialEq, Eq)]
pub struct Span {
    /// The place of its first byte.
    pub start: usize,
    /// How many bytes it has.
    pub len: usize,
}

/// Why no netstring is read at a place: the first fault that is met from left to right.
#[derive(Clone, Copy, Debug, PartialEq, Eq)]
pub enum NetFault {
    /// Something else than a digit stands at the place.
    NotDigits,
    /// A 0 stands before another digit.
    LeadingZero,
    /// The bytes end before the netstring does, or no colon stands after the digits.
    Short,
    /// Another byte than a comma stands after the announced bytes.
    NoComma,
    /// The length is no number of 64 bits.
    TooLong,
}

impl fmt::Display for NetFault {
    fn fmt<W: fmt::Write>(&self, f: &mut fmt::Formatter<W>) -> fmt::Result {
        f.write_str(match self {
            NetFault::NotDigits => "a netstring begins with digits",
            NetFault::LeadingZero => "a netstring's length has no leading zero",
            NetFault::Short => "a netstring is cut short",
            NetFault::NoComma => "a netstring ends with a comma",
            NetFault::TooLong => "a netstring's length is too large",
        })
    }
}

/// The netstring of `bytes`: their number in decimal, a colon, the bytes and a comma.
/// `Err` only where memory is refused.
pub fn netstring(alloc: Global, bytes: &[u8]) -> Result<Vec<u8>, AllocError>
    ensures { IfOk result (λ text. text.items ≡ netstring bytes.now) }
{
    let mut text = Vec::new(alloc);
    push_netstring(&mut text, bytes)?;
    Ok(text)
}

/// Appends the netstring of `bytes` to `text`.
/// `Err` only where memory is refused, and then `text` has the bytes that it had.
pub fn push_netstring(text: &mut Vec<u8>, bytes: &[u8]) -> Result<(), AllocError>
    ensures ok { OnOk result (text.new.items ≡ text.old.items ++ netstring bytes.now) }
    ensures err { OnErr result (text.new.items ≡ text.old.items) }
{
    let size = Decimal::new(bytes.len() as u64);
    let digits = size.as_bytes();
    text.reserve(digits.len() + bytes.len() + 2)?;
    text.extend_from_slice(digits)?;
    text.extend_from_slice(b":")?;
    text.extend_from_slice(bytes)?;
    text.extend_from_slice(b",")?;
    Ok(())
}

/// Reads the netstring that begins at the place `at`: the span of its bytes, and the place after its
/// comma. What follows there is not looked at. A place at or past the end is `Short`.
///
/// # Errors
/// The first fault that is met from left to right: [`NetFault`] says when each comes. No length past
/// 64 bits is taken, and nothing is read past the end.
pub fn read_netstring(bytes: &[u8], at: usize) -> Result<(Span, usize), NetFault>
    ensures exact { result ≡ netstring_at bytes.now at }
    ensures inside { IfOk result (λ read. (read.0.start + read.0.len + 1 ≡ read.1)
        × (read.1 ≤ length bytes.now)) }
{
    let text = rest_from(bytes, at);
    let size = announced(text)?;
    closed(bytes, at + digit_count(text) + 1, size)
}

/// What stands from the place `at` on, nothing past the end.
fn rest_from(bytes: &[u8], at: usize) -> &[u8]
    ensures { result.now ≡ drop at bytes.now }
{
    if at < bytes.len() { &bytes[at..] } else { &[] }
}

/// The span of `size` bytes from `start` on, if a colon stands before it and a comma after it.
fn closed(bytes: &[u8], start: usize, size: usize) -> Result<(Span, usize), NetFault>
    requires { 0 < start }
    ensures { result ≡ closed bytes.now start (Ok size) }
{
    if start > bytes.len() || bytes[start - 1] != b':' || bytes.len() - start <= size {
        return Err(NetFault::Short);
    }
    let end = start + size;
    if bytes[end] != b',' {
        return Err(NetFault::NoComma);
    }
    Ok((Span { start, len: size }, end + 1))
}

/// The number of bytes that a text announces.
fn announced(text: &[u8]) -> Result<usize, NetFault>
    ensures { result ≡ announced text.now }
{
    if text.is_empty() {
        return Err(NetFault::Short);
    }
    let digits = digit_count(text);
    if digits == 0 {
        return Err(NetFault::NotDigits);
    }
    if text[0] == b'0' && digits > 1 {
        return Err(NetFault::LeadingZero);
    }
    value_of(&text[..digits]).ok_or(NetFault::TooLong)
}

/// How many digits a text begins with.
fn digit_count(text: &[u8]) -> usize
    ensures count { result ≡ digit_count text.now }
    ensures within { result ≤ length text.now }
{
    text.iter().take_while(|byte| byte.is_ascii_digit()).count()
}

/// The number that digits write, if it is one of 64 bits.
fn value_of(digits: &[u8]) -> Option<usize>
    requires { list_all is_ascii_digit digits.now ≡ true }
    ensures { result ≡ (if nat_lt (digits_value 10 digits.now) (2 ^ 64)
        then Some (digits_value 10 digits.now) else None) }
{
    let mut number: usize = 0;
    for digit in digits {
        number = number
            .checked_mul(10)?
            .checked_add((*digit - b'0') as usize)?;
    }
    Some(number)
}
