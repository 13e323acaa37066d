//! TEXT in a script: bytes with escapes.
ghost use Rattle.std.specs.Prelude.{◌≡◌, ◌++◌, IfOk, OnOk, MatchOption, IfSome, All, length, None, Some, true, false, ◌<◌};
ghost use Rattle.std.specs.Option.{option_map};
ghost use Rattle.gate_tasks.specs.Text.{IsCutWhere, unescaped, after_backslash, after_x, followed_by, is_hex, hex_value, hex_digit, is_printable, escape_of, escaped};

use octets::{Bytes, split_at_byte};
use std::alloc::{AllocError, Global};

/// The bytes for which a text stands, or `None` where a backslash begins no escape: the escapes are `\r`, `\n`, `\\`
/// and `\x` with two digits of base 16 in lower case.
pub fn unescape(alloc: Global, text: &[u8]) -> Result<Option<Bytes>, AllocError>
    ensures { IfOk result (λ piece. piece ≡ unescaped text.now) }
{
    let mut bytes = Vec::with_capacity(alloc, text.len())?;
    let mut rest = text;
    while let Some((plain, behind)) = split_at_byte(rest, b'\\') {
        bytes.extend_from_slice(plain)?;
        let Some((byte, after)) = read_escape(behind) else {
            return Ok(None);
        };
        bytes.push(byte)?;
        rest = after;
    }
    bytes.extend_from_slice(rest)?;
    Ok(Some(Bytes::from_vec(bytes)))
}

/// The byte that the characters after a backslash name, and the text after them.
fn read_escape(text: &[u8]) -> Option<(u8, &[u8])>
    ensures read { MatchOption result (after_backslash text.now
        ≡ None) (λ read. after_backslash text.now ≡ followed_by read.0 (unescaped read.1.now)) }
    ensures shorter { IfSome result (λ read. length read.1.now < length text.now) }
{
    let (kind, rest) = text.split_first()?;
    match *kind {
        b'r' => Some((b'\r', rest)),
        b'n' => Some((b'\n', rest)),
        b'\\' => Some((b'\\', rest)),
        b'x' => read_hex(rest),
        _ => None,
    }
}

/// The byte that two digits write, and the text after them.
fn read_hex(text: &[u8]) -> Option<(u8, &[u8])>
    ensures read { MatchOption result (after_x text.now ≡ None) (λ read. after_x text.now
        ≡ followed_by read.0 (unescaped read.1.now)) }
    ensures shorter { IfSome result (λ read. length read.1.now < length text.now) }
{
    let (high, more) = text.split_first()?;
    let (low, rest) = more.split_first()?;
    let byte = 16 * hex_digit_value(*high)? + hex_digit_value(*low)?;
    Some((byte, rest))
}

/// What a digit of base 16 in lower case stands for.
fn hex_digit_value(digit: u8) -> Option<u8>
    ensures { MatchOption result (is_hex digit
        ≡ false) (λ value. (is_hex digit ≡ true) × (value ≡ hex_value digit) × (value < 16)) }
{
    match digit {
        b'0'..=b'9' => Some(digit - b'0'),
        b'a'..=b'f' => Some(digit - b'a' + 10),
        _ => None,
    }
}

/// Writes bytes as a text after what stands there. Where memory is refused, a beginning of it may stand there.
pub fn escape(bytes: &[u8], text: &mut Vec<u8>) -> Result<(), AllocError>
    ensures { OnOk result (text.new.items ≡ text.old.items ++ escaped bytes.now) }
{
    text.reserve(bytes.len())?;
    let mut rest = bytes;
    while let Some((plain, byte, after)) = split_at_special(rest) {
        text.extend_from_slice(plain)?;
        push_escape(byte, text)?;
        rest = after;
    }
    text.extend_from_slice(rest)?;
    Ok(())
}

/// What stands before the first byte that needs an escape, that byte, and what stands after it.
fn split_at_special(bytes: &[u8]) -> Option<(&[u8], u8, &[u8])>
    ensures { MatchOption result (All (λ b. is_printable b ≡ true) bytes.now)
        (λ parts. IsCutWhere is_printable bytes.now parts.0.now parts.1 parts.2.now) }
{
    let at = bytes.iter().position(|byte| !is_plain_byte(*byte))?;
    Some((&bytes[..at], bytes[at], &bytes[at + 1..]))
}

/// Whether a byte stands for itself in a text.
fn is_plain_byte(byte: u8) -> bool
    ensures { result ≡ is_printable byte }
{
    matches!(byte, b' '..=b'~') && byte != b'\\'
}

/// Writes a byte as an escape.
fn push_escape(byte: u8, text: &mut Vec<u8>) -> Result<(), AllocError>
    requires { is_printable byte ≡ false }
    ensures { OnOk result (text.new.items ≡ text.old.items ++ escape_of byte) }
{
    match byte {
        b'\r' => text.extend_from_slice(b"\\r"),
        b'\n' => text.extend_from_slice(b"\\n"),
        b'\\' => text.extend_from_slice(b"\\\\"),
        _ => {
            let digits = [
                b'\\',
                b'x',
                hex_digit_of(byte / 16),
                hex_digit_of(byte % 16),
            ];
            text.extend_from_slice(&digits)
        }
    }
}

/// The digit of base 16 that writes a number below 16.
fn hex_digit_of(value: u8) -> u8
    requires { value < 16 }
    ensures { result ≡ hex_digit value }
{
    if value < 10 {
        b'0' + value
    } else {
        b'a' + (value - 10)
    }
}
