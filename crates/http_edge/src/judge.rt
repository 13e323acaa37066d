//! The checks of a head block.
ghost use Rattle.std.specs.Prelude.{◌≡◌, ◌&&◌, ◌||◌, ◌==◌, true, length, count_by, nat_lt, nat_le, if◌then◌else◌, IfOk};
ghost use Rattle.std.specs.List.{list_any, list_all, find};
ghost use Rattle.std.specs.Option.{option_copied};
ghost use Rattle.std.specs.Char.{is_ascii_digit};
ghost use Rattle.std.specs.Str.Parse.{digits_value};
ghost use Rattle.httparse.specs.Grammar.{trim_ows};
ghost use Rattle.octets.specs.Case.{eq_ignore_case};
ghost use Rattle.http_edge.specs.Judge.{count_named, lists_token, asks_close, asks_continue, is_length, is_coding, length_of, most_body_bytes, body_length, framing_by_length, framing_by_coding, body_framing, framing_so, framing_of, with_framing, acceptance, head_verdict, block_verdict};

use crate::field::Field;
use crate::head::read_head;
use crate::item::{FramingFault, Head};
use crate::verdict::{Awaited, Chunked, Verdict};
use octets::{is_all_digits, without_blanks};
use std::alloc::{AllocError, Global};

fn is_same(a: &[u8], b: &[u8]) -> bool
    ensures { result ≡ eq_ignore_case a.now b.now }
{
    a.eq_ignore_ascii_case(b)
}

/// How many fields have the name, in any case.
#[tactic(auto, unfolding(crate::specs::Judge::count_named))]
fn count_named(name: &[u8], fields: &[Field]) -> usize
    ensures { result ≡ count_named name.now fields.now }
{
    fields
        .iter()
        .filter(|field| is_same(field.name.as_slice(), name))
        .count()
}

/// Whether one of the pieces between commas is the token, in any case.
#[tactic(auto, unfolding(crate::specs::Judge::lists_token))]
fn lists_token(token: &[u8], value: &[u8]) -> bool
    ensures { result ≡ lists_token token.now value.now }
{
    value
        .split(|b| *b == b',')
        .any(|piece| is_same(without_blanks(piece), token))
}

/// Whether the field is a Connection field that lists `close` (RFC 9112, section 9.6).
#[tactic(auto, unfolding(crate::specs::Judge::asks_close))]
fn asks_close(field: &Field) -> bool
    ensures { result ≡ asks_close field.now }
{
    is_same(field.name.as_slice(), b"connection") && lists_token(b"close", field.value.as_slice())
}

fn any_asks_close(fields: &[Field]) -> bool
    ensures { result ≡ list_any asks_close fields.now }
{
    fields.iter().any(|field| asks_close(field))
}

fn is_length(field: &Field) -> bool
    ensures { result ≡ is_length field.now }
{
    is_same(field.name.as_slice(), b"content-length")
}

/// How many Content-Length fields there are.
fn count_lengths(fields: &[Field]) -> usize
    ensures { result ≡ count_by is_length fields.now }
{
    fields.iter().filter(|field| is_length(field)).count()
}

/// The first Content-Length field.
fn first_length(fields: &[Field]) -> Option<&Field>
    ensures { option_copied result ≡ find is_length fields.now }
{
    fields.iter().find(|field| is_length(field))
}

/// Whether the value is one or more digits.
fn is_number(value: &[u8]) -> bool
    ensures { result ≡ (nat_lt 0 (length value.now) && list_all is_ascii_digit value.now) }
{
    !value.is_empty() && is_all_digits(value)
}

/// The number that the digits write, unless it is more than a body may have.
fn small_number(digits: &[u8]) -> Option<usize>
    requires { list_all is_ascii_digit digits.now ≡ true }
    ensures { result ≡ (if nat_le (digits_value 10 digits.now) most_body_bytes
        then Some (digits_value 10 digits.now) else None) }
{
    let mut number: usize = 0;
    for b in digits {
        number = number * 10 + (*b - b'0') as usize;
        if number > MOST_BODY_BYTES {
            return None;
        }
    }
    Some(number)
}

/// The number that a Content-Length field's value writes (RFC 9110, section 8.6).
#[tactic(auto, unfolding(crate::specs::Judge::length_of))]
fn length_of(value: &[u8]) -> Result<usize, FramingFault>
    ensures { result ≡ length_of value.now }
{
    if !is_number(value) {
        return Err(FramingFault::BadLength);
    }
    small_number(value).ok_or(FramingFault::TooLong)
}

/// How many bytes the body has (RFC 9112, section 6.2).
fn body_length(fields: &[Field]) -> Result<usize, FramingFault>
    ensures { result ≡ body_length fields.now }
{
    if count_lengths(fields) > 1 {
        return Err(FramingFault::BadLength);
    }
    match first_length(fields) {
        None => Ok(0),
        Some(field) => length_of(field.value.as_slice()),
    }
}

/// How many bytes a body has at most.
pub const MOST_BODY_BYTES: usize = 16_777_216;

/// Whether the field is an Expect field of `100-continue` (RFC 9110, section 10.1.1).
#[tactic(auto, unfolding(crate::specs::Judge::asks_continue))]
fn asks_continue(field: &Field) -> bool
    ensures { result ≡ asks_continue field.now }
{
    is_same(field.name.as_slice(), b"expect") && is_same(field.value.as_slice(), b"100-continue")
}

/// Whether an interim answer is asked for.
fn any_asks_continue(fields: &[Field]) -> bool
    ensures { result ≡ list_any asks_continue fields.now }
{
    fields.iter().any(|field| asks_continue(field))
}

/// Whether the field is a Transfer-Encoding field.
fn is_coding(field: &Field) -> bool
    ensures { result ≡ is_coding field.now }
{
    is_same(field.name.as_slice(), b"transfer-encoding")
}

/// How many Transfer-Encoding fields there are.
fn count_codings(fields: &[Field]) -> usize
    ensures { result ≡ count_by is_coding fields.now }
{
    fields.iter().filter(|field| is_coding(field)).count()
}

/// The first Transfer-Encoding field.
fn first_coding(fields: &[Field]) -> Option<&Field>
    ensures { option_copied result ≡ find is_coding fields.now }
{
    fields.iter().find(|field| is_coding(field))
}

/// How the end of a body is known (RFC 9112, section 6.3): by how many bytes it has, or by chunks, for which it is
/// None.
fn body_framing(minor: u8, fields: &[Field]) -> Result<Option<usize>, FramingFault>
    ensures { framing_of result ≡ body_framing minor fields.now }
{
    if count_codings(fields) > 1 {
        return Err(FramingFault::TransferCoding);
    }
    match first_coding(fields) {
        None => framing_by_length(body_length(fields)),
        Some(field) => framing_by_coding(
            is_same(field.value.as_slice(), b"chunked"),
            forbids_chunks(minor, fields),
        ),
    }
}

/// The framing of a body of this length.
fn framing_by_length(length: Result<usize, FramingFault>) -> Result<Option<usize>, FramingFault>
    ensures { framing_of result ≡ framing_by_length length }
{
    match length {
        Ok(length) => Ok(Some(length)),
        Err(fault) => Err(fault),
    }
}

/// The framing of a body in one coding: chunked or another, where chunks can come or can't.
fn framing_by_coding(is_chunked: bool, elsewhere: bool) -> Result<Option<usize>, FramingFault>
    ensures { framing_of result ≡ framing_by_coding is_chunked elsewhere }
{
    if !is_chunked {
        return Err(FramingFault::TransferCoding);
    }
    if elsewhere {
        return Err(FramingFault::BadLength);
    }
    Ok(None)
}

/// Whether chunks can't come: in HTTP/1.0, and beside a Content-Length field.
fn forbids_chunks(minor: u8, fields: &[Field]) -> bool
    ensures { result ≡ (minor == 0 || list_any is_length fields.now) }
{
    minor == 0 || any_length(fields)
}

/// Whether there is a Content-Length field.
fn any_length(fields: &[Field]) -> bool
    ensures { result ≡ list_any is_length fields.now }
{
    fields.iter().any(|field| is_length(field))
}

/// The first check that a head fails, or how the end of its body is known.
#[tactic(auto, unfolding(crate::specs::Judge::head_verdict))]
fn framing_of_head(head: &Head, minor: u8) -> Result<Option<usize>, FramingFault>
    ensures { with_framing head.now minor (framing_of result) ≡ head_verdict head.now minor }
{
    let fields = head.fields.as_slice();
    let hosts = count_named(b"host", fields);
    if !(hosts <= 1 && (minor == 0 || hosts >= 1)) {
        return Err(FramingFault::BadHost);
    }
    body_framing(minor, fields)
}

/// What a head comes to.
fn judge_head(head: Head, minor: u8) -> Verdict
    ensures { result ≡ head_verdict head minor }
{
    match framing_of_head(&head, minor) {
        Err(fault) => Verdict::Refused {
            fault,
            head_only: head.is_head_request(),
        },
        Ok(length) => {
            let close = minor == 0 || any_asks_close(head.fields.as_slice());
            let expects = minor != 0 && any_asks_continue(head.fields.as_slice());
            accept_head(head, close, expects, length)
        }
    }
}

/// A request whose body is awaited, of so many bytes or in chunks.
fn accept_head(head: Head, close: bool, expects: bool, length: Option<usize>) -> Verdict
    ensures { result ≡ acceptance head close expects (framing_so length) }
{
    match length {
        Some(length) => Verdict::Taken(Awaited {
            head,
            close,
            expects,
            length,
        }),
        None => Verdict::InChunks(Chunked {
            head,
            close,
            expects,
        }),
    }
}

/// What a whole head block comes to.
#[tactic(auto, unfolding(crate::specs::Judge::block_verdict))]
pub fn judge_block(alloc: Global, block: &[u8]) -> Result<Verdict, AllocError>
    ensures { IfOk result (λ verdict. verdict ≡ block_verdict block.now) }
{
    match read_head(alloc, block)? {
        Some((head, minor)) => Ok(judge_head(head, minor)),
        None => Ok(Verdict::Refused {
            fault: FramingFault::BadHead,
            head_only: false,
        }),
    }
}
