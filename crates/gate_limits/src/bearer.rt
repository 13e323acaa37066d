//! The token that control requests have to bring, where one is wanted.
ghost use Rattle.std.specs.Prelude.{◌≡◌, IfOk, bytes_eq, length, option_copied};
ghost use Rattle.std.specs.List.{list_any};
ghost use Rattle.octets.specs.Case.{eq_ignore_case};
ghost use Rattle.gate_limits.specs.Bearer.{brings, challenge, challenge_head, challenge_text, is_authorized, is_bearer};

use crate::foreign::is_named;
use http_edge::Field;
use std::alloc::{AllocError, Global};

/// How many bytes stand before the token: the scheme's name, and a space.
const SCHEME: usize = 7;

/// Whether a request with these fields brings the token that is wanted. Where none is, each does.
pub fn is_authorized(token: Option<&[u8]>, fields: &[Field]) -> bool
    ensures { result ≡ is_authorized (option_copied token.entry) fields.now }
{
    match token {
        Some(token) => any_is_bearer(token, fields),
        None => true,
    }
}

/// Whether a field brings the token.
fn any_is_bearer(token: &[u8], fields: &[Field]) -> bool
    ensures { result ≡ list_any (is_bearer token.now) fields.now }
{
    fields.iter().any(|field| is_bearer(token, field))
}

/// Whether a field is an Authorization field that brings the token.
fn is_bearer(token: &[u8], field: &Field) -> bool
    ensures { result ≡ is_bearer token.now field.now }
{
    is_named(b"authorization", field) && brings(token, field.value.as_slice())
}

/// Whether the value of an Authorization field brings the token: `Bearer`, in any case, a space, and the token.
fn brings(token: &[u8], value: &[u8]) -> bool
    ensures { result ≡ brings token.now value.now }
{
    let (scheme, rest) = value.split_at(value.len().min(SCHEME));
    scheme.eq_ignore_ascii_case(b"bearer ") && is_same_token(rest, token)
}

/// Whether two tokens are the same. All bytes are compared, wherever they differ first: the time that it takes depends on
/// how long the tokens are, and not on how much of one was guessed.
fn is_same_token(given: &[u8], wanted: &[u8]) -> bool
    ensures { result ≡ bytes_eq given.now wanted.now }
{
    given.len() == wanted.len() && count_differences(given, wanted) == 0
}

/// At how many places two texts differ that are equally long.
fn count_differences(given: &[u8], wanted: &[u8]) -> usize
    requires { length given.now ≡ length wanted.now }
    ensures same { result ≡ 0 → given.now ≡ wanted.now }
    ensures other { given.now ≡ wanted.now → result ≡ 0 }
{
    let mut count = 0;
    'places: for at in 0..given.len() {
        count += usize::from(given[at] != wanted[at]);
    }
    count
}

/// What a request is told that doesn't bring the token. One of HEAD gets no body (RFC 9110, section 9.3.2).
pub fn challenge(alloc: Global, head_only: bool) -> Result<Vec<u8>, AllocError>
    ensures { IfOk result (λ bytes. bytes.items ≡ challenge head_only) }
{
    let mut bytes = Vec::from_slice(alloc, challenge_head())?;
    if !head_only {
        bytes.extend_from_slice(challenge_text())?;
    }
    Ok(bytes)
}

/// The head of what such a request is told.
fn challenge_head() -> &'static [u8]
    ensures { result.now ≡ challenge_head }
{
    b"HTTP/1.1 401 Unauthorized\r\nContent-Type: text/plain; charset=utf-8\r\nContent-Length: 51\r\nWWW-Authenticate: Bearer\r\nConnection: close\r\n\r\n"
}

/// What is wanted of it, as a line.
fn challenge_text() -> &'static [u8]
    ensures { result.now ≡ challenge_text }
{
    b"refused: Authorization: Bearer TOKEN is to be sent\n"
}
