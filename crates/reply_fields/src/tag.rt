//! Entity tags of stored files, and the conditions on them that a request has.
ghost use Rattle.std.specs.Prelude.{◌≡◌, ◌∷◌, [], ◌++◌, drop, bytes_eq, IfOk, IsTrue};
ghost use Rattle.std.specs.List.{list_any, list_all};
ghost use Rattle.http_edge.specs.Plain.{is_line_byte};
ghost use Rattle.web_request.specs.Ranges.{is_if_range};
ghost use Rattle.reply_fields.specs.Tags.{entity_tag, is_weakly, has_tag, lists_tag, is_none_match, is_had, is_other_range, is_if_range_met, range_if};

use caps::{Cap, VerifyFields, print};
use octets::{Bytes, without_blanks};
use std::alloc::{AllocError, Global};
use web_request::{Field, is_if_range, is_same, one_range};

/// The entity tag of a stored file: the text of its verify cap, in quotes. It holds no CR and no LF.
pub fn entity_tag(alloc: Global, file: &VerifyFields) -> Result<Bytes, AllocError>
    ensures tag { IfOk result (λ tag. tag ≡ entity_tag file.now) }
    ensures plain { IfOk result (λ tag. IsTrue (list_all is_line_byte tag)) }
{
    caps::laws::caps_have_one_text();
    http_edge::laws::numbers_are_plain();
    let cap = Cap::ChkVerify(*file);
    let text = print(alloc, &cap)?;
    quoted(alloc, text.as_str())
}

/// A text in quotes.
fn quoted(alloc: Global, text: &str) -> Result<Bytes, AllocError>
    ensures { IfOk result (λ quoted. quoted ≡ 34 ∷ (text.now ++ 34 ∷ [])) }
{
    let mut quoted = Vec::from_slice(alloc, b"\"")?;
    quoted.extend_from_slice(text.as_bytes())?;
    quoted.extend_from_slice(b"\"")?;
    Ok(Bytes::from_vec(quoted))
}

/// Whether the If-None-Match fields of a request list the tag, or any.
pub fn is_had(tag: &[u8], fields: &[Field]) -> bool
    ensures { result ≡ is_had tag.now fields.now }
{
    fields.iter().any(|field| is_none_match(tag, field))
}

/// Whether it is an If-None-Match field that lists the tag.
#[tactic(auto, unfolding(crate::specs::Tags::is_none_match))]
fn is_none_match(tag: &[u8], field: &Field) -> bool
    ensures { result ≡ is_none_match tag.now field.now }
{
    is_same(field.name.as_slice(), b"if-none-match") && lists_tag(tag, field.value.as_slice())
}

/// Whether a value is any tag, or lists this one.
#[tactic(auto, unfolding(crate::specs::Tags::lists_tag))]
fn lists_tag(tag: &[u8], value: &[u8]) -> bool
    ensures { result ≡ lists_tag tag.now value.now }
{
    without_blanks(value) == b"*".as_slice() || has_tag(tag, value)
}

/// Whether one of the pieces between commas is the tag.
#[tactic(auto, unfolding(crate::specs::Tags::has_tag))]
fn has_tag(tag: &[u8], value: &[u8]) -> bool
    ensures { result ≡ has_tag tag.now value.now }
{
    value
        .split(|b| *b == b',')
        .any(|piece| is_weakly(tag, without_blanks(piece)))
}

/// Whether a piece is the tag, weak or strong.
fn is_weakly(tag: &[u8], piece: &[u8]) -> bool
    ensures { result ≡ is_weakly tag.now piece.now }
{
    piece == tag || (piece.starts_with(b"W/") && is_behind(piece, tag))
}

/// Whether the tag is what stands behind the first two bytes.
fn is_behind(piece: &[u8], tag: &[u8]) -> bool
    ensures { result ≡ bytes_eq (drop 2 piece.now) tag.now }
{
    if piece.len() < 2 {
        return tag.is_empty();
    }
    &piece[2..] == tag
}

/// The value of the one Range field, where If-Range fields stand and each is the tag.
pub fn range_if(alloc: Global, tag: &[u8], fields: &[Field]) -> Result<Option<Bytes>, AllocError>
    ensures { IfOk result (λ range. range ≡ range_if tag.now fields.now) }
{
    if !is_if_range_met(tag, fields) {
        return Ok(None);
    }
    match one_range(fields) {
        Some(field) => Ok(Some(Bytes::from_slice(alloc, field.value.as_slice())?)),
        None => Ok(None),
    }
}

/// Whether If-Range fields stand, and each is the tag.
fn is_if_range_met(tag: &[u8], fields: &[Field]) -> bool
    ensures { result ≡ is_if_range_met tag.now fields.now }
{
    any_if_range(fields) && !any_other_range(tag, fields)
}

/// Whether an If-Range field stands.
fn any_if_range(fields: &[Field]) -> bool
    ensures { result ≡ list_any is_if_range fields.now }
{
    fields.iter().any(|field| is_if_range(field))
}

/// Whether an If-Range field with another tag stands.
fn any_other_range(tag: &[u8], fields: &[Field]) -> bool
    ensures { result ≡ list_any (is_other_range tag.now) fields.now }
{
    fields.iter().any(|field| is_other_range(tag, field))
}

/// Whether it is an If-Range field with another tag.
#[tactic(auto, unfolding(crate::specs::Tags::is_other_range))]
fn is_other_range(tag: &[u8], field: &Field) -> bool
    ensures { result ≡ is_other_range tag.now field.now }
{
    is_if_range(field) && field.value.as_slice() != tag
}
