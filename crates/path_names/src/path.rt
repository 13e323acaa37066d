//! The cap's text and the names below it, from a path.
ghost use Rattle.std.specs.Prelude.{◌≡◌, ◌≢◌, ◌<◌, true, false, map, length, IfOk, IfErr, Ok, Err};
ghost use Rattle.std.specs.List.{list_all, list_any};
ghost use Rattle.std.specs.Str.{is_utf8};
ghost use Rattle.percent_encoding.specs.Percent.{percent_decode};
ghost use Rattle.dir_codec.specs.Names.{nfc_text};
ghost use Rattle.path_names.specs.Names.{segment_texts, is_empty, names_of};
ghost use Rattle.path_names.specs.declared.fault.PathFault.TheVariants.{NotUtf8, NoMemory};

use crate::fault::PathFault;
use crate::name_list::Names;
use crate::segments::{has_bad_escape, segments, without_end_slash};
use octets::Text;
use percent_encoding::{DecodeError, percent_decode};
use std::alloc::{AllocError, Global};
use unicode_normalization::to_nfc;

/// How many names a path has at most.
const MOST_NAMES: usize = 64;

/// The text of a cap and the names below it, from what follows `/uri/` in a path.
///
/// The path is cut at `/`; one empty segment at its end is dropped, unless it is the only one. Each segment is
/// percent-decoded (RFC 3986, section 2.1). The first is the cap's text, the others are names, which are brought to
/// Normalization Form C (UAX 15). Of several faults the first in the order of [`PathFault`] is given, whatever segment
/// it is in.
pub fn names(alloc: Global, path: &[u8]) -> Result<(Text, Names), PathFault>
    ensures ok { IfOk result (λ found. names_of path.now ≡ Ok (found.0, found.1)) }
    ensures err { IfErr result (λ fault. fault ≢ NoMemory → names_of path.now ≡ Err fault) }
{
    if has_bad_escape(path) {
        return Err(PathFault::BadEscape);
    }
    let mut texts = decoded(alloc, path)?;
    if texts.len() > 1 + MOST_NAMES {
        return Err(PathFault::TooMany);
    }
    let (_, below) = texts.split_at(1);
    if has_empty(below) {
        return Err(PathFault::EmptyName);
    }
    let names = normalized(alloc, below)?;
    let cap = texts.swap_remove(0);
    Ok((cap, Names::from_vec(names)))
}
/// The texts of the path's segments.
fn decoded(alloc: Global, path: &[u8]) -> Result<Vec<Text>, PathFault>
    ensures ok { IfOk result (λ found. found.items ≡ segment_texts path.now) }
    ensures some { IfOk result (λ found. 0 < length found.items) }
    ensures utf8 { IfOk result (λ found. list_all is_utf8 (segment_texts path.now) ≡ true) }
    ensures fault { IfErr result (λ fault. fault ≢ NoMemory → fault ≡ NotUtf8) }
    ensures other { IfErr result (λ fault. fault ≢ NoMemory →
        list_all is_utf8 (segment_texts path.now) ≡ false) }
{
    let pieces = segments(alloc, without_end_slash(path))?;
    let mut found = Vec::with_capacity(alloc, pieces.len())?;
    for piece in &pieces {
        found.push(decoded_piece(alloc, piece)?)?;
    }
    Ok(found)
}

/// The text of one segment.
fn decoded_piece(alloc: Global, piece: &[u8]) -> Result<Text, PathFault>
    ensures ok { IfOk result (λ text. text ≡ percent_decode piece.now) }
    ensures utf8 { IfOk result (λ text. is_utf8 (percent_decode piece.now) ≡ true) }
    ensures fault { IfErr result (λ fault. fault ≢ NoMemory → fault ≡ NotUtf8) }
    ensures other { IfErr result (λ fault. fault ≢ NoMemory →
        is_utf8 (percent_decode piece.now) ≡ false) }
{
    match percent_decode(piece).decode_utf8(alloc) {
        Ok(text) => Ok(Text::from_string(text.into_owned(alloc)?)),
        Err(DecodeError::Utf8(_)) => Err(PathFault::NotUtf8),
        Err(DecodeError::OutOfMemory) => Err(PathFault::NoMemory),
    }
}

/// Whether one of the texts is empty.
fn has_empty(texts: &[Text]) -> bool
    ensures { result ≡ list_any is_empty texts.now }
{
    texts.iter().any(|text| text.as_str().is_empty())
}

/// A text in Normalization Form C (UAX 15), as the names of a directory's children are.
#[tactic(auto, unfolding(dir_codec::specs::Names::nfc_text))]
fn nfc_of(alloc: Global, text: &Text) -> Result<Text, AllocError>
    ensures { IfOk result (λ name. name ≡ nfc_text text.now) }
{
    Ok(Text::from_string(to_nfc(alloc, text.as_str())?))
}

/// The texts in Normalization Form C.
fn normalized(alloc: Global, texts: &[Text]) -> Result<Vec<Text>, AllocError>
    ensures { IfOk result (λ names. names.items ≡ map nfc_text texts.now) }
{
    let mut names = Vec::with_capacity(alloc, texts.len())?;
    for text in texts {
        names.push(nfc_of(alloc, text)?)?;
    }
    Ok(names)
}
