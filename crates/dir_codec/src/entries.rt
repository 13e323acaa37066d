//! The entries of a directory text, one at a time.
ghost use Rattle.std.specs.Prelude.{◌≡◌, ◌≢◌, ◌<◌, [], ℕ, List, length, option_map, IfOk, IfErr, Err};
ghost use Rattle.dir_codec.specs.Cuts.{texts_now};
ghost use Rattle.dir_codec.specs.Entries.{last_name};
ghost use Rattle.dir_codec.specs.Parts.{first_metadata};
ghost use Rattle.dir_codec.specs.Reading.{reading_after};
ghost use Rattle.dir_codec.specs.First.{IsFirstEntry, AreFirstTexts, IsFirstSpelling};
ghost use Rattle.dir_codec.specs.declared.fault.DirFault.TheVariants.{NoMemory};

use crate::decoder::{read_entry, read_entry_spelled};
use crate::entry::Entry;
use crate::fault::DirFault;
use crate::parts::{Parts, first_entry};
use octets::Text;
use std::alloc::Global;

/// The first entry of a text that stands behind an entry of that name, and how many bytes it takes. Behind no entry the
/// name is empty.
///
/// # Errors
/// The fault of this entry, as [`crate::decode`] gives it.
pub fn read_first(alloc: Global, last: &[u8], text: &[u8]) -> Result<(Entry, usize), DirFault>
    requires { 0 < length text.now }
    ensures read { IfOk result (λ first. IsFirstEntry last.now text.now first.0 first.1) }
    ensures refused { IfErr result (λ fault. fault ≢ NoMemory
        → reading_after last.now text.now ≡ Err fault) }
{
    let (parts, size) = first_parts(text)?;
    let entry = read_entry(alloc, parts, last)?;
    Ok((entry, size))
}

/// The same where the spelling of the entry's metadata is known, as a
/// [`MetadataSpeller`](crate::MetadataSpeller) makes it of [`first_metadata`]: they are not read.
///
/// # Errors
/// The same.
pub fn read_spelled(
    alloc: Global,
    last: &[u8],
    text: &[u8],
    spelled: Option<Text>,
) -> Result<(Entry, usize), DirFault>
    requires some { 0 < length text.now }
    requires spelled { IsFirstSpelling text.now spelled }
    ensures read { IfOk result (λ first. IsFirstEntry last.now text.now first.0 first.1) }
    ensures refused { IfErr result (λ fault. fault ≢ NoMemory
        → reading_after last.now text.now ≡ Err fault) }
{
    let (parts, size) = first_parts(text)?;
    let entry = read_entry_spelled(alloc, parts, last, spelled)?;
    Ok((entry, size))
}

/// The metadata of the entry that a text begins with, as they stand there; None where no entry's text does.
pub fn first_metadata(text: &[u8]) -> Option<&[u8]>
    ensures { option_map (λ metadata. metadata.now) result ≡ first_metadata text.now }
{
    let (parts, _rest) = first_entry(text)?;
    Some(parts.metadata)
}

/// The four texts of the entry that a text begins with, and how many bytes it takes.
///
/// # Errors
/// Torn where no entry's text stands there.
fn first_parts(text: &[u8]) -> Result<(Parts<'_>, usize), DirFault>
    requires { 0 < length text.now }
    ensures ok { IfOk result (λ first. AreFirstTexts text.now (texts_now first.0) first.1) }
    ensures torn { IfErr result (λ fault. (last : List ℕ)
        → reading_after last text.now ≡ Err fault) }
{
    tag_hash::laws::netstrings_are_read_back();
    let Some((parts, more)) = first_entry(text) else {
        return Err(DirFault::Torn);
    };
    Ok((parts, text.len() - more.len()))
}

/// The name of the last entry, the empty one where there is none.
pub(crate) fn last_name(entries: &[Entry]) -> &[u8]
    ensures { result.now ≡ last_name [] entries.now }
{
    match entries.last() {
        Some(entry) => entry.name.as_str().as_bytes(),
        None => &[],
    }
}
