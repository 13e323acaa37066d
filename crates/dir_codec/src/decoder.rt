//! From a text to the directory whose text it is.
ghost use Rattle.std.specs.Prelude.{◌≡◌, ◌≢◌, ℕ, List, Some, IfOk, IfErr, Ok, Err, MatchOption, true, false};
ghost use Rattle.std.specs.Ordering.{nat_cmp, is_lt};
ghost use Rattle.std.specs.Cmp.Lexicographic.{slice_cmp};
ghost use Rattle.caps.specs.CapTexts.{cap_text};
ghost use Rattle.caps.specs.Reading.{cap_reading};
ghost use Rattle.dir_codec.specs.Names.{is_name, IsAbove};
ghost use Rattle.dir_codec.specs.Entries.{is_child_cap, IsEntry, IsDirectory};
ghost use Rattle.json_spelling.specs.Metadata.{spelling_of};
ghost use Rattle.dir_codec.specs.Reading.{child_reading, with_metadata, entry_reading, directory_reading};
ghost use Rattle.dir_codec.specs.Cuts.{texts_now};
ghost use Rattle.dir_codec.specs.declared.fault.DirFault.TheVariants.{NoMemory};

use crate::directory::Directory;
use crate::entries::{last_name, read_first};
use crate::entry::Entry;
use crate::fault::DirFault;
use crate::parts::Parts;
use caps::{Cap, parse_bytes};
use json_spelling::{Keys, spell_bytes, spelling_is_kept};
use octets::Text;
use std::alloc::{AllocError, Global};
use unicode_normalization::is_nfc;

/// The directory whose text this is.
///
/// # Errors
/// The first entry with a fault decides, and of its faults the first in this order: Torn, BadName, NotSorted, BadCap,
/// NotImmutable, WriteCap, BadMetadata.
pub fn decode(alloc: Global, text: &[u8]) -> Result<Directory, DirFault>
    ensures read { IfOk result (λ directory. directory_reading text.now ≡ Ok directory) }
    ensures refused { IfErr result (λ fault. fault ≢ NoMemory → directory_reading text.now ≡ Err fault) }
{
    Ok(Directory::from_entries(read_entries(alloc, text)?))
}

/// The entries of a directory text.
fn read_entries(alloc: Global, text: &[u8]) -> Result<Vec<Entry>, DirFault>
    ensures ok { IfOk result (λ entries. directory_reading text.now ≡ Ok entries.items) }
    ensures kept { IfOk result (λ entries. IsDirectory entries.items) }
    ensures err { IfErr result (λ fault. fault ≢ NoMemory → directory_reading text.now ≡ Err fault) }
{
    let mut entries = Vec::new(alloc);
    let mut rest = text;
    while !rest.is_empty() {
        let (entry, size) = read_first(alloc, last_name(&entries), rest)?;
        entries.push(entry)?;
        rest = &rest[size..];
    }
    Ok(entries)
}

/// The entry of four texts, after an entry of that name.
pub(crate) fn read_entry(alloc: Global, parts: Parts<'_>, last: &[u8]) -> Result<Entry, DirFault>
    ensures ok { IfOk result (λ entry. entry_reading last.now (texts_now parts.entry) ≡ Ok entry) }
    ensures name { IfOk result (λ entry. entry.name ≡ parts.entry.name.now) }
    ensures kept { IfOk result (λ entry. IsEntry entry) }
    ensures above { IfOk result (λ entry. IsAbove entry.name last.now) }
    ensures err { IfErr result (λ fault. fault ≢ NoMemory
        → entry_reading last.now (texts_now parts.entry) ≡ Err fault) }
{
    let named = read_named(alloc, parts, last)?;
    let spelled = spell_bytes(alloc, parts.metadata, Keys::Rising)?;
    named.with_metadata(spelled)
}

/// The same where the spelling of the metadata is known: they are not read.
pub(crate) fn read_entry_spelled(
    alloc: Global,
    parts: Parts<'_>,
    last: &[u8],
    spelled: Option<Text>,
) -> Result<Entry, DirFault>
    requires { spelled ≡ spelling_of parts.metadata.now }
    ensures ok { IfOk result (λ entry. entry_reading last.now (texts_now parts.entry) ≡ Ok entry) }
    ensures kept { IfOk result (λ entry. IsEntry entry) }
    ensures above { IfOk result (λ entry. IsAbove entry.name last.now) }
    ensures err { IfErr result (λ fault. fault ≢ NoMemory
        → entry_reading last.now (texts_now parts.entry) ≡ Err fault) }
{
    let named = read_named(alloc, parts, last)?;
    named.with_metadata(spelled)
}

/// What an entry has beside its metadata.
#[derive(Drop)]
pub(crate) struct Named {
    /// The child's name.
    pub(crate) name: Text,
    /// The cap that reads the child.
    pub(crate) cap: Cap,
}

impl Named {
    /// The entry, with the spelling of its metadata.
    ///
    /// # Errors
    /// BadMetadata where they have none.
    fn with_metadata(self, spelled: Option<Text>) -> Result<Entry, DirFault>
        ensures made { result ≡ with_metadata self.name self.cap spelled }
        ensures kept { IfOk result (λ entry. (bytes : List ℕ) → spelled ≡ spelling_of bytes
            → spelling_of entry.metadata ≡ Some entry.metadata) }
    {
        let Named { name, cap } = self;
        let Some(metadata) = spelled else {
            return Err(DirFault::BadMetadata);
        };
        spelling_is_kept(&metadata);
        Ok(Entry {
            name,
            cap,
            metadata,
        })
    }
}

/// The same of four texts, after an entry of that name.
pub(crate) fn read_named(alloc: Global, parts: Parts<'_>, last: &[u8]) -> Result<Named, DirFault>
    ensures ok { IfOk result (λ named. entry_reading last.now (texts_now parts.entry)
        ≡ with_metadata named.name named.cap (spelling_of parts.entry.metadata.now)) }
    ensures name { IfOk result (λ named. named.name ≡ parts.entry.name.now) }
    ensures kept { IfOk result (λ named. (is_name named.name ≡ true)
        × (is_child_cap named.cap ≡ true) × (cap_reading (cap_text named.cap) ≡ Ok named.cap)) }
    ensures above { IfOk result (λ named. IsAbove named.name last.now) }
    ensures err { IfErr result (λ fault. fault ≢ NoMemory
        → entry_reading last.now (texts_now parts.entry) ≡ Err fault) }
{
    let Some(name) = name_in(alloc, parts.name)? else {
        return Err(DirFault::BadName);
    };
    if !is_above(parts.name, last) {
        return Err(DirFault::NotSorted);
    }
    let cap = read_cap(alloc, parts.cap)?;
    if !parts.write.is_empty() {
        return Err(DirFault::WriteCap);
    }
    Ok(Named {
        name: Text::from_string(String::from_str(alloc, name)?),
        cap,
    })
}

/// Whether a name is above another.
fn is_above(name: &[u8], other: &[u8]) -> bool
    ensures { result ≡ is_lt (slice_cmp nat_cmp other.now name.now) }
{
    other.cmp(&name).is_lt()
}

/// The name that bytes are, None where they are none. `Err` only where memory is refused.
pub(crate) fn name_in(alloc: Global, bytes: &[u8]) -> Result<Option<&str>, AllocError>
    ensures { IfOk result (λ found. MatchOption found (is_name bytes.now ≡ false)
        (λ name. (is_name bytes.now ≡ true) × (name.now ≡ bytes.now))) }
{
    let Ok(text) = str::from_utf8(bytes) else {
        return Ok(None);
    };
    if text.is_empty() {
        return Ok(None);
    }
    let in_form = is_nfc(alloc, text)?;
    if in_form { Ok(Some(text)) } else { Ok(None) }
}

/// The cap that a text is, where it may be a child.
///
/// # Errors
/// BadCap where it is no cap's text, NotImmutable where a child can't have the cap, and NoMemory.
pub fn read_cap(alloc: Global, text: &[u8]) -> Result<Cap, DirFault>
    ensures ok { IfOk result (λ cap. child_reading text.now ≡ Ok cap) }
    ensures child { IfOk result (λ cap. is_child_cap cap ≡ true) }
    ensures kept { IfOk result (λ cap. cap_reading (cap_text cap) ≡ Ok cap) }
    ensures err { IfErr result (λ fault. fault ≢ NoMemory → child_reading text.now ≡ Err fault) }
{
    caps::laws::caps_have_one_text();
    let cap = parse_bytes(alloc, text)?;
    if !is_child_cap(&cap) {
        return Err(DirFault::NotImmutable);
    }
    Ok(cap)
}

/// Whether the cap reads a file or a directory.
fn is_child_cap(cap: &Cap) -> bool
    ensures { result ≡ is_child_cap cap.now }
{
    match cap {
        Cap::Chk(_) | Cap::Lit(_) | Cap::DirChk(_) | Cap::DirLit(_) => true,
        Cap::ChkVerify(_) | Cap::DirChkVerify(_) => false,
    }
}
