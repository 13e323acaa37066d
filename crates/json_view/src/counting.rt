//! Counting the JSON of a directory's children, some entries at a time.
ghost use Rattle.std.specs.Prelude.{◌≡◌, ◌≢◌, ◌<◌, ◌+◌, ◌++◌, length, drop, Some, Err, IfSome, IsSome, IfOk, IfErr, OnOk};
ghost use Rattle.std.specs.Rc.{rc_slice_items};
ghost use Rattle.serde_json.specs.Written.{comma_if};
ghost use Rattle.dir_codec.specs.Parts.{first_metadata};
ghost use Rattle.dir_codec.specs.First.{IsFirstSpelling};
ghost use Rattle.json_spelling.specs.MetadataSpellers.{IsSpelledOn};
ghost use Rattle.dir_codec.specs.Reading.{directory_reading};
ghost use Rattle.dir_codec.specs.declared.fault.DirFault.TheVariants.{NoMemory};
ghost use Rattle.json_view.specs.Nodes.{child_text};
ghost use Rattle.json_view.specs.KeptSpellings.{AreSpellingsIn, IsSpellerOf};
ghost use Rattle.json_view.specs.Listings.{IsCountOfChildren, IsCountedTo};
ghost use Rattle.json_view.specs.Counts.{count_text};

use crate::kept_spelling::{KeptSpelling, keep_spelling};
use crate::node::child_len;
use dir_codec::{DirFault, Entry, first_metadata, is_memory, read_first, read_spelled};
use json_spelling::{MetadataSpeller, MetadataSpelling};
use octets::Text;
use std::alloc::{AllocError, Global};
use std::collections::VecDeque;
use std::marker::Model;
use std::rc::RcSlice;

/// How many bytes of a text one step counts. Its last entry may end behind them.
const STEP_BYTES: usize = 65_536;

/// Metadata of more bytes are spelled in steps.
const LONG_BYTES: usize = 65_536;

/// A directory's text whose children are counted a part at a time: how many bytes their JSON has. It holds the text, a copy
/// of the name of the last entry that was read, and for the listing the spellings of long metadata, those of more than
/// 65,536 bytes, which are spelled a part at a time too. Contracts see it as the text.
pub struct Counting {
    /// The text.
    text: RcSlice<u8>,
    /// The name of the last entry that was read, the empty one where there is none.
    last: Vec<u8>,
    /// How many bytes of the text were read.
    at: usize,
    /// How many bytes the JSON of the children has that were read, with the commas between them.
    count: usize,
    /// What spells the metadata of the next entry, where they are long and some of their bytes were looked through.
    speller: Option<MetadataSpeller>,
    /// The spellings of the long metadata of the entries that were read.
    spellings: VecDeque<KeptSpelling>,
}

// Its own, so that what owns one calls it: a derived drop is spelled out wherever a value may be dropped.
impl Drop for Counting {
    fn drop(self) {
        let Counting {
            text: _,
            last: _,
            at: _,
            count: _,
            speller: _,
            spellings: _,
        } = self;
    }
}

impl Model for Counting {
    ghost use Rattle.std.specs.Prelude.{List, ℕ};
    ghost use Rattle.std.specs.Rc.{rc_slice_items};
    ghost use Rattle.json_view.specs.Listings.{IsCounting};

    ghost Value = { List ℕ };

    ghost view = { λ c. rc_slice_items c.text };

    ghost invariant = { λ c. IsCounting c.last.items (rc_slice_items c.text) c.at c.count
        c.speller c.spellings.items };
}

/// A directory's text that was read whole, and how many bytes the JSON of its children has, or the fault that was met in
/// it. It holds the spellings of long metadata too, where they were spelled in steps. Contracts see it as the text.
#[derive(Drop)]
pub struct Counted {
    /// The text.
    pub(crate) text: RcSlice<u8>,
    /// How many bytes the JSON of its children has, with the commas between them.
    pub(crate) children: Result<usize, DirFault>,
    /// The spellings of long metadata that were kept.
    pub(crate) spellings: VecDeque<KeptSpelling>,
}

impl Model for Counted {
    ghost use Rattle.std.specs.Prelude.{List, ℕ};
    ghost use Rattle.std.specs.Rc.{rc_slice_items};
    ghost use Rattle.json_view.specs.Listings.{IsCountedText};

    ghost Value = { List ℕ };

    ghost view = { λ c. rc_slice_items c.text };

    ghost invariant = { λ c. IsCountedText (rc_slice_items c.text) c.children c.spellings.items };
}

/// How far a count is.
#[derive(Drop)]
pub enum Count {
    /// More of the text is to be read.
    Going(Counting),
    /// The whole text was read, or a fault was met.
    Done(Counted),
}

impl Counting {
    /// The count of a directory's text, before the first child.
    pub fn new(alloc: Global, text: RcSlice<u8>) -> Counting
        ensures { result ≡ rc_slice_items text }
    {
        Counting {
            text,
            last: Vec::new(alloc),
            at: 0,
            count: 0,
            speller: None,
            spellings: VecDeque::new(alloc),
        }
    }

    /// With the next children counted, those of some 65,536 bytes of the text: whole entries, until they take that many
    /// bytes, the text ends, or an entry with metadata of more than 65,536 bytes comes; or of such metadata with 65,536
    /// bytes spelled, and with their child counted where those were the last. A text that ends there, and one with a fault
    /// there, is done.
    ///
    /// # Errors
    /// `AllocError` where memory is refused, or where the JSON has more bytes than a `usize` counts, and never for what the
    /// text says. What was counted is then let go of.
    pub fn step(self, alloc: Global) -> Result<Count, AllocError>
        ensures { IfOk result (λ count. count_text count ≡ self) }
    {
        let Counting {
            text,
            mut last,
            at,
            count,
            speller,
            mut spellings,
        } = self;
        let bytes = text.as_slice();
        let Some(metadata) = long_metadata(&bytes[at..]) else {
            let counted = count_short(alloc, &mut last, bytes, at, count);
            return after_count(alloc, text, last, spellings, counted);
        };
        match spell_on(alloc, speller, metadata)? {
            MetadataSpelling::Going(speller) => Ok(Count::Going(Counting {
                text,
                last,
                at,
                count,
                speller: Some(speller),
                spellings,
            })),
            MetadataSpelling::Done(spelling) => {
                keep_spelling(alloc, &mut spellings, bytes, at, &spelling)?;
                let counted = count_spelled(alloc, &mut last, bytes, at, count, spelling);
                after_count(alloc, text, last, spellings, counted)
            }
        }
    }
}

impl Counted {
    /// A directory's text, read whole and counted in one step.
    ///
    /// # Errors
    /// `AllocError` where memory is refused, or where the JSON has more bytes than a `usize` counts, and never for what the
    /// text says.
    pub fn new(alloc: Global, text: RcSlice<u8>) -> Result<Counted, AllocError>
        ensures { IfOk result (λ counted. counted ≡ rc_slice_items text) }
    {
        match count_all(alloc, text.as_slice()) {
            Ok(count) => Ok(Counted {
                text,
                children: Ok(count),
                spellings: VecDeque::new(alloc),
            }),
            Err(fault) => faulty(alloc, text, fault),
        }
    }
}

/// What comes of a text, of which more children were counted, or in which a fault was met. Nothing of the metadata of the
/// next entry is spelled.
fn after_count(
    alloc: Global,
    text: RcSlice<u8>,
    last: Vec<u8>,
    spellings: VecDeque<KeptSpelling>,
    counted: Result<(usize, usize), DirFault>,
) -> Result<Count, AllocError>
    requires counted { IfOk counted (λ found.
        IsCountedTo last.items (rc_slice_items text) found.0 found.1) }
    requires refused { IfErr counted (λ fault. fault ≢ NoMemory
        → directory_reading (rc_slice_items text) ≡ Err fault) }
    requires kept { AreSpellingsIn (rc_slice_items text) spellings.items }
    ensures { IfOk result (λ count. count_text count ≡ rc_slice_items text) }
{
    match counted {
        Ok((at, count)) => {
            if at < text.as_slice().len() {
                Ok(Count::Going(Counting {
                    text,
                    last,
                    at,
                    count,
                    speller: None,
                    spellings,
                }))
            } else {
                Ok(Count::Done(Counted {
                    text,
                    children: Ok(count),
                    spellings,
                }))
            }
        }
        Err(fault) => Ok(Count::Done(faulty(alloc, text, fault)?)),
    }
}

/// A text with the fault that was met in it, unless it is that memory was refused.
fn faulty(alloc: Global, text: RcSlice<u8>, fault: DirFault) -> Result<Counted, AllocError>
    requires { fault ≢ NoMemory → directory_reading (rc_slice_items text) ≡ Err fault }
    ensures { IfOk result (λ counted. counted ≡ rc_slice_items text) }
{
    if is_memory(&fault) {
        return Err(AllocError);
    }
    Ok(Counted {
        text,
        children: Err(fault),
        spellings: VecDeque::new(alloc),
    })
}

/// The metadata of the entry that a text begins with, where they are long. Those in a short text are not.
fn long_metadata(text: &[u8]) -> Option<&[u8]>
    ensures first { IfSome result (λ metadata. first_metadata text.now ≡ Some metadata.now) }
    ensures some { IsSome result → 0 < length text.now }
{
    if text.len() <= LONG_BYTES {
        return None;
    }
    let metadata = first_metadata(text)?;
    if metadata.len() <= LONG_BYTES {
        return None;
    }
    Some(metadata)
}

/// With more of metadata spelled, by a speller of some of them, or from their first byte on.
fn spell_on(
    alloc: Global,
    speller: Option<MetadataSpeller>,
    metadata: &[u8],
) -> Result<MetadataSpelling, AllocError>
    requires { IsSpellerOf metadata.now speller }
    ensures { IfOk result (λ spelling. IsSpelledOn metadata.now spelling) }
{
    match speller {
        Some(speller) => speller.step(alloc, metadata),
        None => MetadataSpeller::new(alloc).step(alloc, metadata),
    }
}

/// Counts the JSON of the child whose entry stands at a place of a directory's text, as [`count_first`] does, where its
/// metadata were spelled.
fn count_spelled(
    alloc: Global,
    last: &mut Vec<u8>,
    text: &[u8],
    at: usize,
    count: usize,
    spelling: Option<Text>,
) -> Result<(usize, usize), DirFault>
    requires within { at < length text.now }
    requires begun { IsCountedTo last.old.items text.now at count }
    requires spelled { IsFirstSpelling (drop at text.now) spelling }
    ensures counted { IfOk result (λ found. IsCountedTo last.new.items text.now found.0 found.1) }
    ensures refused { IfErr result (λ fault. fault ≢ NoMemory
        → directory_reading text.now ≡ Err fault) }
{
    let (entry, size) = read_spelled(alloc, last, &text[at..], spelling)?;
    let mut buffer = Vec::new(alloc);
    let more = count_entry(alloc, &mut buffer, last, &entry, at > 0, count)?;
    Ok((at + size, more))
}

/// Counts the JSON of the children whose entries stand from a place of a directory's text on, behind an entry of that name,
/// where the children before them have so many bytes: whole entries, until they take 65,536 bytes, the text ends, or one
/// with long metadata comes. It gives the place to which they come, and how many bytes there are then.
fn count_short(
    alloc: Global,
    last: &mut Vec<u8>,
    text: &[u8],
    from: usize,
    before: usize,
) -> Result<(usize, usize), DirFault>
    requires { IsCountedTo last.old.items text.now from before }
    ensures counted { IfOk result (λ found. IsCountedTo last.new.items text.now found.0 found.1) }
    ensures refused { IfErr result (λ fault. fault ≢ NoMemory
        → directory_reading text.now ≡ Err fault) }
{
    let until = from + STEP_BYTES.min(text.len() - from);
    let mut buffer = Vec::new(alloc);
    let mut count = before;
    let mut at = from;
    while at < until && long_metadata(&text[at..]).is_none() {
        (at, count) = count_first(alloc, &mut buffer, last, text, at, count)?;
    }
    Ok((at, count))
}

/// How many bytes the JSON of the children of a directory's text has.
fn count_all(alloc: Global, text: &[u8]) -> Result<usize, DirFault>
    ensures counted { IfOk result (λ count. IsCountOfChildren text.now count) }
    ensures refused { IfErr result (λ fault. fault ≢ NoMemory
        → directory_reading text.now ≡ Err fault) }
{
    let mut last = Vec::new(alloc);
    let mut buffer = Vec::new(alloc);
    let mut count = 0;
    let mut at = 0;
    while at < text.len() {
        (at, count) = count_first(alloc, &mut buffer, &mut last, text, at, count)?;
    }
    Ok(count)
}

/// Counts the JSON of the child whose entry stands at a place of a directory's text, behind an entry of that name, where
/// the children before it have so many bytes. It gives the place behind it, and how many bytes there are then.
fn count_first(
    alloc: Global,
    buffer: &mut Vec<u8>,
    last: &mut Vec<u8>,
    text: &[u8],
    at: usize,
    count: usize,
) -> Result<(usize, usize), DirFault>
    requires within { at < length text.now }
    requires begun { IsCountedTo last.old.items text.now at count }
    ensures counted { IfOk result (λ found. IsCountedTo last.new.items text.now found.0 found.1) }
    ensures further { IfOk result (λ found. at < found.0) }
    ensures refused { IfErr result (λ fault. fault ≢ NoMemory
        → directory_reading text.now ≡ Err fault) }
{
    let (entry, size) = read_first(alloc, last, &text[at..])?;
    let more = count_entry(alloc, buffer, last, &entry, at > 0, count)?;
    Ok((at + size, more))
}

/// How many bytes there are with those of the JSON of one child more, whose name becomes the last one.
fn count_entry(
    alloc: Global,
    buffer: &mut Vec<u8>,
    last: &mut Vec<u8>,
    entry: &Entry,
    later: bool,
    count: usize,
) -> Result<usize, AllocError>
    ensures more { IfOk result (λ more.
        more ≡ count + length (comma_if later ++ child_text entry.now)) }
    ensures name { OnOk result (last.new.items ≡ entry.now.name) }
{
    let len = child_len(alloc, buffer, later, entry)?;
    last.clear();
    last.extend_from_slice(entry.name.as_str().as_bytes())?;
    count.checked_add(len).ok_or(AllocError)
}
