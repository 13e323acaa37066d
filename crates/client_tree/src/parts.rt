//! Files that are too long for one upload: directories of their parts.
ghost use Rattle.std.specs.Prelude.{◌≡◌, ◌<◌, ◌≤◌, ◌↔◌, ℕ, min, length, IsTrue, IfOk, MatchOption};
ghost use Rattle.client_tree.specs.Parts.{part_bytes, most_parts, part_name, parts_metadata, size_of_file, size_of_last, IsPartEntry, ArePartsFrom, AreParts};

use caps::Cap;
use dir_codec::{Directory, Entry};
use std::alloc::{AllocError, Global};
use tag_hash::Decimal;
use tag_hash::laws::decimals_are_read_back;

/// How many bytes each part has, but for the last.
pub const PART_BYTES: u64 = 16_777_216;

/// How many parts a file has at most: their places have ten digits.
const MOST_PARTS: u64 = 10_000_000_000;

/// Of how many bytes a file is whose parts a directory has; `None` where it has other children than these.
pub fn parts_size(alloc: Global, directory: &Directory) -> Result<Option<u64>, AllocError>
    ensures { IfOk result (λ found. MatchOption found
        ((size : ℕ) → ¬ (AreParts size directory.now)) (λ size. AreParts size directory.now)) }
{
    let entries = directory.entries();
    let Some(size) = size_by_last(entries) else {
        return Ok(None);
    };
    if are_parts(alloc, entries, size)? {
        Ok(Some(size))
    } else {
        Ok(None)
    }
}

/// The size that a file has whose parts these are, by how many there are and by the size of the last.
fn size_by_last(entries: &[Entry]) -> Option<u64>
    ensures { MatchOption result ((size : ℕ) → ¬ (AreParts size entries.now))
        (λ size. (length entries.now ≤ most_parts) × (part_bytes < size)
        × ((other : ℕ) → AreParts other entries.now → other ≡ size)) }
{
    let last = size_of_last(entries)?;
    let count = entries.len() as u64;
    if count > MOST_PARTS {
        return None;
    }
    if last > PART_BYTES {
        return None;
    }
    let size = (count - 1) * PART_BYTES + last;
    if size > PART_BYTES { Some(size) } else { None }
}

/// How many bytes the last of these is of.
fn size_of_last(entries: &[Entry]) -> Option<u64>
    ensures { result ≡ size_of_last entries.now }
{
    size_of_file(&entries.last()?.cap)
}

/// How many bytes the file has that a cap is of.
pub fn size_of_file(cap: &Cap) -> Option<u64>
    ensures { result ≡ size_of_file cap.now }
{
    match cap {
        Cap::Chk(fields) => Some(fields.size),
        Cap::Lit(bytes) => Some(bytes.as_slice().len() as u64),
        Cap::DirChk(_) | Cap::DirLit(_) | Cap::ChkVerify(_) | Cap::DirChkVerify(_) => None,
    }
}

/// Whether these are the entries of all parts of a file of so many bytes.
fn are_parts(alloc: Global, entries: &[Entry], size: u64) -> Result<bool, AllocError>
    ensures { IfOk result (λ are. IsTrue are
        ↔ ArePartsFrom (length entries.now) size 0 size entries.now) }
{
    let metadata = parts_metadata(alloc, entries.len() as u64, size)?;
    let mut left = size;
    for (place, entry) in entries.iter().enumerate() {
        if !is_part(alloc, &metadata, place as u64, left, entry)? {
            return Ok(false);
        }
        left = left.saturating_sub(PART_BYTES);
    }
    Ok(left == 0)
}

/// Whether the entry is that of the part at a place, where its metadata are these and so many bytes are left.
fn is_part(
    alloc: Global,
    metadata: &[u8],
    place: u64,
    left: u64,
    entry: &Entry,
) -> Result<bool, AllocError>
    ensures { IfOk result (λ is. (count size : ℕ) → metadata.now ≡ parts_metadata count size →
        (IsTrue is ↔ IsPartEntry count size place left entry.now)) }
{
    if left == 0 {
        return Ok(false);
    }
    let name = part_name(alloc, place)?;
    if !are_same_bytes(entry.name.as_str().as_bytes(), &name) {
        return Ok(false);
    }
    if !are_same_bytes(entry.metadata.as_str().as_bytes(), metadata) {
        return Ok(false);
    }
    Ok(has_file_size(&entry.cap, left.min(PART_BYTES)))
}

/// Whether they are the same bytes.
fn are_same_bytes(one: &[u8], other: &[u8]) -> bool
    ensures { IsTrue result ↔ (one.now ≡ other.now) }
{
    one == other
}

/// Whether a cap is of a file of so many bytes.
fn has_file_size(cap: &Cap, wanted: u64) -> bool
    ensures { IsTrue result ↔ (size_of_file cap.now ≡ Some wanted) }
{
    match size_of_file(cap) {
        Some(size) => size == wanted,
        None => false,
    }
}

/// The name of the part at a place.
pub(crate) fn part_name(alloc: Global, place: u64) -> Result<Vec<u8>, AllocError>
    ensures { IfOk result (λ name. name.items ≡ part_name place) }
{
    decimals_are_read_back();
    let digits = Decimal::new(place);
    let digits = digits.as_bytes();
    let zeros = b"0000000000";
    let mut name = Vec::new(alloc);
    name.extend_from_slice(&zeros[..zeros.len().saturating_sub(digits.len())])?;
    name.extend_from_slice(digits)?;
    Ok(name)
}

/// The metadata of each part of a file of so many parts and bytes.
pub(crate) fn parts_metadata(alloc: Global, count: u64, size: u64) -> Result<Vec<u8>, AllocError>
    ensures { IfOk result (λ metadata. metadata.items ≡ parts_metadata count size) }
{
    decimals_are_read_back();
    let parts = Decimal::new(count);
    let bytes = Decimal::new(size);
    let mut metadata = Vec::new(alloc);
    metadata.extend_from_slice(b"{\"wozhinnam-parts\":{\"count\":")?;
    metadata.extend_from_slice(parts.as_bytes())?;
    metadata.extend_from_slice(b",\"size\":")?;
    metadata.extend_from_slice(bytes.as_bytes())?;
    metadata.extend_from_slice(b"}}")?;
    Ok(metadata)
}
