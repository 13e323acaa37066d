//! Files that are stored while they are read, piece after piece.
ghost use Rattle.std.specs.Prelude.{◌≡◌, ◌+◌, ◌++◌, ℕ, List, length, IfOk, IsTrue};
ghost use Rattle.std.specs.List.{concat};
ghost use Rattle.cap_binding.specs.Binds.{AreFileOf};
ghost use Rattle.client_tree.specs.Runs.{Passes};
ghost use Rattle.client_tree.specs.Parts.{AreFilesOf, caps_of, AreParts};
ghost use Rattle.client_tree.specs.Stored.{HasParts, IsStoredWhole, IsStoredAt, IsStoredFrom};

use crate::children::{are_same, named_directory};
use crate::fault::TreeFault;
use crate::parts::{PART_BYTES, part_name, parts_metadata, parts_size};
use crate::source::Source;
use caps::{Cap, copy_cap, print};
use client_core::{Exchange, make_directory, put_file};
use dir_codec::Directory;
use octets::Text;
use std::alloc::{AllocError, Global};

/// How many pieces are read at most.
const MOST_PIECES: u64 = 10_000_000_000;

/// Stores the file under a path, while it is read, piece after piece, and gives its cap: one of more than 16,777,216 bytes is
/// stored as a directory of its parts. One piece at a time is kept in memory.
///
/// Whatever the gateway answers, the cap is of all bytes that were read, up to the end of the file.
pub fn put_whole<E: Exchange, S: Source>(
    alloc: Global,
    gateway: &mut E,
    source: &mut S,
    path: &[Text],
) -> Result<Cap, TreeFault>
    ensures { IfOk result (λ cap.
        Passes S.gave S.kept (IsStoredAt cap path.now) source.old source.new) }
{
    let first = source.read_piece(path, true)?;
    put_rest(alloc, gateway, source, path, first)
}

/// Stores the file under a path of which the first piece was read, while the rest is read, and gives its cap.
pub(crate) fn put_rest<E: Exchange, S: Source>(
    alloc: Global,
    gateway: &mut E,
    source: &mut S,
    path: &[Text],
    first: Vec<u8>,
) -> Result<Cap, TreeFault>
    ensures { IfOk result (λ cap.
        Passes S.gave S.kept (IsStoredFrom cap path.now first.items) source.old source.new) }
{
    let mut caps = Vec::new(alloc);
    let mut size = 0u64;
    let mut piece = first;
    for _ in 0..MOST_PIECES {
        let count = piece.len() as u64;
        if count < PART_BYTES {
            return put_last(alloc, gateway, caps, size, piece);
        }
        size = grown(size, count)?;
        caps.push(put_piece(alloc, gateway, piece)?)?;
        piece = source.read_piece(path, false)?;
    }
    Err(TreeFault::TooMany)
}

/// The sum of two sizes. `TooMany` where it can't be.
fn grown(size: u64, count: u64) -> Result<u64, TreeFault>
    ensures { IfOk result (λ sum. sum ≡ size + count) }
{
    match size.checked_add(count) {
        Some(sum) => Ok(sum),
        None => Err(TreeFault::TooMany),
    }
}

/// Stores a piece as a file.
fn put_piece<E: Exchange>(alloc: Global, gateway: &mut E, bytes: Vec<u8>) -> Result<Cap, TreeFault>
    ensures { IfOk result (λ cap. AreFileOf cap bytes.items) }
{
    let (cap, _) = put_file(alloc, gateway, bytes)?;
    Ok(cap)
}

/// Stores the last piece of a file, of whose other pieces these are the caps and the size, and gives the file's cap.
fn put_last<E: Exchange>(
    alloc: Global,
    gateway: &mut E,
    caps: Vec<Cap>,
    size: u64,
    last: Vec<u8>,
) -> Result<Cap, TreeFault>
    ensures { IfOk result (λ cap. (pieces : List (List ℕ)) → AreFilesOf caps.items pieces →
        size ≡ length (concat pieces) → IsStoredWhole cap (concat pieces ++ last.items)) }
{
    let mut caps = caps;
    if caps.is_empty() {
        return put_piece(alloc, gateway, last);
    }
    if last.is_empty() {
        return whole_of(alloc, gateway, &caps, size);
    }
    let size = grown(size, last.len() as u64)?;
    caps.push(put_piece(alloc, gateway, last)?)?;
    join_parts(alloc, gateway, &caps, size)
}

/// The cap of the file whose pieces these are the caps of: that of the only one, or that of a directory of its parts.
fn whole_of<E: Exchange>(
    alloc: Global,
    gateway: &mut E,
    caps: &[Cap],
    size: u64,
) -> Result<Cap, TreeFault>
    ensures { IfOk result (λ cap. (pieces : List (List ℕ)) → AreFilesOf caps.now pieces →
        size ≡ length (concat pieces) → IsStoredWhole cap (concat pieces)) }
{
    match caps {
        [only] => Ok(copy_cap(alloc, only)?),
        _ => join_parts(alloc, gateway, caps, size),
    }
}

/// Makes the directory of the parts of a file of so many bytes, and gives its cap.
fn join_parts<E: Exchange>(
    alloc: Global,
    gateway: &mut E,
    caps: &[Cap],
    size: u64,
) -> Result<Cap, TreeFault>
    ensures { IfOk result (HasParts caps.now size) }
{
    let directory = directory_of_parts(alloc, caps, size)?;
    Ok(make_directory(alloc, gateway, &directory)?)
}

/// The directory of these parts of a file of so many bytes.
fn directory_of_parts(alloc: Global, caps: &[Cap], size: u64) -> Result<Directory, TreeFault>
    ensures parts { IfOk result (AreParts size) }
    ensures caps { IfOk result (λ directory. caps_of directory ≡ caps.now) }
{
    let text = text_of_parts(alloc, caps, size)?;
    let directory = named_directory(alloc, &text)?;
    if !has_size(alloc, &directory, size)? || !has_caps(&directory, caps) {
        return Err(TreeFault::BadChildren);
    }
    Ok(directory)
}

/// Whether the directory is of all parts of a file of so many bytes.
fn has_size(alloc: Global, directory: &Directory, size: u64) -> Result<bool, AllocError>
    ensures { IfOk result (λ has. IsTrue has → AreParts size directory.now) }
{
    match parts_size(alloc, directory)? {
        Some(found) => Ok(found == size),
        None => Ok(false),
    }
}

/// Whether these are the caps of the directory's children, in their order.
fn has_caps(directory: &Directory, caps: &[Cap]) -> bool
    ensures { IsTrue result → caps_of directory.now ≡ caps.now }
{
    let entries = directory.entries();
    if entries.len() != caps.len() {
        return false;
    }
    for (place, entry) in entries.iter().enumerate() {
        if !are_same(&entry.cap, &caps[place]) {
            return false;
        }
    }
    true
}

/// The JSON that names the parts.
fn text_of_parts(alloc: Global, caps: &[Cap], size: u64) -> Result<Vec<u8>, AllocError> {
    let metadata = parts_metadata(alloc, caps.len() as u64, size)?;
    let mut text = Vec::new(alloc);
    text.push(b'{')?;
    for (place, cap) in caps.iter().enumerate() {
        if place > 0 {
            text.push(b',')?;
        }
        push_part(alloc, &mut text, place as u64, cap, &metadata)?;
    }
    text.push(b'}')?;
    Ok(text)
}

/// Appends the member of a part.
fn push_part(
    alloc: Global,
    text: &mut Vec<u8>,
    place: u64,
    cap: &Cap,
    metadata: &[u8],
) -> Result<(), AllocError> {
    let name = part_name(alloc, place)?;
    let cap = print(alloc, cap)?;
    text.push(b'"')?;
    text.extend_from_slice(&name)?;
    text.extend_from_slice(b"\":[\"filenode\",{\"ro_uri\":\"")?;
    text.extend_from_slice(cap.as_bytes())?;
    text.extend_from_slice(b"\",\"metadata\":")?;
    text.extend_from_slice(metadata)?;
    text.extend_from_slice(b"}]")
}
