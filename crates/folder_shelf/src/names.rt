//! Names of files.
ghost use Rattle.std.specs.Prelude.{◌≡◌, ◌<◌, ◌/◌, ℕ, List, length, string_bytes, Some, All, IfOk, IfSome};
ghost use Rattle.base32_text.specs.Base32.{spelling};
ghost use Rattle.folder_shelf.specs.Names.{file_name, IsKeyInRange};
ghost use Rattle.folder_shelf.specs.Paths.{folder_number};

use base32_text::laws::{reading_is_decided, spelling_spells};
use base32_text::{B32Fault, decode, push_encoded};
use std::alloc::{AllocError, Global};

/// Into how many folders the files go.
pub(crate) const FOLDERS: u8 = 16;

/// The folder of a share's file: the first four bits of its storage index.
pub(crate) fn folder_of(index: &[u8; 16]) -> u8
    ensures { result ≡ folder_number index.now }
{
    index[0] / FOLDERS
}

/// The name of a share's file within its folder: its storage index in base32, a full stop, and its number in decimal.
/// `Err` only where memory is refused.
pub fn name_of(alloc: Global, index: &[u8; 16], number: u16) -> Result<String, AllocError>
    ensures { IfOk result (λ name. string_bytes name ≡ file_name index.now number) }
{
    let mut name = String::new(alloc);
    push_encoded(&mut name, index)?;
    write!(name, ".{number}")?;
    Ok(name)
}

/// The storage index and the number of the share whose file has this name, and `None` where no share's has: what
/// [`name_of`] writes is read back, and nothing else is read. `Err` only where memory is refused.
pub fn read_name(alloc: Global, name: &str) -> Result<Option<([u8; 16], u16)>, AllocError>
    ensures named { IfOk result (λ share. IfSome share (λ at. name.now ≡ file_name at.0 at.1)) }
    ensures reads { (index : List ℕ) (number : ℕ) → IsKeyInRange index number
        → name.now ≡ file_name index number
        → IfOk result (λ share. share ≡ Some (index, number)) }
{
    let Some(share) = parts_of(alloc, name)? else {
        return Ok(None);
    };
    let index = share.0;
    let written = name_of(alloc, &index, share.1)?;
    if written.as_str() == name {
        Ok(Some(share))
    } else {
        Ok(None)
    }
}

/// What may be the index and the number of a name: other names than those that are written have them too.
fn parts_of(alloc: Global, name: &str) -> Result<Option<([u8; 16], u16)>, AllocError>
    ensures { (index : List ℕ) (number : ℕ) → IsKeyInRange index number
        → name.now ≡ file_name index number
        → IfOk result (λ share. share ≡ Some (index, number)) }
{
    spelling_spells();
    let Some((letters, digits)) = name.split_once('.') else {
        return Ok(None);
    };
    let Some(index) = read_index(alloc, letters)? else {
        return Ok(None);
    };
    match digits.parse::<u16>() {
        Ok(number) => Ok(Some((index, number))),
        Err(_) => Ok(None),
    }
}

/// The storage index that a text spells.
fn read_index(alloc: Global, letters: &str) -> Result<Option<[u8; 16]>, AllocError>
    ensures { (index : List ℕ) → length index ≡ 16 → All (λ byte. byte < 256) index
        → letters.now ≡ spelling index → IfOk result (λ found. found ≡ Some index) }
{
    spelling_spells();
    reading_is_decided();
    let bytes = match decode(alloc, letters.as_bytes()) {
        Ok(bytes) => bytes,
        Err(B32Fault::NoMemory) => return Err(AllocError),
        Err(_) => return Ok(None),
    };
    if bytes.len() != 16 {
        return Ok(None);
    }
    let mut index = [0; 16];
    index.copy_from_slice(&bytes);
    Ok(Some(index))
}
