//! Keys of shares.
ghost use Rattle.std.specs.Prelude.{◌≡◌, string_bytes, IfOk};
ghost use Rattle.redis_store.specs.Keys.{key, digits};

use std::alloc::{AllocError, Global};

/// A storage index and a number in hexadecimal.
fn digits_of(alloc: Global, index: &[u8; 16], number: u16) -> Result<String, AllocError>
    ensures { IfOk result (λ text. string_bytes text ≡ digits index.now number) }
{
    let mut place = Vec::from_slice(alloc, index)?;
    place.push((number / 256) as u8)?;
    place.push((number % 256) as u8)?;
    hex::encode(alloc, place)
}

/// The key of a share: the grid's id, and then 32 digits for its storage index and 4 for its number, in hexadecimal with
/// lower-case letters. `Err` only where memory is refused.
pub(crate) fn spell_key(
    alloc: Global,
    grid: &[u8],
    index: &[u8; 16],
    number: u16,
) -> Result<Vec<u8>, AllocError>
    ensures { IfOk result (λ name. name.items ≡ key grid.now index.now number) }
{
    let mut name = Vec::from_slice(alloc, grid)?;
    name.extend_from_slice(digits_of(alloc, index, number)?.as_bytes())?;
    Ok(name)
}
