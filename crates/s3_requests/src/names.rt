//! Names of objects.
ghost use Rattle.std.specs.Prelude.{◌≡◌, string_bytes, IfOk};
ghost use Rattle.std.specs.List.{AllPass};
ghost use Rattle.s3_sign.specs.Spelling.{is_path_byte};
ghost use Rattle.s3_requests.specs.ObjectNames.{name_beginning, name_digits, object_name, settings_name};
ghost use Rattle.s3_requests.specs.ObjectSites.{IsObjectSite};

use crate::sites::ObjectSite;
use std::alloc::{AllocError, Global};

/// A storage index and a number in hexadecimal.
fn digits_of(alloc: Global, index: &[u8; 16], number: u16) -> Result<String, AllocError>
    ensures { IfOk result (λ text. string_bytes text ≡ name_digits index.now number) }
{
    let mut place = Vec::from_slice(alloc, index)?;
    place.push((number / 256) as u8)?;
    place.push((number % 256) as u8)?;
    hex::encode(alloc, place)
}

/// What each name begins with.
fn beginning(alloc: Global, site: &ObjectSite) -> Result<Vec<u8>, AllocError>
    ensures { IfOk result (λ name. name.items ≡ name_beginning site.now.prefix) }
{
    let mut name = Vec::new(alloc);
    if let Some(prefix) = &site.prefix {
        name.extend_from_slice(prefix.as_slice())?;
        name.extend_from_slice(b"/")?;
    }
    Ok(name)
}

/// The name of a share: the prefix and a slash, where there is a prefix, and then 32 digits for its storage index and 4
/// for its number, in hexadecimal with lower-case letters. Nothing in it has to be escaped. `Err` only where memory is
/// refused.
pub fn object_name(
    alloc: Global,
    site: &ObjectSite,
    index: &[u8; 16],
    number: u16,
) -> Result<Vec<u8>, AllocError>
    ensures name { IfOk result (λ name.
        name.items ≡ object_name site.now.prefix index.now number) }
    ensures plain { IsObjectSite site.now
        → IfOk result (λ name. AllPass is_path_byte name.items) }
{
    let mut name = beginning(alloc, site)?;
    name.extend_from_slice(digits_of(alloc, index, number)?.as_bytes())?;
    Ok(name)
}

/// The name of the settings: the prefix and a slash, where there is a prefix, and the word `grid`. Nothing in it
/// has to be escaped. `Err` only where memory is refused.
pub fn settings_name(alloc: Global, site: &ObjectSite) -> Result<Vec<u8>, AllocError>
    ensures name { IfOk result (λ name. name.items ≡ settings_name site.now.prefix) }
    ensures plain { IsObjectSite site.now
        → IfOk result (λ name. AllPass is_path_byte name.items) }
{
    let mut name = beginning(alloc, site)?;
    name.extend_from_slice(b"grid")?;
    Ok(name)
}
