//! From a directory to its text.
ghost use Rattle.std.specs.Prelude.{◌≡◌, ◌++◌, OnOk, IfOk};
ghost use Rattle.dir_codec.specs.DirectoryText.{written_entry, directory_text};

use crate::directory::Directory;
use crate::entry::Entry;
use caps::print;
use std::alloc::{AllocError, Global};
use tag_hash::push_netstring;

/// The text of the directory, with each entry's metadata in their one spelling. `Err` only where memory is refused.
pub fn encode(alloc: Global, directory: &Directory) -> Result<Vec<u8>, AllocError>
    ensures { IfOk result (λ text. text.items ≡ directory_text directory.now) }
{
    let mut text = Vec::new(alloc);
    let mut inside = Vec::new(alloc);
    for entry in directory.entries() {
        push_entry(alloc, &mut text, &mut inside, entry)?;
    }
    Ok(text)
}

/// Appends the text of an entry. What `inside` holds is dropped, and its memory used.
///
/// # Errors
/// `AllocError` where memory is refused.
pub fn push_entry(
    alloc: Global,
    text: &mut Vec<u8>,
    inside: &mut Vec<u8>,
    entry: &Entry,
) -> Result<(), AllocError>
    ensures { OnOk result (text.new.items ≡ text.old.items ++ written_entry entry.now) }
{
    caps::laws::caps_have_one_text();
    let cap = print(alloc, &entry.cap)?;
    inside.clear();
    push_netstring(inside, entry.name.as_str().as_bytes())?;
    push_netstring(inside, cap.as_bytes())?;
    push_netstring(inside, b"")?;
    push_netstring(inside, entry.metadata.as_str().as_bytes())?;
    push_netstring(text, inside)
}
