//! Storing files and directories.
ghost use Rattle.std.specs.Prelude.{◌≡◌, IfOk};
ghost use Rattle.dir_codec.specs.DirectoryText.{directory_text};
ghost use Rattle.cap_binding.specs.Binds.{AreFileOf, AreTextOf};
ghost use Rattle.client_core.specs.Way.{IsDirectoryOf};

use crate::ask::Ask;
use crate::children_writer::children_json;
use crate::exchange::Exchange;
use crate::fault::ClientFault;
use crate::fetch::body_of;
use crate::held::{file_held, text_held};
use caps::Cap;
use dir_codec::laws::written_directories_are_read_back;
use dir_codec::{Directory, encode};
use std::alloc::Global;

/// How many bytes a cap's text has, at most: that of a literal cap of 55 bytes and of a stored one are shorter.
pub(crate) const MOST_OF_A_CAP: u64 = 256;

/// Stores bytes as a file, and gives its cap, and the bytes again.
///
/// Whatever the gateway answers, the cap is of these bytes, under whatever key and numbers the gateway chose, or the call is
/// refused with [`ClientFault::NotBound`].
pub fn put_file<E: Exchange>(
    alloc: Global,
    gateway: &mut E,
    bytes: Vec<u8>,
) -> Result<(Cap, Vec<u8>), ClientFault>
    ensures bound { IfOk result (λ made. AreFileOf made.0 made.1.items) }
    ensures same { IfOk result (λ made. made.1.items ≡ bytes.items) }
{
    let answer = gateway.ask(&Ask::Put, &bytes, MOST_OF_A_CAP)?;
    let text = body_of(answer)?;
    file_held(alloc, &text, bytes)
}

/// Stores a directory, and gives its cap.
///
/// Whatever the gateway answers, the cap is of the text that this directory has, or the call is refused.
pub fn make_directory<E: Exchange>(
    alloc: Global,
    gateway: &mut E,
    directory: &Directory,
) -> Result<Cap, ClientFault>
    ensures text { IfOk result (λ cap. AreTextOf cap (directory_text directory.now)) }
    ensures directory { IfOk result (λ cap. IsDirectoryOf cap directory.now) }
{
    written_directories_are_read_back();
    let json = children_json(alloc, directory.entries())?;
    let text = encode(alloc, directory)?;
    let answer = gateway.ask(&Ask::Mkdir, json.as_bytes(), MOST_OF_A_CAP)?;
    let named = body_of(answer)?;
    let (cap, _) = text_held(alloc, &named, text)?;
    Ok(cap)
}
