//! The files of shares: where they stand, and how one is read.
ghost use Rattle.std.specs.Prelude.{◌≡◌, ◌≢◌, ◌⊎◌, ◌<◌, ℕ, List, Option, Some, length, string_bytes, IfOk, IfErr};
ghost use Rattle.folder_shelf.specs.Paths.{share_folder, share_path, unfinished_path};
ghost use Rattle.folder_shelf.specs.Sealed.{sealed};
ghost use Rattle.folder_shelf.specs.Steps.{with_file_step};
ghost use Rattle.folder_shelf.specs.Steps as step;
ghost use Rattle.folder_shelf.specs.Unread.{IsUnread};

use crate::file_text::share_in;
use crate::files::{Disk, Paths};
use crate::names::{folder_of, name_of};
use std::alloc::{AllocError, Global};
use std::io::ErrorKind;

/// The path by which a share's file stands in a folder.
pub fn path_of(
    alloc: Global,
    top: &str,
    index: &[u8; 16],
    number: u16,
) -> Result<String, AllocError>
    ensures { IfOk result (λ path. string_bytes path ≡ share_path top.now index.now number) }
{
    let file = name_of(alloc, index, number)?;
    let folder = folder_of(index);
    let path = format!(in alloc; "{top}/{folder}/{file}")?;
    Ok(path)
}

/// The paths of a share's file in a folder. The tag stands behind the name of what is unfinished: where several processes
/// write in the folder each has its own.
pub fn paths_of(
    alloc: Global,
    top: &str,
    index: &[u8; 16],
    number: u16,
    tag: &str,
) -> Result<Paths, AllocError>
    ensures name { IfOk result (λ paths. string_bytes paths.name
        ≡ share_path top.now index.now number) }
    ensures folder { IfOk result (λ paths. string_bytes paths.folder
        ≡ share_folder top.now index.now) }
    ensures unfinished { IfOk result (λ paths. string_bytes paths.unfinished
        ≡ unfinished_path top.now index.now number tag.now) }
{
    let file = name_of(alloc, index, number)?;
    let folder = folder_of(index);
    Ok(Paths {
        beginnings: format!(in alloc; "{top}/new")?,
        unfinished: format!(in alloc; "{top}/new/{file}{tag}")?,
        folder: format!(in alloc; "{top}/{folder}")?,
        name: format!(in alloc; "{top}/{folder}/{file}")?,
    })
}

/// Why a file gave no share.
#[derive(Clone, Copy, PartialEq, Eq)]
pub enum Unread {
    /// There is no file of this name.
    NotThere,
    /// What has this name is no file, or one that is not what was written.
    Rotten,
    /// Memory was refused.
    NoMemory,
    /// A call of the file system failed.
    Failed,
}

/// The bytes of the share whose file has this path: those with their seal behind them.
pub fn read_share<D: Disk>(disk: &mut D, path: &str) -> Result<Vec<u8>, Unread>
    ensures given { IfOk result (λ bytes. D.steps disk.new ≡ with_file_step (D.steps disk.old)
        (step.read path.now (Some (sealed bytes.items)))) }
    ensures some { IfOk result (λ bytes. 0 < length bytes.items) }
    ensures unread { IfErr result (λ why. IsUnread path.now (D.steps disk.old) (D.steps disk.new)) }
{
    match disk.read(path) {
        Ok(text) => match share_in(text) {
            Some(bytes) => Ok(bytes),
            None => Err(Unread::Rotten),
        },
        Err(error) => Err(match error.kind() {
            ErrorKind::NotFound => Unread::NotThere,
            ErrorKind::OutOfMemory => Unread::NoMemory,
            ErrorKind::IsADirectory | ErrorKind::PermissionDenied => Unread::Rotten,
            _ => Unread::Failed,
        }),
    }
}
