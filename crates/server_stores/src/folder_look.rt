//! What is seen of the folders of a grid before one is opened, and in which of them a store would be begun by mistake.
ghost use Rattle.std.specs.Prelude.{◌≡◌, ◌≢◌, ◌↔◌, All, Any, IfErr, IsFalse, IsTrue, OnOk};
ghost use Rattle.server_stores.specs.FolderLook.{IsMistake, IsUnmeant};
ghost use Rattle.server_stores.specs.declared.folders.Found.TheVariants.{New};

use crate::fault::ProgramFault;
use crate::folders::{Found, report_fault};
use log::{Log, info, warn};
use std::alloc::AllocError;
use std::fs;
use std::rt::Files;

/// A folder of a grid, as it is seen before one is opened.
#[derive(Clone, Copy, PartialEq, Eq)]
pub struct FolderLook<'a> {
    /// Its path.
    pub folder: &'a str,
    /// What stands in it.
    pub found: Found,
    /// Whether a new store is meant there.
    pub is_meant: bool,
}

impl<'a> FolderLook<'a> {
    /// A folder in which this was found, where new stores are meant in these.
    pub fn new(folder: &'a str, found: Found, meant: &[&str]) -> FolderLook<'a>
        ensures folder { result.folder.now ≡ folder.now }
        ensures found { result.found ≡ found }
        ensures meant { IsTrue result.is_meant → Any (λ path. path.now ≡ folder.now) meant.now }
        ensures unmeant { IsFalse result.is_meant →
            All (λ path. path.now ≢ folder.now) meant.now }
    {
        FolderLook {
            folder,
            found,
            is_meant: is_among(meant, folder),
        }
    }

    /// Whether a store would be begun in it that isn't meant.
    fn is_unmeant(&self) -> bool
        ensures { IsTrue result ↔ IsUnmeant self.now }
    {
        match self.found {
            Found::New => !self.is_meant,
            Found::Ours => false,
            Found::Missing => false,
        }
    }

    /// Whether a store was begun in it before: it has settings, or is said to be missing.
    fn is_old(&self) -> bool
        ensures { IsTrue result ↔ (self.now.found ≢ New) }
    {
        match self.found {
            Found::New => false,
            Found::Ours => true,
            Found::Missing => true,
        }
    }
}

/// Whether a path is one of these.
fn is_among(paths: &[&str], folder: &str) -> bool
    ensures yes { IsTrue result → Any (λ path. path.now ≡ folder.now) paths.now }
    ensures no { IsFalse result → All (λ path. path.now ≢ folder.now) paths.now }
{
    for path in paths {
        if is_path(*path, folder) {
            return true;
        }
    }
    false
}

/// Whether two paths are written alike.
fn is_path(path: &str, other: &str) -> bool
    ensures { IsTrue result ↔ (path.now ≡ other.now) }
{
    path == other
}

/// Refuses folders that are new, aren't meant to be, and stand beside one with settings, or beside one that is missing.
/// Each is told by its name.
pub fn refuse_mistakes<R: Eprint>(rt: &R, seen: &[FolderLook<'_>]) -> Result<(), ProgramFault>
    ensures ok { OnOk result (All (λ one. ¬ (IsMistake seen.now one)) seen.now) }
    ensures err { IfErr result (λ fault. (fault ≡ ProgramFault.NewFolder)
        × Any (λ one. IsMistake seen.now one) seen.now) }
{
    if !has_old(seen) {
        return Ok(());
    }
    if !has_unmeant(seen) {
        return Ok(());
    }
    tell_unmeant(rt, seen);
    Err(ProgramFault::NewFolder)
}

/// Whether a store was begun in one of the folders before.
fn has_old(seen: &[FolderLook<'_>]) -> bool
    ensures yes { IsTrue result → Any (λ one. one.found ≢ New) seen.now }
    ensures no { IsFalse result → All (λ one. one.found ≡ New) seen.now }
{
    for one in seen {
        if one.is_old() {
            return true;
        }
    }
    false
}

/// Whether a store would be begun in one of the folders that isn't meant.
fn has_unmeant(seen: &[FolderLook<'_>]) -> bool
    ensures yes { IsTrue result → Any (λ one. IsUnmeant one) seen.now }
    ensures no { IsFalse result → All (λ one. ¬ (IsUnmeant one)) seen.now }
{
    for one in seen {
        if one.is_unmeant() {
            return true;
        }
    }
    false
}

/// Tells each folder in which a store would be begun that isn't meant by its name.
fn tell_unmeant<R: Eprint>(rt: &R, seen: &[FolderLook<'_>]) {
    for one in seen {
        if one.is_unmeant() {
            let _ = report_fault(rt, one.folder, ProgramFault::NewFolder);
        }
    }
}

/// Logs which folders are new, which have settings where a new store is meant, and which are served without.
pub fn log_seen<R: Files + AllocGlobal + Log>(
    rt: &R,
    seen: &[FolderLook<'_>],
) -> Result<(), AllocError> {
    for one in seen {
        let folder = one.folder;
        match one.found {
            Found::New => info!(rt; "{folder}: a new folder"),
            Found::Ours => log_meant(rt, one),
            Found::Missing => log_missing(rt, folder)?,
        }
    }
    Ok(())
}

/// Logs a folder with settings where a new store is meant.
fn log_meant<R: Log>(rt: &R, one: &FolderLook<'_>) {
    let folder = one.folder;
    if one.is_meant {
        warn!(rt; "{folder}: it has settings, so --new says nothing here, and would hide that its disk is gone");
    }
}

/// Logs a folder that is served without, and whether it is there all the same. Nothing in it is read.
fn log_missing<R: Files + AllocGlobal + Log>(rt: &R, folder: &str) -> Result<(), AllocError> {
    warn!(rt; "{folder}: missing, as --missing says: served without it, and uploads that want it are refused, until the program is started without --missing");
    let settings = format!(in rt.alloc(); "{folder}/grid")?;
    if fs::metadata(rt, settings.as_str()).is_ok() {
        warn!(rt; "{folder}: it is there, and is left alone because of --missing");
    }
    Ok(())
}
