//! Files that a put skips because they were stored before, and what it tells the next put.
ghost use Rattle.std.specs.Prelude.{IfOk, IsTrue};
ghost use Rattle.cap_binding.specs.Binds.{AreFileOf};

use crate::disk::new_name;
use crate::fault::TaskFault;
use crate::messages::{Tell, told};
use crate::state::{FIRST_LINE, Known, Stamp, push_line, read_state};
use cap_binding::bound;
use caps::{Cap, copy_cap};
use client_tree::{Child, PART_BYTES, size_of_file};
use octets::Text;
use std::alloc::{AllocError, Global};
use std::collections::BTreeMap;
use std::fs::{Metadata, OpenFile, OpenOptions};
use std::io::{ErrorKind, Write};
use std::os::unix::fs::OpenOptionsExt;
use std::random::RandomSource;
use std::rt::Files;
use std::time::UNIX_EPOCH;
use std::{fs, io};

/// Who may read and write a state: its owner. Its caps are all that it takes to read the files.
const OWN: u32 = 0o600;

/// What is known of files that were stored before, and of those that now stand.
#[derive(Drop)]
pub struct Journal {
    /// What the last put told, by path.
    before: BTreeMap<Vec<u8>, Known>,
    /// The files of one folder that were read, or didn't have to be, by name.
    seen: BTreeMap<Vec<u8>, Stamp>,
    /// What the next put is told.
    text: Vec<u8>,
    /// Whether files that were stored before are held against their caps.
    verified: bool,
}

impl Journal {
    /// Reads what the last put told. `BadState` where it is no state; nothing was told where no file is there.
    pub fn read<R: Files + AllocGlobal>(
        rt: &R,
        path: &str,
        verified: bool,
    ) -> Result<Journal, TaskFault> {
        let alloc = rt.alloc();
        let before = match fs::read(rt, path) {
            Ok(text) => read_state(alloc, &text)?,
            Err(error) => match error.kind() {
                ErrorKind::NotFound => Some(BTreeMap::new(alloc)),
                ErrorKind::OutOfMemory => return Err(TaskFault::NoMemory),
                _ => return Err(TaskFault::Unread),
            },
        };
        let Some(before) = before else {
            return Err(TaskFault::BadState);
        };
        let mut text = Vec::new(alloc);
        text.extend_from_slice(FIRST_LINE)?;
        Ok(Journal {
            before,
            seen: BTreeMap::new(alloc),
            text,
            verified,
        })
    }

    /// The cap of the file of these names, which stands at a place, if it was stored before as it is.
    pub fn known<R: Files + AllocGlobal>(
        &mut self,
        rt: &R,
        names: &[Text],
        place: &str,
    ) -> Result<Option<Cap>, AllocError> {
        let alloc = rt.alloc();
        let path = path_of(alloc, names)?;
        let Some(known) = self.before.get(path.as_slice()) else {
            return Ok(None);
        };
        if stamp_at(rt, place) != Some(known.stamp) {
            return Ok(None);
        }
        if self.verified {
            let same = is_file_of(rt, place, known)?;
            if !same || stamp_at(rt, place) != Some(known.stamp) {
                return Ok(None);
            }
        }
        let cap = copy_cap(alloc, &known.cap)?;
        let stamp = known.stamp;
        self.see(alloc, names, stamp)?;
        Ok(Some(cap))
    }

    /// Takes note of how the file of these names was when it was read.
    pub fn see(&mut self, alloc: Global, names: &[Text], stamp: Stamp) -> Result<(), AllocError> {
        let Some(name) = names.last() else {
            return Ok(());
        };
        let name = Vec::from_slice(alloc, name.as_str().as_bytes())?;
        match self.seen.insert(name, stamp) {
            Ok(_) => Ok(()),
            Err(_) => Err(AllocError),
        }
    }

    /// Takes note of the caps of a folder's files.
    pub fn stored(
        &mut self,
        alloc: Global,
        names: &[Text],
        files: &[Child],
    ) -> Result<(), AllocError> {
        for file in files {
            if let Some(stamp) = self.seen.remove(file.name.as_str().as_bytes()) {
                let path = path_to(alloc, names, file.name.as_str())?;
                push_line(alloc, &mut self.text, &path, &stamp, &file.cap)?;
            }
        }
        self.seen = BTreeMap::new(alloc);
        Ok(())
    }

    /// Writes what the next put is told: under a new name, which becomes `path` once it is whole and synced.
    pub fn write<R: Files + AllocGlobal + Tell + RandomSource>(
        &self,
        rt: &R,
        path: &str,
    ) -> Result<(), TaskFault> {
        let Some(unfinished) = new_name(rt, path)? else {
            return Err(TaskFault::Unwritten);
        };
        let written = write_own(rt, unfinished.as_str(), &self.text, path);
        if written.is_err() {
            let _ = fs::remove_file(rt, unfinished.as_str());
        }
        told(rt, path, written)?;
        Ok(())
    }
}

/// Writes a file that its owner alone may read, syncs it, and gives it its name.
fn write_own<R: Files>(rt: &R, unfinished: &str, bytes: &[u8], path: &str) -> io::Result<()> {
    let mut file = OpenOptions::new()
        .write(true)
        .create_new(true)
        .mode(OWN)
        .open(rt, unfinished)?;
    file.write_all(bytes)?;
    file.sync_all()?;
    fs::rename(rt, unfinished, path)
}

/// The names as one text, `/` between them.
fn path_of(alloc: Global, names: &[Text]) -> Result<Vec<u8>, AllocError> {
    let mut path = Vec::new(alloc);
    for name in names {
        if !path.is_empty() {
            path.extend_from_slice(b"/")?;
        }
        path.extend_from_slice(name.as_str().as_bytes())?;
    }
    Ok(path)
}

/// The same with one more name.
fn path_to(alloc: Global, names: &[Text], name: &str) -> Result<Vec<u8>, AllocError> {
    let mut path = path_of(alloc, names)?;
    if !path.is_empty() {
        path.extend_from_slice(b"/")?;
    }
    path.extend_from_slice(name.as_bytes())?;
    Ok(path)
}

/// How a file is, if that can be told.
pub fn stamp_of(metadata: &Metadata) -> Option<Stamp> {
    let Ok(time) = metadata.modified() else {
        return None;
    };
    let Ok(since) = time.duration_since(UNIX_EPOCH) else {
        return None;
    };
    let Ok(time) = u64::try_from(since.as_nanos()) else {
        return None;
    };
    Some(Stamp {
        size: metadata.len(),
        time,
    })
}

/// How the file at a place is, if one is there.
fn stamp_at<R: Files>(rt: &R, place: &str) -> Option<Stamp> {
    match fs::symlink_metadata(rt, place) {
        Ok(metadata) if metadata.is_file() => stamp_of(&metadata),
        _ => None,
    }
}

/// Whether the file at a place has the bytes that a cap is of, as one file of a stamp's size. It hasn't where it can't
/// be read.
fn is_file_of<R: Files + AllocGlobal>(
    rt: &R,
    place: &str,
    known: &Known,
) -> Result<bool, AllocError> {
    if known.stamp.size > PART_BYTES || size_of_file(&known.cap) != Some(known.stamp.size) {
        return Ok(false);
    }
    match fs::read(rt, place) {
        Ok(bytes) => are_bytes_of(rt.alloc(), bytes, &known.cap),
        Err(error) if error.kind() == ErrorKind::OutOfMemory => Err(AllocError),
        Err(_) => Ok(false),
    }
}

/// Whether bytes are those of the file that a cap is of.
fn are_bytes_of(alloc: Global, bytes: Vec<u8>, cap: &Cap) -> Result<bool, AllocError>
    ensures { IfOk result (λ are. IsTrue are → AreFileOf cap.now bytes.items) }
{
    match cap {
        Cap::Chk(fields) => Ok(bound(alloc, fields, bytes)?.is_some()),
        Cap::Lit(own) => Ok(own.as_slice() == bytes.as_slice()),
        _ => Ok(false),
    }
}
