//! Folders and files on a disk.
ghost use Rattle.std.specs.Prelude.{◌≡◌, IfOk, IfSome, Some, string_bytes};
ghost use Rattle.client_tree.specs.FileNames.{AreFileNames};
ghost use Rattle.client_tasks.specs.Places.{IsPlaceBelow, place_of_names};

use crate::journal::{Journal, stamp_of};
use crate::messages::{Tell, tell_passed_over, told};
use crate::progress::Progress;
use crate::state::Stamp;
use caps::Cap;
use client_tree::{Child, Folder, Item, LocalFault, PART_BYTES, Source};
use octets::Text;
use std::alloc::{AllocError, Global};
use std::fs::{File, OpenFile, OpenOptions};
use std::io::{ErrorKind, Read, Write};
use std::random::RandomSource;
use std::rt::Files;
use std::{fs, io};

/// How many new names are tried for what isn't whole yet.
const MOST_TRIES: u32 = 10;

/// What on a disk files are written into: a folder or a file, under a new name until it is whole.
#[derive(Drop)]
pub struct DiskFolder<'a, R: Files + AllocGlobal + Tell + Drop> {
    rt: &'a R,
    top: &'a str,
    progress: Progress,
}

impl<'a, R: Files + AllocGlobal + Tell + Drop> DiskFolder<'a, R> {
    /// At a path at which nothing stands.
    pub fn new(rt: &'a R, top: &'a str, progress: Progress) -> Self {
        DiskFolder { rt, top, progress }
    }

    /// Nothing more comes.
    pub fn end(&self) {
        self.progress.end(self.rt);
    }

    /// Writes a file that isn't there, and syncs it.
    fn write_new(&self, path: &str, bytes: &[u8]) -> io::Result<()> {
        let mut file = File::create_new(self.rt, path)?;
        file.write_all(bytes)?;
        file.sync_all()
    }

    /// Puts bytes at the end of a file that is there, and syncs it.
    fn append(&self, path: &str, bytes: &[u8]) -> io::Result<()> {
        let mut file = OpenOptions::new().append(true).open(self.rt, path)?;
        file.write_all(bytes)?;
        file.sync_all()
    }
}

impl<R: Files + AllocGlobal + Tell + Drop> Folder for DiskFolder<'_, R> {
    fn make_folder(&mut self, path: &[Text]) -> Result<(), LocalFault> {
        let place = place_below(self.rt.alloc(), self.top, path)?;
        let made = fs::create_dir(self.rt, place.as_str());
        told(self.rt, place.as_str(), made)
    }

    fn write_file(&mut self, path: &[Text], bytes: &[u8]) -> Result<(), LocalFault> {
        let place = place_below(self.rt.alloc(), self.top, path)?;
        let written = self.write_new(place.as_str(), bytes);
        if written.is_err() {
            let _ = fs::remove_file(self.rt, place.as_str());
        }
        told(self.rt, place.as_str(), written)?;
        self.progress.count(self.rt, bytes.len(), true);
        Ok(())
    }

    fn append_file(&mut self, path: &[Text], bytes: &[u8]) -> Result<(), LocalFault> {
        let place = place_below(self.rt.alloc(), self.top, path)?;
        let written = self.append(place.as_str(), bytes);
        told(self.rt, place.as_str(), written)?;
        self.progress.count(self.rt, bytes.len(), false);
        Ok(())
    }
}

/// Standard output, on which one file is written.
#[derive(Drop)]
pub struct Output<'a, R: Print + AllocGlobal + Tell + Drop> {
    rt: &'a R,
    progress: Progress,
}

impl<'a, R: Print + AllocGlobal + Tell + Drop> Output<'a, R> {
    /// Of a program.
    pub fn new(rt: &'a R, progress: Progress) -> Self {
        Output { rt, progress }
    }

    /// Nothing more comes.
    pub fn end(&self) {
        self.progress.end(self.rt);
    }

    /// Writes bytes, of one more file or of the one that came last.
    fn write(&mut self, bytes: &[u8], is_new: bool) -> Result<(), LocalFault> {
        if io::writer(self.rt).write_all(bytes).is_err() {
            return Err(LocalFault);
        }
        self.progress.count(self.rt, bytes.len(), is_new);
        Ok(())
    }
}

impl<R: Print + AllocGlobal + Tell + Drop> Folder for Output<'_, R> {
    fn make_folder(&mut self, _path: &[Text]) -> Result<(), LocalFault> {
        Err(LocalFault)
    }

    fn write_file(&mut self, _path: &[Text], bytes: &[u8]) -> Result<(), LocalFault> {
        self.write(bytes, true)
    }

    fn append_file(&mut self, _path: &[Text], bytes: &[u8]) -> Result<(), LocalFault> {
        self.write(bytes, false)
    }
}

/// What is verified, and written nowhere.
#[derive(Drop)]
pub struct Nowhere<'a, R: AllocGlobal + Tell + Drop> {
    rt: &'a R,
    progress: Progress,
}

impl<'a, R: AllocGlobal + Tell + Drop> Nowhere<'a, R> {
    /// Of a program.
    pub fn new(rt: &'a R, progress: Progress) -> Self {
        Nowhere { rt, progress }
    }

    /// Nothing more comes.
    pub fn end(&self) {
        self.progress.end(self.rt);
    }
}

impl<R: AllocGlobal + Tell + Drop> Folder for Nowhere<'_, R> {
    fn make_folder(&mut self, _path: &[Text]) -> Result<(), LocalFault> {
        Ok(())
    }

    fn write_file(&mut self, _path: &[Text], bytes: &[u8]) -> Result<(), LocalFault> {
        self.progress.count(self.rt, bytes.len(), true);
        Ok(())
    }

    fn append_file(&mut self, _path: &[Text], bytes: &[u8]) -> Result<(), LocalFault> {
        self.progress.count(self.rt, bytes.len(), false);
        Ok(())
    }
}

/// A folder on a disk that files are read from.
#[derive(Drop)]
pub struct DiskSource<'a, R: Files + AllocGlobal + Tell + Clone + Drop> {
    rt: &'a R,
    top: &'a str,
    progress: Progress,
    /// Whether something was passed over.
    passed_over: bool,
    /// The file that is read, up to its last piece.
    open: Option<R::File>,
    /// How it was when it was opened, if that could be told.
    begun: Option<Stamp>,
    /// How many bytes of it were read.
    count: u64,
    /// Files that needn't be read, where there may be such.
    journal: Option<Journal>,
}

impl<'a, R: Files + AllocGlobal + Tell + Clone + Drop> DiskSource<'a, R> {
    /// At a path, with what is known of files below it that were stored before.
    pub fn new(rt: &'a R, top: &'a str, journal: Option<Journal>, progress: Progress) -> Self {
        DiskSource {
            rt,
            top,
            progress,
            passed_over: false,
            open: None,
            begun: None,
            count: 0,
            journal,
        }
    }

    /// What is known of the files below it.
    pub fn journal(&self) -> Option<&Journal> {
        self.journal.as_ref()
    }

    /// Nothing more comes; whether something was passed over.
    pub fn end(&self) -> bool {
        self.progress.end(self.rt);
        self.passed_over
    }

    /// What stands in a folder. What is neither a file nor a folder, as a link, is passed over and told.
    fn items_at(&mut self, place: &str) -> io::Result<Vec<Item>> {
        let alloc = self.rt.alloc();
        let mut items = Vec::new(alloc);
        for entry in fs::read_dir(self.rt, place)? {
            let entry = entry?;
            let kind = entry.file_type()?;
            if kind.is_dir() || kind.is_file() {
                items.push(Item {
                    name: Text::from_string(String::from_str(alloc, entry.file_name())?),
                    is_folder: kind.is_dir(),
                })?;
            } else {
                tell_passed_over(self.rt, place, entry.file_name());
                self.passed_over = true;
            }
        }
        Ok(items)
    }

    /// The next piece of the file that is read, or the first of the one at a place.
    fn piece_at(&mut self, place: &str, is_first: bool) -> io::Result<Vec<u8>> {
        if is_first {
            let file = File::open(self.rt, place)?;
            self.begun = stamp_of_open(&file);
            self.count = 0;
            self.open = Some(file);
        }
        let Some(file) = &mut self.open else {
            return Err(io::Error::from(ErrorKind::NotFound));
        };
        let bytes = read_part(self.rt.alloc(), file)?;
        self.count = self.count.saturating_add(bytes.len() as u64);
        Ok(bytes)
    }

    /// Takes note of the file of these names, all of which was read, where it stayed as it was meanwhile.
    fn note(&mut self, path: &[Text]) -> Result<(), AllocError> {
        let Some(journal) = &mut self.journal else {
            return Ok(());
        };
        let Some(file) = &self.open else {
            return Ok(());
        };
        match stayed(self.begun, stamp_of_open(file), self.count) {
            Some(stamp) => journal.see(self.rt.alloc(), path, stamp),
            None => Ok(()),
        }
    }
}

/// How an open file is, if that can be told.
fn stamp_of_open<F: OpenFile>(file: &F) -> Option<Stamp> {
    match file.metadata() {
        Ok(metadata) => stamp_of(&metadata),
        Err(_) => None,
    }
}

/// How a file was while all of it was read: `None` where it was another before than after, or hadn't as many bytes as
/// came.
fn stayed(before: Option<Stamp>, after: Option<Stamp>, count: u64) -> Option<Stamp>
    ensures { IfSome result (λ stamp. (before ≡ Some stamp) × ((after ≡ Some stamp)
        × (stamp.size ≡ count))) }
{
    let before = before?;
    let after = after?;
    if before.size == after.size && before.time == after.time && before.size == count {
        Some(before)
    } else {
        None
    }
}

impl<R: Files + AllocGlobal + Tell + Clone + Drop> Source for DiskSource<'_, R> {
    fn items(&mut self, path: &[Text]) -> Result<Vec<Item>, LocalFault> {
        let place = place_of(self.rt.alloc(), self.top, path)?;
        let items = self.items_at(place.as_str());
        told(self.rt, place.as_str(), items)
    }

    fn read_piece(&mut self, path: &[Text], is_first: bool) -> Result<Vec<u8>, LocalFault> {
        let place = place_of(self.rt.alloc(), self.top, path)?;
        let read = self.piece_at(place.as_str(), is_first);
        let bytes = told(self.rt, place.as_str(), read)?;
        self.progress.count(self.rt, bytes.len(), is_first);
        if (bytes.len() as u64) < PART_BYTES {
            self.note(path)?;
        }
        Ok(bytes)
    }

    fn known(&mut self, path: &[Text]) -> Result<Option<Cap>, LocalFault> {
        let Some(journal) = &mut self.journal else {
            return Ok(None);
        };
        let place = place_of(self.rt.alloc(), self.top, path)?;
        let cap = journal.known(self.rt, path, place.as_str())?;
        if cap.is_some() {
            self.progress.count(self.rt, 0, true);
        }
        Ok(cap)
    }

    fn stored(&mut self, path: &[Text], files: &[Child]) -> Result<(), LocalFault> {
        if let Some(journal) = &mut self.journal {
            journal.stored(self.rt.alloc(), path, files)?;
        }
        Ok(())
    }
}

/// One file that is read from a stream.
#[derive(Drop)]
pub struct StreamSource<'a, R: AllocGlobal + Tell, S: Read + Drop> {
    rt: &'a R,
    stream: S,
    progress: Progress,
}

impl<'a, R: AllocGlobal + Tell, S: Read + Drop> StreamSource<'a, R, S> {
    /// Of a stream from which nothing was read.
    pub fn new(rt: &'a R, stream: S, progress: Progress) -> Self {
        StreamSource {
            rt,
            stream,
            progress,
        }
    }

    /// Nothing more comes.
    pub fn end(&self) {
        self.progress.end(self.rt);
    }
}

impl<R: AllocGlobal + Tell, S: Read + Drop> Source for StreamSource<'_, R, S> {
    fn items(&mut self, _path: &[Text]) -> Result<Vec<Item>, LocalFault> {
        Err(LocalFault)
    }

    fn read_piece(&mut self, _path: &[Text], is_first: bool) -> Result<Vec<u8>, LocalFault> {
        let Ok(bytes) = read_part(self.rt.alloc(), &mut self.stream) else {
            return Err(LocalFault);
        };
        self.progress.count(self.rt, bytes.len(), is_first);
        Ok(bytes)
    }

    fn known(&mut self, _path: &[Text]) -> Result<Option<Cap>, LocalFault> {
        Ok(None)
    }

    fn stored(&mut self, _path: &[Text], _files: &[Child]) -> Result<(), LocalFault> {
        Ok(())
    }
}

/// The next bytes of a stream: as many as a part has, or all that are left.
fn read_part<S: Read>(alloc: Global, stream: &mut S) -> io::Result<Vec<u8>> {
    let mut bytes = Vec::new(alloc);
    stream.by_ref().take(PART_BYTES).read_to_end(&mut bytes)?;
    Ok(bytes)
}

/// A place below a top to which names of files lead, so that it is nowhere else.
fn place_below(alloc: Global, top: &str, path: &[Text]) -> Result<String, AllocError>
    requires { AreFileNames path.now }
    ensures { IfOk result (λ place. IsPlaceBelow top.now path.now (string_bytes place)) }
{
    place_of(alloc, top, path)
}

/// Where names lead below a top: each stands behind a `/`.
fn place_of(alloc: Global, top: &str, path: &[Text]) -> Result<String, AllocError>
    ensures { IfOk result (λ place. string_bytes place ≡ place_of_names top.now path.now) }
{
    let mut place = String::from_str(alloc, top)?;
    for name in path {
        place.push_str("/")?;
        place.push_str(name.as_str())?;
    }
    Ok(place)
}

/// A name beside a path, at which nothing stands. It is of random digits, so that two programs that write the same path have
/// two names, and none removes what the other one wrote.
pub fn new_name<R: Files + AllocGlobal + RandomSource>(
    rt: &R,
    path: &str,
) -> Result<Option<String>, AllocError> {
    let alloc = rt.alloc();
    let folder = match path.trim_end_matches('/').rsplit_once('/') {
        Some((folder, _)) => format!(in alloc; "{folder}/")?,
        None => String::new(alloc),
    };
    let folder = folder.as_str();
    for _ in 0..MOST_TRIES {
        let mut digits = [0; 8];
        if rt.fill_bytes(&mut digits).is_err() {
            return Ok(None);
        }
        let number = u64::from_be_bytes(digits);
        let tried = format!(in alloc; "{folder}.woz-{number:016x}")?;
        match fs::symlink_metadata(rt, tried.as_str()) {
            Err(error) if error.kind() == ErrorKind::NotFound => return Ok(Some(tried)),
            _ => {}
        }
    }
    Ok(None)
}
