//! What a client asks for, and what becomes of it.

use crate::facts::{
    BELOW_CAP, LETTERS, LETTERS_CAP, MORE, MORE_CAP, ROWS, SHORT_CAP, TOP_CAP, TOP_CHILDREN,
    TOP_FILES,
};
use crate::folder::{Held, Kept, text_of};
use crate::gateway::{Dialer, Gateway, Lie, Stream};
use caps::{Cap, parse, print};
use client_core::{Exchange, fetch_directory, fetch_stored, walk};
use client_link::{Lanes, Link};
use client_tree::{Child, child_of, directory_of, get_file, get_tree, put_tree, put_whole};
use dir_codec::Directory;
use octets::Text;
use std::alloc::{AllocError, Global};
use std::fmt::Debug;
use std::test::Fail;

/// What a client asks for.
#[derive(Clone, Copy, Debug)]
pub enum Call {
    /// `fetch_stored`: the bytes of a file.
    Stored,
    /// `fetch_directory`: the directory at the top.
    Directory,
    /// `walk`: from the top down two names.
    Walk,
    /// `get_file`: the file at their end, into a folder.
    File,
    /// `get_tree`: all below the top, into a folder.
    Tree,
    /// `put_whole`: a file.
    Whole,
    /// `put_tree`: all files.
    Folder,
    /// `directory_of`: the directory below.
    Children,
}

/// Each call, and the rows of [`ROWS`] that it asks.
pub const CALLS: &[(Call, &[usize])] = &[
    (Call::Stored, &[0]),
    (Call::Directory, &[3]),
    (Call::Walk, &[3, 2]),
    (Call::File, &[3, 2, 1]),
    (Call::Tree, &[3, 0, 1, 2]),
    (Call::Whole, &[4]),
    (Call::Folder, &[4, 5, 6, 7, 8]),
    (Call::Children, &[8]),
];

/// What becomes of a call.
#[derive(Debug, Drop)]
pub enum Outcome {
    /// What was asked for, and all of it.
    Right,
    /// Something else, or something else stands in the folder.
    Wrong,
    /// A fault, as it is told; what stands in the folder is right.
    Refused(String),
}

/// Whether a call is refused with this fault, of which the last words in its form are these.
pub fn is_refused(outcome: &Outcome, fault: &str) -> bool {
    match outcome {
        Outcome::Refused(told) => told.as_str().trim_end_matches(')').ends_with(fault),
        _ => false,
    }
}

/// What becomes of a call over one connection to this gateway.
pub fn over_one(alloc: Global, gateway: Gateway<'_>, call: Call) -> Result<Outcome, Fail> {
    outcome_of(
        alloc,
        &mut Link::new(alloc, "g", Stream::new(alloc, gateway)),
        call,
    )
}

/// The same over three at once.
pub fn over_three(alloc: Global, gateway: Gateway<'_>, call: Call) -> Result<Outcome, Fail> {
    over_many(alloc, gateway, call, 3, false)
}

/// The same over one that is opened again, and on which it lies but the first time.
pub fn over_again(alloc: Global, gateway: Gateway<'_>, call: Call) -> Result<Outcome, Fail> {
    over_many(alloc, gateway, call, 1, true)
}

/// The same over so many.
fn over_many(
    alloc: Global,
    gateway: Gateway<'_>,
    call: Call,
    count: u32,
    lies_once: bool,
) -> Result<Outcome, Fail> {
    let mut dialers = Vec::new(alloc);
    for _ in 0..count {
        dialers.push(Dialer {
            alloc,
            gateway,
            lies_once,
        })?;
    }
    outcome_of(alloc, &mut Lanes::new(alloc, "g", dialers)?, call)
}

/// The same over none.
pub fn over_none(alloc: Global, call: Call) -> Result<Outcome, Fail> {
    let dialers: Vec<Dialer<'_>> = Vec::new(alloc);
    outcome_of(alloc, &mut Lanes::new(alloc, "g", dialers)?, call)
}

/// The gateway that answers by the table, and lies at a row of it.
pub fn lying(at: usize, lie: Lie<'_>) -> Gateway<'_> {
    Gateway {
        rows: ROWS,
        at,
        lie,
        at_a_time: usize::MAX,
    }
}

/// What becomes of a call.
fn outcome_of<E: Exchange>(alloc: Global, gateway: &mut E, call: Call) -> Result<Outcome, Fail> {
    match call {
        Call::Stored => fetch_letters(alloc, gateway),
        Call::Directory => fetch_top(alloc, gateway),
        Call::Walk => walk_down(alloc, gateway),
        Call::File => get_deep(alloc, gateway),
        Call::Tree => get_all(alloc, gateway),
        Call::Whole => put_letters(alloc, gateway),
        Call::Folder => put_all(alloc, gateway),
        Call::Children => make_below(alloc, gateway),
    }
}

/// A fault, as it is told.
pub fn refused(alloc: Global, fault: &impl Debug) -> Result<Outcome, Fail> {
    Ok(Outcome::Refused(format!(in alloc; "{fault:?}")?))
}

/// What it is where it may be right.
pub fn right(is_right: bool) -> Result<Outcome, Fail> {
    if is_right {
        Ok(Outcome::Right)
    } else {
        Ok(Outcome::Wrong)
    }
}

/// The file of 56 bytes, by the fields of its cap.
fn fetch_letters<E: Exchange>(alloc: Global, gateway: &mut E) -> Result<Outcome, Fail> {
    let Cap::Chk(fields) = parse(alloc, LETTERS_CAP)? else {
        return Err(Fail::from("not stored"));
    };
    match fetch_stored(alloc, gateway, &fields) {
        Ok(bytes) => right(bytes.as_slice() == LETTERS),
        Err(fault) => refused(alloc, &fault),
    }
}

/// The directory at the top.
fn fetch_top<E: Exchange>(alloc: Global, gateway: &mut E) -> Result<Outcome, Fail> {
    let top = parse(alloc, TOP_CAP)?;
    match fetch_directory(alloc, gateway, &top) {
        Ok(directory) => right(has_children(alloc, &directory, TOP_CHILDREN)?),
        Err(fault) => refused(alloc, &fault),
    }
}

/// Whether the directory has just these children, in their order.
fn has_children(
    alloc: Global,
    directory: &Directory,
    children: &[(&str, &str)],
) -> Result<bool, AllocError> {
    let entries = directory.entries();
    for (entry, (name, cap)) in entries.iter().zip(children) {
        let found = print(alloc, &entry.cap)?;
        if entry.name.as_str() != *name || found.as_str() != *cap {
            return Ok(false);
        }
    }
    Ok(entries.len() == children.len())
}

/// Texts that own their bytes.
pub fn texts(alloc: Global, names: &[&str]) -> Result<Vec<Text>, AllocError> {
    let mut texts = Vec::new(alloc);
    for name in names {
        texts.push(text_of(alloc, *name)?)?;
    }
    Ok(texts)
}

/// The cap at the end of two names.
fn walk_down<E: Exchange>(alloc: Global, gateway: &mut E) -> Result<Outcome, Fail> {
    let top = parse(alloc, TOP_CAP)?;
    let names = texts(alloc, &["sub", "deep"])?;
    match walk(alloc, gateway, &top, &names) {
        Ok(cap) => right_cap(alloc, &cap, MORE_CAP),
        Err(fault) => refused(alloc, &fault),
    }
}

/// What a cap is that may have this text.
pub fn right_cap(alloc: Global, cap: &Cap, text: &str) -> Result<Outcome, Fail> {
    let found = print(alloc, cap)?;
    right(found.as_str() == text)
}

/// The file at the end of two names, in a folder.
fn get_deep<E: Exchange>(alloc: Global, gateway: &mut E) -> Result<Outcome, Fail> {
    let top = parse(alloc, TOP_CAP)?;
    let names = texts(alloc, &["sub", "deep"])?;
    let mut folder = Kept::new(alloc);
    match get_file(alloc, gateway, &mut folder, &top, &names, &[]) {
        Ok(()) => right(folder.files.len() == 1 && folder.is_of(&[("", MORE)])),
        Err(fault) if folder.files.is_empty() => refused(alloc, &fault),
        Err(_) => Ok(Outcome::Wrong),
    }
}

/// All files below the top, in a folder.
fn get_all<E: Exchange>(alloc: Global, gateway: &mut E) -> Result<Outcome, Fail> {
    let top = parse(alloc, TOP_CAP)?;
    let mut folder = Kept::new(alloc);
    let got = get_tree(alloc, gateway, &mut folder, &top, 8, 100);
    if !folder.is_of(TOP_FILES) {
        return Ok(Outcome::Wrong);
    }
    match got {
        Ok(()) => right(folder.files.len() == TOP_FILES.len()),
        Err(fault) => refused(alloc, &fault),
    }
}

/// A folder with all files.
pub fn all_files(alloc: Global) -> Held<'static> {
    Held {
        alloc,
        files: TOP_FILES,
        left: b"",
    }
}

/// The cap of the file of 56 bytes, which is put.
fn put_letters<E: Exchange>(alloc: Global, gateway: &mut E) -> Result<Outcome, Fail> {
    let path = texts(alloc, &["a"])?;
    match put_whole(alloc, gateway, &mut all_files(alloc), &path) {
        Ok(cap) => right_cap(alloc, &cap, LETTERS_CAP),
        Err(fault) => refused(alloc, &fault),
    }
}

/// The cap of a folder with all files, which is put.
fn put_all<E: Exchange>(alloc: Global, gateway: &mut E) -> Result<Outcome, Fail> {
    match put_tree(alloc, gateway, &mut all_files(alloc), 8, 100) {
        Ok(cap) => right_cap(alloc, &cap, TOP_CAP),
        Err(fault) => refused(alloc, &fault),
    }
}

/// The children of the directory below.
fn below(alloc: Global) -> Result<Vec<Child>, Fail> {
    let mut children = Vec::new(alloc);
    for (name, cap) in [("deep", MORE_CAP), ("lit", SHORT_CAP)] {
        let name = text_of(alloc, name)?;
        children.push(child_of(alloc, &name, parse(alloc, cap)?)?)?;
    }
    Ok(children)
}

/// The cap of the directory below, which is made of its children.
fn make_below<E: Exchange>(alloc: Global, gateway: &mut E) -> Result<Outcome, Fail> {
    let children = below(alloc)?;
    match directory_of(alloc, gateway, &children) {
        Ok(cap) => right_cap(alloc, &cap, BELOW_CAP),
        Err(fault) => refused(alloc, &fault),
    }
}
