//! Storing files and folders.

use crate::disk::{DiskSource, StreamSource};
use crate::fault::TaskFault;
use crate::getting::{MOST_DEPTH, MOST_NODES};
use crate::given::read_cap;
use crate::journal::Journal;
use crate::messages::Tell;
use crate::printed::{PrintCap, Put};
use crate::progress::Progress;
use client_core::Exchange;
use client_tree::{TreeFault, child_of, directory_of, put_tree, put_whole};
use octets::Text;
use std::alloc::Global;
use std::fs::File;
use std::io::{ErrorKind, Read};
use std::random::RandomSource;
use std::rt::Files;

/// Stores a file, or with `-` standard input, and prints its cap. What has more than 16,777,216 bytes is stored in parts.
pub fn put_one<R: Files + AllocGlobal + PrintCap + Tell + Input, E: Exchange>(
    rt: &R,
    gateway: &mut E,
    path: &str,
    is_told: bool,
) -> Result<(), TaskFault> {
    if path == "-" {
        return put_stream(rt, gateway, rt.reader(), is_told);
    }
    match File::open(rt, path) {
        Ok(file) => put_stream(rt, gateway, file, is_told),
        Err(error) if error.kind() == ErrorKind::OutOfMemory => Err(TaskFault::NoMemory),
        Err(_) => Err(TaskFault::Unread),
    }
}

/// Stores what is read from a stream, and prints its cap.
fn put_stream<R: AllocGlobal + PrintCap + Tell, E: Exchange, S: Read + Drop>(
    rt: &R,
    gateway: &mut E,
    stream: S,
    is_told: bool,
) -> Result<(), TaskFault> {
    let mut source = StreamSource::new(rt, stream, Progress::new(rt, is_told));
    let stored = put_whole(rt.alloc(), gateway, &mut source, &[]);
    source.end();
    match stored {
        Ok(cap) => rt.print_cap(&Put { cap }),
        Err(TreeFault::Local(_)) => Err(TaskFault::Unread),
        Err(fault) => Err(TaskFault::Tree(fault)),
    }
}

/// Stores a folder, and prints its cap. `PassedOver` where something in it is neither a file nor a folder; the cap is of the
/// rest then.
///
/// Where a state is named, files that it knows as they are aren't stored again, and it is written anew once the cap is
/// printed.
pub fn put_folder<
    R: Files + AllocGlobal + PrintCap + Tell + RandomSource + Clone + Drop,
    E: Exchange,
>(
    rt: &R,
    gateway: &mut E,
    path: &str,
    state: Option<&str>,
    verified: bool,
    is_told: bool,
) -> Result<(), TaskFault> {
    let journal = match state {
        Some(state) => Some(Journal::read(rt, state, verified)?),
        None => None,
    };
    let mut source = DiskSource::new(rt, path, journal, Progress::new(rt, is_told));
    let stored = put_tree(rt.alloc(), gateway, &mut source, MOST_DEPTH, MOST_NODES);
    let passed_over = source.end();
    rt.print_cap(&Put { cap: stored? })?;
    if let (Some(state), Some(journal)) = (state, source.journal()) {
        journal.write(rt, state)?;
    }
    if passed_over {
        return Err(TaskFault::PassedOver);
    }
    Ok(())
}

/// Makes a directory of children that are given as `NAME=CAP`, and prints its cap.
pub fn make_folder<R: Files + AllocGlobal + PrintCap, E: Exchange>(
    rt: &R,
    gateway: &mut E,
    given: &[&str],
) -> Result<(), TaskFault> {
    let alloc = rt.alloc();
    let mut children = Vec::with_capacity(alloc, given.len())?;
    for text in given {
        let Some((name, cap)) = text.split_once('=') else {
            return Err(TaskFault::NoCap);
        };
        let cap = read_cap(rt, cap)?;
        children.push(child_of(alloc, &name_of(alloc, name)?, cap)?)?;
    }
    let cap = directory_of(alloc, gateway, &children)?;
    rt.print_cap(&Put { cap })
}

/// A name that owns its text.
fn name_of(alloc: Global, name: &str) -> Result<Text, TaskFault> {
    Ok(Text::from_string(String::from_str(alloc, name)?))
}
