//! Writing what caps are of.

use crate::disk::{DiskFolder, Output, new_name};
use crate::fault::TaskFault;
use crate::messages::{Tell, told};
use crate::progress::Progress;
use caps::Cap;
use client_core::{Exchange, walk};
use client_tree::{TreeFault, get_file, get_tree};
use octets::Text;
use std::fs;
use std::random::RandomSource;
use std::rt::Files;

/// How deep folders may stand.
pub const MOST_DEPTH: u32 = 256;

/// How many files and folders are taken at most.
pub const MOST_NODES: u64 = 100_000_000;

/// Writes the file to which names lead on standard output: whole or not at all, and one in parts part by part, so that after a
/// fault its beginning stands.
pub fn get_to_output<R: Print + AllocGlobal + Tell + Drop, E: Exchange>(
    rt: &R,
    gateway: &mut E,
    cap: &Cap,
    names: &[Text],
    is_told: bool,
) -> Result<(), TaskFault> {
    let mut output = Output::new(rt, Progress::new(rt, is_told));
    let got = get_file(rt.alloc(), gateway, &mut output, cap, names, &[]);
    output.end();
    match got {
        Ok(()) => Ok(()),
        Err(TreeFault::Local(_)) => Err(TaskFault::NotPrinted),
        Err(fault) => Err(TaskFault::Tree(fault)),
    }
}

/// Writes the file to which names lead: under a new name, which becomes `path` once it is whole.
pub fn get_to_file<R: Files + AllocGlobal + Tell + RandomSource + Drop, E: Exchange>(
    rt: &R,
    gateway: &mut E,
    cap: &Cap,
    names: &[Text],
    path: &str,
    is_told: bool,
) -> Result<(), TaskFault> {
    let Some(unfinished) = new_name(rt, path)? else {
        return Err(TaskFault::Unwritten);
    };
    let mut folder = DiskFolder::new(rt, unfinished.as_str(), Progress::new(rt, is_told));
    let got = get_file(rt.alloc(), gateway, &mut folder, cap, names, &[]);
    folder.end();
    match got {
        Ok(()) => finish(rt, unfinished.as_str(), path),
        Err(fault) => {
            let _ = fs::remove_file(rt, unfinished.as_str());
            Err(TaskFault::Tree(fault))
        }
    }
}

/// Writes what names lead to: under a new name, which becomes `path` once all is there.
pub fn get_to_folder<R: Files + AllocGlobal + Tell + RandomSource + Drop, E: Exchange>(
    rt: &R,
    gateway: &mut E,
    cap: &Cap,
    names: &[Text],
    path: &str,
    is_told: bool,
) -> Result<(), TaskFault> {
    let end = walk(rt.alloc(), gateway, cap, names)?;
    let Some(unfinished) = new_name(rt, path)? else {
        return Err(TaskFault::Unwritten);
    };
    let mut folder = DiskFolder::new(rt, unfinished.as_str(), Progress::new(rt, is_told));
    let got = get_tree(
        rt.alloc(),
        gateway,
        &mut folder,
        &end,
        MOST_DEPTH,
        MOST_NODES,
    );
    folder.end();
    match got {
        Ok(()) => finish(rt, unfinished.as_str(), path),
        Err(fault) => {
            let _ = fs::remove_dir_all(rt, unfinished.as_str());
            let _ = fs::remove_file(rt, unfinished.as_str());
            Err(TaskFault::Tree(fault))
        }
    }
}

/// Gives what is whole its name.
fn finish<R: Files + AllocGlobal + Tell>(
    rt: &R,
    unfinished: &str,
    path: &str,
) -> Result<(), TaskFault> {
    let renamed = fs::rename(rt, unfinished, path);
    if renamed.is_err() {
        let _ = fs::remove_dir_all(rt, unfinished);
        let _ = fs::remove_file(rt, unfinished);
    }
    Ok(told(rt, path, renamed)?)
}
