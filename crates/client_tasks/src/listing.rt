//! Listing directories.

use crate::fault::TaskFault;
use caps::Cap;
use client_core::{Exchange, fetch_directory, walk};
use dir_codec::Directory;
use json_view::{dir_json, file_json};
use octets::Text;
use std::io;
use std::io::Write;

/// Lists what names lead to: the children of a directory, a line each, or a file. Sizes stand in caps, so no child is asked
/// for.
pub fn list<R: Print + AllocGlobal, E: Exchange>(
    rt: &R,
    gateway: &mut E,
    cap: &Cap,
    names: &[Text],
) -> Result<(), TaskFault> {
    let end = walk(rt.alloc(), gateway, cap, names)?;
    match &end {
        Cap::DirChk(_) | Cap::DirLit(_) => {
            let directory = fetch_directory(rt.alloc(), gateway, &end)?;
            list_children(rt, &directory)
        }
        _ => {
            let name = names.last().map_or("", |name| name.as_str());
            print_child(rt, &end, name)
        }
    }
}

/// Prints the JSON that a gateway's `t=json` gives of what names lead to, without asking for it.
pub fn list_json<R: Print + AllocGlobal, E: Exchange>(
    rt: &R,
    gateway: &mut E,
    cap: &Cap,
    names: &[Text],
) -> Result<(), TaskFault> {
    let alloc = rt.alloc();
    let end = walk(alloc, gateway, cap, names)?;
    let text = match &end {
        Cap::DirChk(_) | Cap::DirLit(_) => {
            let directory = fetch_directory(alloc, gateway, &end)?;
            dir_json(alloc, &end, &directory)?
        }
        _ => file_json(alloc, &end)?,
    };
    let mut output = io::writer(rt);
    if output.write_all(&text).is_err() || output.write_all(b"\n").is_err() {
        return Err(TaskFault::NotPrinted);
    }
    Ok(())
}

/// Prints a line for each child.
fn list_children<R: Print>(rt: &R, directory: &Directory) -> Result<(), TaskFault> {
    for entry in directory.entries() {
        print_child(rt, &entry.cap, entry.name.as_str())?;
    }
    Ok(())
}

/// Prints the line of a child: its kind, its size, and its name in quotes, so that none ends the line.
fn print_child<R: Print>(rt: &R, cap: &Cap, name: &str) -> Result<(), TaskFault> {
    let printed = match cap {
        Cap::Chk(fields) => {
            let size = fields.size;
            println!(rt; "file {size:>12} {name:?}")
        }
        Cap::Lit(bytes) => {
            let size = bytes.as_slice().len();
            println!(rt; "file {size:>12} {name:?}")
        }
        Cap::DirChk(_) | Cap::DirLit(_) => println!(rt; "dir             - {name:?}"),
        Cap::ChkVerify(_) | Cap::DirChkVerify(_) => println!(rt; "verify          - {name:?}"),
    };
    match printed {
        Ok(()) => Ok(()),
        Err(_) => Err(TaskFault::NotPrinted),
    }
}
