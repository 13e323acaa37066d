//! Checking and repairing.
ghost use Rattle.std.specs.Prelude.{IfOk, IfSome};
ghost use Rattle.client_tasks.specs.Had.{IsAskedCheck, IsReadThrough, IsStoredHad};

use crate::disk::Nowhere;
use crate::fault::TaskFault;
use crate::getting::{MOST_DEPTH, MOST_NODES};
use crate::messages::Tell;
use crate::progress::Progress;
use caps::{Cap, ReadFields, copy_cap, weaken};
use client_core::{Ask, ClientFault, Exchange, fetch_directory, fetch_stored, put_file};
use client_tree::{TreeFault, get_tree, parts_size};
use dir_codec::Directory;
use serde_json::Value;
use std::alloc::{AllocError, Global};

/// The most bytes of what a gateway says of a check.
const MOST_OF_A_REPORT: u64 = 1_048_576;

/// What a gateway says of shares.
#[derive(Clone, Copy, PartialEq, Eq)]
struct Report {
    good: u64,
    expected: u64,
    healthy: bool,
}

/// Reads what a cap is of, a file in parts whole, and holds it against the cap. It takes nobody's word.
pub fn read_all<R: AllocGlobal + Tell + Drop, E: Exchange>(
    rt: &R,
    gateway: &mut E,
    cap: &Cap,
    recursive: bool,
    is_told: bool,
) -> Result<(), TaskFault>
    ensures { IfOk result (λ done. IsReadThrough recursive cap.now) }
{
    let alloc = rt.alloc();
    if !recursive {
        if let Cap::DirChk(_) | Cap::DirLit(_) = cap {
            let directory = fetch_directory(alloc, gateway, cap)?;
            if parts_size(alloc, &directory)?.is_none() {
                return Ok(());
            }
        }
    }
    let mut nowhere = Nowhere::new(rt, Progress::new(rt, is_told));
    let read = get_tree(alloc, gateway, &mut nowhere, cap, MOST_DEPTH, MOST_NODES);
    nowhere.end();
    Ok(read?)
}

/// Prints what the gateway says of the shares of what a cap is of, of a file in parts and of each part, and with `recursive`
/// of all that it leads to. `NotWell` where it says that some are missing or not good.
pub fn check<R: AllocGlobal + Print, E: Exchange>(
    rt: &R,
    gateway: &mut E,
    cap: Cap,
    verify: bool,
    recursive: bool,
) -> Result<(), TaskFault> {
    let alloc = rt.alloc();
    let mut left = Vec::new(alloc);
    left.push(cap)?;
    let mut well = true;
    for _ in 0..MOST_NODES {
        let Some(cap) = left.pop() else {
            break;
        };
        well = check_one(rt, gateway, &cap, verify)? && well;
        push_children(alloc, gateway, &cap, recursive, &mut left)?;
    }
    if !left.is_empty() {
        return Err(TaskFault::Tree(TreeFault::TooMany));
    }
    if well {
        Ok(())
    } else {
        Err(TaskFault::NotWell)
    }
}

/// Prints what the gateway says of the shares under a cap, and whether it says that they are well.
fn check_one<R: AllocGlobal + Print, E: Exchange>(
    rt: &R,
    gateway: &mut E,
    cap: &Cap,
    verify: bool,
) -> Result<bool, TaskFault> {
    let Some(report) = ask_report(rt.alloc(), gateway, cap, verify)? else {
        return Ok(true);
    };
    let Report {
        good,
        expected,
        healthy,
    } = report;
    let words = if healthy { "healthy" } else { "not healthy" };
    match println!(rt; "{words}: {good} of {expected} shares") {
        Ok(()) => Ok(healthy),
        Err(_) => Err(TaskFault::NotPrinted),
    }
}

/// What the gateway says of the shares under a cap; there are none of one whose bytes stand in it.
fn ask_report<E: Exchange>(
    alloc: Global,
    gateway: &mut E,
    cap: &Cap,
    verify: bool,
) -> Result<Option<Report>, TaskFault>
    ensures { IfOk result (λ report. IfSome report (λ said.
        IsAskedCheck E.told gateway.old cap.now verify gateway.new)) }
{
    let Some(cap) = weaken(cap) else {
        return Ok(None);
    };
    let asked = gateway.ask(&Ask::Check { cap, verify }, &[], MOST_OF_A_REPORT);
    let answer = match asked {
        Ok(answer) => answer,
        Err(fault) => return Err(TaskFault::from(ClientFault::from(fault))),
    };
    if answer.status != 200 {
        return Err(TaskFault::from(ClientFault::Refused(answer.status)));
    }
    match read_report(alloc, answer.body.as_slice())? {
        Some(report) => Ok(Some(report)),
        None => Err(TaskFault::from(ClientFault::NotBound)),
    }
}

/// What a report says.
fn read_report(alloc: Global, body: &[u8]) -> Result<Option<Report>, AllocError> {
    let value = match Value::from_slice(alloc, body) {
        Ok(value) => value,
        Err(error) => {
            if error.is_memory() {
                return Err(AllocError);
            }
            return Ok(None);
        }
    };
    let Some(results) = value.get("results") else {
        return Ok(None);
    };
    let good = results.get("count-shares-good").and_then(Value::as_u64);
    let expected = results.get("count-shares-expected").and_then(Value::as_u64);
    let healthy = results.get("healthy").and_then(Value::as_bool);
    match (good, expected, healthy) {
        (Some(good), Some(expected), Some(healthy)) => Ok(Some(Report {
            good,
            expected,
            healthy,
        })),
        _ => Ok(None),
    }
}

/// Appends the caps of a directory's children: with `recursive` of each, else of the parts of a file alone.
fn push_children<E: Exchange>(
    alloc: Global,
    gateway: &mut E,
    cap: &Cap,
    recursive: bool,
    left: &mut Vec<Cap>,
) -> Result<(), TaskFault> {
    if let Cap::DirChk(_) | Cap::DirLit(_) = cap {
        let directory = fetch_directory(alloc, gateway, cap)?;
        if recursive || parts_size(alloc, &directory)?.is_some() {
            return push_caps(alloc, &directory, left);
        }
    }
    Ok(())
}

/// Appends the caps of entries.
fn push_caps(alloc: Global, directory: &Directory, left: &mut Vec<Cap>) -> Result<(), TaskFault> {
    for entry in directory.entries() {
        left.push(copy_cap(alloc, &entry.cap)?)?;
    }
    Ok(())
}

/// Has missing shares put back of what a cap is of, of a file in parts and of each part, and with `recursive` of all that it
/// leads to: what isn't healthy is read, held against its cap and stored again. `OtherCap` where another cap came of it.
pub fn repair<R: AllocGlobal + Print, E: Exchange>(
    rt: &R,
    gateway: &mut E,
    cap: Cap,
    recursive: bool,
) -> Result<(), TaskFault> {
    let alloc = rt.alloc();
    let mut left = Vec::new(alloc);
    left.push(cap)?;
    for _ in 0..MOST_NODES {
        let Some(cap) = left.pop() else {
            return Ok(());
        };
        repair_one(rt, gateway, &cap)?;
        push_children(alloc, gateway, &cap, recursive, &mut left)?;
    }
    Err(TaskFault::Tree(TreeFault::TooMany))
}

/// Has missing shares put back of what one cap is of.
fn repair_one<R: AllocGlobal + Print, E: Exchange>(
    rt: &R,
    gateway: &mut E,
    cap: &Cap,
) -> Result<(), TaskFault> {
    let fields = match cap {
        Cap::Chk(fields) => fields,
        Cap::DirChk(fields) => fields,
        _ => return Ok(()),
    };
    let Some(before) = ask_report(rt.alloc(), gateway, cap, true)? else {
        return Ok(());
    };
    if before.healthy {
        return Ok(());
    }
    store_again(rt.alloc(), gateway, fields)?;
    if check_one(rt, gateway, cap, true)? {
        Ok(())
    } else {
        Err(TaskFault::NotWell)
    }
}

/// Reads what is stored under the fields, and stores it again. `OtherCap` where other fields came of it: it was stored under
/// another secret, or other numbers, and can't be repaired here.
fn store_again<E: Exchange>(
    alloc: Global,
    gateway: &mut E,
    fields: &ReadFields,
) -> Result<(), TaskFault>
    ensures { IfOk result (λ done. IsStoredHad fields.now) }
{
    let bytes = fetch_stored(alloc, gateway, fields)?;
    let (made, _) = put_file(alloc, gateway, bytes)?;
    if has_fields(&made, fields) {
        Ok(())
    } else {
        Err(TaskFault::OtherCap)
    }
}

/// Whether a file's cap has these fields.
fn has_fields(cap: &Cap, fields: &ReadFields) -> bool {
    match cap {
        Cap::Chk(made) => made == fields,
        _ => false,
    }
}
