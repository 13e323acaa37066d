//! How many connections to a gateway there are at once.
ghost use Rattle.std.specs.Prelude.{◌≡◌, ◌≤◌, ℕ, length, option_map, IfOk, IfErr, MatchOption, Some};
ghost use Rattle.octets.specs.Decimal.{number_to};
ghost use Rattle.client_tasks.specs.Jobs.{IsCountGiven, IsJobCount};

use crate::fault::TaskFault;
use crate::gateway::{Dialer, Place};
use client_link::Lanes;
use client_options::Task;
use octets::read_number;
use std::net::Net;
use std::rt::Clock;

/// How many there are for a folder where none are given.
const DEFAULT: u64 = 8;

/// How many there may be.
const MOST: u64 = 64;

/// The gateway of a task at a place, over as many connections as the task is to have at once, where it may be slow for so many
/// seconds.
pub fn lanes_of<'a, R: Net + Clock + AllocGlobal>(
    rt: &'a R,
    place: &'a Place,
    task: &Task<'_>,
    patience: u64,
) -> Result<Lanes<'a, Dialer<'a, R>>, TaskFault>
    ensures { IfOk result (λ gateway. IsJobCount task.now (length gateway.links.items)) }
{
    let count = count_jobs(task)?;
    lanes_to(rt, place, count, patience)
}

/// How many connections a task is to have at once: as many as `--jobs` says, from 1 to 64, or else 8 where it stores or writes
/// a folder, and else one. `BadJobs` where the word is no such number.
fn count_jobs(task: &Task<'_>) -> Result<u64, TaskFault>
    ensures given { IfOk result (IsJobCount task.now) }
    ensures refused { IfErr result (λ fault. (fault ≡ TaskFault.BadJobs)
        × ((count : ℕ) → ¬ (IsJobCount task.now count))) }
{
    match task {
        Task::Put {
            recursive,
            jobs,
            ..
        } => count_of(*recursive, *jobs),
        Task::Get {
            recursive,
            jobs,
            ..
        } => count_of(*recursive, *jobs),
        _ => Ok(1),
    }
}

/// The same of the word behind `--jobs`, if there is one.
fn count_of(recursive: bool, given: Option<&str>) -> Result<u64, TaskFault>
    ensures given { IfOk result (IsCountGiven recursive (option_map (λ s. s.now) given.entry)) }
    ensures refused { IfErr result (λ fault. (fault ≡ TaskFault.BadJobs)
        × ((count : ℕ) → ¬ (IsCountGiven recursive (option_map (λ s. s.now) given.entry) count))) }
{
    let Some(text) = given else {
        return Ok(if recursive { DEFAULT } else { 1 });
    };
    match read_count(text) {
        Some(count) => Ok(count),
        None => Err(TaskFault::BadJobs),
    }
}

/// The number that a word says, from 1 to 64.
fn read_count(text: &str) -> Option<u64>
    ensures { MatchOption result
        ((count : ℕ) → 1 ≤ count → ¬ (number_to 64 text.now ≡ Some count))
        (λ count. (1 ≤ count) × (number_to 64 text.now ≡ Some count)) }
{
    let count = read_number(text.as_bytes(), MOST)?;
    if count == 0 { None } else { Some(count) }
}

/// A gateway at a place, over so many connections, which may be slow for so many seconds.
fn lanes_to<'a, R: Net + Clock + AllocGlobal>(
    rt: &'a R,
    place: &'a Place,
    count: u64,
    patience: u64,
) -> Result<Lanes<'a, Dialer<'a, R>>, TaskFault>
    ensures { IfOk result (λ gateway. length gateway.links.items ≡ count) }
{
    let mut dialers = Vec::new(rt.alloc());
    for _ in 0..count {
        dialers.push(Dialer::new(rt, place.address.as_str(), patience))?;
    }
    Ok(Lanes::new(rt.alloc(), place.host.as_str(), dialers)?)
}
