//! How many files and sockets the program may have open.
use std::fs;
use std::rt::Files;

/// How many handles the program needs besides those of its connections: its streams, one listener, that of control
/// requests and their connections.
const OTHERS: u64 = 32;

/// How many handles so many connections need, and so many others that are kept open: the lock of a store's folder, its
/// connection to a server, a further listener.
pub fn needed_for(connections: usize, kept: usize) -> u64 {
    (connections as u64)
        .saturating_add(kept as u64)
        .saturating_add(OTHERS)
}

/// How many handles the system allows, if it says so.
pub fn allowed<R: Files + AllocGlobal>(rt: &R) -> Option<u64> {
    let text = fs::read_to_string(rt, "/proc/self/limits").ok()?;
    soft_limit(text.as_str())
}

/// The first number in the line of open files.
pub fn soft_limit(text: &str) -> Option<u64> {
    for line in text.lines() {
        if let Some(numbers) = line.strip_prefix("Max open files") {
            let first = numbers.trim().split(' ').next()?;
            return match first.parse::<u64>() {
                Ok(limit) => Some(limit),
                Err(_) => None,
            };
        }
    }
    None
}
