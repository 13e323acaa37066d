//! Tests of long requests of the gateway over its public calls, of what no script shows.
#![tactic(auto)]

/// Long messages.
mod counted;
/// What callers ask and are told.
#[cfg(test)]
mod rows;
/// A body of the longest length.
#[cfg(test)]
mod longest;
/// A walk into a long directory, and its listing.
#[cfg(test)]
mod walked;
/// A directory that is made of long children JSON.
#[cfg(test)]
mod made;
/// Directories whose one child has long metadata.
#[cfg(test)]
mod metadata;
