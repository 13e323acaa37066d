//! Tests of a client of a gateway that lies, over the public calls of `client_core`, `client_tree` and `client_link`.
#![tactic(auto)]

/// What is given at a time.
mod copying;
/// Files, directories and their caps.
#[cfg(test)]
mod facts;
/// A gateway in memory, and its lies.
#[cfg(test)]
mod gateway;
/// Folders in memory.
#[cfg(test)]
mod folder;
/// What a client asks for, and what becomes of it.
#[cfg(test)]
mod calls;
/// Lies in what replies have in their bodies.
#[cfg(test)]
mod bodies;
/// Lies in how replies are framed.
#[cfg(test)]
mod frames;
/// Files that are long, and files in parts.
#[cfg(test)]
mod long_files;
