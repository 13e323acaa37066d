//! The part of a store on a server that needs no socket: a desk, at which many ask.
//!
//! A [`Desk`] belongs to one connection, over which replies come in the order of commands. Who asks is told a ticket. The
//! caller writes [`Desk::unwritten`] and tells how much was written, hands over what came ([`Desk::hear`]), and finds the
//! reply to a ticket by [`Desk::reply`], as often as it likes, until its owner forsakes what it asked.
#![tactic(auto)]

/// What is asked at a desk.
mod ask;
/// Why no more is heard.
mod fault;
/// A reply that isn't whole yet.
mod reader;
/// The replies that are kept.
mod kept;
/// A desk.
mod desk;
/// What holds of the definitions.
pub mod laws;

pub use ask::{Ask, Heard};
pub use desk::Desk;
pub use fault::DeskFault;
