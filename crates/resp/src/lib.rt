//! The Redis serialization protocol, RESP2, as a client speaks it: commands are written, and replies are read.
//!
//! [`command`] gives the bytes of a command, and [`command_head`] those that stand before its last word's. [`read_reply`]
//! looks at the bytes that came so far: they begin with a reply, or more of it has to come, or no reply begins so. It
//! keeps nothing between two calls, so it doesn't matter how the bytes were cut, and asks for memory for what came and
//! never for what was announced. [`read_bulk_line`] reads the line of a bulk string alone.
#![tactic(auto)]

/// Replies.
mod reply;
/// How large a reply may be.
mod limits;
/// Why no reply is read.
mod fault;
/// Lines and numbers.
mod lines;
/// What a lone item is read from.
mod items;
/// What a reply is read from.
mod replies;
/// Commands.
mod commands;
/// What holds of the definitions.
pub mod laws;

pub use commands::{command, command_head};
pub use fault::{RespFault, Wrong};
pub use limits::Limits;
pub use replies::{read_bulk_line, read_reply};
pub use reply::{Element, Elements, Item, Items, Reply};
