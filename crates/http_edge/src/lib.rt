//! One edge of a connection: its bytes as requests, and replies as bytes (RFC 9110, RFC 9112).
//!
//! [`Conn`] takes a connection's bytes in pieces, however they are cut, and gives the requests, interim answers that
//! are asked for and framing faults that stand complete in them. [`render`] gives the bytes of a reply.
#![tactic(auto)]

/// The fields of a head.
mod field;
/// What a connection's bytes hold: requests, interim answers that are asked for, framing faults.
mod item;
/// What a head block comes to.
mod verdict;
/// Reading a head block.
mod head;
/// The checks of a head.
mod judge;
/// A connection's bytes by lines, and how a head block ends.
mod line;
/// Where in a chunked body the next byte stands.
mod place;
/// Reading a chunked body as its bytes come.
mod chunks;
/// What a connection goes on with.
mod state;
/// A connection's bytes, as they come in pieces.
mod conn;
/// What holds of the framing, whatever the bytes.
pub mod laws;
/// The fields of a reply.
mod reply_field;
/// The bytes of a reply.
mod reply;

pub use conn::{Conn, LastChunks};
pub use field::{Field, Fields};
pub use item::{FramingFault, Head, Item};
pub use place::Place;
pub use reply::{Reply, Status, continue_text, render, render_head_into, render_into};
pub use reply_field::{ReplyField, ReplyFields};
pub use verdict::{Awaited, Chunked};
