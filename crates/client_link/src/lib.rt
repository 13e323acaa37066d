//! A connection to a gateway, over any stream: requests written, replies read (RFC 9112).
//!
//! Nothing of what comes is taken on trust: a reply is a head of `httparse`'s grammar with one framing by `http1`'s rules, a
//! body of no more bytes than were asked for, or it is refused, and the connection with it.
#![tactic(auto)]

/// Streams that are cut where they are too slow.
mod pace;
/// Writing requests.
mod sending;
/// Connections.
mod link;
/// Reading replies.
mod reply;
/// Connections that are opened again.
mod redial;
/// Several connections at once.
mod lanes;

pub use lanes::Lanes;
pub use link::Link;
pub use pace::{Paced, Timer, are_too_few};
pub use redial::{Dial, Redialing};
pub use sending::send_request;
