//! What a gateway is made of that knows no file, no directory and no store: what it is set up with, its pages, replies as
//! they are sent, the output that waits, what that holds in memory, how many replies there were, and sets of ids.
#![tactic(auto)]

/// Heads of requests, for the web API.
mod heads;
/// Pages of the gateway's own, beside the web API.
mod pages;
/// What a gateway is set up with.
mod parameters;
/// Replies as they are sent.
mod wire;
/// Replies as browsers make use of them.
mod browsers;
/// Bytes that are taken from the front of a buffer.
mod queue;
/// Bytes that wait to be taken.
mod output;
/// What a reply holds in memory while it waits.
mod holds;
/// How many replies there were, by status.
mod tally;
/// A set of numbers that takes memory for its gaps.
mod ids;
/// Laws of the definitions.
pub mod laws;

pub use browsers::sent_reply;
pub use heads::web_head;
pub use holds::{Holds, Prospect};
pub use ids::Ids;
pub use output::Output;
pub use pages::{Page, Pages, elsewhere};
pub use parameters::Parameters;
pub use tally::Tally;
pub use wire::{Sent, framing_reply};
