//! Many connections of a gateway at once, over sockets that don't block.
//!
//! [`serve_on`] accepts connections and gives each its turns, within [`Limits`] of `gate_limits`, until it is told to stop on
//! a control listener, whose requests a [`Control`](gate_control::Control) answers.
#![tactic(auto)]

/// Why serving ended.
mod fault;
/// What turns are had with.
mod tools;
/// One connection with its socket.
mod peer;
/// How connections that are over are forgotten.
mod forget;
/// The connections by their ids.
mod table;
/// Telling of stores that fail, and of those that no longer do.
mod watch;
/// The loop.
mod serving;

pub use fault::ServeFault;
pub use gate_limits::{
    Bucket, Counts, Histogram, Latencies, Limits, Listener, MOST_LISTENERS, Pace, RequestKind, Way,
};
pub use serving::serve_on;
