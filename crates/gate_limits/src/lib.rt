//! What connections of a gateway may take and what is counted of them, their sockets and listeners, and who may send control
//! requests: what a loop over sockets knows without a gateway.
//!
//! A loop has one [`Limits`], [`Counts`] and [`Memory`] for all connections, and a [`Pace`] and a [`Stopwatch`] for each.
#![tactic(auto)]

/// What is allowed to connections.
mod limits;
/// How long a peer may take.
mod pace;
/// How much memory connections may take.
mod memory;
/// How long requests took.
mod latencies;
/// How long the request takes that a connection sends.
mod stopwatch;
/// What happened so far.
mod counts;
/// How many lines a second are told of connections.
mod journal;
/// The ids of connections.
mod ids;
/// Where a peer is, as far as its places are counted.
mod peer_address;
/// Sockets of connections, and the acceptors by which they come.
mod sockets;
/// Listeners, each with the secret under which connections are opened that come by it.
mod listeners;
/// Control requests that come from elsewhere.
mod foreign;
/// The token that control requests have to bring.
mod bearer;

pub use bearer::{challenge, is_authorized};
pub use counts::Counts;
pub use foreign::{Foreign, Here, foreign_by, refusal};
pub use ids::Ids;
pub use journal::Journal;
pub use latencies::{Bucket, Histogram, Latencies, RequestKind};
pub use limits::Limits;
pub use listeners::{Arrivals, CONTROL, Listener, Listeners, MOST_LISTENERS, place_of};
pub use memory::{LONG, Memory};
pub use pace::{Pace, Way};
pub use peer_address::PeerAddress;
pub use sockets::{Arrival, Entrance, register};
pub use stopwatch::{Begun, Stopwatch};
