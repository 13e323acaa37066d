//! A client of a gateway that trusts neither the gateway nor the servers behind it: what it gives is held against the caps
//! that it was asked for, and the caps that it gives are held against what was stored.
//!
//! It walks paths itself, so it asks for four things alone, and no name and no escape ever stands in a target.
#![tactic(auto)]

/// What a gateway is asked for.
mod ask;
/// Requests as bytes.
mod request;
/// The JSON of a directory's children.
mod children_writer;
/// What answers requests.
mod exchange;
/// Why a call is refused, or a request isn't written.
mod fault;
/// Caps of what was stored, held against it.
mod held;
/// Reading what caps are of.
mod fetch;
/// Walks down the names of a path.
mod walker;
/// Storing files and directories.
mod store;
/// Several requests at once.
mod ahead;
/// What holds of requests, of the JSON of children and of walks.
pub mod laws;

pub use ahead::{begin_fetch, begin_put, fetch_begun, lane_at, put_begun, stored_begun};
pub use ask::Ask;
pub use children_writer::children_json;
pub use exchange::{Answer, Exchange, LinkFault};
pub use fault::{ClientFault, WireFault};
pub use fetch::{fetch_directory, fetch_file, fetch_stored, fetch_text};
pub use request::request_head;
pub use store::{make_directory, put_file};
pub use walker::walk;
