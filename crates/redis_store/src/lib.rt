//! A store on a Redis server that many processes may use at the same time.
//!
//! It has no index: each call asks the server, in one exchange. A share is put where none stands, in one step of the
//! server, and never taken back by who put it, so what one process was answered every other finds at once, and what
//! was found goes away by the operator alone. Whoever comes first writes down whose the server is, and each new
//! connection compares.
#![tactic(auto)]

/// Why a server gave no answer.
mod fault;
/// Keys of shares.
mod keys;
/// The text that says whose a server is.
mod settings_key;
/// A way to a server.
mod link;
/// Commands.
mod commands;
/// What replies say.
mod answers;
/// Commands, and their replies.
mod talk;
/// A connection that is made anew where it is needed.
mod connection;
/// The store.
mod redis_store;
/// A way to a server, in the time that its bytes are given.
mod paced_link;
/// What holds of keys, of the text and of the name under which it stands, and of what calls answer where the server
/// does what is assumed of one.
pub mod laws;

pub use fault::{LinkFault, ServerFault};
pub use link::Link;
pub use paced_link::PacedLink;
pub use redis_store::{RedisStore, Server};
pub use settings_key::{check_grid, grid_text, read_grid};
