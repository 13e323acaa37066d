//! A gateway of many connections over distrusting callers: one event is one call, and what it hands to one caller is
//! what the written answers say of that caller's own requests.
#![tactic(auto)]

/// Why a call was refused.
mod fault;
/// Answering requests over a grid.
mod answerer;
/// Answering items over a grid.
mod server;
/// How far a connection's calls went.
mod stage;
/// What is done of a long request before the call that completes it.
mod foresight;
/// One connection: what framing goes on with, and what waits to be taken.
mod connection;
/// The calls of a gateway.
mod gateway;
/// Laws of the definitions.
pub mod laws;

pub use fault::{GatewayFault, RestoreFault};
pub use gateway::Gateway;
