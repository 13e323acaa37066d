//! Requests of the web API: what a head and a body ask for, or why they ask for nothing that there is.
//!
//! [`interpret`] gives the one or the other. It reads each part of a head once, and moves the body.
#![tactic(auto)]

/// The head of a request.
mod head;
/// What a request asks for.
mod request;
/// Why a request was refused.
mod fault;
/// The path and the query of a target.
mod target;
/// The keys of a query that count.
mod query;
/// What a method and a query ask for.
mod action;
/// The one range that is asked for.
mod range;
/// From a head and a body to the request that they are.
mod interpreter;
/// What holds of requests.
pub mod laws;

pub use action::{is_same, yes_or_no};
pub use fault::WebFault;
pub use head::{Field, Fields, Head};
pub use interpreter::interpret;
pub use query::value_in;
pub use range::{is_if_range, one_range};
pub use request::{Request, Resource};
pub use target::path_in;
