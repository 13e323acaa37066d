//! What the web API answers (Tahoe-LAFS's webapi document): requests are carried out over a grid of stores.
//!
//! [`perform`] carries out a request and gives its reply; `web_replies` has the replies, also that to what is no request.
//! How they become bytes, and whether their body is sent, is not settled here.
#![tactic(auto)]

/// Carrying out requests.
mod performer;
/// Storing files and directories.
mod storing;
/// The bytes and the JSON of what a path leads to.
mod node;
/// Checks of what a path leads to.
mod checking;
/// What holds of the answers.
pub mod laws;

pub use performer::{perform, perform_mapped};
