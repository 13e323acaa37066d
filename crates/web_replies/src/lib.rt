//! Replies of the web API (Tahoe-LAFS's webapi document): a status, what the body is, and the body, whose bytes are at
//! hand, shared, or made as they are asked for.
//!
//! Which request is given which reply is not settled here, nor how replies become bytes.
#![tactic(auto)]

/// Parts of files.
mod part;
/// Bytes that replies share.
mod shared;
/// Bodies of replies.
mod body;
/// Replies.
mod reply;
/// The replies that are given.
mod replies;
/// Replies to what is no request.
mod refused;
/// Replies with pages of the gateway's own.
mod pages;
/// Replies to requests that can't be met.
mod failed;

pub use body::Body;
pub use failed::{Failure, failure_reply};
pub use pages::page;
pub use part::Part;
pub use refused::refusal;
pub use replies::{
    bytes_reply, cap_reply, download_reply, json_reply, listing_reply, narrowed, not_modified,
};
pub use reply::{Field, Fields, MediaType, Reply, Status};
pub use shared::SharedBytes;
