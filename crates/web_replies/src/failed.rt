//! Replies to requests that can't be met.
ghost use Rattle.std.specs.Prelude.{◌≡◌, IfOk};
ghost use Rattle.web_replies.specs.Replies.{failure_reply};

use crate::replies::fault_with;
use crate::reply::{Reply, Status};
use std::alloc::{AllocError, Global};

/// Why a request can't be met.
#[derive(Clone, Copy, PartialEq, Eq)]
pub enum Failure {
    /// A verify cap gives no bytes.
    NotReadable,
    /// A directory has no child of the name.
    NoChild,
    /// What should be a directory is none.
    NotDirectory,
    /// Too few good shares were found.
    NotEnoughShares,
    /// A directory has JSON, and no bytes of a file.
    NeedsJson,
    /// The JSON names no children.
    BadChildren,
    /// A store had no room.
    StoreFull,
    /// A store failed.
    StoreDown,
}

/// The reply to a request that can't be met: the status and the words of its failure, with a line feed. Refused only
/// where memory is.
pub fn failure_reply(alloc: Global, failure: Failure) -> Result<Reply, AllocError>
    ensures { IfOk result (λ reply. reply ≡ failure_reply failure) }
{
    let (status, line): (Status, &[u8]) = match failure {
        Failure::NotReadable => (Status::BadRequest, b"not a readable cap\n"),
        Failure::NoChild => (Status::NotFound, b"no such child\n"),
        Failure::NotDirectory => (Status::BadRequest, b"not a directory\n"),
        Failure::NotEnoughShares => (Status::Gone, b"not enough shares\n"),
        Failure::NeedsJson => (Status::BadRequest, b"directory needs t=json\n"),
        Failure::BadChildren => (Status::BadRequest, b"bad children\n"),
        Failure::StoreFull => (Status::ServiceUnavailable, b"store full\n"),
        Failure::StoreDown => (Status::ServiceUnavailable, b"store down\n"),
    };
    fault_with(alloc, status, None, line)
}
