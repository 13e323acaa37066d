//! Replies with pages of the gateway's own.
ghost use Rattle.std.specs.Prelude.{◌≡◌, IfOk};
ghost use Rattle.web_replies.specs.Replies.{page_reply};

use crate::body::Body;
use crate::replies::reply_with;
use crate::reply::{Field, MediaType, Reply, Status};
use crate::shared::SharedBytes;
use std::alloc::AllocError;

/// The reply with a page, whose bytes are shared and not copied.
pub fn page(kind: MediaType, bytes: &SharedBytes) -> Result<Reply, AllocError>
    ensures { IfOk result (λ reply. reply ≡ page_reply kind bytes.now) }
{
    let body = Body::from_shared(bytes.share()?);
    Ok(reply_with(Status::Ok, kind, Some(Field::Page), body))
}
