//! Replies to what is no request.
ghost use Rattle.std.specs.Prelude.{◌≡◌, IfOk, IsErr};
ghost use Rattle.web_replies.specs.Replies.{refusal_reply};
ghost use Rattle.web_request.specs.declared.fault.WebFault.TheVariants.{NoMemory};

use crate::replies::fault_with;
use crate::reply::{Field, Reply, Status};
use std::alloc::{AllocError, Global};
use web_request::WebFault;

/// The reply to what is no request: the status and the words of its fault, with a line feed. The fault is of the
/// request alone, and the connection stays open.
///
/// Refused only where memory is, and always for [`WebFault::NoMemory`], which is no fault of a request.
pub fn refusal(alloc: Global, fault: &WebFault) -> Result<Reply, AllocError>
    ensures reply { IfOk result (λ reply. reply ≡ refusal_reply fault.now) }
    ensures no_memory { fault.now ≡ NoMemory → IsErr result }
{
    let (status, line): (Status, &[u8]) = match fault {
        WebFault::BadMethod(resource) => {
            let allow = Some(Field::Allow(*resource));
            let line = b"method not allowed\n";
            return fault_with(alloc, Status::MethodNotAllowed, allow, line);
        }
        WebFault::NoMemory => return Err(AllocError),
        WebFault::BadTarget => (Status::BadRequest, b"bad target\n"),
        WebFault::NoResource => (Status::NotFound, b"no such resource\n"),
        WebFault::BadQuery => (Status::BadRequest, b"bad query\n"),
        WebFault::BadEscape => (Status::BadRequest, b"bad escape\n"),
        WebFault::NotUtf8 => (Status::BadRequest, b"not utf-8\n"),
        WebFault::TooManyNames => (Status::BadRequest, b"too many names\n"),
        WebFault::EmptyName => (Status::BadRequest, b"empty name\n"),
        WebFault::BadCap => (Status::BadRequest, b"bad cap\n"),
    };
    fault_with(alloc, status, None, line)
}
