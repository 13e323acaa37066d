//! Heads of requests, for the web API.
ghost use Rattle.std.specs.Prelude.{◌≡◌, IfOk, map};
ghost use Rattle.gate_base.specs.Requests.{web_field, web_head};

use http_edge::Head;
use std::alloc::{AllocError, Global};
use web_request::{Field, Fields};

/// The same head, for the web API. Its texts are moved.
pub fn web_head(alloc: Global, head: Head) -> Result<web_request::Head, AllocError>
    ensures { IfOk result (λ same. same ≡ web_head head) }
{
    let Head {
        method,
        target,
        fields: given,
    } = head;
    let given = given.into_vec();
    let mut fields = Vec::with_capacity(alloc, given.len())?;
    for field in given {
        let http_edge::Field { name, value } = field;
        fields.push(Field { name, value })?;
    }
    Ok(web_request::Head {
        method,
        target,
        fields: Fields::from_vec(fields),
    })
}
