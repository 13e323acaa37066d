//! From a head and a body to the request that they are.
ghost use Rattle.std.specs.Prelude.{◌≡◌, ◌≢◌, IfOk, IfErr, Ok, Err};
ghost use Rattle.path_names.specs.Names.{names_of};
ghost use Rattle.web_request.specs.Queries.{query_of};
ghost use Rattle.web_request.specs.Actions.{action_of};
ghost use Rattle.web_request.specs.Requests.{node_of, request_for, interpreted};
ghost use Rattle.web_request.specs.declared.fault.WebFault.TheVariants.{NoMemory};

use crate::action::{Action, action_of};
use crate::fault::WebFault;
use crate::head::{Field, Head};
use crate::query::read_query;
use crate::range::range_of;
use crate::request::{Request, Resource};
use crate::target::{below_uri, cut_at_question, origin_of, resource_of};
use caps::{Cap, CapFault};
use octets::Bytes;
use path_names::{Names, names};
use std::alloc::Global;

/// The request that a head and a body are, or the first fault of [`WebFault`] that holds. The body is moved; it is
/// ignored where the request has none.
pub fn interpret(alloc: Global, head: &Head, body: Bytes) -> Result<Request, WebFault>
    ensures ok { IfOk result (λ request. interpreted head.now body ≡ Ok request) }
    ensures err { IfErr result (λ fault. fault ≢ NoMemory → interpreted head.now body ≡ Err fault) }
{
    let Some(origin) = origin_of(head.target.as_slice()) else {
        return Err(WebFault::BadTarget);
    };
    let (path, query) = cut_at_question(origin);
    let Some(resource) = resource_of(path) else {
        return Err(WebFault::NoResource);
    };
    let action = action_asked(alloc, resource, head.method.as_slice(), query)?;
    request_for(alloc, action, below_uri(path), head.fields.as_slice(), body)
}

/// What the method and the query ask of a resource.
fn action_asked(
    alloc: Global,
    resource: Resource,
    method: &[u8],
    query: &[u8],
) -> Result<Action, WebFault>
    ensures ok { IfOk result (λ action.
        action_of resource method.now (query_of query.now) ≡ Ok action) }
    ensures err { IfErr result (λ fault. fault ≢ NoMemory →
        action_of resource method.now (query_of query.now) ≡ Err fault) }
{
    let read = read_query(alloc, query)?;
    action_of(resource, method, &read)
}

/// The request of an action on what follows `/uri/`.
fn request_for(
    alloc: Global,
    action: Action,
    path: &[u8],
    fields: &[Field],
    body: Bytes,
) -> Result<Request, WebFault>
    ensures ok { IfOk result (λ request. request_for action path.now fields.now body ≡ Ok request) }
    ensures err { IfErr result (λ fault. fault ≢ NoMemory →
        request_for action path.now fields.now body ≡ Err fault) }
{
    match action {
        Action::Put => Ok(Request::Put(body)),
        Action::Mkdir => Ok(Request::Mkdir(body)),
        Action::Get { json, head_only } => {
            let (cap, names) = node_of(alloc, path)?;
            let range = range_of(alloc, fields)?;
            Ok(Request::Get {
                cap,
                names,
                json,
                head_only,
                range,
            })
        }
        Action::Check { verify } => {
            let (cap, names) = node_of(alloc, path)?;
            Ok(Request::Check { cap, names, verify })
        }
    }
}

/// The cap and the names below it that a path has.
fn node_of(alloc: Global, path: &[u8]) -> Result<(Cap, Names), WebFault>
    ensures ok { IfOk result (λ node. node_of (names_of path.now) ≡ Ok (node.0, node.1)) }
    ensures err { IfErr result (λ fault. fault ≢ NoMemory →
        node_of (names_of path.now) ≡ Err fault) }
{
    let (text, below) = names(alloc, path)?;
    match caps::parse(alloc, text.as_str()) {
        Ok(cap) => Ok((cap, below)),
        Err(CapFault::NoMemory) => Err(WebFault::NoMemory),
        Err(_) => Err(WebFault::BadCap),
    }
}
