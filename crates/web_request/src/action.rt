//! What a method and a query ask for.
ghost use Rattle.std.specs.Prelude.{◌≡◌, Some};
ghost use Rattle.octets.specs.Case.{eq_ignore_case};
ghost use Rattle.web_request.specs.Actions.{action_of, upload_action, node_action, is_one_of, is_text, is_text_in_any_case, is_absent_or_empty, verify_of, read_of, check_of};

use crate::fault::WebFault;
use crate::query::Query;
use crate::request::Resource;
use octets::Text;

/// What is asked for, of a resource that is known.
#[derive(Clone, Copy, PartialEq, Eq)]
pub enum Action {
    /// To store the body as a file.
    Put,
    /// To make a directory of the body.
    Mkdir,
    /// To read.
    Get {
        /// Whether the JSON is asked for.
        json: bool,
        /// Whether the head of the answer is asked for alone.
        head_only: bool,
    },
    /// To check.
    Check {
        /// Whether the shares are verified.
        verify: bool,
    },
}

/// What the method and the query ask of a resource.
pub fn action_of(resource: Resource, method: &[u8], query: &Query) -> Result<Action, WebFault>
    ensures { result ≡ action_of resource method.now query.now }
{
    match resource {
        Resource::Uploads => upload_action(method, query),
        Resource::Node => node_action(method, query),
    }
}

/// What they ask of `/uri`.
#[tactic(auto, unfolding(crate::specs::Actions::upload_action))]
fn upload_action(method: &[u8], query: &Query) -> Result<Action, WebFault>
    ensures { result ≡ upload_action method.now query.now }
{
    if method == b"PUT".as_slice() {
        if is_absent_or_empty(&query.t) {
            return Ok(Action::Put);
        }
        return Err(WebFault::BadQuery);
    }
    if method == b"POST".as_slice() {
        if is_text(&query.t, "mkdir-immutable") {
            return Ok(Action::Mkdir);
        }
        return Err(WebFault::BadQuery);
    }
    Err(WebFault::BadMethod(Resource::Uploads))
}

/// What they ask of what a cap names.
#[tactic(auto, unfolding(crate::specs::Actions::node_action))]
fn node_action(method: &[u8], query: &Query) -> Result<Action, WebFault>
    ensures { result ≡ node_action method.now query.now }
{
    if method == b"GET".as_slice() {
        return read_of(query, false);
    }
    if method == b"HEAD".as_slice() {
        return read_of(query, true);
    }
    if method == b"POST".as_slice() {
        return check_of(query);
    }
    Err(WebFault::BadMethod(Resource::Node))
}

/// To read bytes or JSON.
#[tactic(auto, unfolding(crate::specs::Actions::read_of))]
fn read_of(query: &Query, head_only: bool) -> Result<Action, WebFault>
    ensures { result ≡ read_of query.now head_only }
{
    if is_absent_or_empty(&query.t) {
        return Ok(Action::Get {
            json: false,
            head_only,
        });
    }
    if is_text(&query.t, "json") {
        return Ok(Action::Get {
            json: true,
            head_only,
        });
    }
    Err(WebFault::BadQuery)
}

/// To check, with an answer in JSON.
#[tactic(auto, unfolding(crate::specs::Actions::check_of))]
fn check_of(query: &Query) -> Result<Action, WebFault>
    ensures { result ≡ check_of query.now }
{
    if !is_text(&query.t, "check") || !is_text_in_any_case(&query.output, "json") {
        return Err(WebFault::BadQuery);
    }
    match verify_of(&query.verify) {
        Some(verify) => Ok(Action::Check { verify }),
        None => Err(WebFault::BadQuery),
    }
}

/// Whether the shares are verified, `None` where the value says neither.
fn verify_of(value: &Option<Text>) -> Option<bool>
    ensures { result ≡ verify_of value.now }
{
    match value {
        None => Some(false),
        Some(text) => yes_or_no(text.as_str()),
    }
}

/// What a value says: `true`, `t`, `1`, `on` or `false`, `f`, `0`, `off`, in any case. `None` for any other.
#[tactic(auto, unfolding(crate::specs::Actions::is_yes, crate::specs::Actions::is_no))]
pub fn yes_or_no(text: &str) -> Option<bool>
    ensures { result ≡ verify_of (Some text.now) }
{
    let bytes = text.as_bytes();
    if is_one_of(bytes, b"true", b"t", b"1", b"on") {
        return Some(true);
    }
    if is_one_of(bytes, b"false", b"f", b"0", b"off") {
        return Some(false);
    }
    None
}

/// Whether the bytes are one of four words, in any case.
fn is_one_of(bytes: &[u8], a: &[u8], b: &[u8], c: &[u8], d: &[u8]) -> bool
    ensures { result ≡ is_one_of bytes.now a.now b.now c.now d.now }
{
    is_same(bytes, a) || (is_same(bytes, b) || (is_same(bytes, c) || is_same(bytes, d)))
}

/// Whether a value is absent or empty.
fn is_absent_or_empty(value: &Option<Text>) -> bool
    ensures { result ≡ is_absent_or_empty value.now }
{
    match value {
        None => true,
        Some(text) => text.as_str().is_empty(),
    }
}

/// Whether a value is this text.
fn is_text(value: &Option<Text>, wanted: &str) -> bool
    ensures { result ≡ is_text value.now wanted.now }
{
    match value {
        None => false,
        Some(text) => text.as_str() == wanted,
    }
}

/// Whether a value is this text, in any case.
fn is_text_in_any_case(value: &Option<Text>, wanted: &str) -> bool
    ensures { result ≡ is_text_in_any_case value.now wanted.now }
{
    match value {
        None => false,
        Some(text) => is_same(text.as_str().as_bytes(), wanted.as_bytes()),
    }
}

/// Whether the bytes are equal but for the case of ASCII letters.
pub fn is_same(a: &[u8], b: &[u8]) -> bool
    ensures { result ≡ eq_ignore_case a.now b.now }
{
    a.eq_ignore_ascii_case(b)
}
