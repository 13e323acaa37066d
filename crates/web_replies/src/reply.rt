//! Replies.

use crate::body::Body;
use caps::VerifyFields;
use web_request::Resource;

/// The status of a reply (RFC 9110, section 15).
#[derive(Clone, Copy, PartialEq, Eq)]
pub enum Status {
    Ok = 200,
    PartialContent = 206,
    NotModified = 304,
    BadRequest = 400,
    NotFound = 404,
    MethodNotAllowed = 405,
    Gone = 410,
    RangeNotSatisfiable = 416,
    ServiceUnavailable = 503,
}

/// What a body is (RFC 9110, section 8.3).
#[derive(Clone, Copy, PartialEq, Eq)]
pub enum MediaType {
    /// `application/octet-stream`: bytes of a file.
    OctetStream,
    /// `text/plain; charset=utf-8`: a cap, or the words of a fault.
    PlainText,
    /// `application/json`.
    Json,
    /// `text/html; charset=utf-8`: a page of the gateway's own, as all that follow.
    Html,
    /// `text/css; charset=utf-8`.
    Css,
    /// `text/javascript; charset=utf-8`.
    JavaScript,
    /// `image/svg+xml`.
    Svg,
    /// `image/png`.
    Png,
}

/// A field that some replies have after their Content-Type.
#[derive(Clone, Copy, PartialEq, Eq)]
pub enum Field {
    /// Content-Range of a part of a file (RFC 9110, section 14.4): the places of its first and its last byte, from 0,
    /// and the size of the file in bytes.
    ContentRange(u64, u64, u64),
    /// Content-Range of a file of this many bytes, none of which is in the range that was asked for.
    UnsatisfiedRange(u64),
    /// Allow (RFC 9110, section 10.2.1): the methods that a resource takes.
    Allow(Resource),
    /// The fields that bind a browser which shows a page: where its scripts, styles and requests may go, that its type
    /// isn't guessed, that its address is told to nobody, and that it is asked for anew.
    Page,
}

/// The fields of a reply, but for those on how long the body is and whether the connection closes.
#[derive(Clone, Copy, PartialEq, Eq)]
pub struct Fields {
    /// The Content-Type.
    pub content_type: MediaType,
    /// What stands after it.
    pub more: Option<Field>,
    /// The stored file that the body's bytes are of, if they are one's.
    pub file: Option<VerifyFields>,
}

/// A reply. Its body is that of GET, also where the request was for the head alone.
#[derive(Drop)]
pub struct Reply {
    pub status: Status,
    pub fields: Fields,
    pub body: Body,
}
