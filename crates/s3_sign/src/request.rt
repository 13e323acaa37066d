//! What is asked of an object.
ghost use Rattle.std.specs.Prelude.{◌≡◌, ◌↔◌, IsTrue};

use crate::spelling::{are_path_bytes, is_visible};

/// A method of HTTP (RFC 9110, section 9.3).
#[derive(Clone, Copy, PartialEq, Eq)]
pub enum Method {
    Get,
    Head,
    Put,
    Delete,
}

impl Method {
    ghost use Rattle.s3_sign.specs.CanonicalRequest.{object_method};

    /// Its name.
    pub fn name(self) -> &'static [u8]
        ensures { result.now ≡ object_method self }
    {
        match self {
            Method::Get => b"GET",
            Method::Head => b"HEAD",
            Method::Put => b"PUT",
            Method::Delete => b"DELETE",
        }
    }
}

/// What is asked of an object. It can be signed where nothing in its path is escaped and its host has no blanks.
#[derive(Clone, Copy)]
pub struct ObjectRequest<'a> {
    /// What is done.
    pub method: Method,
    /// The host, as the field `Host` has it: with the port, where it isn't the scheme's.
    pub host: &'a [u8],
    /// `/`, the bucket, `/` and the object's name.
    pub path: &'a [u8],
    /// How many bytes the body has, `None` where there is no body.
    pub content_length: Option<u64>,
    /// Whether it is to be refused where an object of this name stands.
    pub once: bool,
}

impl ObjectRequest<'_> {
    ghost use Rattle.s3_sign.specs.Spelling.{IsPlainRequest};

    /// Whether nothing in its path is escaped and its host has no blanks, so that it can be signed.
    pub fn is_plain(&self) -> bool
        ensures { IsTrue result ↔ IsPlainRequest self.now }
    {
        are_path_bytes(self.path) && is_visible(self.host)
    }
}
