//! What is asked of an object.
ghost use Rattle.std.specs.Prelude.{◌≡◌};
ghost use Rattle.s3_requests.specs.RequestHeads.{ask_length, ask_method, is_conditional};

use s3_sign::Method;

/// What is asked of an object. A body's bytes aren't part of it, and follow the head.
#[derive(Clone, Copy, PartialEq, Eq)]
pub enum ObjectAsk {
    /// Its bytes.
    Get,
    /// Whether it stands.
    Head,
    /// That it goes away.
    Delete,
    /// That a body of so many bytes is put where nothing stands.
    PutOnce(u64),
    /// That a body of so many bytes is put, whatever stands.
    PutOver(u64),
}

impl ObjectAsk {
    /// The method by which it is asked.
    pub fn method(self) -> Method
        ensures { result ≡ ask_method self }
    {
        match self {
            ObjectAsk::Get => Method::Get,
            ObjectAsk::Head => Method::Head,
            ObjectAsk::Delete => Method::Delete,
            ObjectAsk::PutOnce(_) | ObjectAsk::PutOver(_) => Method::Put,
        }
    }

    /// How many bytes the body has, `None` where there is no body.
    pub fn content_length(self) -> Option<u64>
        ensures { result ≡ ask_length self }
    {
        match self {
            ObjectAsk::PutOnce(bytes) | ObjectAsk::PutOver(bytes) => Some(bytes),
            _ => None,
        }
    }

    /// Whether it is to be refused where an object of the name stands.
    pub fn is_conditional(self) -> bool
        ensures { result ≡ is_conditional self }
    {
        matches!(self, ObjectAsk::PutOnce(_))
    }
}
