//! What a connection's bytes hold.
ghost use Rattle.std.specs.Prelude.{◌≡◌};
ghost use Rattle.http_edge.specs.Judge.{fault_number, closes, is_head_request};

use crate::field::Fields;
use octets::Bytes;
use std::fmt;

/// The head of a request (RFC 9112, section 2.1): its method, its target as it was written, and its fields in order.
#[derive(Drop)]
pub struct Head {
    pub method: Bytes,
    pub target: Bytes,
    pub fields: Fields,
}

/// Why a connection's bytes are no request. Each fault ends its connection.
#[derive(Clone, Copy, PartialEq, Eq)]
pub enum FramingFault {
    /// No request head with at most 64 fields, or 16,384 bytes without the end of one.
    BadHead = 19,
    /// HTTP/1.1 without exactly one Host field, or HTTP/1.0 with more than one (RFC 9112, section 3.2).
    BadHost = 20,
    /// More than one Transfer-Encoding field, or another coding than `chunked` (RFC 9112, section 6.1).
    TransferCoding = 21,
    /// More than one Content-Length field, one that isn't a decimal number, or one beside `chunked`; `chunked` in an
    /// HTTP/1.0 request (RFC 9112, sections 6.1 and 6.3).
    BadLength = 22,
    /// A body of more than 16,777,216 bytes.
    TooLong = 23,
    /// Bytes that begin no chunked body (RFC 9112, section 7.1).
    BadChunk = 25,
}

impl fmt::Display for FramingFault {
    fn fmt<W: fmt::Write>(&self, f: &mut fmt::Formatter<W>) -> fmt::Result {
        f.write_str(match self {
            FramingFault::BadHead => "bad request head",
            FramingFault::BadHost => "bad Host field",
            FramingFault::TransferCoding => "transfer coding not supported",
            FramingFault::BadLength => "bad Content-Length field",
            FramingFault::TooLong => "body too long",
            FramingFault::BadChunk => "bad chunk",
        })
    }
}

/// A request, an interim answer that is asked for, or the fault that ends a connection.
#[derive(Drop)]
pub enum Item {
    /// A request with its body. `close` says that its connection closes after the answer.
    Request {
        head: Head,
        body: Bytes,
        close: bool,
    },
    /// A request's head stands that asks for `100 Continue` before its body (RFC 9110, section 10.1.1).
    Continue,
    /// A fault. `head_only` says that its answer has no body, since the head was a HEAD request's.
    Fault {
        fault: FramingFault,
        head_only: bool,
    },
}

impl Head {
    /// Whether the method is HEAD, so that the reply has no body (RFC 9110, section 9.3.2).
    pub fn is_head_request(&self) -> bool
        ensures { result ≡ is_head_request self.now }
    {
        self.method.as_slice() == b"HEAD".as_slice()
    }
}

impl FramingFault {
    /// The number of the fault, 19 to 23 or 25.
    pub fn number(self) -> u8
        ensures { result ≡ fault_number self }
    {
        match self {
            FramingFault::BadHead => 19,
            FramingFault::BadHost => 20,
            FramingFault::TransferCoding => 21,
            FramingFault::BadLength => 22,
            FramingFault::TooLong => 23,
            FramingFault::BadChunk => 25,
        }
    }
}

impl Item {
    /// Whether the connection closes after the item's answer.
    pub fn closes(&self) -> bool
        ensures { result ≡ closes self.now }
    {
        match self {
            Item::Request { close, .. } => *close,
            Item::Continue => false,
            Item::Fault { .. } => true,
        }
    }
}
