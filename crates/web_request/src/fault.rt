//! Why a request was refused.
ghost use Rattle.std.specs.Prelude.{◌≡◌};

use crate::request::Resource;
use path_names::PathFault;
use std::alloc::AllocError;
use std::fmt;

/// Why a request was refused. Of several faults the first in this order is given.
#[derive(Clone, Copy, PartialEq, Eq)]
pub enum WebFault {
    /// The target begins neither with `/` nor with `http://`.
    BadTarget,
    /// The path is neither `/uri` nor does it begin with `/uri/`.
    NoResource,
    /// The resource doesn't take the method.
    BadMethod(Resource),
    /// The query asks for nothing that there is.
    BadQuery,
    /// A `%` in the path without two hexadecimal digits behind it.
    BadEscape,
    /// A segment of the path that is no UTF-8.
    NotUtf8,
    /// More than 64 names.
    TooManyNames,
    /// A name without a character.
    EmptyName,
    /// The first segment is no cap's text.
    BadCap,
    /// Memory was refused.
    NoMemory,
}

impl fmt::Display for WebFault {
    fn fmt<W: fmt::Write>(&self, f: &mut fmt::Formatter<W>) -> fmt::Result {
        f.write_str(match self {
            WebFault::BadTarget => "bad target",
            WebFault::NoResource => "no such resource",
            WebFault::BadMethod(_) => "method not allowed",
            WebFault::BadQuery => "bad query",
            WebFault::BadEscape => "bad escape",
            WebFault::NotUtf8 => "not utf-8",
            WebFault::TooManyNames => "too many names",
            WebFault::EmptyName => "empty name",
            WebFault::BadCap => "bad cap",
            WebFault::NoMemory => "out of memory",
        })
    }
}

impl From<PathFault> for WebFault {
    ghost use Rattle.web_request.specs.Requests.{web_fault};

    ghost from_gives = { λ path fault. fault ≡ web_fault path };

    fn from(fault: PathFault) -> WebFault {
        match fault {
            PathFault::BadEscape => WebFault::BadEscape,
            PathFault::NotUtf8 => WebFault::NotUtf8,
            PathFault::TooMany => WebFault::TooManyNames,
            PathFault::EmptyName => WebFault::EmptyName,
            PathFault::NoMemory => WebFault::NoMemory,
        }
    }
}

impl From<AllocError> for WebFault {
    ghost use Rattle.web_request.specs.declared.fault.WebFault.TheVariants.{NoMemory};

    ghost from_gives = { λ _ fault. fault ≡ NoMemory };

    fn from(_: AllocError) -> WebFault {
        WebFault::NoMemory
    }
}
