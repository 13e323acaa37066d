//! Why a call was refused.

use grid::GridFault;
use std::error::Error;
use std::fmt;

/// Why a call of a gateway was refused. A refusal other than `NoMemory` of `bytes` changes nothing that callers see.
#[derive(Clone, Copy, Debug, PartialEq, Eq)]
pub enum GatewayFault {
    /// The id was used before: an id is used once.
    Known = 1,
    /// The id was never opened, or its end came and it takes no more bytes.
    NotOpen = 2,
    /// Memory ran out on this connection before.
    Cut = 3,
    /// Memory ran out in this call.
    NoMemory = 4,
    /// A parameter of the gateway is out of its range.
    BadParameters = 5,
    /// The connection's end didn't come, so it isn't forgotten.
    StillOpen = 6,
}

impl fmt::Display for GatewayFault {
    fn fmt<W: fmt::Write>(&self, f: &mut fmt::Formatter<W>) -> fmt::Result {
        f.write_str(match self {
            GatewayFault::Known => "the id was used before",
            GatewayFault::NotOpen => "no such connection is open",
            GatewayFault::Cut => "the connection was cut: out of memory",
            GatewayFault::NoMemory => "out of memory",
            GatewayFault::BadParameters => "a parameter is out of its range",
            GatewayFault::StillOpen => "the connection is still open",
        })
    }
}

impl Error for GatewayFault {}

/// Why no gateway was made of an image.
#[derive(Clone, Copy, PartialEq, Eq)]
pub enum RestoreFault {
    /// A parameter of the gateway is out of its range.
    BadParameters,
    /// The image was not read into the stores.
    Grid(GridFault),
}

impl fmt::Display for RestoreFault {
    fn fmt<W: fmt::Write>(&self, f: &mut fmt::Formatter<W>) -> fmt::Result {
        let words = match self {
            RestoreFault::BadParameters => "a parameter is out of its range",
            RestoreFault::Grid(fault) => return write!(f, "no image: {fault}"),
        };
        f.write_str(words)
    }
}
