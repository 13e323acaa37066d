//! Why a flow can't go on.
ghost use Rattle.std.specs.Prelude.{◌≡◌};
ghost use Rattle.gate_flow.specs.Faults.{flow_of};
ghost use Rattle.gate_flow.specs.declared.fault.FlowFault.TheVariants as flow;

use gate_core::GatewayFault;
use std::alloc::AllocError;
use std::fmt;

/// Why a flow can't go on.
#[derive(Clone, Copy, Debug, PartialEq, Eq)]
pub enum FlowFault {
    /// The gateway takes no such call: the id was used before, its secret has more than 256 bytes, its end came, or memory
    /// ran out on it.
    Refused = 1,
    /// What the peer sent could not be read further.
    ReadFailed = 2,
    /// What the gateway answered could not be written further.
    WriteFailed = 3,
    /// Memory was refused.
    NoMemory = 4,
}

impl fmt::Display for FlowFault {
    fn fmt<W: fmt::Write>(&self, f: &mut fmt::Formatter<W>) -> fmt::Result {
        f.write_str(match self {
            FlowFault::Refused => "the gateway refused it",
            FlowFault::ReadFailed => "it could not be read",
            FlowFault::WriteFailed => "it could not be written to",
            FlowFault::NoMemory => "out of memory",
        })
    }
}

impl From<AllocError> for FlowFault {
    ghost from_gives = { λ _ fault. fault ≡ flow.NoMemory };

    fn from(_error: AllocError) -> FlowFault {
        FlowFault::NoMemory
    }
}

impl From<GatewayFault> for FlowFault {
    ghost from_gives = { λ fault made. made ≡ flow_of fault };

    fn from(fault: GatewayFault) -> FlowFault {
        match fault {
            GatewayFault::NoMemory => FlowFault::NoMemory,
            _ => FlowFault::Refused,
        }
    }
}
