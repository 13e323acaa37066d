//! What a line of a script is answered.
ghost use Rattle.std.specs.Prelude.{◌≡◌, ◌≢◌, ◌++◌, OnOk, MatchResult};
ghost use Rattle.gate_tasks.specs.Script.{fault_text, grid_fault_text, answer_text};

use crate::text::escape;
use gate_core::GatewayFault;
use grid::GridFault;
use octets::Bytes;
use std::alloc::AllocError;

/// What a line is answered.
#[derive(Drop)]
pub enum Reply {
    /// It is done.
    Done,
    /// The gateway refused it.
    Refused(GatewayFault),
    /// The grid refused it.
    GridRefused(GridFault),
    /// These bytes are given.
    Given(Bytes),
    /// This is the image of the shares.
    Imaged(Bytes),
    /// Yes or no.
    Answered(bool),
}

impl Reply {
    /// The reply to a call that the gateway refused; out of memory is none.
    pub fn refused(fault: GatewayFault) -> Result<Reply, AllocError>
        ensures { MatchResult result
            (λ reply. (reply ≡ Reply.Refused fault) × (fault ≢ GatewayFault.NoMemory))
            (λ _. fault ≡ GatewayFault.NoMemory) }
    {
        match fault {
            GatewayFault::NoMemory => Err(AllocError),
            GatewayFault::Known => Ok(Reply::Refused(fault)),
            GatewayFault::NotOpen => Ok(Reply::Refused(fault)),
            GatewayFault::Cut => Ok(Reply::Refused(fault)),
            GatewayFault::BadParameters => Ok(Reply::Refused(fault)),
            GatewayFault::StillOpen => Ok(Reply::Refused(fault)),
        }
    }

    /// The reply to a call that the grid refused; out of memory is none.
    pub fn grid_refused(fault: GridFault) -> Result<Reply, AllocError>
        ensures { MatchResult result
            (λ reply. (reply ≡ Reply.GridRefused fault) × (fault ≢ GridFault.NoMemory))
            (λ _. fault ≡ GridFault.NoMemory) }
    {
        match fault {
            GridFault::NoMemory => Err(AllocError),
            GridFault::Full(_) => Ok(Reply::GridRefused(fault)),
            GridFault::Down(_) => Ok(Reply::GridRefused(fault)),
            GridFault::NoServer => Ok(Reply::GridRefused(fault)),
            GridFault::BadImage(_) => Ok(Reply::GridRefused(fault)),
            GridFault::ReadFailed => Ok(Reply::GridRefused(fault)),
            GridFault::WriteFailed => Ok(Reply::GridRefused(fault)),
        }
    }

    /// Writes the answer line, which an LF ends, after what stands in a text. Where memory is refused, a beginning
    /// of it may stand there.
    pub fn write_line(&self, text: &mut Vec<u8>) -> Result<(), AllocError>
        ensures { OnOk result (text.new.items ≡ text.old.items ++ answer_text self.now) }
    {
        match self {
            Reply::Done => {
                text.extend_from_slice(b"ok\n")?;
                Ok(())
            }
            Reply::Refused(fault) => {
                text.extend_from_slice(b"fault ")?;
                text.extend_from_slice(fault_name(*fault))?;
                text.extend_from_slice(b"\n")?;
                Ok(())
            }
            Reply::GridRefused(fault) => {
                text.extend_from_slice(b"grid ")?;
                text.extend_from_slice(grid_fault_name(*fault))?;
                text.extend_from_slice(b"\n")?;
                Ok(())
            }
            Reply::Given(bytes) => {
                text.extend_from_slice(b"bytes ")?;
                escape(bytes.as_slice(), text)?;
                text.extend_from_slice(b"\n")?;
                Ok(())
            }
            Reply::Imaged(bytes) => {
                text.extend_from_slice(b"image ")?;
                escape(bytes.as_slice(), text)?;
                text.extend_from_slice(b"\n")?;
                Ok(())
            }
            Reply::Answered(true) => {
                text.extend_from_slice(b"yes\n")?;
                Ok(())
            }
            Reply::Answered(false) => {
                text.extend_from_slice(b"no\n")?;
                Ok(())
            }
        }
    }
}

/// The number and the name of a gateway's fault.
fn fault_name(fault: GatewayFault) -> &'static [u8]
    ensures { result.now ≡ fault_text fault }
{
    match fault {
        GatewayFault::Known => b"1 Known",
        GatewayFault::NotOpen => b"2 NotOpen",
        GatewayFault::Cut => b"3 Cut",
        GatewayFault::NoMemory => b"4 NoMemory",
        GatewayFault::BadParameters => b"5 BadParameters",
        GatewayFault::StillOpen => b"6 StillOpen",
    }
}

/// The number and the name of a grid's fault.
fn grid_fault_name(fault: GridFault) -> &'static [u8]
    ensures { result.now ≡ grid_fault_text fault }
{
    match fault {
        GridFault::Full(_) => b"1 Full",
        GridFault::Down(_) => b"2 Down",
        GridFault::NoServer => b"3 NoServer",
        GridFault::BadImage(_) => b"4 BadImage",
        GridFault::ReadFailed => b"5 ReadFailed",
        GridFault::WriteFailed => b"6 WriteFailed",
        GridFault::NoMemory => b"7 NoMemory",
    }
}
