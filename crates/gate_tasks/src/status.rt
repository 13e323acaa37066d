//! The status with which the program exits.
ghost use Rattle.std.specs.Prelude.{◌≡◌};
ghost use Rattle.gate_tasks.specs.Status.{outcome_status};

use crate::fault::ProgramFault;

/// The status for an outcome of the program: 0 where it did all that it was asked, 2 where the arguments were wrong,
/// 1 after any other fault.
pub fn exit_status(outcome: &Result<(), ProgramFault>) -> u8
    ensures { result ≡ outcome_status outcome.now }
{
    match outcome {
        Ok(()) => 0,
        Err(ProgramFault::Usage(_)) => 2,
        Err(_) => 1,
    }
}
