//! The web gateway as a program that runs until it is stopped, and the care of the folders in which it keeps shares.
//!
//!     wozhinnam serve [--config FILE] [--listen ADDR[,secret=PATH]].. [--control ADDR] [--shares K,N]
//!                     [--store STORE].. [--new PATH].. [--servers COUNT] [--room BYTES] [--no-sync] [--secret-file PATH]
//!                     [--redis-password-file PATH] [--connections MAX] [--idle SECONDS]
//!                     [--log-level LEVEL] [--log-format FORMAT]
//!     wozhinnam check PATH..
//!     wozhinnam repair [--new PATH].. [--no-sync] [--redis-password-file PATH] PATH..
//!     wozhinnam reshape [--no-sync] PATH.. --into PATH..
//!     wozhinnam image PATH.. > FILE
//!     wozhinnam restore [--shares K,N] [--secret-file PATH] [--no-sync] FILE PATH..
#![tactic(auto)]

ghost use Rattle.std.specs.Prelude.{◌≡◌, MatchResult};
ghost use Rattle.std.specs.Process.{exit_status};
ghost use Rattle.server_stores.specs.Status.{status_of};

use server_stores::ProgramFault;
use server_tasks::run;
use std::fs;
use std::process::ExitCode;
use std::rt::Files;

/// Does what the words ask for, tells the fault that ended it on standard error, and exits with its status.
fn main(rt: HostRuntime) -> ExitCode {
    let _standard = occupied(&rt);
    let outcome = run(&rt);
    if let Err(fault) = &outcome {
        if !fault.is_told() {
            let _ = eprintln!(rt; "wozhinnam: {fault}");
        }
    }
    code_of(&outcome)
}

/// Handles that take the numbers of standard input, output and error where these were closed before the start. Else the
/// next file or socket that is opened takes such a number, and what is printed goes into it. They are for reading alone, so
/// what is printed to a closed output fails.
fn occupied<R: Files>(rt: &R) -> [Option<R::File>; 3] {
    [
        fs::open(rt, "/dev/null").ok(),
        fs::open(rt, "/dev/null").ok(),
        fs::open(rt, "/dev/null").ok(),
    ]
}

/// The exit code for an outcome: 0, or the status of its fault.
fn code_of(outcome: &Result<(), ProgramFault>) -> ExitCode
    ensures { MatchResult outcome.now (λ done. exit_status result ≡ 0)
        (λ fault. exit_status result ≡ status_of fault) }
{
    match outcome {
        Ok(()) => ExitCode::from(0),
        Err(fault) => ExitCode::from(fault.status()),
    }
}
