//! A client of a web gateway for capability-addressed storage, which trusts neither the gateway nor its servers.
//!
//!     woz [--gateway URL] [--patience SECONDS] [--quiet]
//!         put [--jobs N] FILE|-
//!         put -r [--jobs N] [--skip-existing STATE [--verify]] FOLDER
//!         get [-r] [--jobs N] CAP[/PATH] [FILE|FOLDER]
//!         ls [--json] CAP[/PATH]
//!         check [--verify] [--read] [-r] CAP[/PATH]
//!         repair [-r] CAP[/PATH]
//!         mkdir NAME=CAP..
#![tactic(auto)]

ghost use Rattle.std.specs.Prelude.{◌≡◌, MatchResult};
ghost use Rattle.std.specs.Process.{exit_status};
ghost use Rattle.client_tasks.specs.Causes.{cause};

use client_tasks::{TaskFault, Terminals, run, tell_fault};
use std::io::IsTerminal;
use std::process::ExitCode;

/// Does what the words ask for, tells the fault that ended it on standard error, and exits with its status.
fn main(rt: HostRuntime) -> ExitCode {
    let terminals = Terminals {
        output: rt.stdout().is_terminal(),
        error: rt.stderr().is_terminal(),
    };
    let outcome = run(&rt, terminals);
    if let Err(fault) = &outcome {
        if !fault.is_told() {
            tell_fault(&rt, fault);
        }
    }
    code_of(&outcome)
}

/// The exit code for an outcome: 0, or the status of its fault.
fn code_of(outcome: &Result<(), TaskFault>) -> ExitCode
    ensures { MatchResult outcome.now (λ done. exit_status result ≡ 0)
        (λ fault. exit_status result ≡ cause fault) }
{
    match outcome {
        Ok(()) => ExitCode::from(0),
        Err(fault) => ExitCode::from(fault.status()),
    }
}
