//! Tests of all layers as scripts of the gateway: the program runs those of the files that its arguments name, and tells
//! what isn't answered as the files want it (README.md says how they are written).
#![tactic(auto)]

/// Why a run ended before its end.
mod fault;
/// Runs of scripts.
mod runs;
/// A script, and what is wanted of it.
mod script;

use fault::RunFault;
use runs::Runs;
use std::env;

/// Runs the scripts of the files that the arguments name, one file after the other, and says how many there were, with
/// how many answers.
fn main(rt: HostRuntime) -> Result<(), RunFault> {
    let Ok(arguments) = env::args(&rt) else {
        return Err(RunFault::NotRead);
    };
    let mut runs = Runs::new(rt.alloc());
    for file in arguments.skip(1) {
        runs.run_file(&rt, &file)?;
    }
    runs.tell(&rt)
}
