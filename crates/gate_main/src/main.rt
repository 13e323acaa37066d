//! The web gateway as a program. `gate_main replay` reads a script from standard input and writes its answers to
//! standard output: a script says what comes on which connection, and what is taken from it. `gate_main serve` listens
//! on an address and serves connections one after the other, over stores in memory.
#![tactic(auto)]

ghost use Rattle.std.specs.Prelude.{◌≡◌, ◌≢◌, Err, IfOk};
ghost use Rattle.std.specs.Process.{exit_status as status_at_exit};
ghost use Rattle.gate_tasks.specs.Arguments.{Asks, IsRefused};
ghost use Rattle.gate_tasks.specs.Serving.{set_up_with};
ghost use Rattle.gate_tasks.specs.Status.{outcome_status};

use gate_core::Gateway;
use gate_tasks::laws::usage_laws;
use gate_tasks::{
    ProgramFault, Service, Task, UsageFault, exit_status, read_task, run_script, serve_on, set_up,
};
use octets::Bytes;
use share_store::MemStore;
use std::alloc::Global;
use std::io::{BufReader, BufWriter, ErrorKind};
use std::net::{Net, TcpListener, TcpStream};
use std::process::ExitCode;
use std::rt::Env;
use std::{env, io};

/// How many bytes are read and written at a time.
const BUFFER: usize = 65_536;

/// Does what the arguments ask for, tells the fault that ended it on standard error, and exits with its status.
fn main(rt: HostRuntime) -> ExitCode {
    let outcome = run(&rt);
    if let Err(fault) = &outcome {
        let _ = eprintln!(rt; "gate_main: {fault}");
    }
    code_of(&outcome)
}

/// The exit code for an outcome: it has the outcome's status.
fn code_of(outcome: &Result<(), ProgramFault>) -> ExitCode
    ensures { status_at_exit result ≡ outcome_status outcome.now }
{
    ExitCode::from(exit_status(outcome))
}

/// Does what the arguments ask for.
fn run<
    R: Env + Input + Print + Eprint + AllocGlobal + Net<Listener = TcpListener, Stream = TcpStream>,
>(rt: &R) -> Result<(), ProgramFault> {
    let words = read_words(rt)?;
    carry_out(rt, &words)
}

/// Does what words ask for.
fn carry_out<
    R: Input + Print + Eprint + AllocGlobal + Net<Listener = TcpListener, Stream = TcpStream>,
>(rt: &R, words: &[Bytes]) -> Result<(), ProgramFault>
    ensures asked { (task : Task) → Asks words.now task → (fault : UsageFault) →
        result ≢ Err (ProgramFault.Usage fault) }
    ensures usage { ((task : Task) → ¬ (Asks words.now task)) →
        (fault : ProgramFault) × (result ≡ Err fault) × IsRefused words.now fault }
{
    usage_laws();
    match read_task(rt.alloc(), words) {
        Ok(Task::Replay) => replay(rt),
        Ok(Task::Serve(service)) => serve(rt, &service),
        Err(fault) => Err(fault),
    }
}

/// The arguments after the program's name.
fn read_words(rt: &(impl Env + AllocGlobal)) -> Result<Vec<Bytes>, ProgramFault> {
    let arguments = match env::args(rt) {
        Ok(arguments) => arguments,
        Err(error) if error.kind() == ErrorKind::OutOfMemory => return Err(ProgramFault::NoMemory),
        Err(_) => return Err(ProgramFault::Usage(UsageFault::NoText)),
    };
    let mut words = Vec::new(rt.alloc());
    for argument in arguments.skip(1) {
        words.push(Bytes::from_vec(argument.into_bytes()))?;
    }
    Ok(words)
}

/// Runs the script on standard input, and writes its answers to standard output.
fn replay(rt: &(impl Input + Print + AllocGlobal)) -> Result<(), ProgramFault>
    ensures { (fault : UsageFault) → result ≢ Err (ProgramFault.Usage fault) }
{
    let Ok(mut reader) = BufReader::with_capacity(rt.alloc(), BUFFER, rt.reader()) else {
        return Err(ProgramFault::NoMemory);
    };
    let Ok(mut writer) = BufWriter::with_capacity(rt.alloc(), BUFFER, io::writer(rt)) else {
        return Err(ProgramFault::NoMemory);
    };
    match run_script(rt.alloc(), &mut reader, &mut writer) {
        Ok(()) => Ok(()),
        Err(fault) => Err(ProgramFault::Script(fault)),
    }
}

/// Serves connections on an address, which is printed as it was bound, over stores in memory.
fn serve<R: Print + Eprint + AllocGlobal + Net<Listener = TcpListener, Stream = TcpStream>>(
    rt: &R,
    service: &Service,
) -> Result<(), ProgramFault>
    ensures { (fault : UsageFault) → result ≢ Err (ProgramFault.Usage fault) }
{
    let mut gateway = gateway_for(rt.alloc(), service)?;
    let Ok(listener) = TcpListener::bind(rt, service.address) else {
        return Err(ProgramFault::BindFailed);
    };
    if let Ok(address) = listener.local_addr() {
        let _ = println!(rt; "listening on {address}");
    }
    match serve_on(rt, &listener, service.connections, &mut gateway) {
        Ok(0) => Ok(()),
        Ok(faults) => Err(ProgramFault::Connections(faults)),
        Err(fault) => Err(ProgramFault::Serve(fault)),
    }
}

/// The gateway of a server, under the secret that its arguments gave.
fn gateway_for(alloc: Global, service: &Service) -> Result<Gateway<MemStore>, ProgramFault>
    ensures made { IfOk result (λ gateway. gateway ≡ set_up_with service.now.secret) }
    ensures refused { (fault : UsageFault) → result ≢ Err (ProgramFault.Usage fault) }
{
    match set_up(alloc, service.secret.as_slice()) {
        Ok(gateway) => Ok(gateway),
        Err(_) => Err(ProgramFault::NoMemory),
    }
}
