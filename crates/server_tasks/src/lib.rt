//! What `wozhinnam` does: it serves connections until it is told to stop, or takes care of the folders in which its
//! servers keep shares.
#![tactic(auto)]

ghost use Rattle.std.specs.Prelude.{◌≡◌, ◌*◌, is_some, None, IfOk};
ghost use Rattle.std.specs.Duration.{as_nanos};

/// The listeners of connections, each with its secret.
mod listening;
/// What the loop of connections runs with.
mod serving_runtime;

use crate::listening::{listen_for_connections, log_secrets};
use crate::serving_runtime::ServingRuntime;
use gate_core::Gateway;
use gate_flow::Lobby;
use gate_poll::{Limits, Listener, ServeFault, serve_on};
use libc::net::{SO_SNDBUF, SOL_SOCKET, setsockopt};
use log::{Log, info};
use mio::net::TcpListener;
use server_board::{StatusControl, VERSION};
use server_gateway::{
    Secret, StoreRuntime, control_of, few_handles, log_of, name_file, open_gateway, pages_of,
    read_commit, words_of_file,
};
use server_options::{Options, Refusal, Task, read_words};
use server_stores::ProgramFault;
use share_store::Store;
use std::env;
use std::fs::File;
use std::io::ErrorKind;
use std::net::{Net, SocketAddr, ToSocketAddrs};
use std::os::fd::AsRawFd;
use std::random::RandomSource;
use std::rt::{Env, Files};
use std::time::{Clock, CpuClock, Duration};
use store_care::{check, repair, reshape, restore, write_image};

/// How many bytes of replies the system may buffer of a connection; Linux takes twice that for its own records too.
const BUFFERED: i32 = 131_072;

/// Does what the words of the command line ask for, up to the first fault. What is told of it goes to standard error.
pub fn run<
    R: Env
        + Print
        + Eprint
        + AllocGlobal
        + Files<File = File>
        + Clock
        + CpuClock
        + Net
        + RandomSource
        + Log
        + Clone
        + Drop,
>(rt: &R) -> Result<(), ProgramFault> {
    let mut words = arguments_of(rt)?;
    let mut more = words_of_file(rt, &words)?;
    let typed = words.len();
    words.append(&mut more)?;
    match read_words(rt.alloc(), &words) {
        Ok(task) => carry_out(rt, &task),
        Err(refusal) => {
            if words.len() > typed {
                name_file(rt, &words[..typed]);
            }
            told(rt, refusal)
        }
    }
}

/// Does what was asked for, up to the first fault.
fn carry_out<
    R: Print
        + Eprint
        + AllocGlobal
        + Files<File = File>
        + Clock
        + CpuClock
        + Net
        + RandomSource
        + Log
        + Clone
        + Drop,
>(rt: &R, task: &Task<'_>) -> Result<(), ProgramFault> {
    match task {
        Task::Serve(options) => serve(rt, options),
        Task::Check(folders) => check(rt, folders),
        Task::Repair(wanted) => repair(rt, wanted),
        Task::Reshape(wanted) => reshape(rt, wanted),
        Task::Image(folders) => write_image(rt, folders),
        Task::Restore(wanted) => {
            let secret = Secret::read(rt, wanted.secret_file)?;
            restore(rt, wanted, secret.bytes())
        }
    }
}

/// What the program ends with where its words were refused. Help and the version are asked for, and no fault.
fn told<R: Print + Eprint + AllocGlobal + Files<File = File>>(
    rt: &R,
    refusal: Refusal,
) -> Result<(), ProgramFault> {
    let error = match refusal {
        Refusal::Listen => return Err(ProgramFault::Listen),
        Refusal::Shares => return Err(ProgramFault::Shares),
        Refusal::Stores => return Err(ProgramFault::Stores),
        Refusal::Room => return Err(ProgramFault::Room),
        Refusal::Memory => return Err(ProgramFault::Memory),
        Refusal::New => return Err(ProgramFault::New),
        Refusal::Missing => return Err(ProgramFault::Missing),
        Refusal::AllMissing => return Err(ProgramFault::AllMissing),
        Refusal::Words(error) => error,
    };
    if error.kind() == clap::error::ErrorKind::OutOfMemory {
        return Err(ProgramFault::NoMemory);
    }
    if error.kind() == clap::error::ErrorKind::DisplayVersion {
        return tell_version(rt);
    }
    let _ = error.print(rt);
    match error.exit_code() {
        0 => Ok(()),
        _ => Err(ProgramFault::Arguments),
    }
}

/// Tells the version, and the commit where it is known.
fn tell_version<R: Print + AllocGlobal + Files<File = File>>(rt: &R) -> Result<(), ProgramFault> {
    let _ = match read_commit(rt)? {
        Some(commit) => println!(rt; "wozhinnam {} ({})", VERSION, commit.as_str()),
        None => println!(rt; "wozhinnam {}", VERSION),
    };
    Ok(())
}

/// The words of the command line, the program's name first. `Arguments` where one of them is no UTF-8.
fn arguments_of(rt: &(impl Env + Eprint + AllocGlobal)) -> Result<Vec<String>, ProgramFault> {
    let arguments = match env::args(rt) {
        Ok(arguments) => arguments,
        Err(error) if error.kind() == ErrorKind::OutOfMemory => return Err(ProgramFault::NoMemory),
        Err(_) => {
            let _ = eprintln!(rt; "wozhinnam: an argument is no UTF-8");
            return Err(ProgramFault::Arguments);
        }
    };
    let mut words = Vec::new(rt.alloc());
    for argument in arguments {
        words.push(argument)?;
    }
    Ok(words)
}

/// Serves connections until a control request stops it.
fn serve<
    R: Print
        + Eprint
        + AllocGlobal
        + Files<File = File>
        + Clock
        + CpuClock
        + Net
        + RandomSource
        + Log
        + Clone
        + Drop,
>(rt: &R, options: &Options<'_>) -> Result<(), ProgramFault> {
    let few = few_handles(rt, options);
    if let Some(fault) = few {
        return Err(fault);
    }
    let told = &log_of(rt, options)?;
    let opening = &StoreRuntime::new(rt.clone()?, told.clone()?);
    let mut answers = control_of(rt, options)?;
    serve_opened(rt, told, opening, options, &mut answers)
}

/// The same, with what opens stores. What that is made of isn't named here, since a gateway over its stores is dear to prove
/// where it is.
fn serve_opened<
    R: Print + Eprint + AllocGlobal + Files + Clock + CpuClock + Net,
    L: Log,
    O: AllocGlobal + Files<File = File> + Net + Clock + RandomSource + Clone + Drop + Log + Eprint,
>(
    rt: &R,
    told: &L,
    opening: &O,
    options: &Options<'_>,
    answers: &mut StatusControl,
) -> Result<(), ProgramFault> {
    let pages = pages_of(opening, options)?;
    match open_gateway(opening, options, pages) {
        Ok(gateway) => serve_gateway(rt, told, options, gateway, answers),
        Err(fault) => Err(fault),
    }
}

/// The same, once its stores are open. What owns them leaves at no other place, and doesn't name them: all else is dear to
/// prove.
fn serve_gateway<
    R: Print + Eprint + AllocGlobal + Files + Clock + CpuClock + Net,
    L: Log,
    S: Store + Drop,
>(
    rt: &R,
    told: &L,
    options: &Options<'_>,
    gateway: Gateway<S>,
    answers: &mut StatusControl,
) -> Result<(), ProgramFault> {
    let mut lobby = Lobby::new(gateway);
    serve_lobby(rt, told, options, &mut lobby, answers)
}

/// The same with the gateway's lobby.
fn serve_lobby<R: Print + Eprint + AllocGlobal + Files + Clock + CpuClock + Net, L: Log, S: Store>(
    rt: &R,
    told: &L,
    options: &Options<'_>,
    lobby: &mut Lobby<S>,
    answers: &mut StatusControl,
) -> Result<(), ProgramFault> {
    let listeners = listen_for(rt, options)?;
    let serving = &ServingRuntime::new(rt, told);
    serve_with(serving, options, listeners, lobby, answers)
}

/// Where connections are accepted, and control requests if they are anywhere.
#[derive(Drop)]
struct Listeners {
    connections: Vec<Listener>,
    control: Option<TcpListener>,
}

/// Listens where it is asked for, and prints the addresses.
fn listen_for<R: Print + Eprint + AllocGlobal + Files + Net>(
    rt: &R,
    options: &Options<'_>,
) -> Result<Listeners, ProgramFault>
    ensures { IfOk result (λ listeners. is_some listeners.control ≡ is_some options.now.control) }
{
    let connections = listen_for_connections(rt, options)?;
    let control = listen_for_control(rt, options)?;
    tell_each(rt, &connections)?;
    if let Some(listener) = &control {
        tell(rt, "control on", listener)?;
    }
    Ok(Listeners {
        connections,
        control,
    })
}

/// Prints the addresses where connections are accepted, in the order of their listeners.
fn tell_each<R: Print>(rt: &R, listeners: &[Listener]) -> Result<(), ProgramFault> {
    for listener in listeners {
        tell(rt, "listening on", &listener.socket)?;
    }
    Ok(())
}

/// Bounds what the system buffers of each connection that comes here, which takes it over from its listener. By itself it
/// buffers up to 4 MiB, and reports room only once a third of that is free: a reader of 40,000 bytes a second would seem to
/// take nothing for longer than a connection may be silent. Where the system refuses it, its own bound holds.
fn bound_buffer(listener: &TcpListener) {
    let mut bytes = [0; 16];
    bytes[..4].copy_from_slice(&BUFFERED.to_ne_bytes());
    // SAFETY: what the call requires of the option and of the length is shown, and it keeps nothing of the bytes.
    unsafe {
        setsockopt(listener.as_raw_fd(), SOL_SOCKET, SO_SNDBUF, &bytes, 4);
    }
}

/// Listens for control requests, if that is asked for.
fn listen_for_control<R: Net>(
    rt: &R,
    options: &Options<'_>,
) -> Result<Option<TcpListener>, ProgramFault>
    ensures { IfOk result (λ listener. is_some listener ≡ is_some options.now.control) }
{
    match options.control {
        Some(address) => match listen(rt, address, "control") {
            Ok(listener) => Ok(Some(listener)),
            Err(fault) => Err(fault),
        },
        None => Ok(None),
    }
}

/// Serves the connections that come to these listeners.
fn serve_with<R: AllocGlobal + Clock + CpuClock + Net + Log, S: Store>(
    serving: &R,
    options: &Options<'_>,
    listeners: Listeners,
    lobby: &mut Lobby<S>,
    answers: &mut StatusControl,
) -> Result<(), ProgramFault> {
    let Listeners {
        connections,
        control,
    } = listeners;
    info!(serving; "started: at most {} connections, {} bytes of requests and replies", options.connections, options.memory);
    log_secrets(serving, &connections);
    let limits = limits_of(options);
    match serve_on(serving, connections, control, &limits, lobby, answers) {
        Ok(counts) => {
            info!(serving; "stopped: {} connections were opened", counts.opened);
            Ok(())
        }
        Err(ServeFault::NoMemory) => Err(ProgramFault::NoMemory),
        Err(ServeFault::PollFailed) => Err(ProgramFault::PollFailed),
    }
}

/// What is allowed to connections: as many may be open in all and of one address, and silent for as long, and as much may be
/// kept of them, as is asked for.
fn limits_of(options: &Options<'_>) -> Limits
    ensures most { result.most ≡ options.now.connections }
    ensures per_address { result.per_address ≡ options.now.per_address }
    ensures idle { as_nanos result.idle ≡ options.now.idle * 1_000_000_000 }
    ensures memory { result.memory ≡ options.now.memory }
    ensures endless { result.served ≡ None }
{
    let mut limits = Limits::new(options.connections, Duration::from_secs(options.idle));
    limits.per_address = options.per_address;
    limits.memory = options.memory;
    limits
}

/// Listens on the first address of a name where it can.
fn listen<R: Net>(rt: &R, name: &str, place: &'static str) -> Result<TcpListener, ProgramFault> {
    let Ok(addresses) = name.to_socket_addrs(rt) else {
        return Err(ProgramFault::NoAddress(place));
    };
    let mut fault = ProgramFault::NoAddress(place);
    for address in addresses {
        match listen_at(rt, address, place) {
            Ok(listener) => return Ok(listener),
            Err(refused) => fault = refused,
        }
    }
    Err(fault)
}

/// Listens on an address.
fn listen_at<R: Net>(
    rt: &R,
    address: SocketAddr,
    place: &'static str,
) -> Result<TcpListener, ProgramFault> {
    match TcpListener::bind(rt, address) {
        Ok(listener) => Ok(listener),
        Err(error) => Err(match error.kind() {
            ErrorKind::AddrInUse => ProgramFault::AddressInUse(place),
            ErrorKind::PermissionDenied => ProgramFault::NotAllowed(place),
            _ => ProgramFault::NotBound(place),
        }),
    }
}

/// Prints the address that was bound.
fn tell<R: Print>(rt: &R, words: &str, listener: &TcpListener) -> Result<(), ProgramFault> {
    let Ok(address) = listener.local_addr() else {
        return Err(ProgramFault::NotPrinted);
    };
    match println!(rt; "{words} {address}") {
        Ok(()) => Ok(()),
        Err(_) => Err(ProgramFault::NotPrinted),
    }
}
