//! The program's arguments.
ghost use Rattle.std.specs.Prelude.{◌≡◌, ◌≤◌, ℕ, List, Ok, Some, length, IfOk, IfErr, MatchOption};
ghost use Rattle.base32_text.specs.Reading.{reading};
ghost use Rattle.gate_tasks.specs.Command.{spelled};
ghost use Rattle.octets.specs.Decimal.{number_to};
ghost use Rattle.gate_tasks.specs.Arguments.{Asks, AsksToServe, AsksService, IsWrongToServe, IsWrongService, IsRefused, IsRefusedFor, most_connections, most_secret};

use crate::fault::{ProgramFault, UsageFault};
use crate::spelling::read_spelled;
use octets::{Bytes, read_number};
use std::alloc::{AllocError, Global};
use std::net::SocketAddr;

/// How many connections may be served.
const MOST_CONNECTIONS: u64 = 65_535;

/// How many bytes a secret may have.
const MOST_SECRET: usize = 256;

/// What is asked of a server.
#[derive(Drop)]
pub struct Service {
    /// Where it listens.
    pub address: SocketAddr,
    /// How many connections it serves, 1 to 65,535.
    pub connections: u16,
    /// The secret that goes into the keys of files, at most 256 bytes.
    pub secret: Bytes,
}

/// What is asked of the program.
#[derive(Drop)]
pub enum Task {
    /// To answer the script on standard input.
    Replay,
    /// To serve connections.
    Serve(Service),
}

/// What the arguments after the program's name ask for, or the first of them that is wrong. `NoMemory` where memory to
/// read them was refused.
pub fn read_task(alloc: Global, words: &[Bytes]) -> Result<Task, ProgramFault>
    ensures asks { IfOk result (λ task. Asks words.now task) }
    ensures refused { IfErr result (λ fault. IsRefused words.now fault) }
{
    let Some((verb, arguments)) = words.split_first() else {
        return Err(ProgramFault::Usage(UsageFault::NoCommand));
    };
    if verb.as_slice() == b"replay".as_slice() {
        if !arguments.is_empty() {
            return Err(ProgramFault::Usage(UsageFault::ReplayCount));
        }
        return Ok(Task::Replay);
    }
    if verb.as_slice() != b"serve".as_slice() {
        return Err(ProgramFault::Usage(UsageFault::OtherCommand));
    }
    let service = read_arguments(alloc, arguments)?;
    Ok(Task::Serve(service))
}

/// The service that the arguments after `serve` ask for, or what is wrong with them.
fn read_arguments(alloc: Global, arguments: &[Bytes]) -> Result<Service, ProgramFault>
    ensures asks { IfOk result (λ service. AsksToServe arguments.now service) }
    ensures refused { IfErr result (λ fault. IsRefusedFor (IsWrongToServe arguments.now) fault) }
{
    match arguments.len() {
        2 => read_service(alloc, arguments[0].as_slice(), arguments[1].as_slice(), b""),
        3 => read_service(
            alloc,
            arguments[0].as_slice(),
            arguments[1].as_slice(),
            arguments[2].as_slice(),
        ),
        _ => Err(ProgramFault::Usage(UsageFault::ServeCount)),
    }
}

/// The service that ADDR, CONNS and SECRET ask for, or the first of them that is wrong.
fn read_service(
    alloc: Global,
    address: &[u8],
    connections: &[u8],
    secret: &[u8],
) -> Result<Service, ProgramFault>
    ensures asks { IfOk result (λ service.
        AsksService address.now connections.now secret.now service) }
    ensures refused { IfErr result (λ fault.
        IsRefusedFor (IsWrongService address.now connections.now secret.now) fault) }
{
    let Ok(address) = SocketAddr::parse_ascii(address) else {
        return Err(ProgramFault::Usage(UsageFault::Address));
    };
    let Some(connections) = read_connections(connections) else {
        return Err(ProgramFault::Usage(UsageFault::Connections));
    };
    let Some(secret) = read_secret(alloc, secret)? else {
        return Err(ProgramFault::Usage(UsageFault::Secret));
    };
    Ok(Service {
        address,
        connections,
        secret,
    })
}

/// The number of connections that a text writes, 1 to 65,535.
fn read_connections(text: &[u8]) -> Option<u16>
    ensures { MatchOption result
        ((n : ℕ) → 1 ≤ n → ¬ (number_to most_connections text.now ≡ Some n))
        (λ n. (1 ≤ n) × (number_to most_connections text.now ≡ Some n)) }
{
    let count = read_number(text, MOST_CONNECTIONS)?;
    if count == 0 { None } else { Some(count as u16) }
}

/// The secret that a text spells, at most 256 bytes.
fn read_secret(alloc: Global, text: &[u8]) -> Result<Option<Bytes>, AllocError>
    ensures { IfOk result (λ secret. MatchOption secret
        ((bytes : List ℕ) → length bytes ≤ most_secret
        → ¬ (spelled (reading text.now) ≡ Some bytes))
        (λ bytes. (spelled (reading text.now) ≡ Some bytes) × (length bytes ≤ most_secret))) }
{
    let Some(secret) = read_spelled(alloc, text)? else {
        return Ok(None);
    };
    if secret.len() > MOST_SECRET {
        return Ok(None);
    }
    Ok(Some(secret))
}
