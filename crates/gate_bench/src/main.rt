//! Times the work on a body of 4 MiB. `gate_bench TURNS` prints the least microseconds that one of so many turns took
//! of each part: `apply`, its encryption; `encode`, the seven secondary blocks of its three primary ones; `decode`, its
//! primary blocks from the last three; `put`, `get` and `get_secondary`, through the gateway, from the first three shares
//! and from the last three; `get_1m` and `get_1m_again`, a file of 1 MiB read and read again; `hash_put` and `hash_get`,
//! the hashing in the put and in the first get alone; `gather_10` and `gather_100000`, a
//! thousand gatherings of a file's ten shares, from a grid of ten shares and from one of a hundred thousand.
//! `gate_bench refusal BEFORE` makes so many allocations, serves three small requests and looks at what a refused
//! allocation leaves; `gate_bench again` makes each call that takes memory, and once more where memory is refused. Without
//! an argument it prints nothing.
#![tactic(auto)]

mod again;
mod arguments;
mod cipher;
mod code;
mod files;
mod gather;
mod hashing;
mod refusal;

use crate::arguments::{Command, asked};
use crate::refusal::Outcome;
use std::process::ExitCode;
use std::rt::Clock;

/// The bytes of the body.
const BODY: usize = 4_194_304;

/// Status 0, or 1 where a turn failed or memory was refused, or 2 at wrong arguments.
fn main(rt: HostRuntime) -> ExitCode {
    let result = match asked(&rt) {
        Ok(Command::Nothing) => return ExitCode::SUCCESS,
        Ok(Command::Refusal(before)) => {
            return tell(&rt, refusal::serve_three(rt.alloc(), before));
        }
        Ok(Command::Again) => return tell(&rt, again::make_each(rt.alloc())),
        Ok(Command::Turns(turns)) => bench(&rt, turns),
        Err(fault) => {
            let _ = eprintln!(rt; "gate_bench: {fault}");
            return fault.status();
        }
    };
    match result {
        Ok(()) => ExitCode::SUCCESS,
        Err(error) => {
            let _ = eprintln!(rt; "gate_bench: {error}");
            ExitCode::from(1)
        }
    }
}

/// Prints what a run came to in which memory may be refused. Status 0, or 1 where something is wrong.
fn tell(rt: &impl Print, outcome: Outcome) -> ExitCode {
    let (words, status) = match outcome {
        Outcome::Served => ("served", 0),
        Outcome::Cut => ("cut", 0),
        Outcome::Refused => ("refused", 0),
        Outcome::Wrong(words) => (words, 1),
    };
    let _ = println!(rt; "{words}");
    ExitCode::from(status)
}

/// Prints the least times of so many turns. The bytes that are worked on come from the count, which no compiler knows.
fn bench(rt: &(impl Print + Clock + AllocGlobal), turns: u32) -> anyhow::Result<()> {
    let byte = (turns % 251) as u8;
    let apply = cipher::least(rt, turns, byte)?;
    println!(rt; "apply {apply}")?;
    let (encode, decode) = code::least(rt, turns, byte)?;
    println!(rt; "encode {encode}")?;
    println!(rt; "decode {decode}")?;
    let files = files::least(rt, turns, byte)?;
    println!(rt; "put {}", files.put)?;
    println!(rt; "get {}", files.get)?;
    println!(rt; "get_secondary {}", files.get_secondary)?;
    let (first, again) = files::least_again(rt, turns, byte)?;
    println!(rt; "get_1m {first}")?;
    println!(rt; "get_1m_again {again}")?;
    let (hash_put, hash_get) = hashing::least(rt, turns, byte)?;
    println!(rt; "hash_put {hash_put}")?;
    println!(rt; "hash_get {hash_get}")?;
    let (few, many) = gather::least(rt, turns, byte)?;
    println!(rt; "gather_10 {few}")?;
    println!(rt; "gather_100000 {many}")?;
    Ok(())
}
