//! The run of a script: a line at a time.
ghost use Rattle.std.specs.Prelude.{◌≡◌, ℕ, List, None, IfOk, OnOk, IfSome, OnSome, Err};
ghost use Rattle.std.specs.Io.KnownBytes.{IsAtEnd};
ghost use Rattle.gate_tasks.specs.Lines.{LacksLf};
ghost use Rattle.gate_tasks.specs.Script.{Step, Ended, Stopped};
ghost use Rattle.gate_tasks.specs.Replies.{AreTold};
ghost use Rattle.gate_tasks.specs.Running.{IsProgress, Answered, LineRuns, StopsAfter, Answers, AnswersSome, IsOneLine, RunEnds};

use crate::calls::{MemGateway, carry_out, held_is_what_stands};
use crate::command::{Call, Command, Grid, read_command};
use crate::fault::ScriptFault;
use crate::lines::read_line;
use crate::reply::Reply;
use crate::stores::make_stores;
use gate_core::{Gateway, GatewayFault, RestoreFault};
use grid::laws::image_laws;
use octets::write_whole;
use std::alloc::{AllocError, Global};
use std::io::{BufRead, Write};

/// How far a run came.
#[derive(Drop)]
struct Progress {
    /// What `grid` asked for, while it is the last line that was answered.
    grid: Option<Grid>,
    /// The gateway that it asked for.
    gateway: Option<MemGateway>,
}

/// Runs a script: reads its lines one by one, and writes the answer of each before it reads the next. The lines and
/// their answers are those of docs/FORMATS.md. At the end the writer is flushed, also where a fault ended the run.
///
/// Each fault says why the run ended before the script's end. The answers of the lines before are written:
/// - `BadLine` at a line that is no command, or may not stand there, or asks for a gateway that there is none of,
///   which is answered before the run ends;
/// - `ReadFailed` where the reader fails;
/// - `WriteFailed` where the writer fails, or takes no more bytes: a beginning of the answers is written;
/// - `NoMemory` where memory is refused;
/// - `TooLong` at a line of more than 16,777,216 bytes, or with which the script has more than 268,435,456.
pub fn run_script<R: BufRead, W: Write>(
    alloc: Global,
    reader: &mut R,
    writer: &mut W,
) -> Result<(), ScriptFault>
    // Where the reader tells its bytes, they are the script.
    ensures done { OnOk result (IfSome (R.remaining reader.old)
        (λ script. Answers script (W.contents writer.old) (W.contents writer.new) Ended)) }
    ensures end { OnOk result (OnSome (R.remaining reader.old) (IsAtEnd (R.remaining reader.new))) }

    // Each fault of the script has its cause.
    ensures bad_line { (number : ℕ) → result ≡ Err (ScriptFault.BadLine number) →
        IfSome (R.remaining reader.old) (λ script. Answers script
        (W.contents writer.old) (W.contents writer.new) (Stopped (ScriptFault.BadLine number))) }
    ensures too_long { result ≡ Err ScriptFault.TooLong →
        IfSome (R.remaining reader.old) (λ script. Answers script
        (W.contents writer.old) (W.contents writer.new) (Stopped ScriptFault.TooLong)) }

    // A run that stops on its way has answered the lines before.
    ensures read_failed { result ≡ Err ScriptFault.ReadFailed →
        StopsAfter LacksLf (R.remaining reader.old) (R.remaining reader.new)
        (W.contents writer.old) (W.contents writer.new) }
    ensures no_memory { result ≡ Err ScriptFault.NoMemory →
        StopsAfter IsOneLine (R.remaining reader.old) (R.remaining reader.new)
        (W.contents writer.old) (W.contents writer.new) }
    ensures beginning { IfSome (R.remaining reader.old)
        (λ script. AnswersSome script (W.contents writer.old) (W.contents writer.new)) }
{
    let outcome = run_lines(alloc, reader, writer);
    match writer.flush() {
        Ok(()) => outcome,
        Err(_) => Err(ScriptFault::WriteFailed),
    }
}

/// Runs a script up to its end or to its first fault.
fn run_lines<R: BufRead, W: Write>(
    alloc: Global,
    reader: &mut R,
    writer: &mut W,
) -> Result<(), ScriptFault>
    ensures ends { RunEnds (R.remaining reader.old) (R.remaining reader.new)
        (W.contents writer.old) (W.contents writer.new) result }
    ensures beginning { IfSome (R.remaining reader.old)
        (λ script. AnswersSome script (W.contents writer.old) (W.contents writer.new)) }
{
    let mut progress = Progress {
        grid: None,
        gateway: None,
    };
    run_each(alloc, reader, writer, &mut progress)
}

/// The same from the first line on, with the progress in another's hands: a function that owns it and leaves at several
/// places takes the prover long.
fn run_each<R: BufRead, W: Write>(
    alloc: Global,
    reader: &mut R,
    writer: &mut W,
    progress: &mut Progress,
) -> Result<(), ScriptFault>
    requires no_grid { progress.old.grid ≡ None }
    requires no_gateway { progress.old.gateway ≡ None }
    ensures ends { RunEnds (R.remaining reader.old) (R.remaining reader.new)
        (W.contents writer.old) (W.contents writer.new) result }
    ensures beginning { IfSome (R.remaining reader.old)
        (λ script. AnswersSome script (W.contents writer.old) (W.contents writer.new)) }
{
    let mut line = Vec::new(alloc);
    let mut read = 0;
    for number in 1..u64::MAX {
        let ended = read_line(reader, read, &mut line)?;
        if !line.is_empty() {
            run_line(alloc, number, &line, progress, writer)?;
        }
        if !ended {
            return Ok(());
        }
        read += line.len() + 1;
    }
    // Not reached: each line takes a byte, and there are fewer.
    Err(ScriptFault::TooLong)
}

/// Carries out the line of this number, which is not empty, and writes its answer.
fn run_line<W: Write>(
    alloc: Global,
    number: u64,
    line: &[u8],
    progress: &mut Progress,
    writer: &mut W,
) -> Result<(), ScriptFault>
    ensures { (log : List Step) → IsProgress log progress.old.grid progress.old.gateway → AreTold log →
        LineRuns log number line.now progress.new.grid progress.new.gateway
        (W.contents writer.old) (W.contents writer.new) result }
{
    let Some(command) = read_command(alloc, line)? else {
        return Err(ScriptFault::BadLine(number));
    };
    let Some(reply) = answer(alloc, command, progress)? else {
        return Err(ScriptFault::BadLine(number));
    };
    let mut text = Vec::new(alloc);
    reply.write_line(&mut text)?;
    let mut calls = u64::MAX;
    write_whole(writer, &text, &mut calls)?;
    if progress.gateway.is_none() {
        return Err(ScriptFault::BadLine(number));
    }
    Ok(())
}

/// Carries out a command, or answers nothing where it may not stand there.
fn answer(
    alloc: Global,
    command: Command,
    progress: &mut Progress,
) -> Result<Option<Reply>, AllocError>
    ensures { IfOk result (λ reply. (log : List Step) →
        IsProgress log progress.old.grid progress.old.gateway → AreTold log →
        Answered log command reply progress.new.grid progress.new.gateway) }
{
    match command {
        Command::Grid(grid) => begin(alloc, grid, progress),
        Command::Restore(image) => restore(alloc, image.as_slice(), progress),
        Command::Call(call) => go_on(alloc, &call, progress),
    }
}

/// Makes the gateway that the first command asks for.
fn begin(alloc: Global, grid: Grid, progress: &mut Progress) -> Result<Option<Reply>, AllocError>
    ensures { IfOk result (λ reply. (log : List Step) →
        IsProgress log progress.old.grid progress.old.gateway →
        Answered log (Command.Grid grid) reply progress.new.grid progress.new.gateway) }
{
    if progress.gateway.is_some() {
        return Ok(None);
    }
    let stores = make_stores(alloc, grid.servers, grid.room)?;
    match Gateway::new(alloc, grid.k, grid.n, stores, grid.secret.as_slice()) {
        Ok(made) => {
            progress.gateway = Some(made);
            progress.grid = Some(grid);
            Ok(Some(Reply::Done))
        }
        Err(fault) => {
            let reply = Reply::refused(fault)?;
            Ok(Some(reply))
        }
    }
}

/// Makes that gateway anew, with the shares of an image. There is none where it is refused.
fn restore(
    alloc: Global,
    image: &[u8],
    progress: &mut Progress,
) -> Result<Option<Reply>, AllocError>
    ensures { IfOk result (λ reply. (log : List Step) →
        IsProgress log progress.old.grid progress.old.gateway → AreTold log →
        Answered log (Command.Restore image.now) reply progress.new.grid progress.new.gateway) }
{
    image_laws();
    let Some(grid) = progress.grid.take() else {
        return Ok(None);
    };
    let stores = make_stores(alloc, grid.servers, grid.room)?;
    let mut reader = image;
    progress.gateway = None;
    match Gateway::restore(
        alloc,
        grid.k,
        grid.n,
        stores,
        grid.secret.as_slice(),
        &mut reader,
    ) {
        Ok(made) => {
            held_is_what_stands(&made);
            progress.gateway = Some(made);
            Ok(Some(Reply::Done))
        }
        Err(RestoreFault::BadParameters) => Ok(Some(Reply::Refused(GatewayFault::BadParameters))),
        Err(RestoreFault::Grid(fault)) => {
            let reply = Reply::grid_refused(fault)?;
            Ok(Some(reply))
        }
    }
}

/// Makes a call of the gateway, if there is one.
fn go_on(alloc: Global, call: &Call, progress: &mut Progress) -> Result<Option<Reply>, AllocError>
    ensures { IfOk result (λ reply. (log : List Step) →
        IsProgress log progress.old.grid progress.old.gateway → AreTold log →
        Answered log (Command.Call call.now) reply progress.new.grid progress.new.gateway) }
{
    let Some(gateway) = &mut progress.gateway else {
        return Ok(None);
    };
    let reply = carry_out(alloc, gateway, call)?;
    progress.grid = None;
    Ok(Some(reply))
}
