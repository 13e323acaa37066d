//! One connection's turns: its bytes are read, brought to the gateway, and what waits for it is written.
ghost use Rattle.std.specs.Prelude.{◌≡◌, ◌≢◌, ◌⊎◌, ◌↔◌, ℕ, List, [], Option, OnOk, IfOk, IfErr, MatchBool, None};
ghost use Rattle.gate_core.specs.ConnectionState.{State, connection_at};
ghost use Rattle.gate_flow.specs.Steps.{AreBytesRead, AreBytesWritten, Rests};
ghost use Rattle.gate_flow.specs.Served.{IsServed, IsFlowStopped, FlowStopsAt};
ghost use Rattle.gate_tasks.specs.Turns.{RunsOn, RunsInto, IsReadWithin, most_read, most_at_a_time};

use gate_core::Gateway;
use gate_flow::{Flow, FlowFault, Step, Want};
use share_store::Store;
use std::alloc::Global;
use std::io::{Read, Write};

/// After how many reads a connection's turns end.
const READS: u32 = 1_048_576;

/// Serves one connection, under an id that was not used before and the gateway's secret: reads at most 65,536 bytes at a
/// time, brings them to the gateway, and writes what waits for it, at most 65,536 bytes at a time, before it brings or reads
/// more. It ends at the end of input, where no more bytes count and nothing waits, after 1,048,576 reads, or at a fault,
/// and then ends the connection in the gateway.
///
/// - `Refused` exactly where the id was used before: then nothing was done;
/// - `ReadFailed` where the reader failed or would block;
/// - `WriteFailed` where the writer failed, would block, took no byte or was called without end;
/// - `NoMemory` where memory was refused, for bytes that are read or in a call of the gateway.
pub fn turns<S: Store, R: Read, W: Write>(
    alloc: Global,
    gateway: &mut Gateway<S>,
    id: u64,
    reader: &mut R,
    writer: &mut W,
) -> Result<(), FlowFault>
    // Where the reader and the writer tell their bytes.
    ensures ok { OnOk result (IsServed id gateway.old.settings.secret gateway.old gateway.new
        (R.remaining reader.old) (R.remaining reader.new)
        (W.contents writer.old) (W.contents writer.new)) }
    ensures err { IfErr result (λ fault. IsFlowStopped fault id gateway.old.settings.secret
        gateway.old gateway.new (R.remaining reader.old) (R.remaining reader.new)
        (W.contents writer.old) (W.contents writer.new)) }
    ensures refused { (result ≡ Err FlowFault.Refused) ↔ (connection_at gateway.old id ≢ None) }
    ensures bounded { IsReadWithin most_read (R.remaining reader.old) (R.remaining reader.new) }
{
    gate_flow::laws::flows_run();
    let mut flow = Flow::open(alloc, gateway, id, None)?;
    let outcome = take_turns(&mut flow, gateway, reader, writer);
    flow.close(gateway);
    outcome
}

/// The turns of a connection that is open.
fn take_turns<S: Store, R: Read, W: Write>(
    flow: &mut Flow,
    gateway: &mut Gateway<S>,
    reader: &mut R,
    writer: &mut W,
) -> Result<(), FlowFault>
    requires rests { Rests flow.old gateway.old }
    requires quiet { flow.old.want ≢ Want.Write }
    ensures ok { OnOk result (RunsOn flow.old flow.new gateway.old gateway.new
        (R.remaining reader.old) (R.remaining reader.new)
        (W.contents writer.old) (W.contents writer.new)) }
    ensures rests { OnOk result (Rests flow.new gateway.new) }
    ensures quiet { OnOk result (flow.new.want ≢ Want.Write) }
    ensures err { IfErr result (λ fault. RunsInto fault flow.old flow.new gateway.old gateway.new
        (R.remaining reader.old) (R.remaining reader.new)
        (W.contents writer.old) (W.contents writer.new)) }
    ensures bounded { IsReadWithin most_read (R.remaining reader.old) (R.remaining reader.new) }
{
    gate_flow::laws::flows_run();
    'reads: for done in 0..READS {
        if flow.want() != Want::Read {
            return Ok(());
        }
        read_once(flow, reader)?;
        settle(flow, gateway, writer)?;
    }
    Ok(())
}

/// Reads once, and says what the flow wants then. A reader that would block fails.
fn read_once<R: Read>(flow: &mut Flow, reader: &mut R) -> Result<Want, FlowFault>
    requires { flow.old.want ≡ Want.Read }
    ensures read { AreBytesRead flow.old flow.new (R.remaining reader.old) (R.remaining reader.new) }
    ensures next { (flow.new.want ≡ Want.Advance) ⊎ (flow.new ≡ flow.old) }
    ensures stops { IfErr result (λ fault. (g : State) → Rests flow.old g →
        FlowStopsAt fault flow.new g) }
    ensures bounded { IsReadWithin most_at_a_time
        (R.remaining reader.old) (R.remaining reader.new) }
{
    match flow.read_from(reader) {
        Ok(Step::Went(_) | Step::Interrupted) => Ok(flow.want()),
        Ok(Step::Blocked) => Err(FlowFault::ReadFailed),
        Err(fault) => Err(fault),
    }
}

/// Writes once. A writer that would block fails.
fn write_once<W: Write>(flow: &mut Flow, writer: &mut W) -> Result<(), FlowFault>
    requires wants { flow.old.want ≡ Want.Write }
    requires some { flow.old.portion ≢ [] }
    ensures wrote { AreBytesWritten flow.old flow.new (W.contents writer.old) (W.contents writer.new) }
    ensures next { (flow.new.want ≡ Want.Advance) ⊎ (flow.new.want ≡ Want.Write) }
    ensures stops { IfErr result (λ fault. (g : State) → FlowStopsAt fault flow.new g) }
{
    match flow.write_to(writer) {
        Ok(Step::Went(_) | Step::Interrupted) => Ok(()),
        Ok(Step::Blocked) => Err(FlowFault::WriteFailed),
        Err(fault) => Err(fault),
    }
}

/// Calls the gateway where a flow wants to advance, and says whether it wants to write then.
fn writes_next<S: Store>(flow: &mut Flow, gateway: &mut Gateway<S>) -> Result<bool, FlowFault>
    requires { flow.old.want ≢ Want.Advance → Rests flow.old gateway.old }
    ensures ok { OnOk result ((left after : Option (List ℕ)) →
        RunsOn flow.old flow.new gateway.old gateway.new left left after after) }
    ensures rests { OnOk result (Rests flow.new gateway.new) }
    ensures writes { IfOk result (λ writes.
        MatchBool writes ((flow.new.want ≡ Want.Write) × (flow.new.portion ≢ []))
        (flow.new.want ≢ Want.Write)) }
    ensures err { IfErr result (λ fault. (left after : Option (List ℕ)) →
        RunsInto fault flow.old flow.new gateway.old gateway.new left left after after) }
{
    gate_flow::laws::flows_run();
    if flow.want() == Want::Advance {
        flow.advance(gateway)?;
    }
    Ok(flow.want() == Want::Write)
}

/// Brings what was read and writes what waits, until the flow wants to read or nothing more.
fn settle<S: Store, W: Write>(
    flow: &mut Flow,
    gateway: &mut Gateway<S>,
    writer: &mut W,
) -> Result<(), FlowFault>
    requires { flow.old.want ≢ Want.Advance → Rests flow.old gateway.old }
    ensures ok { OnOk result ((left : Option (List ℕ)) →
        RunsOn flow.old flow.new gateway.old gateway.new left left
        (W.contents writer.old) (W.contents writer.new)) }
    ensures rests { OnOk result (Rests flow.new gateway.new) }
    ensures quiet { OnOk result (flow.new.want ≢ Want.Write) }
    ensures err { IfErr result (λ fault. (left : Option (List ℕ)) →
        RunsInto fault flow.old flow.new gateway.old gateway.new left left
        (W.contents writer.old) (W.contents writer.new)) }
{
    gate_flow::laws::flows_run();
    'writes: for _ in 0..u64::MAX {
        if !writes_next(flow, gateway)? {
            return Ok(());
        }
        write_once(flow, writer)?;
    }
    if writes_next(flow, gateway)? {
        return Err(FlowFault::WriteFailed);
    }
    Ok(())
}
