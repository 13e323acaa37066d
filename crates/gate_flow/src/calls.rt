//! The calls of a gateway that a flow makes.
ghost use Rattle.std.specs.Prelude.{◌≡◌, ◌≢◌, ◌<◌, ◌≤◌, ◌⊎◌, [], ◌∷◌, ◌++◌, length, take, OnOk, OnErr, IfOk, IfErr, IsOk, IsOkUnless, IsTrue, MatchBool, MatchOption, None, false, unwrap_or, option_copied};
ghost use Rattle.gate_core.specs.Events.{Open, Bytes, End, Take};
ghost use Rattle.gate_core.specs.ConnectionState.{connection_at, waiting, is_closed_in, bytes_refusal, open_refusal};
ghost use Rattle.gate_core.specs.Came.{GoesOn};
ghost use Rattle.gate_flow.specs.Faults.{IsCallFault};
ghost use Rattle.gate_flow.specs.Led.{TakesBytes, IsLed, IsLedAsWritten, IsMoved, IsMovedAsWritten, IsGivenUp};
ghost use Rattle.gate_flow.specs.Brought.{AreBrought, AreInParts, IsEnough};

use crate::fault::FlowFault;
use crate::part::part_len;
use crate::stretch::Stretch;
use gate_core::{Gateway, GatewayFault};
use share_store::Store;

/// How many bytes are read, or taken, at a time.
pub const PORTION: usize = 65_536;

/// Opens a connection, of which nothing waits.
pub fn begin<S: Store>(
    gateway: &mut Gateway<S>,
    id: u64,
    secret: Option<&[u8]>,
) -> Result<(), FlowFault>
    ensures answer { MatchOption (open_refusal (connection_at gateway.old id)
        (length (unwrap_or (option_copied secret.entry) [])))
        (IsOkUnless result FlowFault.NoMemory) (λ _. result ≡ Err FlowFault.Refused) }
    ensures led { OnOk result (IsLed id (Open id
        (unwrap_or (option_copied secret.entry) gateway.old.settings.secret)
        ∷ []) gateway.old gateway.new) }
    ensures as_written { OnOk result (IsLedAsWritten (Open id
        (unwrap_or (option_copied secret.entry) gateway.old.settings.secret)
        ∷ []) gateway.old gateway.new) }
    ensures nothing { OnOk result (waiting gateway.new id ≡ []) }
    ensures going { OnOk result (is_closed_in (connection_at gateway.new id) ≡ false) }
    ensures takes { OnOk result (TakesBytes (connection_at gateway.new id)) }
    ensures fresh { OnOk result (connection_at gateway.old id ≡ None) }
    ensures err { OnErr result (gateway.new ≡ gateway.old) }
{
    gate_core::laws::faithful_goes_on();
    match gateway.open(id, secret) {
        Ok(()) => Ok(()),
        Err(fault) => Err(FlowFault::from(fault)),
    }
}

/// Brings bytes that were read.
fn feed<S: Store>(gateway: &mut Gateway<S>, id: u64, piece: &[u8]) -> Result<(), FlowFault>
    ensures led { OnOk result (IsLed id (Bytes id piece.now ∷ []) gateway.old gateway.new) }
    ensures as_written { OnOk result (IsLedAsWritten (Bytes id piece.now ∷ []) gateway.old gateway.new) }
    ensures takes { OnOk result (TakesBytes (connection_at gateway.new id)) }
    ensures err { OnErr result (IsLed id [] gateway.old gateway.new) }
    ensures faults { IfErr result (IsCallFault (connection_at gateway.old id)) }
{
    gate_core::laws::faithful_goes_on();
    match gateway.bytes(id, piece) {
        Ok(()) => Ok(()),
        Err(fault) => Err(FlowFault::from(fault)),
    }
}

/// Takes the first bytes that wait, at most so many.
pub fn take_first<S: Store>(
    gateway: &mut Gateway<S>,
    id: u64,
    max: usize,
) -> Result<Vec<u8>, FlowFault>
    ensures given { IfOk result (λ given. given.items ≡ take max (waiting gateway.old id)) }
    ensures led { IfOk result (λ given. IsLed id (Take id given.items
        ∷ []) gateway.old gateway.new) }
    ensures as_written { IfOk result (λ given. GoesOn gateway.old gateway.new (Take id given.items)) }
    ensures rest { IfOk result (λ given.
        waiting gateway.old id ≡ given.items ++ waiting gateway.new id) }
    ensures stays { OnOk result
        (bytes_refusal (connection_at gateway.new id) ≡ bytes_refusal (connection_at gateway.old id)) }
    ensures err { OnErr result (gateway.new ≡ gateway.old) }
    ensures faults { IfErr result (IsCallFault (connection_at gateway.old id)) }
{
    gate_core::laws::faithful_goes_on();
    match gateway.take(id, max) {
        Ok(given) => Ok(given),
        Err(fault) => Err(FlowFault::from(fault)),
    }
}

/// Whether bytes wait for a connection.
pub fn waits<S: Store>(gateway: &Gateway<S>, id: u64) -> bool
    ensures { MatchBool result (waiting gateway.now id ≢ []) (waiting gateway.now id ≡ []) }
{
    gateway.waiting(id)
}

/// Brings the end of a connection.
fn bring_end<S: Store>(gateway: &mut Gateway<S>, id: u64) -> Result<(), FlowFault>
    ensures led { OnOk result (IsLed id (End id ∷ []) gateway.old gateway.new) }
    ensures as_written { OnOk result (IsLedAsWritten (End id ∷ []) gateway.old gateway.new) }
    ensures same { waiting gateway.new id ≡ waiting gateway.old id }
    ensures over { bytes_refusal (connection_at gateway.new id) ≢ None }
    ensures err { OnErr result (gateway.new ≡ gateway.old) }
    ensures refused { OnErr result (bytes_refusal (connection_at gateway.old id) ≢ None) }
{
    gate_core::laws::faithful_goes_on();
    match gateway.end(id) {
        Ok(()) => Ok(()),
        Err(_) => Err(FlowFault::Refused),
    }
}

/// Brings the first part of a piece, while nothing waits.
fn feed_part<S: Store>(
    gateway: &mut Gateway<S>,
    id: u64,
    piece: &mut Stretch,
) -> Result<(), FlowFault>
    requires some { piece.old ≢ [] }
    requires quiet { waiting gateway.old id ≡ [] }
    requires going { is_closed_in (connection_at gateway.old id) ≡ false }
    ensures ok { OnOk result (
        (now : IsMovedAsWritten id gateway.old gateway.new piece.old piece.new [] [])
        × AreBrought id now.moved.calls gateway.old gateway.new piece.old piece.new) }
    ensures err { OnErr result (
        (now : IsMoved id gateway.old gateway.new piece.old piece.new [] [])
        × AreInParts id now.calls gateway.old gateway.new piece.old piece.new) }
    ensures less { OnOk result (length piece.new < length piece.old) }
    ensures same { OnErr result (piece.new ≡ piece.old) }
    ensures faults { IfErr result (IsCallFault (connection_at gateway.old id)) }
{
    let bytes = piece.as_slice();
    let of_body = gateway.of_body(id, bytes)?;
    let len = part_len(of_body, bytes);
    feed(gateway, id, &bytes[..len])?;
    piece.skip(len);
    Ok(())
}

/// Brings a piece part by part, until bytes wait, no more count, or it is used up.
pub fn feed_parts<S: Store>(
    gateway: &mut Gateway<S>,
    id: u64,
    piece: &mut Stretch,
) -> Result<(), FlowFault>
    ensures ok { OnOk result (
        (now : IsMovedAsWritten id gateway.old gateway.new piece.old piece.new [] [])
        × AreBrought id now.moved.calls gateway.old gateway.new piece.old piece.new) }
    ensures err { OnErr result (
        (now : IsMoved id gateway.old gateway.new piece.old piece.new [] [])
        × AreInParts id now.calls gateway.old gateway.new piece.old piece.new) }
    ensures until { OnOk result (IsEnough piece.new (connection_at gateway.new id)) }
    ensures less { length piece.new ≤ length piece.old }
    ensures faults { IfErr result (IsCallFault (connection_at gateway.old id)) }
{
    gate_core::laws::beginnings_have_room();
    'parts: while !piece.is_empty() {
        if waits(gateway, id) {
            return Ok(());
        }
        if gateway.closed(id) {
            return Ok(());
        }
        feed_part(gateway, id, piece)?;
    }
    Ok(())
}

/// Brings an end, if one is still to come. What waits is left, of which nothing is decoded.
pub fn give_up<S: Store>(gateway: &mut Gateway<S>, id: u64)
    ensures { IsGivenUp id gateway.old gateway.new }
{
    let _ = bring_end(gateway, id);
}
