//! One connection, without its socket.
ghost use Rattle.std.specs.Prelude.{◌≡◌, ◌≢◌, ℕ, ◌+◌, ◌↔◌, true, [], ◌∷◌, length, ◌⊎◌, OnOk, IfOk, IfErr, OnErr, IsOkUnless, MatchOption, None, unwrap_or, option_copied};
ghost use Rattle.std.specs.IoError.{error_kind};
ghost use Rattle.gate_core.specs.Events.{Open};
ghost use Rattle.gate_core.specs.ConnectionState.{connection_at, open_refusal};
ghost use Rattle.gate_flow.specs.Faults.{IsCallFault, IsReadFault, IsWriteFault};
ghost use Rattle.gate_flow.specs.State.{IsSoundFlow, opened_flow};
ghost use Rattle.gate_flow.specs.Led.{TakesBytes, IsLed, IsLedAsWritten, IsGivenUp};
ghost use Rattle.gate_flow.specs.Steps.{AreBytesRead, AreBytesWritten, Advances, AdvancesAsWritten, Rests};

use crate::calls::{PORTION, begin, feed_parts, give_up, take_first, waits};
use crate::fault::FlowFault;
use crate::stretch::Stretch;
use crate::want::{Step, Want};
use gate_core::Gateway;
use share_store::Store;
use std::alloc::Global;
use std::io::{Error, ErrorKind, Read, Write};
use std::marker::Model;

/// How many bytes are read at a time from a peer that sends few.
const FEW: usize = 4096;

/// One connection of a gateway, over a reader and a writer that may block. Call what it wants: `read_from` where it
/// wants to read, `advance` where it wants to advance, `write_to` where it wants to write. It reads only while nothing
/// is at hand and nothing waits for it, so a peer that doesn't take its replies isn't read from.
#[derive(Drop)]
pub struct Flow {
    alloc: Global,
    id: u64,
    piece: Stretch,
    portion: Stretch,
    room: usize,
    ended: bool,
    want: Want,
}

impl Model for Flow {
    ghost use Rattle.gate_flow.specs.State.{FlowState, IsSoundFlow};
    ghost use Rattle.std.specs.Prelude.{◌≤◌, ◌<◌};

    ghost Value = { FlowState };

    ghost view = { λ f. record { id = f.id; piece = f.piece; portion = f.portion; ended = f.ended; want = f.want } };

    ghost invariant = { λ f. (0 < f.room) × (f.room ≤ 65536)
        × IsSoundFlow (record { id = f.id; piece = f.piece; portion = f.portion; ended = f.ended; want = f.want }) };
}

impl Flow {
    /// Opens a connection under an id that was not used before. A copy of its secret goes into the key of each file that it
    /// stores; a connection with none of its own takes the gateway's. `Refused` exactly where the id was used before or
    /// the secret has more than 256 bytes, and `NoMemory` where memory was refused: then nothing changed.
    pub fn open<S: Store>(
        alloc: Global,
        gateway: &mut Gateway<S>,
        id: u64,
        secret: Option<&[u8]>,
    ) -> Result<Flow, FlowFault>
        ensures answer { MatchOption (open_refusal (connection_at gateway.old id)
            (length (unwrap_or (option_copied secret.entry) [])))
            (IsOkUnless result FlowFault.NoMemory) (λ _. result ≡ Err FlowFault.Refused) }
        ensures opened { IfOk result (λ flow. flow ≡ opened_flow id) }
        ensures led { OnOk result (IsLed id (Open id
            (unwrap_or (option_copied secret.entry) gateway.old.settings.secret)
            ∷ []) gateway.old gateway.new) }
        ensures as_written { OnOk result (IsLedAsWritten (Open id
            (unwrap_or (option_copied secret.entry) gateway.old.settings.secret)
            ∷ []) gateway.old gateway.new) }
        ensures rests { IfOk result (λ flow. Rests flow gateway.new) }
        ensures takes { OnOk result (TakesBytes (connection_at gateway.new id)) }
        ensures fresh { OnOk result (connection_at gateway.old id ≡ None) }
        ensures err { OnErr result (gateway.new ≡ gateway.old) }
    {
        begin(gateway, id, secret)?;
        Ok(Flow {
            alloc,
            id,
            piece: Stretch::new(alloc),
            portion: Stretch::new(alloc),
            room: FEW,
            ended: false,
            want: Want::Read,
        })
    }

    /// What it waits for.
    pub fn want(&self) -> Want
        ensures want { result ≡ self.now.want }
        ensures sound { IsSoundFlow self.now }
    {
        self.want
    }

    /// Whether the end of the input was read.
    pub fn has_ended(&self) -> bool
        ensures { result ≡ self.now.ended }
    {
        self.ended
    }

    /// The id of its connection.
    pub fn id(&self) -> u64
        ensures { result ≡ self.now.id }
    {
        self.id
    }

    /// The bytes that were read and that the gateway wasn't given yet.
    pub fn at_hand(&self) -> &[u8]
        ensures { result.now ≡ self.now.piece }
    {
        self.piece.as_slice()
    }

    /// Reads once, at most 65,536 bytes. `ReadFailed` where the reader failed, and `NoMemory` where memory was refused
    /// for the bytes, before anything was read.
    pub fn read_from<R: Read>(&mut self, reader: &mut R) -> Result<Step, FlowFault>
        requires { self.old.want ≡ Want.Read }
        ensures read { AreBytesRead self.old self.new (R.remaining reader.old) (R.remaining reader.new) }
        ensures next { (self.new.want ≡ Want.Advance) ⊎ (self.new ≡ self.old) }
        ensures count { (n : ℕ) → result ≡ Ok (Step.Went n) →
            length self.new.piece ≡ length self.old.piece + n }
        ensures end { result ≡ Ok (Step.Went 0) → self.new.ended ≡ true }
        ensures blocked { result ≡ Ok Step.Blocked → self.new ≡ self.old }
        ensures interrupted { result ≡ Ok Step.Interrupted → self.new ≡ self.old }
        ensures err { OnErr result (self.new ≡ self.old) }
        ensures faults { IfErr result IsReadFault }
    {
        let mut piece = vec![in self.alloc; 0u8; self.room]?;
        match reader.read(&mut piece) {
            Ok(0) => {
                self.ended = true;
                self.want = Want::Advance;
                Ok(Step::Went(0))
            }
            Ok(count) => {
                self.room = if count == self.room { PORTION } else { FEW };
                piece.truncate(count);
                self.piece = Stretch::from_vec(self.alloc, piece);
                self.want = Want::Advance;
                Ok(Step::Went(count))
            }
            Err(error) => step_after(&error, FlowFault::ReadFailed),
        }
    }

    /// Brings what was read to the gateway, until bytes wait, and takes those. It wants nothing more where its input is over
    /// and it was given all. `NoMemory` where memory was refused: then the connection may be cut, and what the
    /// gateway didn't take of the piece is still at hand. `Refused` only where the gateway takes no bytes of it.
    pub fn advance<S: Store>(&mut self, gateway: &mut Gateway<S>) -> Result<(), FlowFault>
        requires { self.old.want ≡ Want.Advance }
        ensures ok { OnOk result (AdvancesAsWritten self.old self.new gateway.old gateway.new) }
        ensures err { OnErr result (Advances self.old self.new gateway.old gateway.new) }
        ensures rests { OnOk result (Rests self.new gateway.new) }
        ensures faults { IfErr result (IsCallFault (connection_at gateway.old self.old.id)) }
    {
        gate_core::laws::beginnings_have_room();
        feed_parts(gateway, self.id, &mut self.piece)?;
        if waits(gateway, self.id) {
            let portion = take_first(gateway, self.id, PORTION)?;
            self.portion = Stretch::from_vec(self.alloc, portion);
            self.want = Want::Write;
        } else if gateway.closed(self.id) {
            self.want = Want::Nothing;
        } else if self.ended {
            self.want = Want::Nothing;
        } else {
            self.want = Want::Read;
        }
        Ok(())
    }

    /// Writes once. `WriteFailed` where the writer failed or took no byte.
    pub fn write_to<W: Write>(&mut self, writer: &mut W) -> Result<Step, FlowFault>
        requires { self.old.want ≡ Want.Write }
        ensures wrote { AreBytesWritten self.old self.new (W.contents writer.old) (W.contents writer.new) }
        ensures next { (self.new.want ≡ Want.Advance) ⊎ (self.new.want ≡ Want.Write) }
        ensures count { (n : ℕ) → result ≡ Ok (Step.Went n) →
            length self.old.portion ≡ n + length self.new.portion }
        ensures blocked { result ≡ Ok Step.Blocked → self.new ≡ self.old }
        ensures interrupted { result ≡ Ok Step.Interrupted → self.new ≡ self.old }
        ensures err { OnErr result (self.new ≡ self.old) }
        ensures faults { IfErr result IsWriteFault }
    {
        match writer.write(self.portion.as_slice()) {
            Ok(0) => Err(FlowFault::WriteFailed),
            Ok(count) => {
                self.portion.skip(count);
                if self.portion.is_empty() {
                    self.want = Want::Advance;
                }
                Ok(Step::Went(count))
            }
            Err(error) => step_after(&error, FlowFault::WriteFailed),
        }
    }

    /// Closes a connection, whose flow wants nothing more or which is given up: its end is brought, if one is still to come.
    /// What waits for it is left, and nothing of it is decoded: `Gateway::forget` gives it up.
    pub fn close<S: Store>(self, gateway: &mut Gateway<S>)
        ensures given_up { IsGivenUp self.id gateway.old gateway.new }
        ensures sound { IsSoundFlow self }
    {
        give_up(gateway, self.id);
    }
}

/// What an error of a stream means.
fn step_after(error: &Error, fault: FlowFault) -> Result<Step, FlowFault>
    ensures blocked { result ≡ Ok Step.Blocked ↔ error_kind error.now ≡ ErrorKind.WouldBlock }
    ensures interrupted { result ≡ Ok Step.Interrupted
        ↔ error_kind error.now ≡ ErrorKind.Interrupted }
    ensures never { (n : ℕ) → result ≢ Ok (Step.Went n) }
    ensures fault { IfErr result (λ told. told ≡ fault) }
{
    match error.kind() {
        ErrorKind::WouldBlock => Ok(Step::Blocked),
        ErrorKind::Interrupted => Ok(Step::Interrupted),
        _ => Err(fault),
    }
}
