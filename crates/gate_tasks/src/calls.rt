//! The calls of a gateway that lines ask for.
ghost use Rattle.std.specs.Prelude.{◌≡◌, ℕ, IfOk, option_copied};
ghost use Rattle.grid.specs.GridState.{held_at, size_at};
ghost use Rattle.gate_tasks.specs.Running.{IsCalled};

use crate::command::{Call, Share};
use crate::reply::Reply;
use gate_core::Gateway;
use grid::GridFault;
use octets::Bytes;
use share_store::MemStore;
use std::alloc::{AllocError, Global};

/// A gateway over stores in memory.
pub type MemGateway = Gateway<MemStore>;

/// A law and no more: stores in memory hold the bytes of what stands in them.
pub fn held_is_what_stands(gateway: &MemGateway)
    ensures { (s : ℕ) → held_at gateway.now.grid s ≡ size_at gateway.now.grid s }
{
    let _servers = gateway.servers();
}

/// Carries out a call, and says what it is answered.
pub fn carry_out(alloc: Global, gateway: &mut MemGateway, call: &Call) -> Result<Reply, AllocError>
    ensures { IfOk result (λ reply. IsCalled gateway.old gateway.new call.now reply) }
{
    match call {
        Call::Open(id, secret) => open(gateway, *id, secret),
        Call::Bytes(id, piece) => bytes(gateway, *id, piece.as_slice()),
        Call::End(id) => end(gateway, *id),
        Call::Take(id, most) => take(gateway, *id, *most),
        Call::Lose(share) => lose(gateway, share),
        Call::Spoil(share, place) => spoil(gateway, share, *place),
        Call::Image => image(alloc, gateway),
    }
}

fn open(gateway: &mut MemGateway, id: u64, secret: &Option<Bytes>) -> Result<Reply, AllocError>
    ensures { IfOk result (λ reply.
        IsCalled gateway.old gateway.new (Call.Open id secret.now) reply) }
{
    match gateway.open(id, lent(secret)) {
        Ok(()) => Ok(Reply::Done),
        Err(fault) => Reply::refused(fault),
    }
}

/// A secret as it is lent, if there is one.
fn lent(secret: &Option<Bytes>) -> Option<&[u8]>
    ensures { option_copied result ≡ secret.now }
{
    match secret {
        Some(bytes) => Some(bytes.as_slice()),
        None => None,
    }
}

fn bytes(gateway: &mut MemGateway, id: u64, piece: &[u8]) -> Result<Reply, AllocError>
    ensures { IfOk result (λ reply.
        IsCalled gateway.old gateway.new (Call.Bytes id piece.now) reply) }
{
    gateway.no_store_failed();
    let done = gateway.bytes(id, piece);
    gateway.no_store_failed();
    match done {
        Ok(()) => Ok(Reply::Done),
        Err(fault) => Reply::refused(fault),
    }
}

fn end(gateway: &mut MemGateway, id: u64) -> Result<Reply, AllocError>
    ensures { IfOk result (λ reply. IsCalled gateway.old gateway.new (Call.End id) reply) }
{
    match gateway.end(id) {
        Ok(()) => Ok(Reply::Done),
        Err(fault) => Reply::refused(fault),
    }
}

fn take(gateway: &mut MemGateway, id: u64, most: u32) -> Result<Reply, AllocError>
    ensures { IfOk result (λ reply. IsCalled gateway.old gateway.new (Call.Take id most) reply) }
{
    gate_core::laws::kept_answers_are_verified();
    match gateway.take(id, most as usize) {
        Ok(given) => Ok(Reply::Given(Bytes::from_vec(given))),
        Err(fault) => Reply::refused(fault),
    }
}

fn lose(gateway: &mut MemGateway, share: &Share) -> Result<Reply, AllocError>
    ensures { IfOk result
        (λ reply. IsCalled gateway.old gateway.new (Call.Lose share.now) reply) }
{
    gateway.no_store_failed();
    let lost = gateway.lose(share.server as usize, share.index, share.number);
    gateway.no_store_failed();
    match lost {
        Ok(lost) => Ok(Reply::Answered(lost)),
        Err(fault) => Reply::grid_refused(fault),
    }
}

fn spoil(gateway: &mut MemGateway, share: &Share, place: u64) -> Result<Reply, AllocError>
    ensures { IfOk result (λ reply.
        IsCalled gateway.old gateway.new (Call.Spoil share.now place) reply) }
{
    gateway.no_store_failed();
    let spoiled = gateway.spoil(share.server as usize, share.index, share.number, place);
    gateway.no_store_failed();
    match spoiled {
        Ok(spoiled) => Ok(Reply::Answered(spoiled)),
        Err(fault) => Reply::grid_refused(fault),
    }
}

fn image(alloc: Global, gateway: &mut MemGateway) -> Result<Reply, AllocError>
    ensures { IfOk result (λ reply. IsCalled gateway.old gateway.new Call.Image reply) }
{
    let mut image = Vec::new(alloc);
    match gateway.image(&mut image) {
        Ok(()) => Ok(Reply::Imaged(Bytes::from_vec(image))),
        Err(GridFault::BadImage(place)) => Ok(Reply::GridRefused(GridFault::BadImage(place))),
        // No store in memory fails, and a writer in memory that stops has no memory.
        Err(_) => Err(AllocError),
    }
}
