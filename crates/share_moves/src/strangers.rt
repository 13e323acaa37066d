//! What is among shares that were moved and isn't one of them.
ghost use Rattle.std.specs.Prelude.{◌≡◌, ◌<◌, List, ℕ, Some, None, All, IfOk, IsTrue, length, map};
ghost use Rattle.std.specs.Option.{option_map};
ghost use Rattle.std.specs.FinMap.{get};
ghost use Rattle.std.specs.Rc.{rc_slice_items};
ghost use Rattle.share_store.specs.Looked.{Looked};
ghost use Rattle.share_store.specs.Shares.{ShareKey};
ghost use Rattle.grid.specs.Standing.{standing};
ghost use Rattle.share_moves.specs.Moves.{first_share_of, moved_shares, AreMovedShares};
ghost use Rattle.share_moves.specs.Steps.{IsLookedAt};

use crate::MoveFault;
use crate::moving::{place_of, share_at};
use share_store::{Share, Store};
use std::rc::RcSlice;

/// A share that stands where none of those that are moved goes, or has other bytes.
#[derive(Clone, Copy, PartialEq, Eq)]
pub struct Stranger {
    /// The server at which it stands.
    pub server: usize,
    /// Its storage index.
    pub index: [u8; 16],
    /// Its number.
    pub number: u16,
}

/// The first share in the stores of `into` that [`crate::move_shares`] doesn't put there, of those in `from`. Both are only
/// read, and two shares' bytes are in memory at a time. Refused where a store fails, or where memory runs out.
pub fn first_stranger<S: Store, T: Store>(
    from: &mut [S],
    into: &mut [T],
) -> Result<Option<Stranger>, MoveFault>
    ensures from { All (λ store. IsTrue (S.honest store)) from.old →
        map S.shares from.new ≡ map S.shares from.old }
    ensures into { All (λ store. IsTrue (T.honest store)) into.old →
        map T.shares into.new ≡ map T.shares into.old }
    ensures none { All (λ store. IsTrue (S.honest store)) from.old →
        All (λ store. IsTrue (T.honest store)) into.old → IfOk result (λ found. found ≡ None →
        AreMovedShares (length into.old) (map S.shares from.old)
        (standing (map T.shares into.old))) }
{
    let servers = into.len();
    for server in 0..servers {
        let found = stranger_at(from, &mut into[server], server, servers)?;
        if found.is_some() {
            return Ok(found);
        }
    }
    Ok(None)
}

/// The first share in the store of one server of so many that isn't one of those in `from`, or doesn't go there.
fn stranger_at<S: Store, T: Store>(
    from: &mut [S],
    store: &mut T,
    server: usize,
    servers: usize,
) -> Result<Option<Stranger>, MoveFault>
    requires { 0 < servers }
    ensures kept { IsLookedAt S.honest S.shares from.old from.new }
    ensures looked { Looked T.honest T.shares T.room T.failures store.old store.new }
    ensures none { All (λ store. IsTrue (S.honest store)) from.old → IsTrue (T.honest store.old) →
        IfOk result (λ found. found ≡ None → (key : ShareKey) (s : List ℕ) →
        get (T.shares store.old) key ≡ Some s →
        moved_shares servers (map S.shares from.old) server key ≡ Some s) }
{
    for at in 0..u64::MAX {
        let Some(share) = share_at(store, at, MoveFault::NotWritten(server))? else {
            return Ok(None);
        };
        if !is_moved(from, &share, server, servers)? {
            return Ok(Some(Stranger {
                server,
                index: share.index,
                number: share.number,
            }));
        }
    }
    Err(MoveFault::NoMemory)
}

/// Whether a share is one of those in `from`, and goes to this server of so many.
fn is_moved<S: Store>(
    from: &mut [S],
    share: &Share,
    server: usize,
    servers: usize,
) -> Result<bool, MoveFault>
    requires { 0 < servers }
    ensures kept { IsLookedAt S.honest S.shares from.old from.new }
    ensures yes { All (λ store. IsTrue (S.honest store)) from.old → IfOk result (λ yes. IsTrue yes →
        moved_shares servers (map S.shares from.old) server (share.now.index, share.now.number)
        ≡ Some (rc_slice_items share.now.bytes)) }
{
    if place_of(&share.index, share.number, servers) != server {
        return Ok(false);
    }
    match first_share(from, share.index, share.number)? {
        Some(bytes) => Ok(bytes.as_slice() == share.bytes.as_slice()),
        None => Ok(false),
    }
}

/// The bytes of a share in the first of these stores that has it.
fn first_share<S: Store>(
    from: &mut [S],
    index: [u8; 16],
    number: u16,
) -> Result<Option<RcSlice<u8>>, MoveFault>
    ensures kept { IsLookedAt S.honest S.shares from.old from.new }
    ensures found { All (λ store. IsTrue (S.honest store)) from.old → IfOk result (λ bytes.
        option_map rc_slice_items bytes
        ≡ first_share_of (map S.shares from.old) (index, number)) }
{
    for server in 0..from.len() {
        let found = share_of(&mut from[server], index, number, server)?;
        if found.is_some() {
            return Ok(found);
        }
    }
    Ok(None)
}

/// The bytes of a share in the store of this server.
fn share_of<S: Store>(
    store: &mut S,
    index: [u8; 16],
    number: u16,
    server: usize,
) -> Result<Option<RcSlice<u8>>, MoveFault>
    ensures looked { Looked S.honest S.shares S.room S.failures store.old store.new }
    ensures found { IsTrue (S.honest store.old) → IfOk result (λ bytes.
        option_map rc_slice_items bytes ≡ get (S.shares store.old) (index, number)) }
{
    let failures = store.failures();
    let bytes = store.get(index, number)?;
    if store.failures() > failures {
        return Err(MoveFault::NotRead(server));
    }
    Ok(bytes)
}
