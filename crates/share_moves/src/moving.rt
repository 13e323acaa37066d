//! Shares put where so many servers have them.
ghost use Rattle.std.specs.Prelude.{◌≡◌, ◌≢◌, ◌<◌, Some, All, IfOk, OnOk, IsTrue, length, map, slice_get};
ghost use Rattle.std.specs.Option.{option_map};
ghost use Rattle.std.specs.FinMap.{get, entries};
ghost use Rattle.std.specs.Rc.{rc_slice_items};
ghost use Rattle.share_store.specs.Looked.{Looked};
ghost use Rattle.share_store.specs.Put.{put_once};
ghost use Rattle.share_store.specs.Stored.{entry_of};
ghost use Rattle.grid.specs.Placement.{server_of};
ghost use Rattle.grid.specs.Standing.{standing};
ghost use Rattle.share_moves.specs.Moves.{with_moved_shares, AreSharesInPlace};
ghost use Rattle.share_moves.specs.Steps.{single_share, with_found, AreFoundInPlace};
ghost use Rattle.share_moves.specs.declared.moving.Placed.TheVariants.{Other};

use crate::MoveFault;
use base32_text::encode;
use log::{Log, info, warn};
use share_store::{Share, Store, StoreFault};
use std::alloc::AllocError;

/// After how many shares it is told how far it is.
const OFTEN: u64 = 1_000;

/// What became of shares.
#[derive(Clone, Copy, PartialEq, Eq)]
pub struct Moved {
    /// How many were put.
    pub put: u64,
    /// How many stood in their place already.
    pub stood: u64,
    /// How many were left, since other bytes stand in their place.
    pub others: u64,
}

/// What became of a share.
#[derive(Clone, Copy, PartialEq, Eq)]
pub(crate) enum Placed {
    /// It was put.
    Put,
    /// It stood there already.
    Stood,
    /// Other bytes stand there.
    Other,
}

impl Moved {
    /// No share was looked at.
    fn new() -> Moved {
        Moved {
            put: 0,
            stood: 0,
            others: 0,
        }
    }

    /// Counts a share of which this became.
    fn count(&mut self, placed: Placed)
        ensures before { self.new.others ≡ 0 → self.old.others ≡ 0 }
        ensures placed { self.new.others ≡ 0 → placed ≢ Other }
    {
        match placed {
            Placed::Put => self.put = self.put.saturating_add(1),
            Placed::Stood => self.stood = self.stood.saturating_add(1),
            Placed::Other => self.others = self.others.saturating_add(1),
        }
    }

    /// How many shares were looked at.
    fn looked_at(&self) -> u64 {
        self.put
            .saturating_add(self.stood)
            .saturating_add(self.others)
    }
}

/// Puts each share of some stores where it goes in a grid of these others: at the server that its storage index and its
/// number name among so many. What stands there is kept. Of two stores that have other bytes under one key the first one's
/// are put, and the others are logged by their names and counted. The stores of `from` are only read, and one share's bytes
/// are in memory at a time.
///
/// Refused where a store fails, or has no room, or where memory runs out. What was put stands then, and shares that are moved
/// again from there stand as if they had been moved at once ([`crate::laws::shares_are_laid_again`]).
pub fn move_shares<R: AllocGlobal + Log, S: Store, T: Store>(
    rt: &R,
    from: &mut [S],
    into: &mut [T],
) -> Result<Moved, MoveFault>
    requires { 0 < length into.old }
    ensures kept { All (λ store. IsTrue (S.honest store)) from.old →
        map S.shares from.new ≡ map S.shares from.old }
    ensures moved { All (λ store. IsTrue (S.honest store)) from.old →
        All (λ store. IsTrue (T.honest store)) into.old →
        OnOk result (standing (map T.shares into.new)
        ≡ with_moved_shares (length into.old) (map S.shares from.old)
        (standing (map T.shares into.old))) }
    ensures there { All (λ store. IsTrue (S.honest store)) from.old →
        All (λ store. IsTrue (T.honest store)) into.old →
        IfOk result (λ moved. moved.others ≡ 0 →
        AreSharesInPlace (length into.old) (map S.shares from.old)
        (standing (map T.shares into.new))) }
    ensures honest { All (λ store. IsTrue (T.honest store)) into.old →
        All (λ store. IsTrue (T.honest store)) into.new }
{
    let mut moved = Moved::new();
    for server in 0..from.len() {
        move_server(rt, &mut from[server], server, into, &mut moved)?;
        info!(rt; "{} shares were looked at, {} put", moved.looked_at(), moved.put);
    }
    Ok(moved)
}

/// Puts each share of one store where it goes.
fn move_server<R: AllocGlobal + Log, S: Store, T: Store>(
    rt: &R,
    from: &mut S,
    server: usize,
    into: &mut [T],
    moved: &mut Moved,
) -> Result<(), MoveFault>
    requires { 0 < length into.old }
    ensures looked { Looked S.honest S.shares S.room S.failures from.old from.new }
    ensures honest { All (λ store. IsTrue (T.honest store)) into.old →
        All (λ store. IsTrue (T.honest store)) into.new }
    ensures moved { IsTrue (S.honest from.old) → All (λ store. IsTrue (T.honest store)) into.old →
        OnOk result (standing (map T.shares into.new)
        ≡ with_found (length into.old) (get (S.shares from.old))
        (standing (map T.shares into.old))) }
    ensures there { IsTrue (S.honest from.old) → All (λ store. IsTrue (T.honest store)) into.old →
        OnOk result (moved.new.others ≡ 0 → (moved.old.others ≡ 0)
        × AreFoundInPlace (length into.old) (get (S.shares from.old))
        (standing (map T.shares into.new))) }
{
    for at in 0..u64::MAX {
        match share_at(from, at, MoveFault::NotRead(server))? {
            None => return Ok(()),
            Some(share) => put_share(rt, into, server, &share, moved)?,
        }
    }
    Err(MoveFault::NoMemory)
}

/// The share at a place of a store, which was refused with this fault where it failed.
pub(crate) fn share_at<S: Store>(
    store: &mut S,
    at: u64,
    fault: MoveFault,
) -> Result<Option<Share>, MoveFault>
    ensures looked { Looked S.honest S.shares S.room S.failures store.old store.new }
    ensures found { IsTrue (S.honest store.old) → IfOk result (λ share. option_map entry_of share
        ≡ slice_get (entries (S.shares store.old)) at) }
{
    let failures = store.failures();
    let share = store.nth(at)?;
    if store.failures() > failures {
        return Err(fault);
    }
    Ok(share)
}

/// Puts a share of a server's where it goes, counts it, and logs it where other bytes stand there.
fn put_share<R: AllocGlobal + Log, T: Store>(
    rt: &R,
    into: &mut [T],
    server: usize,
    share: &Share,
    moved: &mut Moved,
) -> Result<(), MoveFault>
    requires { 0 < length into.old }
    ensures honest { All (λ store. IsTrue (T.honest store)) into.old →
        All (λ store. IsTrue (T.honest store)) into.new }
    ensures moved { All (λ store. IsTrue (T.honest store)) into.old →
        OnOk result (standing (map T.shares into.new)
        ≡ with_found (length into.old)
        (single_share (share.now.index, share.now.number) (rc_slice_items share.now.bytes))
        (standing (map T.shares into.old))) }
    ensures there { All (λ store. IsTrue (T.honest store)) into.old →
        OnOk result (moved.new.others ≡ 0 → (moved.old.others ≡ 0)
        × (standing (map T.shares into.new)
        (server_of (length into.old) share.now.index share.now.number)
        (share.now.index, share.now.number) ≡ Some (rc_slice_items share.now.bytes))) }
{
    if share.bytes.is_empty() {
        return Err(MoveFault::NoBytes(server));
    }
    let place = place_of(&share.index, share.number, into.len());
    let placed = put_at(&mut into[place], place, share)?;
    moved.count(placed);
    log_share(rt, server, share, placed, moved)?;
    Ok(())
}

/// Logs a share of a server's that was left, and how far it is now and then.
fn log_share<R: AllocGlobal + Log>(
    rt: &R,
    server: usize,
    share: &Share,
    placed: Placed,
    moved: &Moved,
) -> Result<(), AllocError> {
    if placed == Placed::Other {
        let name = encode(rt.alloc(), &share.index)?;
        let number = share.number;
        warn!(rt; "left, since other bytes stand in its place: share {number} of {name} at server {server}");
    }
    if moved.looked_at() % OFTEN == 0 {
        info!(rt; "{} shares were looked at, {} put", moved.looked_at(), moved.put);
    }
    Ok(())
}

/// The server at which the share of a number stands, of so many, as uploads place it.
pub(crate) fn place_of(index: &[u8; 16], number: u16, servers: usize) -> usize
    requires { 0 < servers }
    ensures place { result ≡ server_of servers index.now number }
    ensures below { result < servers }
{
    (usize::from(index[15]) + usize::from(number)) % servers
}

/// Puts a share into a store, which is that of this server, unless one stands there.
fn put_at<T: Store>(store: &mut T, place: usize, share: &Share) -> Result<Placed, MoveFault>
    requires { 0 < length (rc_slice_items share.now.bytes) }
    ensures honest { IsTrue (T.honest store.old) → IsTrue (T.honest store.new) }
    ensures put { IsTrue (T.honest store.old) → OnOk result (T.shares store.new
        ≡ put_once (T.shares store.old) (share.now.index, share.now.number)
        (rc_slice_items share.now.bytes)) }
    ensures there { IsTrue (T.honest store.old) → IfOk result (λ placed. placed ≢ Other →
        get (T.shares store.new) (share.now.index, share.now.number)
        ≡ Some (rc_slice_items share.now.bytes)) }
{
    let bytes = share.bytes.clone()?;
    match store.put(share.index, share.number, bytes) {
        Ok(true) => Ok(Placed::Put),
        Ok(false) => compare(store, place, share),
        Err(StoreFault::Full) => Err(MoveFault::Full(place)),
        Err(StoreFault::Down) => Err(MoveFault::NotWritten(place)),
        Err(StoreFault::NoMemory) => Err(MoveFault::NoMemory),
    }
}

/// Whether a share that stands in a store has the same bytes.
fn compare<T: Store>(store: &mut T, place: usize, share: &Share) -> Result<Placed, MoveFault>
    ensures looked { Looked T.honest T.shares T.room T.failures store.old store.new }
    ensures there { IsTrue (T.honest store.old) → IfOk result (λ placed. placed ≢ Other →
        get (T.shares store.old) (share.now.index, share.now.number)
        ≡ Some (rc_slice_items share.now.bytes)) }
{
    match store.get(share.index, share.number)? {
        Some(bytes) => {
            if bytes.as_slice() == share.bytes.as_slice() {
                Ok(Placed::Stood)
            } else {
                Ok(Placed::Other)
            }
        }
        None => Err(MoveFault::NotWritten(place)),
    }
}
