//! Which shares stand, how long each is, and how much room is left.
ghost use Rattle.std.specs.Prelude.{◌≡◌, ◌<◌, ◌+◌, ◌^◌, All, None, OnOk, OnErr, IsErrOf, length};
ghost use Rattle.std.specs.Option.{option_map};
ghost use Rattle.std.specs.FinMap as map;
ghost use Rattle.share_store.specs.Shares.{bytes_of};
ghost use Rattle.share_store.specs.Stored.{blank, shares_in};

use share_store::{ShareMap, StoreFault};
use std::alloc::{AllocError, Global};

/// The lengths of the shares that stand, none of them 0, and how many more bytes there is room for.
#[derive(Drop)]
pub(crate) struct ShareSizes {
    pub(crate) lengths: ShareMap<u64>,
    pub(crate) room: u64,
    pub(crate) held: u64,
    ghost summed: { held ≡ bytes_of (shares_in blank lengths.indexes) },
    ghost some: { All (λ e. 0 < length e.1) (map.entries (shares_in blank lengths.indexes)) },
    ghost fits: { room + held < 2 ^ 64 },
}

impl ShareSizes {
    ghost use Rattle.shelf_store.specs.Known.{known, IsAsRoomy};

    /// No shares, and room for `room` bytes. It takes memory from `alloc` as shares come.
    pub(crate) fn new(alloc: Global, room: u64) -> Self
        ensures lengths { known result ≡ map.empty }
        ensures room { result.room + result.held ≡ room }
    {
        ShareSizes {
            lengths: ShareMap::new(alloc),
            room,
            held: 0,
        }
    }

    /// The length of the share that stands there.
    pub(crate) fn get(&self, index: &[u8; 16], number: u16) -> Option<u64>
        ensures { option_map blank result ≡ map.get (known self.now) (index.now, number) }
    {
        self.lengths.get(index, number).copied()
    }

    /// Puts the length of a share where none stands. Refused with `Full` where it is more than the room.
    pub(crate) fn put(&mut self, index: [u8; 16], number: u16, size: u64) -> Result<(), StoreFault>
        requires none { map.get (known self.old) (index, number) ≡ None }
        requires some { 0 < size }
        ensures ok { OnOk result (known self.new
            ≡ map.insert (known self.old) (index, number) (blank size)) }
        ensures err { OnErr result (known self.new ≡ known self.old) }
        ensures err_room { OnErr result (self.new.room ≡ self.old.room) }
        ensures room { IsAsRoomy self.old self.new }
        ensures full { IsErrOf result StoreFault.Full → self.old.room < size }
        ensures not_down { IsErrOf result StoreFault.Down → ⊥ }
    {
        if size > self.room {
            return Err(StoreFault::Full);
        }
        self.lengths.insert(index, number, size)?;
        self.room -= size;
        self.held += size;
        Ok(())
    }

    /// Takes a share away; its bytes are room again. Takes no memory, and is never refused.
    pub(crate) fn remove(&mut self, index: &[u8; 16], number: u16)
        ensures shares { known self.new ≡ map.remove (known self.old) (index.now, number) }
        ensures room { IsAsRoomy self.old self.new }
    {
        match self.lengths.remove(index, number) {
            None => {}
            Some(size) => {
                self.room += size;
                self.held -= size;
            }
        }
    }
}
