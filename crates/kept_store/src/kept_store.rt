//! A store in memory with a shelf beside it.
ghost use Rattle.std.specs.Prelude.{◌≡◌, ◌<◌, ◌≤◌, ◌+◌, ◌-◌, ◌^◌, ◌==◌, ◌↔◌, [], true, false, not, length, IsTrue, IfOk, IsOkAnd, OnOk, OnErr, IsErrOf, if◌then◌else◌, None, slice_get};
ghost use Rattle.std.specs.Option.{option_map};
ghost use Rattle.std.specs.FinMap as map;
ghost use Rattle.std.specs.Rc.{rc_slice_items};
ghost use Rattle.share_store.specs.History.{IsEither, GoesOnBy};
ghost use Rattle.share_store.specs.Looked.{Looked};
ghost use Rattle.share_store.specs.MapLaws.{held_fits};
ghost use Rattle.share_store.specs.Numbers.{numbers_for};
ghost use Rattle.share_store.specs.Put.{put_once};
ghost use Rattle.share_store.specs.Stored.{entry_of, shares_in};
ghost use Rattle.share_store.specs.Toggle.{has_byte, with_toggle};
ghost use Rattle.kept_store.specs.Step.{IsInStep, IsInStep-prop};

use share_shelf::{Shelf, ShelfFault};
use share_store::laws::toggle_laws;
use share_store::{MemStore, Share, Store, StoreFault, with_bit_changed};
use std::alloc::{AllocError, Global};
use std::rc::RcSlice;

/// A store that answers from memory and keeps each share on a shelf beside it. It is always honest. Once its shelf
/// failed it is down for good: each call that would change something is refused, until it is opened anew.
pub struct KeptStore<H: Shelf> {
    pub(crate) alloc: Global,
    pub(crate) memory: MemStore,
    pub(crate) shelf: H,
    pub(crate) down: bool,
    pub(crate) failures: u64,
    ghost in_step: { IsInStep H.moment H.left_since H.honest down shelf
        (shares_in rc_slice_items memory.shares.indexes) } by { IsInStep-prop
            H.moment H.left_since H.honest down shelf
            (shares_in rc_slice_items memory.shares.indexes) },
}

// Its own, so that what owns one calls it: a derived drop is spelled out wherever a value may be dropped.
impl<H: Shelf + Drop> Drop for KeptStore<H> {
    fn drop(self) {
        let KeptStore {
            alloc: _,
            memory: _,
            shelf: _,
            down: _,
            failures: _,
        } = self;
    }
}

impl<H: Shelf> KeptStore<H> {
    ghost use Rattle.kept_store.specs.Changed.{shares_in_memory, DoesOrRefuses, WritesThrough, IsDownOnceFailed, GrantsOnlyKept};

    /// The shelf beside it: until it failed, an honest one keeps the store's shares. What an honest one tells of its past
    /// is what the store tells.
    pub fn shelf(&self) -> &H
        ensures shelf { result.now ≡ self.now.shelf }
        ensures in_step { IsInStep H.moment H.left_since H.honest self.now.down result.now
            (⟦<KeptStore<H> as Store>⟧.shares self.now) }
        ensures history { IsTrue (H.honest result.now) →
            ⟦<KeptStore<H> as Store>⟧.history self.now ≡ H.history result.now }
        ensures no_history { H.honest result.now ≡ false →
            ⟦<KeptStore<H> as Store>⟧.history self.now ≡ None }
    {
        &self.shelf
    }

    /// Counts a call that is refused because the shelf failed, in it or before. Where no more can be counted it says
    /// that there was no memory.
    fn refuse(&mut self) -> StoreFault
        ensures fault { result
            ≡ (if self.old.failures == 2 ^ 64 - 1 then StoreFault.NoMemory else StoreFault.Down) }
        ensures failures { self.new.failures
            ≡ (if self.old.failures == 2 ^ 64 - 1 then self.old.failures
            else self.old.failures + 1) }
        ensures shelf { self.new.shelf ≡ self.old.shelf }
        ensures memory { self.new.memory ≡ self.old.memory }
        ensures down { self.new.down ≡ self.old.down }
    {
        if self.failures == u64::MAX {
            return StoreFault::NoMemory;
        }
        self.failures += 1;
        StoreFault::Down
    }

    /// Puts a share where none stands: in memory, and then on the shelf. Where the shelf refuses, it is taken out of
    /// memory again.
    pub fn put_share(
        &mut self,
        index: [u8; 16],
        number: u16,
        bytes: RcSlice<u8>,
    ) -> Result<bool, StoreFault>
        requires { 0 < length (rc_slice_items bytes) }
        ensures full { IsErrOf result StoreFault.Full →
            (self.old.memory.room < length (rc_slice_items bytes))
            × (self.new.memory.room ≡ self.old.memory.room) }
        ensures full_only { IsErrOf result StoreFault.Full →
            map.get (shares_in_memory self.old) (index, number) ≡ None }
        ensures put { IfOk result (λ put. put
            ≡ not (map.contains_key (shares_in_memory self.old) (index, number))) }
        ensures done { DoesOrRefuses (λ m. put_once m (index, number) (rc_slice_items bytes))
            result self.old self.new }
        ensures through { WritesThrough (λ m. put_once m (index, number) (rc_slice_items bytes))
            self.old self.new }
        ensures failing { IsDownOnceFailed result self.old self.new }
        ensures granting { GrantsOnlyKept result self.old self.new }
    {
        if self.memory.has(index, number)? {
            return Ok(false);
        }
        if self.down {
            return Err(self.refuse());
        }
        let lent = bytes.clone()?;
        let _put = self.memory.put(index, number, lent)?;
        match self.shelf.put(index, number, bytes) {
            Ok(()) => Ok(true),
            Err(ShelfFault::NoMemory) => {
                let _undone = self.memory.remove(index, number);
                Err(StoreFault::NoMemory)
            }
            Err(ShelfFault::Failed) => {
                let _undone = self.memory.remove(index, number);
                self.down = true;
                Err(self.refuse())
            }
        }
    }

    /// Takes a share away: from the shelf, and then from memory.
    pub fn lose_share(&mut self, index: [u8; 16], number: u16) -> Result<bool, StoreFault>
        ensures not_full { IsErrOf result StoreFault.Full → ⊥ }
        ensures lost { IfOk result (λ lost. lost
            ≡ map.contains_key (shares_in_memory self.old) (index, number)) }
        ensures done { DoesOrRefuses (λ m. map.remove m (index, number)) result self.old self.new }
        ensures through { WritesThrough (λ m. map.remove m (index, number)) self.old self.new }
        ensures failing { IsDownOnceFailed result self.old self.new }
        ensures granting { GrantsOnlyKept result self.old self.new }
    {
        if !self.memory.has(index, number)? {
            return Ok(false);
        }
        if self.down {
            return Err(self.refuse());
        }
        match self.shelf.remove(index, number) {
            Ok(()) => Ok(self.memory.remove(index, number)),
            Err(ShelfFault::NoMemory) => Err(StoreFault::NoMemory),
            Err(ShelfFault::Failed) => {
                self.down = true;
                Err(self.refuse())
            }
        }
    }

    /// Changes the lowest bit of one byte of a share: on the shelf, and then in memory.
    pub fn flip_bit(&mut self, index: [u8; 16], number: u16, place: u64) -> Result<bool, StoreFault>
        ensures not_full { IsErrOf result StoreFault.Full → ⊥ }
        ensures toggled { IfOk result (λ toggled. toggled
            ≡ has_byte (shares_in_memory self.old) (index, number) place) }
        ensures done { DoesOrRefuses (λ m. with_toggle m (index, number) place)
            result self.old self.new }
        ensures through { WritesThrough (λ m. with_toggle m (index, number) place)
            self.old self.new }
        ensures failing { IsDownOnceFailed result self.old self.new }
        ensures granting { GrantsOnlyKept result self.old self.new }
    {
        toggle_laws();
        let Some(bytes) = self.memory.get(index, number)? else {
            return Ok(false);
        };
        if place >= bytes.len() as u64 {
            return Ok(false);
        }
        if self.down {
            return Err(self.refuse());
        }
        let changed = with_bit_changed(self.alloc, bytes.as_slice(), place as usize)?;
        let lent = changed.clone()?;
        match self.shelf.put(index, number, lent) {
            Ok(()) => {
                self.memory.replace(index, number, changed);
                return Ok(true);
            }
            Err(ShelfFault::NoMemory) => return Err(StoreFault::NoMemory),
            Err(ShelfFault::Failed) => {
                self.down = true;
                return Err(self.refuse());
            }
        }
    }
}

impl<H: Shelf> Store for KeptStore<H> {
    ghost use Rattle.kept_store.specs.Changed.{GrantsOnlyKept};

    ghost honest = { λ store. true };

    ghost history = { λ store.
        if H.honest store.shelf then H.history store.shelf else None };

    ghost shares = { λ store. ⟦<MemStore as Store>⟧.shares store.memory };

    ghost room = { λ store. ⟦<MemStore as Store>⟧.room store.memory };

    ghost held = { λ store. ⟦<MemStore as Store>⟧.held store.memory };

    ghost failures = { λ store. store.failures };

    fn has(&mut self, index: [u8; 16], number: u16) -> Result<bool, AllocError>
        ensures looked { Looked ⟦<KeptStore<H> as Store>⟧.honest ⟦<KeptStore<H> as Store>⟧.shares
            ⟦<KeptStore<H> as Store>⟧.room ⟦<KeptStore<H> as Store>⟧.failures
            self.old self.new }
        ensures same_history { IsTrue (⟦<KeptStore<H> as Store>⟧.honest self.old) →
            ⟦<KeptStore<H> as Store>⟧.history self.new
            ≡ ⟦<KeptStore<H> as Store>⟧.history self.old }
        ensures failed { ⟦<KeptStore<H> as Store>⟧.failures self.old < ⟦<KeptStore<H> as Store>⟧.failures self.new → result ≡ Ok false }
        ensures found { IsTrue (⟦<KeptStore<H> as Store>⟧.honest self.old) →
            ⟦<KeptStore<H> as Store>⟧.failures self.new
            ≡ ⟦<KeptStore<H> as Store>⟧.failures self.old →
            IfOk result (λ found. found
            ≡ map.contains_key (⟦<KeptStore<H> as Store>⟧.shares self.old) (index, number)) }
        ensures same_down { self.new.down ≡ self.old.down }
        ensures same_shelf { self.new.shelf ≡ self.old.shelf }
    {
        self.memory.has(index, number)
    }

    fn numbers(&mut self, index: [u8; 16]) -> Result<Vec<u16>, AllocError>
        ensures looked { Looked ⟦<KeptStore<H> as Store>⟧.honest ⟦<KeptStore<H> as Store>⟧.shares
            ⟦<KeptStore<H> as Store>⟧.room ⟦<KeptStore<H> as Store>⟧.failures
            self.old self.new }
        ensures same_history { IsTrue (⟦<KeptStore<H> as Store>⟧.honest self.old) →
            ⟦<KeptStore<H> as Store>⟧.history self.new
            ≡ ⟦<KeptStore<H> as Store>⟧.history self.old }
        ensures failed { ⟦<KeptStore<H> as Store>⟧.failures self.old < ⟦<KeptStore<H> as Store>⟧.failures self.new →
            IsOkAnd result (λ numbers. numbers.items ≡ []) }
        ensures found { IsTrue (⟦<KeptStore<H> as Store>⟧.honest self.old) →
            ⟦<KeptStore<H> as Store>⟧.failures self.new
            ≡ ⟦<KeptStore<H> as Store>⟧.failures self.old →
            IfOk result (λ numbers. numbers.items
            ≡ numbers_for (⟦<KeptStore<H> as Store>⟧.shares self.old) index) }
        ensures same_down { self.new.down ≡ self.old.down }
        ensures same_shelf { self.new.shelf ≡ self.old.shelf }
    {
        self.memory.numbers(index)
    }

    fn get(&mut self, index: [u8; 16], number: u16) -> Result<Option<RcSlice<u8>>, AllocError>
        ensures looked { Looked ⟦<KeptStore<H> as Store>⟧.honest ⟦<KeptStore<H> as Store>⟧.shares
            ⟦<KeptStore<H> as Store>⟧.room ⟦<KeptStore<H> as Store>⟧.failures
            self.old self.new }
        ensures same_history { IsTrue (⟦<KeptStore<H> as Store>⟧.honest self.old) →
            ⟦<KeptStore<H> as Store>⟧.history self.new
            ≡ ⟦<KeptStore<H> as Store>⟧.history self.old }
        ensures failed { ⟦<KeptStore<H> as Store>⟧.failures self.old < ⟦<KeptStore<H> as Store>⟧.failures self.new → result ≡ Ok None }
        ensures found { IsTrue (⟦<KeptStore<H> as Store>⟧.honest self.old) →
            ⟦<KeptStore<H> as Store>⟧.failures self.new
            ≡ ⟦<KeptStore<H> as Store>⟧.failures self.old →
            IfOk result (λ bytes. option_map rc_slice_items bytes
            ≡ map.get (⟦<KeptStore<H> as Store>⟧.shares self.old) (index, number)) }
        ensures same_down { self.new.down ≡ self.old.down }
        ensures same_shelf { self.new.shelf ≡ self.old.shelf }
    {
        self.memory.get(index, number)
    }

    fn peek(&self, index: [u8; 16], number: u16) -> Option<RcSlice<u8>> {
        self.memory.peek(index, number)
    }

    fn nth(&mut self, at: u64) -> Result<Option<Share>, AllocError>
        ensures looked { Looked ⟦<KeptStore<H> as Store>⟧.honest ⟦<KeptStore<H> as Store>⟧.shares
            ⟦<KeptStore<H> as Store>⟧.room ⟦<KeptStore<H> as Store>⟧.failures
            self.old self.new }
        ensures same_history { IsTrue (⟦<KeptStore<H> as Store>⟧.honest self.old) →
            ⟦<KeptStore<H> as Store>⟧.history self.new
            ≡ ⟦<KeptStore<H> as Store>⟧.history self.old }
        ensures failed { ⟦<KeptStore<H> as Store>⟧.failures self.old < ⟦<KeptStore<H> as Store>⟧.failures self.new → result ≡ Ok None }
        ensures found { IsTrue (⟦<KeptStore<H> as Store>⟧.honest self.old) →
            ⟦<KeptStore<H> as Store>⟧.failures self.new
            ≡ ⟦<KeptStore<H> as Store>⟧.failures self.old →
            IfOk result (λ share. option_map entry_of share
            ≡ slice_get (map.entries (⟦<KeptStore<H> as Store>⟧.shares self.old)) at) }
        ensures same_down { self.new.down ≡ self.old.down }
        ensures same_shelf { self.new.shelf ≡ self.old.shelf }
    {
        self.memory.nth(at)
    }

    fn put(&mut self, index: [u8; 16], number: u16, bytes: RcSlice<u8>) -> Result<bool, StoreFault>
        requires { 0 < length (rc_slice_items bytes) }
        ensures rises { ⟦<KeptStore<H> as Store>⟧.failures self.old ≤ ⟦<KeptStore<H> as Store>⟧.failures self.new }
        ensures down { IsErrOf result StoreFault.Down ↔
            (⟦<KeptStore<H> as Store>⟧.failures self.old < ⟦<KeptStore<H> as Store>⟧.failures
            self.new) }
        ensures full { IsErrOf result StoreFault.Full →
            ⟦<KeptStore<H> as Store>⟧.room self.old < length (rc_slice_items bytes) }
        ensures full_room { IsErrOf result StoreFault.Full →
            ⟦<KeptStore<H> as Store>⟧.room self.new ≡ ⟦<KeptStore<H> as Store>⟧.room self.old }
        ensures honest { IsTrue (⟦<KeptStore<H> as Store>⟧.honest self.old) →
            IsTrue (⟦<KeptStore<H> as Store>⟧.honest self.new) }
        ensures was_honest { IsTrue (⟦<KeptStore<H> as Store>⟧.honest self.new) →
            IsTrue (⟦<KeptStore<H> as Store>⟧.honest self.old) }
        ensures full_only { IsTrue (⟦<KeptStore<H> as Store>⟧.honest self.old) →
            IsErrOf result StoreFault.Full →
            map.get (⟦<KeptStore<H> as Store>⟧.shares self.old) (index, number) ≡ None }
        ensures put { IsTrue (⟦<KeptStore<H> as Store>⟧.honest self.old) →
            IfOk result (λ put. put
            ≡ not (map.contains_key (⟦<KeptStore<H> as Store>⟧.shares self.old) (index, number))) }
        ensures shares { IsTrue (⟦<KeptStore<H> as Store>⟧.honest self.old) →
            OnOk result (⟦<KeptStore<H> as Store>⟧.shares self.new
            ≡ put_once (⟦<KeptStore<H> as Store>⟧.shares self.old) (index, number)
            (rc_slice_items bytes)) }
        ensures err { IsTrue (⟦<KeptStore<H> as Store>⟧.honest self.old) →
            OnErr result (⟦<KeptStore<H> as Store>⟧.shares self.new
            ≡ ⟦<KeptStore<H> as Store>⟧.shares self.old) }
        ensures room { IsTrue (⟦<KeptStore<H> as Store>⟧.honest self.old) →
            ⟦<KeptStore<H> as Store>⟧.room self.new + ⟦<KeptStore<H> as Store>⟧.held self.new
            ≡ ⟦<KeptStore<H> as Store>⟧.room self.old + ⟦<KeptStore<H> as Store>⟧.held self.old }
        ensures history { IsTrue (⟦<KeptStore<H> as Store>⟧.honest self.old) →
            GoesOnBy (IsEither (⟦<KeptStore<H> as Store>⟧.shares self.old)
            (put_once (⟦<KeptStore<H> as Store>⟧.shares self.old) (index, number)
            (rc_slice_items bytes)))
            (⟦<KeptStore<H> as Store>⟧.history self.old)
            (⟦<KeptStore<H> as Store>⟧.history self.new) }
        ensures granting { GrantsOnlyKept result self.old self.new }
    {
        self.put_share(index, number, bytes)
    }

    fn lose(&mut self, index: [u8; 16], number: u16) -> Result<bool, StoreFault>
        ensures rises { ⟦<KeptStore<H> as Store>⟧.failures self.old ≤ ⟦<KeptStore<H> as Store>⟧.failures self.new }
        ensures down { IsErrOf result StoreFault.Down ↔
            (⟦<KeptStore<H> as Store>⟧.failures self.old < ⟦<KeptStore<H> as Store>⟧.failures
            self.new) }
        ensures not_full { IsErrOf result StoreFault.Full → ⊥ }
        ensures honest { IsTrue (⟦<KeptStore<H> as Store>⟧.honest self.old) →
            IsTrue (⟦<KeptStore<H> as Store>⟧.honest self.new) }
        ensures was_honest { IsTrue (⟦<KeptStore<H> as Store>⟧.honest self.new) →
            IsTrue (⟦<KeptStore<H> as Store>⟧.honest self.old) }
        ensures lost { IsTrue (⟦<KeptStore<H> as Store>⟧.honest self.old) →
            IfOk result (λ lost. lost
            ≡ map.contains_key (⟦<KeptStore<H> as Store>⟧.shares self.old) (index, number)) }
        ensures shares { IsTrue (⟦<KeptStore<H> as Store>⟧.honest self.old) →
            OnOk result (⟦<KeptStore<H> as Store>⟧.shares self.new
            ≡ map.remove (⟦<KeptStore<H> as Store>⟧.shares self.old) (index, number)) }
        ensures err { IsTrue (⟦<KeptStore<H> as Store>⟧.honest self.old) →
            OnErr result (⟦<KeptStore<H> as Store>⟧.shares self.new
            ≡ ⟦<KeptStore<H> as Store>⟧.shares self.old) }
        ensures room { IsTrue (⟦<KeptStore<H> as Store>⟧.honest self.old) →
            ⟦<KeptStore<H> as Store>⟧.room self.new + ⟦<KeptStore<H> as Store>⟧.held self.new
            ≡ ⟦<KeptStore<H> as Store>⟧.room self.old + ⟦<KeptStore<H> as Store>⟧.held self.old }
        ensures history { IsTrue (⟦<KeptStore<H> as Store>⟧.honest self.old) →
            GoesOnBy (IsEither (⟦<KeptStore<H> as Store>⟧.shares self.old)
            (map.remove (⟦<KeptStore<H> as Store>⟧.shares self.old) (index, number)))
            (⟦<KeptStore<H> as Store>⟧.history self.old)
            (⟦<KeptStore<H> as Store>⟧.history self.new) }
        ensures granting { GrantsOnlyKept result self.old self.new }
    {
        self.lose_share(index, number)
    }

    fn toggle(&mut self, index: [u8; 16], number: u16, place: u64) -> Result<bool, StoreFault>
        ensures rises { ⟦<KeptStore<H> as Store>⟧.failures self.old ≤ ⟦<KeptStore<H> as Store>⟧.failures self.new }
        ensures down { IsErrOf result StoreFault.Down ↔
            (⟦<KeptStore<H> as Store>⟧.failures self.old < ⟦<KeptStore<H> as Store>⟧.failures
            self.new) }
        ensures not_full { IsErrOf result StoreFault.Full → ⊥ }
        ensures honest { IsTrue (⟦<KeptStore<H> as Store>⟧.honest self.old) →
            IsTrue (⟦<KeptStore<H> as Store>⟧.honest self.new) }
        ensures was_honest { IsTrue (⟦<KeptStore<H> as Store>⟧.honest self.new) →
            IsTrue (⟦<KeptStore<H> as Store>⟧.honest self.old) }
        ensures toggled { IsTrue (⟦<KeptStore<H> as Store>⟧.honest self.old) →
            IfOk result (λ toggled. toggled
            ≡ has_byte (⟦<KeptStore<H> as Store>⟧.shares self.old) (index, number) place) }
        ensures shares { IsTrue (⟦<KeptStore<H> as Store>⟧.honest self.old) →
            OnOk result (⟦<KeptStore<H> as Store>⟧.shares self.new
            ≡ with_toggle (⟦<KeptStore<H> as Store>⟧.shares self.old) (index, number) place) }
        ensures err { IsTrue (⟦<KeptStore<H> as Store>⟧.honest self.old) →
            OnErr result (⟦<KeptStore<H> as Store>⟧.shares self.new
            ≡ ⟦<KeptStore<H> as Store>⟧.shares self.old) }
        ensures room { IsTrue (⟦<KeptStore<H> as Store>⟧.honest self.old) →
            ⟦<KeptStore<H> as Store>⟧.room self.new + ⟦<KeptStore<H> as Store>⟧.held self.new
            ≡ ⟦<KeptStore<H> as Store>⟧.room self.old + ⟦<KeptStore<H> as Store>⟧.held self.old }
        ensures history { IsTrue (⟦<KeptStore<H> as Store>⟧.honest self.old) →
            GoesOnBy (IsEither (⟦<KeptStore<H> as Store>⟧.shares self.old)
            (with_toggle (⟦<KeptStore<H> as Store>⟧.shares self.old) (index, number) place))
            (⟦<KeptStore<H> as Store>⟧.history self.old)
            (⟦<KeptStore<H> as Store>⟧.history self.new) }
        ensures granting { GrantsOnlyKept result self.old self.new }
    {
        self.flip_bit(index, number, place)
    }

    fn room(&self) -> u64 {
        self.memory.room()
    }

    fn held(&self) -> u64 {
        self.memory.held()
    }

    fn failures(&self) -> u64 {
        self.failures
    }

    ghost held_is = { λ store honest. store.memory.summed };

    ghost fits = { λ store honest. held_fits
        store.memory.room store.memory.held store.memory.fits };

    ghost none_empty = { λ store honest. store.memory.some };
}
