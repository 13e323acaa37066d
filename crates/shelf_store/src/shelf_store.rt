//! A store whose bytes are on a shelf.
ghost use Rattle.std.specs.Prelude.{◌≡◌, ◌<◌, ◌≤◌, ◌+◌, ◌↔◌, [], None, Some, true, false, not, length, is_some, IsTrue, IfOk, IsOkAnd, IfSome, OnOk, OnErr, IsErrOf, slice_get};
ghost use Rattle.std.specs.Option.{ForSome, option_map};
ghost use Rattle.std.specs.FinMap as map;
ghost use Rattle.std.specs.Rc.{rc_slice_items};
ghost use Rattle.share_store.specs.MapLaws.{held_fits};
ghost use Rattle.share_store.specs.Looked.{Looked};
ghost use Rattle.share_store.specs.Numbers.{numbers_for};
ghost use Rattle.share_store.specs.Put.{put_once};
ghost use Rattle.share_store.specs.Stored.{blank, entry_of};
ghost use Rattle.share_store.specs.Toggle.{has_byte, with_toggle};
ghost use Rattle.share_shelf.specs.CrashStates.{Keeps};
ghost use Rattle.shelf_store.specs.Doubt.{in_doubt, as_before};
ghost use Rattle.shelf_store.specs.Known.{known, held_as, IsAsRoomy};
ghost use Rattle.shelf_store.specs.SizeLaws.{some_as};
ghost use Rattle.shelf_store.specs.Step.{IsInStep, IsInStep-prop};

use crate::doubt::Doubt;
use crate::share_sizes::ShareSizes;
use share_shelf::{Shelf, ShelfFault};
use share_store::laws::toggle_laws;
use share_store::{Share, Store, StoreFault, with_bit_changed};
use std::alloc::{AllocError, Global};
use std::rc::RcSlice;

/// A store that has in memory which shares stand and how long each is, and whose bytes are on a shelf. It is honest
/// where its shelf is.
///
/// Once its shelf failed in a change, it is in doubt whether the change was done. The store then answers what stood
/// before: so it keeps the bytes that stood at that one place. Before its next change it puts them back on the shelf, and
/// as soon as the shelf takes that, no change is in doubt; until then each change is refused.
pub struct ShelfStore<H: Shelf> {
    pub(crate) alloc: Global,
    pub(crate) sizes: ShareSizes,
    pub(crate) shelf: H,
    pub(crate) doubt: Option<Doubt>,
    pub(crate) failures: u64,
    ghost in_step: { IsInStep H.moment H.left_since H.honest H.shares (in_doubt doubt) shelf
        (known sizes) } by { IsInStep-prop H.moment H.left_since H.honest H.shares
            (in_doubt doubt) shelf (known sizes) },
}

// Its own, so that what owns one calls it: a derived drop is spelled out wherever a value may be dropped.
impl<H: Shelf + Drop> Drop for ShelfStore<H> {
    fn drop(self) {
        let ShelfStore {
            alloc: _,
            sizes: _,
            shelf: _,
            doubt: _,
            failures: _,
        } = self;
    }
}

impl<H: Shelf> ShelfStore<H> {
    ghost use Rattle.shelf_store.specs.Standing.{standing, IsHonest};
    ghost use Rattle.shelf_store.specs.Looks.{CountsOnly, ReadsOnly, CountsNone, Forgets, GivesStored, LooksAt};
    ghost use Rattle.shelf_store.specs.Changed.{PutsBack, TellsCause, CarriesOut, Settles};

    /// The shelf that has the bytes. On an honest one a crash leaves what stands in the store, but for the share of the
    /// change in which it failed, if it failed in one.
    pub fn shelf(&self) -> &H
        ensures shelf { result.now ≡ self.now.shelf }
        ensures in_step { IsInStep H.moment H.left_since H.honest H.shares
            (in_doubt self.now.doubt) result.now (known self.now.sizes) }
    {
        &self.shelf
    }

    /// Counts a call that is refused, or gives nothing, because the shelf failed. Where no more can be counted it is
    /// refused as one for which there was no memory.
    fn count(&mut self) -> Result<(), AllocError>
        ensures counted { OnOk result (self.new.failures ≡ self.old.failures + 1) }
        ensures same { OnErr result (self.new.failures ≡ self.old.failures) }
        ensures counts { CountsOnly self.old self.new }
        ensures sizes { self.new.sizes ≡ self.old.sizes }
    {
        if self.failures == u64::MAX {
            return Err(AllocError);
        }
        self.failures += 1;
        Ok(())
    }

    /// Counts a call that is refused because the shelf failed, and says why.
    fn refuse(&mut self) -> StoreFault
        ensures down { (result ≡ StoreFault.Down) ↔ (self.old.failures < self.new.failures) }
        ensures not_full { result ≡ StoreFault.Full → ⊥ }
        ensures counts { CountsOnly self.old self.new }
        ensures sizes { self.new.sizes ≡ self.old.sizes }
    {
        match self.count() {
            Ok(()) => StoreFault::Down,
            Err(_) => StoreFault::NoMemory,
        }
    }

    /// The bytes of a share as they stood before the change in doubt: from memory where it was of this share, and else
    /// by one read of the shelf. `None` where the shelf gave no bytes, as an honest one never does of a share.
    fn stood(&mut self, index: [u8; 16], number: u16) -> Result<Option<RcSlice<u8>>, ShelfFault>
        ensures given { IsHonest self.old → IfOk result (λ bytes.
            option_map rc_slice_items bytes ≡ map.get (standing self.old) (index, number)) }
        ensures some { IfOk result (λ bytes.
            ForSome bytes (λ b. 0 < length (rc_slice_items b))) }
        ensures failed { IsErrOf result ShelfFault.Failed ↔
            (H.failures self.old.shelf < H.failures self.new.shelf) }
        ensures reads { ReadsOnly self.old self.new }
        ensures sizes { self.new.sizes ≡ self.old.sizes }
        ensures failures { self.new.failures ≡ self.old.failures }
    {
        if let Some(doubt) = &self.doubt {
            if doubt.is_of(index, number) {
                return Ok(doubt.lent()?);
            }
        }
        let Some(bytes) = self.shelf.read(index, number)? else {
            return Ok(None);
        };
        if bytes.is_empty() {
            return Ok(None);
        }
        Ok(Some(bytes))
    }

    /// Takes a share out of the index that the shelf doesn't give, so that it can be put again, and counts that as a
    /// failure. An honest shelf gives each.
    fn forget(&mut self, index: &[u8; 16], number: u16) -> Result<(), AllocError>
        requires { IsHonest self.old → ⊥ }
        ensures gone { known self.new.sizes
            ≡ map.remove (known self.old.sizes) (index.now, number) }
        ensures room { IsAsRoomy self.old.sizes self.new.sizes }
        ensures counted { OnOk result (self.new.failures ≡ self.old.failures + 1) }
        ensures same { OnErr result (self.new.failures ≡ self.old.failures) }
        ensures counts { CountsOnly self.old self.new }
    {
        self.sizes.remove(index, number);
        self.count()
    }

    /// The bytes of a share that the index has, `size` of them. `None` where the shelf failed or gave as many not, which
    /// counts as a failure. What it gave not is taken out of the index.
    fn whole(
        &mut self,
        index: [u8; 16],
        number: u16,
        size: u64,
    ) -> Result<Option<RcSlice<u8>>, AllocError>
        requires { map.get (known self.old.sizes) (index, number) ≡ Some (blank size) }
        ensures given { IsHonest self.old → self.new.failures ≡ self.old.failures →
            GivesStored (index, number) result self.old }
        ensures sized { IfOk result (λ bytes.
            IfSome bytes (λ b. length (rc_slice_items b) ≡ size)) }
        ensures failed { (result ≡ Ok None) ↔ (self.old.failures < self.new.failures) }
        ensures rises { self.old.failures ≤ self.new.failures }
        ensures failing { CountsNone result self.old self.new }
        ensures reads { ReadsOnly self.old self.new }
        ensures index { Forgets (index, number) result self.old self.new }
    {
        match self.stood(index, number) {
            Ok(Some(bytes)) => {
                if bytes.len() as u64 == size {
                    return Ok(Some(bytes));
                }
                self.forget(&index, number)?;
                Ok(None)
            }
            Ok(None) => {
                self.forget(&index, number)?;
                Ok(None)
            }
            Err(ShelfFault::Failed) => {
                self.count()?;
                Ok(None)
            }
            Err(ShelfFault::NoMemory) => Err(AllocError),
        }
    }

    /// The bytes of the share that stands there, by one read of the shelf. `None` where none stands, and then the shelf
    /// isn't asked. Where the shelf failed, or gave not as many bytes as the index has, that counts as a failure, and the
    /// answer is `None`; over an honest shelf nothing else does. What the shelf gave not, or not so many bytes of, leaves
    /// the index, so that it can be put again. Refused where there was no memory to lend them, or a failure could not be
    /// counted.
    pub fn look(&mut self, index: [u8; 16], number: u16) -> Result<Option<RcSlice<u8>>, AllocError>
        ensures looked { Looked ⟦<ShelfStore<H> as Store>⟧.honest ⟦<ShelfStore<H> as Store>⟧.shares
            ⟦<ShelfStore<H> as Store>⟧.room ⟦<ShelfStore<H> as Store>⟧.failures self.old self.new }
        ensures failed { self.old.failures < self.new.failures → result ≡ Ok None }
        ensures found { IsHonest self.old → self.new.failures ≡ self.old.failures →
            GivesStored (index, number) result self.old }
        ensures looks { LooksAt (index, number) result self.old self.new }
    {
        match self.sizes.get(&index, number) {
            None => Ok(None),
            Some(size) => self.whole(index, number, size),
        }
    }

    /// Puts on the shelf what stood there before the change in doubt. Without one the shelf isn't asked.
    fn put_back(&mut self) -> Result<(), ShelfFault>
        ensures done { IsHonest self.old → OnOk result
            (Keeps H.moment H.left_since self.new.shelf (standing self.old)) }
        ensures failed { IsErrOf result ShelfFault.Failed ↔
            (H.failures self.old.shelf < H.failures self.new.shelf) }
        ensures back { PutsBack self.old self.new }
        ensures doubt { self.new.doubt ≡ self.old.doubt }
        ensures failures { self.new.failures ≡ self.old.failures }
    {
        let Some(doubt) = &self.doubt else {
            return Ok(());
        };
        let index = doubt.index;
        let number = doubt.number;
        match doubt.lent()? {
            None => self.shelf.remove(index, number),
            Some(bytes) => self.shelf.put(index, number, bytes),
        }
    }

    /// Settles the change in doubt, if one is: what stood before it is put back, and no change is in doubt any more.
    ///
    /// Refused with `Down` where the shelf failed in that, which is counted, and with `NoMemory` where there was no memory
    /// or a failure could not be counted. The change is then still in doubt.
    fn settle(&mut self) -> Result<(), StoreFault>
        ensures up { OnOk result (in_doubt self.new.doubt ≡ None) }
        ensures err { OnErr result (self.new.doubt ≡ self.old.doubt) }
        ensures back { PutsBack self.old self.new }
        ensures failing { TellsCause result self.old self.new }
        ensures not_full { IsErrOf result StoreFault.Full → ⊥ }
        ensures counts_only { H.failures self.new.shelf ≡ H.failures self.old.shelf →
            self.new.failures ≡ self.old.failures }
    {
        match self.put_back() {
            Ok(()) => {
                self.doubt = None;
                Ok(())
            }
            Err(ShelfFault::NoMemory) => Err(StoreFault::NoMemory),
            Err(ShelfFault::Failed) => Err(self.refuse()),
        }
    }

    /// Puts a share where none stands, and answers `true`: in the index, and then on the shelf. Where the shelf refuses,
    /// it is taken out of the index again. `false` where one stands, whether a change is in doubt or not, and then the
    /// shelf isn't asked. Else a change in doubt is settled first.
    ///
    /// Refused with `Full` where it is longer than the room, with `Down` where the shelf failed, after which a change is
    /// in doubt, and with `NoMemory` where there was no memory or a failure could not be counted.
    pub fn put_share(
        &mut self,
        index: [u8; 16],
        number: u16,
        bytes: RcSlice<u8>,
    ) -> Result<bool, StoreFault>
        requires { 0 < length (rc_slice_items bytes) }
        ensures full { IsErrOf result StoreFault.Full →
            (self.old.sizes.room < length (rc_slice_items bytes))
            × (self.new.sizes.room ≡ self.old.sizes.room) }
        ensures full_only { IsErrOf result StoreFault.Full → IsHonest self.old →
            map.get (standing self.old) (index, number) ≡ None }
        ensures done { CarriesOut (λ m. not (map.contains_key m (index, number)))
            (λ m. put_once m (index, number) (rc_slice_items bytes)) result self.old self.new }
        ensures settles { Settles (λ m. not (map.contains_key m (index, number)))
            result self.old self.new }
        ensures failing { TellsCause result self.old self.new }
        ensures goes_in_doubt { H.failures self.old.shelf < H.failures self.new.shelf →
            is_some (in_doubt self.new.doubt) ≡ true }
        ensures down_only { H.failures self.new.shelf ≡ H.failures self.old.shelf →
            IsErrOf result StoreFault.Down → ⊥ }
    {
        if self.sizes.get(&index, number).is_some() {
            return Ok(false);
        }
        self.settle()?;
        let size = bytes.len() as u64;
        self.sizes.put(index, number, size)?;
        match self.shelf.put(index, number, bytes) {
            Ok(()) => Ok(true),
            Err(ShelfFault::NoMemory) => {
                self.sizes.remove(&index, number);
                Err(StoreFault::NoMemory)
            }
            Err(ShelfFault::Failed) => {
                self.sizes.remove(&index, number);
                self.doubt = Some(Doubt {
                    index,
                    number,
                    before: None,
                });
                Err(self.refuse())
            }
        }
    }

    /// Takes a share away, and answers `true`: from the shelf, and then from the index. Its bytes are read before, since
    /// they still stand where the shelf fails. `false` where none stands, whether a change is in doubt or not, and then
    /// the shelf isn't asked. Else a change in doubt is settled first.
    ///
    /// Refused with `Down` where the shelf failed, after which a change is in doubt unless it failed in the read, and with
    /// `NoMemory` where there was no memory or a failure could not be counted.
    pub fn lose_share(&mut self, index: [u8; 16], number: u16) -> Result<bool, StoreFault>
        ensures not_full { IsErrOf result StoreFault.Full → ⊥ }
        ensures done { CarriesOut (λ m. map.contains_key m (index, number))
            (λ m. map.remove m (index, number)) result self.old self.new }
        ensures settles { Settles (λ m. map.contains_key m (index, number))
            result self.old self.new }
        ensures failing { TellsCause result self.old self.new }
        ensures down_only { H.failures self.new.shelf ≡ H.failures self.old.shelf →
            IsErrOf result StoreFault.Down → ⊥ }
    {
        if self.sizes.get(&index, number).is_none() {
            return Ok(false);
        }
        self.settle()?;
        let before = match self.stood(index, number) {
            Ok(before) => before,
            Err(ShelfFault::NoMemory) => return Err(StoreFault::NoMemory),
            Err(ShelfFault::Failed) => return Err(self.refuse()),
        };
        match self.shelf.remove(index, number) {
            Ok(()) => {
                self.sizes.remove(&index, number);
                Ok(true)
            }
            Err(ShelfFault::NoMemory) => Err(StoreFault::NoMemory),
            Err(ShelfFault::Failed) => {
                self.doubt = Some(Doubt {
                    index,
                    number,
                    before,
                });
                Err(self.refuse())
            }
        }
    }

    /// Changes the lowest bit of one byte of a share, the byte at `place` from 0, and answers `true`: the share is read,
    /// and put whole with that bit changed. `false` where there is no such byte, whether a change is in doubt or not, and
    /// then the shelf isn't asked. Else a change in doubt is settled first.
    ///
    /// Refused as a loss is, and with `Down` also where the shelf gave not as many bytes as the index has.
    pub fn flip_bit(&mut self, index: [u8; 16], number: u16, place: u64) -> Result<bool, StoreFault>
        ensures not_full { IsErrOf result StoreFault.Full → ⊥ }
        ensures done { CarriesOut (λ m. has_byte m (index, number) place)
            (λ m. with_toggle m (index, number) place) result self.old self.new }
        ensures settles { Settles (λ m. has_byte m (index, number) place)
            result self.old self.new }
        ensures failing { TellsCause result self.old self.new }
        ensures down_only { IsHonest self.old →
            H.failures self.new.shelf ≡ H.failures self.old.shelf →
            IsErrOf result StoreFault.Down → ⊥ }
    {
        toggle_laws();
        let Some(size) = self.sizes.get(&index, number) else {
            return Ok(false);
        };
        if place >= size {
            return Ok(false);
        }
        self.settle()?;
        let Some(before) = self.whole(index, number, size)? else {
            return Err(StoreFault::Down);
        };
        let changed = with_bit_changed(self.alloc, before.as_slice(), place as usize)?;
        match self.shelf.put(index, number, changed) {
            Ok(()) => Ok(true),
            Err(ShelfFault::NoMemory) => Err(StoreFault::NoMemory),
            Err(ShelfFault::Failed) => {
                self.doubt = Some(Doubt {
                    index,
                    number,
                    before: Some(before),
                });
                Err(self.refuse())
            }
        }
    }
}

impl<H: Shelf> Store for ShelfStore<H> {
    ghost use Rattle.shelf_store.specs.Looks.{CountsNone, LooksAt};

    ghost honest = { λ store. H.honest store.shelf };

    ghost shares = { λ store. as_before (in_doubt store.doubt) (H.shares store.shelf) };

    ghost room = { λ store. store.sizes.room };

    ghost held = { λ store. store.sizes.held };

    ghost failures = { λ store. store.failures };

    /// Whether the index has the share.
    fn has(&mut self, index: [u8; 16], number: u16) -> Result<bool, AllocError>
        ensures looked { Looked ⟦<ShelfStore<H> as Store>⟧.honest ⟦<ShelfStore<H> as Store>⟧.shares
            ⟦<ShelfStore<H> as Store>⟧.room ⟦<ShelfStore<H> as Store>⟧.failures self.old self.new }
        ensures failed { self.old.failures < self.new.failures → result ≡ Ok false }
        ensures found { IsTrue (H.honest self.old.shelf) → self.new.failures ≡ self.old.failures →
            IfOk result (λ found. found
            ≡ map.contains_key (⟦<ShelfStore<H> as Store>⟧.shares self.old) (index, number)) }
        ensures known { result
            ≡ Ok (map.contains_key (known self.old.sizes) (index, number)) }
        ensures same { self.new ≡ self.old }
    {
        Ok(self.sizes.get(&index, number).is_some())
    }

    /// The numbers that the index has.
    fn numbers(&mut self, index: [u8; 16]) -> Result<Vec<u16>, AllocError>
        ensures looked { Looked ⟦<ShelfStore<H> as Store>⟧.honest ⟦<ShelfStore<H> as Store>⟧.shares
            ⟦<ShelfStore<H> as Store>⟧.room ⟦<ShelfStore<H> as Store>⟧.failures self.old self.new }
        ensures failed { self.old.failures < self.new.failures →
            IsOkAnd result (λ numbers. numbers.items ≡ []) }
        ensures found { IsTrue (H.honest self.old.shelf) → self.new.failures ≡ self.old.failures →
            IfOk result (λ numbers. numbers.items
            ≡ numbers_for (⟦<ShelfStore<H> as Store>⟧.shares self.old) index) }
        ensures known { IfOk result (λ numbers. numbers.items
            ≡ numbers_for (known self.old.sizes) index) }
        ensures same { self.new ≡ self.old }
    {
        self.sizes.lengths.numbers(&index)
    }

    /// As [`ShelfStore::look`] says.
    fn get(&mut self, index: [u8; 16], number: u16) -> Result<Option<RcSlice<u8>>, AllocError>
        ensures looked { Looked ⟦<ShelfStore<H> as Store>⟧.honest ⟦<ShelfStore<H> as Store>⟧.shares
            ⟦<ShelfStore<H> as Store>⟧.room ⟦<ShelfStore<H> as Store>⟧.failures self.old self.new }
        ensures failed { self.old.failures < self.new.failures → result ≡ Ok None }
        ensures found { IsTrue (H.honest self.old.shelf) → self.new.failures ≡ self.old.failures →
            IfOk result (λ bytes. option_map rc_slice_items bytes
            ≡ map.get (⟦<ShelfStore<H> as Store>⟧.shares self.old) (index, number)) }
        ensures looks { LooksAt (index, number) result self.old self.new }
    {
        self.look(index, number)
    }

    /// The share whose name the index has at that place, by one read of the shelf.
    fn nth(&mut self, at: u64) -> Result<Option<Share>, AllocError>
        ensures looked { Looked ⟦<ShelfStore<H> as Store>⟧.honest ⟦<ShelfStore<H> as Store>⟧.shares
            ⟦<ShelfStore<H> as Store>⟧.room ⟦<ShelfStore<H> as Store>⟧.failures self.old self.new }
        ensures failed { self.old.failures < self.new.failures → result ≡ Ok None }
        ensures found { IsTrue (H.honest self.old.shelf) → self.new.failures ≡ self.old.failures →
            IfOk result (λ share. option_map entry_of share
            ≡ slice_get (map.entries (⟦<ShelfStore<H> as Store>⟧.shares self.old)) at) }
        ensures known { IfOk result (λ share. IfSome share (λ s.
            option_map (λ e. e.0) (slice_get (map.entries (known self.old.sizes)) at)
            ≡ Some (s.index, s.number))) }
        ensures failing { CountsNone result self.old self.new }
    {
        let Some(name) = self.sizes.lengths.nth(at) else {
            return Ok(None);
        };
        let index = name.0;
        let number = name.1;
        match self.look(index, number)? {
            None => Ok(None),
            Some(bytes) => Ok(Some(Share {
                index,
                number,
                bytes,
            })),
        }
    }

    fn put(
        &mut self,
        index: [u8; 16],
        number: u16,
        bytes: RcSlice<u8>,
    ) -> Result<bool, StoreFault> {
        self.put_share(index, number, bytes)
    }

    fn lose(&mut self, index: [u8; 16], number: u16) -> Result<bool, StoreFault> {
        self.lose_share(index, number)
    }

    fn toggle(&mut self, index: [u8; 16], number: u16, place: u64) -> Result<bool, StoreFault> {
        self.flip_bit(index, number, place)
    }

    fn room(&self) -> u64 {
        self.sizes.room
    }

    fn held(&self) -> u64 {
        self.sizes.held
    }

    fn failures(&self) -> u64 {
        self.failures
    }

    ghost held_is = { λ store honest. held_as store.sizes
        (as_before (in_doubt store.doubt) (H.shares store.shelf)) (store.in_step.sizes honest) };

    ghost fits = { λ store honest. held_fits store.sizes.room store.sizes.held store.sizes.fits };

    ghost none_empty = { λ store honest. some_as (known store.sizes)
        (as_before (in_doubt store.doubt) (H.shares store.shelf)) (store.in_step.sizes honest)
        store.sizes.some };
}
