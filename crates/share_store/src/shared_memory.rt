//! A store in memory that others change.
ghost use Rattle.std.specs.Prelude.{◌≡◌, ◌++◌, ◌∷◌, ◌^◌, ◌-◌, [], false, Some, None, OnOk, OnErr};
ghost use Rattle.std.specs.FinMap as map;
ghost use Rattle.std.specs.FinMap.{empty};
ghost use Rattle.std.specs.Rc.{rc_slice_items};
ghost use Rattle.share_store.specs.Changes.{change_made, changes_made, left_by, next_batch, later_batches, script_of, stood_along, shares_equal-prop};
ghost use Rattle.share_store.specs.Shared.{IsShared, TellsOn};
ghost use Rattle.share_store.specs.Stored.{shares_in};

use crate::{Share, ShareMap, Store, StoreFault};
use std::alloc::{AllocError, Global};
use std::collections::VecDeque;
use std::rc::RcSlice;

/// A change of a store by one who shares it.
#[derive(Drop)]
pub struct ShareChange {
    /// The storage index.
    pub index: [u8; 16],
    /// The share's number.
    pub number: u16,
    /// The bytes of a share that is put where none stands. `None` where the one that stands is lost.
    pub bytes: Option<RcSlice<u8>>,
}

/// A store in memory that others change too, by a script: each call that looks or changes begins with the next batch of
/// their changes. It tells all that stood in it so far. It is never honest, has room for any share and never fails.
#[derive(Drop)]
pub struct SharedMemory {
    map: ShareMap<RcSlice<u8>>,
    changes: Vec<ShareChange>,
    others: VecDeque<Vec<ShareChange>>,
    ghost left: { shares_in rc_slice_items map.indexes
        ≡ left_by (changes_made changes.items) empty } by { shares_equal-prop
            (shares_in rc_slice_items map.indexes) (left_by (changes_made changes.items) empty) },
}

impl SharedMemory {
    ghost use Rattle.share_store.specs.Script.{script_left};

    /// An empty store, and what others do to it: one batch before each call, the first one first. It takes memory from
    /// `alloc` as shares come.
    pub fn new(alloc: Global, others: VecDeque<Vec<ShareChange>>) -> Self
        ensures shared { IsShared (⟦<SharedMemory as Store>⟧.honest result)
            (⟦<SharedMemory as Store>⟧.history result) }
        ensures history { ⟦<SharedMemory as Store>⟧.history result ≡ Some (empty ∷ []) }
        ensures failures { ⟦<SharedMemory as Store>⟧.failures result ≡ 0 }
        ensures script { script_left result ≡ script_of others.items }
    {
        SharedMemory {
            map: ShareMap::new(alloc),
            changes: Vec::new(alloc),
            others,
        }
    }

    /// Puts a share where none stands, and remembers that it was asked for. Whether it was put.
    fn put_change(
        &mut self,
        index: [u8; 16],
        number: u16,
        bytes: RcSlice<u8>,
    ) -> Result<bool, AllocError>
        ensures done { OnOk result (changes_made self.new.changes.items
            ≡ changes_made self.old.changes.items
            ++ ((index, number), Some (rc_slice_items bytes)) ∷ []) }
        ensures same { OnErr result (changes_made self.new.changes.items
            ≡ changes_made self.old.changes.items) }
        ensures others { self.new.others ≡ self.old.others }
    {
        let stands = self.map.get(&index, number).is_some();
        let told = bytes.clone()?;
        self.changes.push(ShareChange {
            index,
            number,
            bytes: Some(told),
        })?;
        if stands {
            return Ok(false);
        }
        match self.map.insert(index, number, bytes) {
            Ok(()) => Ok(true),
            Err(refused) => {
                let _undone = self.changes.pop();
                Err(refused)
            }
        }
    }

    /// Takes a share away, and remembers that it was asked for. Whether one stood.
    fn lose_change(&mut self, index: [u8; 16], number: u16) -> Result<bool, AllocError>
        ensures done { OnOk result (changes_made self.new.changes.items
            ≡ changes_made self.old.changes.items ++ ((index, number), None) ∷ []) }
        ensures same { OnErr result (changes_made self.new.changes.items
            ≡ changes_made self.old.changes.items) }
        ensures others { self.new.others ≡ self.old.others }
    {
        self.changes.push(ShareChange {
            index,
            number,
            bytes: None,
        })?;
        let bytes = self.map.remove(&index, number);
        Ok(bytes.is_some())
    }

    /// Does a change that others make.
    fn change(&mut self, change: &ShareChange) -> Result<(), AllocError>
        ensures done { OnOk result (changes_made self.new.changes.items
            ≡ changes_made self.old.changes.items ++ change_made change.now ∷ []) }
        ensures same { OnErr result (changes_made self.new.changes.items
            ≡ changes_made self.old.changes.items) }
        ensures others { self.new.others ≡ self.old.others }
    {
        match &change.bytes {
            Some(bytes) => {
                let lent = bytes.clone()?;
                let _put = self.put_change(change.index, change.number, lent)?;
                return Ok(());
            }
            None => {
                let _lost = self.lose_change(change.index, change.number)?;
                return Ok(());
            }
        }
    }

    /// Does the next batch of what others do. Refused where there was no memory for it; some of it is done then.
    fn others_come(&mut self) -> Result<(), AllocError>
        ensures done { OnOk result (changes_made self.new.changes.items
            ≡ changes_made self.old.changes.items ++ next_batch (script_of self.old.others.items)) }
        ensures told { TellsOn ⟦<SharedMemory as Store>⟧.honest ⟦<SharedMemory as Store>⟧.history
            self.old self.new }
        ensures others { script_of self.new.others.items
            ≡ later_batches (script_of self.old.others.items) }
    {
        let Some(batch) = self.others.pop_front() else {
            return Ok(());
        };
        for change in &batch {
            self.change(change)?;
        }
        Ok(())
    }
}

impl Store for SharedMemory {
    ghost honest = { λ store. false };

    ghost shares = { λ store. map.empty };

    ghost room = { λ store. 2 ^ 64 - 1 };

    ghost held = { λ store. 0 };

    ghost failures = { λ store. 0 };

    ghost history = { λ store. Some (stood_along empty (changes_made store.changes.items)) };

    fn has(&mut self, index: [u8; 16], number: u16) -> Result<bool, AllocError> {
        self.others_come()?;
        Ok(self.map.get(&index, number).is_some())
    }

    fn numbers(&mut self, index: [u8; 16]) -> Result<Vec<u16>, AllocError> {
        self.others_come()?;
        self.map.numbers(&index)
    }

    fn get(&mut self, index: [u8; 16], number: u16) -> Result<Option<RcSlice<u8>>, AllocError> {
        self.others_come()?;
        match self.map.get(&index, number) {
            None => Ok(None),
            Some(bytes) => Ok(Some(bytes.clone()?)),
        }
    }

    fn nth(&mut self, at: u64) -> Result<Option<Share>, AllocError> {
        self.others_come()?;
        let Some(name) = self.map.nth(at) else {
            return Ok(None);
        };
        let index = name.0;
        let number = name.1;
        match self.map.get(&index, number) {
            None => Ok(None),
            Some(bytes) => {
                let bytes = bytes.clone()?;
                Ok(Some(Share {
                    index,
                    number,
                    bytes,
                }))
            }
        }
    }

    fn put(
        &mut self,
        index: [u8; 16],
        number: u16,
        bytes: RcSlice<u8>,
    ) -> Result<bool, StoreFault> {
        self.others_come()?;
        let put = self.put_change(index, number, bytes)?;
        Ok(put)
    }

    fn lose(&mut self, index: [u8; 16], number: u16) -> Result<bool, StoreFault> {
        self.others_come()?;
        let lost = self.lose_change(index, number)?;
        Ok(lost)
    }

    /// Changes nothing: a share that others read isn't changed.
    fn toggle(&mut self, index: [u8; 16], number: u16, place: u64) -> Result<bool, StoreFault> {
        self.others_come()?;
        Ok(false)
    }

    fn room(&self) -> u64 {
        u64::MAX
    }

    fn held(&self) -> u64 {
        0
    }

    fn failures(&self) -> u64 {
        0
    }

    ghost held_is = { λ store honest. absurd (cc) };

    ghost none_empty = { λ store honest. absurd (cc) };

    ghost fits = { λ store honest. absurd (cc) };
}
