//! A shelf in memory, which remembers what it held.
ghost use Rattle.std.specs.Prelude.{◌≡◌, ◌≤◌, ◌⊎◌, ◌↔◌, ℕ, List, ◌++◌, ◌∷◌, [], drop, Contains, IsTrue, true, Some, None, length, IfOk, OnOk, OnErr};
ghost use Rattle.std.specs.FinMap.{empty};
ghost use Rattle.std.specs.Rc.{rc_slice_items};
ghost use Rattle.share_store.specs.Shares.{Shares};
ghost use Rattle.share_store.specs.Stored.{shares_in};
ghost use Rattle.share_shelf.specs.Kept.{told_by, told_of, after_changes, stood_after, states_from, HadBeen, narrowed, kept_is};
ghost use Rattle.share_shelf.specs.CrashStates.{Keeps, shares-set};

use crate::{Shelf, ShelfFault};
use share_store::ShareMap;
use std::alloc::{AllocError, Global};
use std::rc::RcSlice;

/// A change that a shelf was told: other bytes at a place, or none.
#[derive(Drop)]
pub(crate) struct Change {
    pub(crate) index: [u8; 16],
    pub(crate) number: u16,
    pub(crate) bytes: Option<RcSlice<u8>>,
}

/// A shelf in memory. Each change is done at once, and it remembers them all: so what a crash at any moment would have
/// left can be asked. Its moment is how many changes were done. It is honest, and never fails.
#[derive(Drop)]
pub struct MemShelf {
    map: ShareMap<RcSlice<u8>>,
    changes: Vec<Change>,
    ghost told: { shares_in rc_slice_items map.indexes
        ≡ after_changes (told_of changes.items) empty } by { shares-set
            (shares_in rc_slice_items map.indexes) (after_changes (told_of changes.items) empty) },
}

impl MemShelf {
    /// An empty shelf. It takes memory from `alloc` as shares come.
    pub fn new(alloc: Global) -> Self
        ensures honest { IsTrue (⟦<MemShelf as Shelf>⟧.honest result) }
        ensures moment { ⟦<MemShelf as Shelf>⟧.moment result ≡ 0 }
        ensures keeps { Keeps ⟦<MemShelf as Shelf>⟧.moment
            ⟦<MemShelf as Shelf>⟧.left_since result empty }
        ensures none_told { told_of result.changes.items ≡ [] }
        ensures history { ⟦<MemShelf as Shelf>⟧.history result ≡ Some [] }
    {
        MemShelf {
            map: ShareMap::new(alloc),
            changes: Vec::new(alloc),
        }
    }

    /// The shelf that a crash at a moment would have left. Refused where there was no memory for it.
    pub fn left_at(&self, alloc: Global, moment: usize) -> Result<MemShelf, AllocError>
        requires { moment ≤ ⟦<MemShelf as Shelf>⟧.moment self.now }
        ensures honest { IfOk result (λ shelf. IsTrue (⟦<MemShelf as Shelf>⟧.honest shelf)) }
        ensures left { IfOk result (λ shelf.
            Keeps ⟦<MemShelf as Shelf>⟧.moment ⟦<MemShelf as Shelf>⟧.left_since shelf
            (stood_after (told_of self.now.changes.items) moment)) }
        ensures may_be_left { ⟦<MemShelf as Shelf>⟧.left_since self.now moment
            (stood_after (told_of self.now.changes.items) moment) }
    {
        let mut shelf = MemShelf::new(alloc);
        for at in 0..moment {
            shelf.tell(&self.changes[at])?;
        }
        Ok(shelf)
    }

    /// A law and no more: a crash now leaves some shares, and no others.
    pub fn settled(&self)
        ensures { (m : Shares)
            × Keeps ⟦<MemShelf as Shelf>⟧.moment ⟦<MemShelf as Shelf>⟧.left_since self.now m
            × ⟦<MemShelf as Shelf>⟧.left_since self.now (⟦<MemShelf as Shelf>⟧.moment self.now) m }
    {
        let _changes = &self.changes;
    }

    /// A law and no more: it tells as many shares of its past as changes were done, and from a moment on a crash might
    /// have left what stood then, or what it tells past that, and nothing else.
    pub fn history_is_all_that_was_left(&self)
        ensures told { (h : List Shares) × (⟦<MemShelf as Shelf>⟧.history self.now ≡ Some h)
            × (length h ≡ ⟦<MemShelf as Shelf>⟧.moment self.now)
            × ((t : ℕ) (c : Shares) → t ≤ ⟦<MemShelf as Shelf>⟧.moment self.now →
            ⟦<MemShelf as Shelf>⟧.left_since self.now t c ↔
            ((c ≡ stood_after (told_of self.now.changes.items) t) ⊎ Contains (drop t h) c)) }
    {
        let _changes = &self.changes;
    }

    /// How many changes were done.
    pub fn moment(&self) -> usize
        ensures { result ≡ ⟦<MemShelf as Shelf>⟧.moment self.now }
    {
        self.changes.len()
    }

    /// Does a change that a shelf was told, and remembers it.
    fn tell(&mut self, change: &Change) -> Result<(), AllocError>
        ensures told { OnOk result (told_of self.new.changes.items
            ≡ told_of self.old.changes.items ++ told_by change.now ∷ []) }
    {
        match &change.bytes {
            Some(bytes) => {
                let lent = bytes.clone()?;
                return self.tell_put(change.index, change.number, lent);
            }
            None => return self.tell_remove(change.index, change.number),
        }
    }

    /// Puts a share, and remembers that.
    fn tell_put(
        &mut self,
        index: [u8; 16],
        number: u16,
        bytes: RcSlice<u8>,
    ) -> Result<(), AllocError>
        ensures told { OnOk result (told_of self.new.changes.items
            ≡ told_of self.old.changes.items
            ++ ((index, number), Some (rc_slice_items bytes)) ∷ []) }
        ensures same { OnErr result (told_of self.new.changes.items
            ≡ told_of self.old.changes.items) }
    {
        let told = bytes.clone()?;
        self.changes.push(Change {
            index,
            number,
            bytes: Some(told),
        })?;
        match self.map.insert(index, number, bytes) {
            Ok(()) => Ok(()),
            Err(refused) => {
                let _undone = self.changes.pop();
                Err(refused)
            }
        }
    }

    /// Takes a share away, and remembers that.
    fn tell_remove(&mut self, index: [u8; 16], number: u16) -> Result<(), AllocError>
        ensures told { OnOk result (told_of self.new.changes.items
            ≡ told_of self.old.changes.items ++ ((index, number), None) ∷ []) }
        ensures same { OnErr result (told_of self.new.changes.items
            ≡ told_of self.old.changes.items) }
    {
        self.changes.push(Change {
            index,
            number,
            bytes: None,
        })?;
        let _bytes = self.map.remove(&index, number);
        Ok(())
    }
}

impl Shelf for MemShelf {
    ghost honest = { λ shelf. true };

    ghost moment = { λ shelf. length (told_of shelf.changes.items) };

    ghost left_since = { λ shelf t c. HadBeen (told_of shelf.changes.items) t c };

    ghost history = { λ shelf. Some (states_from empty (told_of shelf.changes.items)) };

    ghost shares = { λ shelf. after_changes (told_of shelf.changes.items) empty };

    ghost failures = { λ shelf. 0 };

    fn list(&mut self, alloc: Global) -> Result<Vec<([u8; 16], u16)>, ShelfFault> {
        let mut names = Vec::new(alloc);
        for at in 0..u64::MAX {
            match self.map.nth(at) {
                Some(name) => names.push(name)?,
                None => return Ok(names),
            }
        }
        Err(ShelfFault::NoMemory)
    }

    fn read(&mut self, index: [u8; 16], number: u16) -> Result<Option<RcSlice<u8>>, ShelfFault> {
        match self.map.get(&index, number) {
            None => Ok(None),
            Some(bytes) => Ok(Some(bytes.clone()?)),
        }
    }

    fn put(&mut self, index: [u8; 16], number: u16, bytes: RcSlice<u8>) -> Result<(), ShelfFault> {
        self.tell_put(index, number, bytes)?;
        Ok(())
    }

    fn remove(&mut self, index: [u8; 16], number: u16) -> Result<(), ShelfFault> {
        self.tell_remove(index, number)?;
        Ok(())
    }

    ghost narrows = { λ shelf t u c le left. narrowed (told_of shelf.changes.items) t u c le left };

    ghost keeps = { λ shelf m honest keeps. kept_is (told_of shelf.changes.items) m keeps };
}
