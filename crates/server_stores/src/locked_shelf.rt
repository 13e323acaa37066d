//! A shelf that this process alone uses.
ghost use Rattle.std.specs.Prelude.{◌≡◌};

use share_shelf::{Shelf, ShelfFault};
use std::alloc::Global;
use std::rc::RcSlice;

/// A shelf, and what keeps it for this process alone. It is what the shelf inside is: each call is passed on.
pub struct LockedShelf<F: Shelf + Drop, K: Drop> {
    shelf: F,
    /// Held for as long as the shelf is there.
    lock: K,
}

// Its own, so that what owns one calls it: a derived drop is spelled out wherever a value may be dropped.
impl<F: Shelf + Drop, K: Drop> Drop for LockedShelf<F, K> {
    fn drop(self) {
        let LockedShelf { shelf: _, lock: _ } = self;
    }
}

impl<F: Shelf + Drop, K: Drop> LockedShelf<F, K> {
    /// This shelf, kept by this lock.
    pub fn new(lock: K, shelf: F) -> Self
        ensures shelf { result.shelf ≡ shelf }
        ensures lock { result.lock ≡ lock }
    {
        LockedShelf { shelf, lock }
    }

    /// The shelf inside.
    pub fn shelf(&self) -> &F
        ensures { result.now ≡ self.now.shelf }
    {
        &self.shelf
    }
}

impl<F: Shelf + Drop, K: Drop> Shelf for LockedShelf<F, K> {
    ghost honest = { λ locked. F.honest locked.shelf };

    ghost moment = { λ locked. F.moment locked.shelf };

    ghost left_since = { λ locked t c. F.left_since locked.shelf t c };

    ghost history = { λ locked. F.history locked.shelf };

    ghost shares = { λ locked. F.shares locked.shelf };

    ghost failures = { λ locked. F.failures locked.shelf };

    fn list(&mut self, alloc: Global) -> Result<Vec<([u8; 16], u16)>, ShelfFault> {
        self.shelf.list(alloc)
    }

    fn read(&mut self, index: [u8; 16], number: u16) -> Result<Option<RcSlice<u8>>, ShelfFault> {
        self.shelf.read(index, number)
    }

    fn put(&mut self, index: [u8; 16], number: u16, bytes: RcSlice<u8>) -> Result<(), ShelfFault> {
        self.shelf.put(index, number, bytes)
    }

    fn remove(&mut self, index: [u8; 16], number: u16) -> Result<(), ShelfFault> {
        self.shelf.remove(index, number)
    }

    ghost narrows = { λ locked t u c le left. F.narrows locked.shelf t u c le left };

    ghost keeps = { λ locked m honest keeps. F.keeps locked.shelf m honest keeps };
}
