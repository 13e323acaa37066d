//! A shelf that fails at a call, or from a call on.
ghost use Rattle.std.specs.Prelude.{◌≡◌, ◌+◌, ◌-◌, ◌^◌, ◌==◌, ◌&&◌, not, if◌then◌else◌};
ghost use Rattle.share_store.specs.Shares.{Shares};
ghost use Rattle.share_shelf.specs.Kept.{told_of, narrowed, kept_is};
ghost use Rattle.share_shelf.specs.CrashStates.{Keeps};

use crate::{MemShelf, Shelf, ShelfFault};
use std::alloc::Global;
use std::rc::RcSlice;

/// A shelf in memory whose at-th call fails, counted from 1 among all calls, and each later one too where it fails for
/// good. A change that fails may be done all the same. It is honest: what it keeps is what the shelf inside keeps.
#[derive(Drop)]
pub struct FailShelf {
    inner: MemShelf,
    left: u64,
    for_good: bool,
    is_done: bool,
    failures: u64,
}

impl FailShelf {
    /// A shelf that keeps its shares in `inner`. Its call number `at` fails, from 1, and none for 0; so does each later
    /// one where `for_good`. A change that fails is done all the same where `is_done`, and else not begun. Once its
    /// count of failures is 2^64 - 1 it fails no more.
    pub fn new(inner: MemShelf, at: u64, for_good: bool, is_done: bool) -> Self
        ensures honest { ⟦<FailShelf as Shelf>⟧.honest result ≡ ⟦<MemShelf as Shelf>⟧.honest inner }
        ensures keeps { (m : Shares) →
            Keeps ⟦<MemShelf as Shelf>⟧.moment ⟦<MemShelf as Shelf>⟧.left_since inner m →
            Keeps ⟦<FailShelf as Shelf>⟧.moment ⟦<FailShelf as Shelf>⟧.left_since result m }
        ensures history { ⟦<FailShelf as Shelf>⟧.history result
            ≡ ⟦<MemShelf as Shelf>⟧.history inner }
        ensures failures { ⟦<FailShelf as Shelf>⟧.failures result ≡ 0 }
    {
        FailShelf {
            inner,
            left: at,
            for_good,
            is_done,
            failures: 0,
        }
    }

    /// The shelf inside.
    pub fn inner(&self) -> &MemShelf
        ensures inner { result.now ≡ self.now.inner }
    {
        &self.inner
    }

    /// The shelf inside, which doesn't fail.
    pub fn into_inner(self) -> MemShelf
        ensures honest { ⟦<MemShelf as Shelf>⟧.honest result ≡ ⟦<FailShelf as Shelf>⟧.honest self }
        ensures keeps { (m : Shares) →
            Keeps ⟦<FailShelf as Shelf>⟧.moment ⟦<FailShelf as Shelf>⟧.left_since self m →
            Keeps ⟦<MemShelf as Shelf>⟧.moment ⟦<MemShelf as Shelf>⟧.left_since result m }
        ensures history { ⟦<MemShelf as Shelf>⟧.history result
            ≡ ⟦<FailShelf as Shelf>⟧.history self }
    {
        self.inner
    }

    /// Counts a call, and says whether it fails: where `left` is 1, and where it is 0 none does.
    fn fails(&mut self) -> bool
        ensures inner { self.new.inner ≡ self.old.inner }
        ensures counts { self.new.failures
            ≡ (if result then self.old.failures + 1 else self.old.failures) }
        ensures fails { result ≡ self.old.left == 1 && not (self.old.failures == 2 ^ 64 - 1) }
        ensures for_good { self.new.for_good ≡ self.old.for_good }
        ensures is_done { self.new.is_done ≡ self.old.is_done }
        ensures left { self.new.left ≡ (if self.old.failures == 2 ^ 64 - 1 then self.old.left
            else if self.old.left == 1 && self.old.for_good then 1 else self.old.left - 1) }
    {
        if self.left == 0 || self.failures == u64::MAX {
            return false;
        }
        if self.left > 1 {
            self.left -= 1;
            return false;
        }
        if !self.for_good {
            self.left = 0;
        }
        self.failures += 1;
        true
    }
}

impl Shelf for FailShelf {
    ghost honest = { λ shelf. ⟦<MemShelf as Shelf>⟧.honest shelf.inner };

    ghost moment = { λ shelf. ⟦<MemShelf as Shelf>⟧.moment shelf.inner };

    ghost left_since = { λ shelf t c. ⟦<MemShelf as Shelf>⟧.left_since shelf.inner t c };

    ghost history = { λ shelf. ⟦<MemShelf as Shelf>⟧.history shelf.inner };

    ghost shares = { λ shelf. ⟦<MemShelf as Shelf>⟧.shares shelf.inner };

    ghost failures = { λ shelf. shelf.failures };

    fn list(&mut self, alloc: Global) -> Result<Vec<([u8; 16], u16)>, ShelfFault> {
        if self.fails() {
            return Err(ShelfFault::Failed);
        }
        self.inner.list(alloc)
    }

    fn read(&mut self, index: [u8; 16], number: u16) -> Result<Option<RcSlice<u8>>, ShelfFault> {
        if self.fails() {
            return Err(ShelfFault::Failed);
        }
        self.inner.read(index, number)
    }

    fn put(&mut self, index: [u8; 16], number: u16, bytes: RcSlice<u8>) -> Result<(), ShelfFault> {
        if !self.fails() {
            return self.inner.put(index, number, bytes);
        }
        if !self.is_done {
            return Err(ShelfFault::Failed);
        }
        let _done = self.inner.put(index, number, bytes);
        Err(ShelfFault::Failed)
    }

    fn remove(&mut self, index: [u8; 16], number: u16) -> Result<(), ShelfFault> {
        if !self.fails() {
            return self.inner.remove(index, number);
        }
        if !self.is_done {
            return Err(ShelfFault::Failed);
        }
        let _done = self.inner.remove(index, number);
        Err(ShelfFault::Failed)
    }

    ghost narrows = { λ shelf t u c le left. narrowed
        (told_of shelf.inner.changes.items) t u c le left };

    ghost keeps = { λ shelf m honest keeps. kept_is (told_of shelf.inner.changes.items) m keeps };
}
