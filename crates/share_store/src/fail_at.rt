//! A store that fails at a call, or from a call on.
ghost use Rattle.std.specs.Prelude.{◌≡◌, ◌<◌, ◌≤◌, ◌+◌, ◌↔◌, None, [], false, not, length, IfOk, IsOkAnd, OnOk, OnErr, IsErrOf, slice_get};
ghost use Rattle.std.specs.Option.{option_map};
ghost use Rattle.std.specs.FinMap as map;
ghost use Rattle.std.specs.Rc.{rc_slice_items};
ghost use Rattle.share_store.specs.Looked.{Looked};
ghost use Rattle.share_store.specs.Numbers.{numbers_for};
ghost use Rattle.share_store.specs.Put.{put_once};
ghost use Rattle.share_store.specs.Stored.{entry_of};
ghost use Rattle.share_store.specs.Toggle.{has_byte, with_toggle};
ghost use Rattle.share_store.specs.MapLaws.{held_fits};
ghost use Rattle.share_store.specs.Schedule.{failing_call, fails_for_good, fails_next, failed_calls, IsCalledOnce};

use crate::{MemStore, Share, Store, StoreFault};
use std::alloc::{AllocError, Global};
use std::rc::RcSlice;

/// A store in memory whose at-th call fails, counted from 1 over all calls but `room`, `held` and `failures`, and each later
/// one too where it fails for good. It is honest: what it keeps is what the store inside keeps.
#[derive(Drop)]
pub struct FailAt {
    alloc: Global,
    inner: MemStore,
    left: u64,
    for_good: bool,
    failures: u64,
}

impl FailAt {
    /// A store that keeps its shares in `inner`. Its call number `at` fails, from 1, and none for 0; so does each later
    /// one where `for_good`. Once its count of failures is 2^64 - 1 it fails no more. Answers that hold nothing take
    /// memory from `alloc`.
    pub fn new(alloc: Global, inner: MemStore, at: u64, for_good: bool) -> Self
        ensures honest { ⟦<FailAt as Store>⟧.honest result ≡ ⟦<MemStore as Store>⟧.honest inner }
        ensures shares { ⟦<FailAt as Store>⟧.shares result ≡ ⟦<MemStore as Store>⟧.shares inner }
        ensures room { ⟦<FailAt as Store>⟧.room result ≡ ⟦<MemStore as Store>⟧.room inner }
        ensures held { ⟦<FailAt as Store>⟧.held result ≡ ⟦<MemStore as Store>⟧.held inner }
        ensures failures { ⟦<FailAt as Store>⟧.failures result ≡ 0 }
        ensures scheduled { (failing_call result ≡ at) × (fails_for_good result ≡ for_good) }
    {
        FailAt {
            alloc,
            inner,
            left: at,
            for_good,
            failures: 0,
        }
    }

    /// Counts a call, and says whether it fails: where `left` is 1, and where it is 0 none does.
    fn fails(&mut self) -> bool
        ensures inner { self.new.inner ≡ self.old.inner }
        ensures fails { result ≡ fails_next self.old }
        ensures called { IsCalledOnce self.old self.new }
    {
        if self.left == 0 || self.failures == u64::MAX {
            return false;
        }
        if self.left > 1 {
            self.left -= 1;
            return false;
        }
        if !self.for_good {
            self.left = 0;
        }
        self.failures += 1;
        true
    }
}

impl Store for FailAt {
    ghost honest = { λ store. ⟦<MemStore as Store>⟧.honest store.inner };

    ghost shares = { λ store. ⟦<MemStore as Store>⟧.shares store.inner };

    ghost room = { λ store. ⟦<MemStore as Store>⟧.room store.inner };

    ghost held = { λ store. ⟦<MemStore as Store>⟧.held store.inner };

    ghost failures = { λ store. store.failures };

    fn has(&mut self, index: [u8; 16], number: u16) -> Result<bool, AllocError>
        ensures looked { Looked ⟦<FailAt as Store>⟧.honest ⟦<FailAt as Store>⟧.shares
            ⟦<FailAt as Store>⟧.room ⟦<FailAt as Store>⟧.failures self.old self.new }
        ensures failed { failed_calls self.old < failed_calls self.new → result ≡ Ok false }
        ensures found { failed_calls self.new ≡ failed_calls self.old →
            IfOk result (λ found. found
            ≡ map.contains_key (⟦<FailAt as Store>⟧.shares self.old) (index, number)) }
        ensures called { IsCalledOnce self.old self.new }
    {
        if self.fails() {
            return Ok(false);
        }
        self.inner.has(index, number)
    }

    fn numbers(&mut self, index: [u8; 16]) -> Result<Vec<u16>, AllocError>
        ensures looked { Looked ⟦<FailAt as Store>⟧.honest ⟦<FailAt as Store>⟧.shares
            ⟦<FailAt as Store>⟧.room ⟦<FailAt as Store>⟧.failures self.old self.new }
        ensures failed { failed_calls self.old < failed_calls self.new →
            IsOkAnd result (λ numbers. numbers.items ≡ []) }
        ensures found { failed_calls self.new ≡ failed_calls self.old →
            IfOk result (λ numbers. numbers.items
            ≡ numbers_for (⟦<FailAt as Store>⟧.shares self.old) index) }
        ensures called { IsCalledOnce self.old self.new }
    {
        if self.fails() {
            return Ok(Vec::new(self.alloc));
        }
        self.inner.numbers(index)
    }

    fn get(&mut self, index: [u8; 16], number: u16) -> Result<Option<RcSlice<u8>>, AllocError>
        ensures looked { Looked ⟦<FailAt as Store>⟧.honest ⟦<FailAt as Store>⟧.shares
            ⟦<FailAt as Store>⟧.room ⟦<FailAt as Store>⟧.failures self.old self.new }
        ensures failed { failed_calls self.old < failed_calls self.new → result ≡ Ok None }
        ensures found { failed_calls self.new ≡ failed_calls self.old →
            IfOk result (λ bytes. option_map rc_slice_items bytes
            ≡ map.get (⟦<FailAt as Store>⟧.shares self.old) (index, number)) }
        ensures called { IsCalledOnce self.old self.new }
    {
        if self.fails() {
            return Ok(None);
        }
        self.inner.get(index, number)
    }

    fn nth(&mut self, at: u64) -> Result<Option<Share>, AllocError>
        ensures looked { Looked ⟦<FailAt as Store>⟧.honest ⟦<FailAt as Store>⟧.shares
            ⟦<FailAt as Store>⟧.room ⟦<FailAt as Store>⟧.failures self.old self.new }
        ensures failed { failed_calls self.old < failed_calls self.new → result ≡ Ok None }
        ensures found { failed_calls self.new ≡ failed_calls self.old →
            IfOk result (λ share. option_map entry_of share
            ≡ slice_get (map.entries (⟦<FailAt as Store>⟧.shares self.old)) at) }
        ensures called { IsCalledOnce self.old self.new }
    {
        if self.fails() {
            return Ok(None);
        }
        self.inner.nth(at)
    }

    fn put(&mut self, index: [u8; 16], number: u16, bytes: RcSlice<u8>) -> Result<bool, StoreFault>
        requires { 0 < length (rc_slice_items bytes) }
        ensures rises { failed_calls self.old ≤ failed_calls self.new }
        ensures down { IsErrOf result StoreFault.Down ↔ (failed_calls self.old < failed_calls self.new) }
        ensures full { IsErrOf result StoreFault.Full →
            ⟦<FailAt as Store>⟧.room self.old < length (rc_slice_items bytes) }
        ensures full_room { IsErrOf result StoreFault.Full →
            ⟦<FailAt as Store>⟧.room self.new ≡ ⟦<FailAt as Store>⟧.room self.old }
        ensures full_only { IsErrOf result StoreFault.Full →
            map.get (⟦<FailAt as Store>⟧.shares self.old) (index, number) ≡ None }
        ensures put { IfOk result (λ put. put
            ≡ not (map.contains_key (⟦<FailAt as Store>⟧.shares self.old) (index, number))) }
        ensures shares { OnOk result (⟦<FailAt as Store>⟧.shares self.new
            ≡ put_once (⟦<FailAt as Store>⟧.shares self.old) (index, number) (rc_slice_items bytes)) }
        ensures err { OnErr result (⟦<FailAt as Store>⟧.shares self.new
            ≡ ⟦<FailAt as Store>⟧.shares self.old) }
        ensures room { ⟦<FailAt as Store>⟧.room self.new + ⟦<FailAt as Store>⟧.held self.new
            ≡ ⟦<FailAt as Store>⟧.room self.old + ⟦<FailAt as Store>⟧.held self.old }
        ensures called { IsCalledOnce self.old self.new }
    {
        if self.fails() {
            return Err(StoreFault::Down);
        }
        self.inner.put(index, number, bytes)
    }

    fn lose(&mut self, index: [u8; 16], number: u16) -> Result<bool, StoreFault>
        ensures rises { failed_calls self.old ≤ failed_calls self.new }
        ensures down { IsErrOf result StoreFault.Down ↔ (failed_calls self.old < failed_calls self.new) }
        ensures not_full { IsErrOf result StoreFault.Full → ⊥ }
        ensures lost { IfOk result (λ lost. lost
            ≡ map.contains_key (⟦<FailAt as Store>⟧.shares self.old) (index, number)) }
        ensures shares { OnOk result (⟦<FailAt as Store>⟧.shares self.new
            ≡ map.remove (⟦<FailAt as Store>⟧.shares self.old) (index, number)) }
        ensures err { OnErr result (⟦<FailAt as Store>⟧.shares self.new
            ≡ ⟦<FailAt as Store>⟧.shares self.old) }
        ensures room { ⟦<FailAt as Store>⟧.room self.new + ⟦<FailAt as Store>⟧.held self.new
            ≡ ⟦<FailAt as Store>⟧.room self.old + ⟦<FailAt as Store>⟧.held self.old }
        ensures called { IsCalledOnce self.old self.new }
    {
        if self.fails() {
            return Err(StoreFault::Down);
        }
        self.inner.lose(index, number)
    }

    fn toggle(&mut self, index: [u8; 16], number: u16, place: u64) -> Result<bool, StoreFault>
        ensures rises { failed_calls self.old ≤ failed_calls self.new }
        ensures down { IsErrOf result StoreFault.Down ↔ (failed_calls self.old < failed_calls self.new) }
        ensures not_full { IsErrOf result StoreFault.Full → ⊥ }
        ensures toggled { IfOk result (λ toggled. toggled
            ≡ has_byte (⟦<FailAt as Store>⟧.shares self.old) (index, number) place) }
        ensures shares { OnOk result (⟦<FailAt as Store>⟧.shares self.new
            ≡ with_toggle (⟦<FailAt as Store>⟧.shares self.old) (index, number) place) }
        ensures err { OnErr result (⟦<FailAt as Store>⟧.shares self.new
            ≡ ⟦<FailAt as Store>⟧.shares self.old) }
        ensures room { ⟦<FailAt as Store>⟧.room self.new + ⟦<FailAt as Store>⟧.held self.new
            ≡ ⟦<FailAt as Store>⟧.room self.old + ⟦<FailAt as Store>⟧.held self.old }
        ensures called { IsCalledOnce self.old self.new }
    {
        if self.fails() {
            return Err(StoreFault::Down);
        }
        self.inner.toggle(index, number, place)
    }

    fn room(&self) -> u64 {
        self.inner.room()
    }

    fn held(&self) -> u64 {
        self.inner.held()
    }

    fn failures(&self) -> u64 {
        self.failures
    }

    ghost held_is = { λ store honest. store.inner.summed };

    ghost none_empty = { λ store honest. store.inner.some };

    ghost fits = { λ store honest. held_fits store.inner.room store.inner.held store.inner.fits };
}
