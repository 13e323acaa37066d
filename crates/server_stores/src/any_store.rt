//! A store of any of the kinds that a server may have.
ghost use Rattle.server_stores.specs.declared.any_store.AnyStore.TheVariants.{InMemory, InFolder, OnDisk, OnRedis, InSharedFolder, OutOfReach};

use share_store::{Share, Store, StoreFault};
use std::alloc::AllocError;
use std::rc::RcSlice;

/// A store of any kind, so that one grid may have servers of all of them. It is what the store inside is: each call is
/// passed on.
pub enum AnyStore<M: Store, F: Store, D: Store, N: Store, S: Store, A: Store> {
    /// In memory alone.
    InMemory(M),
    /// In memory and in a folder.
    InFolder(F),
    /// On a disk alone.
    OnDisk(D),
    /// On a Redis server.
    OnRedis(N),
    /// In a folder that others serve too.
    InSharedFolder(S),
    /// Out of reach.
    OutOfReach(A),
}

// Its own, so that what owns one calls it: a derived drop is spelled out wherever a value may be dropped.
impl<
    M: Store + Drop,
    F: Store + Drop,
    D: Store + Drop,
    N: Store + Drop,
    S: Store + Drop,
    A: Store + Drop,
> Drop for AnyStore<M, F, D, N, S, A> {
    fn drop(self) {
        match self {
            AnyStore::InMemory(_) => {}
            AnyStore::InFolder(_) => {}
            AnyStore::OnDisk(_) => {}
            AnyStore::OnRedis(_) => {}
            AnyStore::InSharedFolder(_) => {}
            AnyStore::OutOfReach(_) => {}
        }
    }
}

impl<M: Store, F: Store, D: Store, N: Store, S: Store, A: Store> Store
    for AnyStore<M, F, D, N, S, A> {
    ghost honest = { elim [
      | InMemory store ↦ M.honest store
      | InFolder store ↦ F.honest store
      | OnDisk store ↦ D.honest store
      | OnRedis store ↦ N.honest store
      | InSharedFolder store ↦ S.honest store
      | OutOfReach store ↦ A.honest store
    ] };

    ghost shares = { elim [
      | InMemory store ↦ M.shares store
      | InFolder store ↦ F.shares store
      | OnDisk store ↦ D.shares store
      | OnRedis store ↦ N.shares store
      | InSharedFolder store ↦ S.shares store
      | OutOfReach store ↦ A.shares store
    ] };

    ghost room = { elim [
      | InMemory store ↦ M.room store
      | InFolder store ↦ F.room store
      | OnDisk store ↦ D.room store
      | OnRedis store ↦ N.room store
      | InSharedFolder store ↦ S.room store
      | OutOfReach store ↦ A.room store
    ] };

    ghost held = { elim [
      | InMemory store ↦ M.held store
      | InFolder store ↦ F.held store
      | OnDisk store ↦ D.held store
      | OnRedis store ↦ N.held store
      | InSharedFolder store ↦ S.held store
      | OutOfReach store ↦ A.held store
    ] };

    ghost failures = { elim [
      | InMemory store ↦ M.failures store
      | InFolder store ↦ F.failures store
      | OnDisk store ↦ D.failures store
      | OnRedis store ↦ N.failures store
      | InSharedFolder store ↦ S.failures store
      | OutOfReach store ↦ A.failures store
    ] };

    ghost history = { elim [
      | InMemory store ↦ M.history store
      | InFolder store ↦ F.history store
      | OnDisk store ↦ D.history store
      | OnRedis store ↦ N.history store
      | InSharedFolder store ↦ S.history store
      | OutOfReach store ↦ A.history store
    ] };

    fn has(&mut self, index: [u8; 16], number: u16) -> Result<bool, AllocError> {
        match self {
            AnyStore::InMemory(store) => store.has(index, number),
            AnyStore::InFolder(store) => store.has(index, number),
            AnyStore::OnDisk(store) => store.has(index, number),
            AnyStore::OnRedis(store) => store.has(index, number),
            AnyStore::InSharedFolder(store) => store.has(index, number),
            AnyStore::OutOfReach(store) => store.has(index, number),
        }
    }

    fn numbers(&mut self, index: [u8; 16]) -> Result<Vec<u16>, AllocError> {
        match self {
            AnyStore::InMemory(store) => store.numbers(index),
            AnyStore::InFolder(store) => store.numbers(index),
            AnyStore::OnDisk(store) => store.numbers(index),
            AnyStore::OnRedis(store) => store.numbers(index),
            AnyStore::InSharedFolder(store) => store.numbers(index),
            AnyStore::OutOfReach(store) => store.numbers(index),
        }
    }

    fn get(&mut self, index: [u8; 16], number: u16) -> Result<Option<RcSlice<u8>>, AllocError> {
        match self {
            AnyStore::InMemory(store) => store.get(index, number),
            AnyStore::InFolder(store) => store.get(index, number),
            AnyStore::OnDisk(store) => store.get(index, number),
            AnyStore::OnRedis(store) => store.get(index, number),
            AnyStore::InSharedFolder(store) => store.get(index, number),
            AnyStore::OutOfReach(store) => store.get(index, number),
        }
    }

    fn gather(
        &mut self,
        index: [u8; 16],
        limit: Option<u16>,
    ) -> Result<Vec<(u16, RcSlice<u8>)>, AllocError> {
        match self {
            AnyStore::InMemory(store) => store.gather(index, limit),
            AnyStore::InFolder(store) => store.gather(index, limit),
            AnyStore::OnDisk(store) => store.gather(index, limit),
            AnyStore::OnRedis(store) => store.gather(index, limit),
            AnyStore::InSharedFolder(store) => store.gather(index, limit),
            AnyStore::OutOfReach(store) => store.gather(index, limit),
        }
    }

    fn peek(&self, index: [u8; 16], number: u16) -> Option<RcSlice<u8>> {
        match self {
            AnyStore::InMemory(store) => store.peek(index, number),
            AnyStore::InFolder(store) => store.peek(index, number),
            AnyStore::OnDisk(store) => store.peek(index, number),
            AnyStore::OnRedis(store) => store.peek(index, number),
            AnyStore::InSharedFolder(store) => store.peek(index, number),
            AnyStore::OutOfReach(store) => store.peek(index, number),
        }
    }

    fn prefetch(&mut self, index: [u8; 16], limit: Option<u16>) {
        match self {
            AnyStore::InMemory(store) => store.prefetch(index, limit),
            AnyStore::InFolder(store) => store.prefetch(index, limit),
            AnyStore::OnDisk(store) => store.prefetch(index, limit),
            AnyStore::OnRedis(store) => store.prefetch(index, limit),
            AnyStore::InSharedFolder(store) => store.prefetch(index, limit),
            AnyStore::OutOfReach(store) => store.prefetch(index, limit),
        }
    }

    fn nth(&mut self, at: u64) -> Result<Option<Share>, AllocError> {
        match self {
            AnyStore::InMemory(store) => store.nth(at),
            AnyStore::InFolder(store) => store.nth(at),
            AnyStore::OnDisk(store) => store.nth(at),
            AnyStore::OnRedis(store) => store.nth(at),
            AnyStore::InSharedFolder(store) => store.nth(at),
            AnyStore::OutOfReach(store) => store.nth(at),
        }
    }

    fn put(
        &mut self,
        index: [u8; 16],
        number: u16,
        bytes: RcSlice<u8>,
    ) -> Result<bool, StoreFault> {
        match self {
            AnyStore::InMemory(store) => store.put(index, number, bytes),
            AnyStore::InFolder(store) => store.put(index, number, bytes),
            AnyStore::OnDisk(store) => store.put(index, number, bytes),
            AnyStore::OnRedis(store) => store.put(index, number, bytes),
            AnyStore::InSharedFolder(store) => store.put(index, number, bytes),
            AnyStore::OutOfReach(store) => store.put(index, number, bytes),
        }
    }

    fn lose(&mut self, index: [u8; 16], number: u16) -> Result<bool, StoreFault> {
        match self {
            AnyStore::InMemory(store) => store.lose(index, number),
            AnyStore::InFolder(store) => store.lose(index, number),
            AnyStore::OnDisk(store) => store.lose(index, number),
            AnyStore::OnRedis(store) => store.lose(index, number),
            AnyStore::InSharedFolder(store) => store.lose(index, number),
            AnyStore::OutOfReach(store) => store.lose(index, number),
        }
    }

    fn toggle(&mut self, index: [u8; 16], number: u16, place: u64) -> Result<bool, StoreFault> {
        match self {
            AnyStore::InMemory(store) => store.toggle(index, number, place),
            AnyStore::InFolder(store) => store.toggle(index, number, place),
            AnyStore::OnDisk(store) => store.toggle(index, number, place),
            AnyStore::OnRedis(store) => store.toggle(index, number, place),
            AnyStore::InSharedFolder(store) => store.toggle(index, number, place),
            AnyStore::OutOfReach(store) => store.toggle(index, number, place),
        }
    }

    fn room(&self) -> u64 {
        match self {
            AnyStore::InMemory(store) => store.room(),
            AnyStore::InFolder(store) => store.room(),
            AnyStore::OnDisk(store) => store.room(),
            AnyStore::OnRedis(store) => store.room(),
            AnyStore::InSharedFolder(store) => store.room(),
            AnyStore::OutOfReach(store) => store.room(),
        }
    }

    fn held(&self) -> u64 {
        match self {
            AnyStore::InMemory(store) => store.held(),
            AnyStore::InFolder(store) => store.held(),
            AnyStore::OnDisk(store) => store.held(),
            AnyStore::OnRedis(store) => store.held(),
            AnyStore::InSharedFolder(store) => store.held(),
            AnyStore::OutOfReach(store) => store.held(),
        }
    }

    fn failures(&self) -> u64 {
        match self {
            AnyStore::InMemory(store) => store.failures(),
            AnyStore::InFolder(store) => store.failures(),
            AnyStore::OnDisk(store) => store.failures(),
            AnyStore::OnRedis(store) => store.failures(),
            AnyStore::InSharedFolder(store) => store.failures(),
            AnyStore::OutOfReach(store) => store.failures(),
        }
    }

    ghost held_is = { elim [
      | InMemory store ↦ M.held_is store
      | InFolder store ↦ F.held_is store
      | OnDisk store ↦ D.held_is store
      | OnRedis store ↦ N.held_is store
      | InSharedFolder store ↦ S.held_is store
      | OutOfReach store ↦ A.held_is store
    ] };

    ghost fits = { elim [
      | InMemory store ↦ M.fits store
      | InFolder store ↦ F.fits store
      | OnDisk store ↦ D.fits store
      | OnRedis store ↦ N.fits store
      | InSharedFolder store ↦ S.fits store
      | OutOfReach store ↦ A.fits store
    ] };

    ghost none_empty = { elim [
      | InMemory store ↦ M.none_empty store
      | InFolder store ↦ F.none_empty store
      | OnDisk store ↦ D.none_empty store
      | OnRedis store ↦ N.none_empty store
      | InSharedFolder store ↦ S.none_empty store
      | OutOfReach store ↦ A.none_empty store
    ] };
}
