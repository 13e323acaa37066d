//! Stores opened over shelves that hold shares.
ghost use Rattle.std.specs.Prelude.{◌≡◌, ◌<◌, ◌+◌, ℕ, [], List, false, Some, IsTrue, IfOk, OnOk, IsErrOf};
ghost use Rattle.std.specs.FinMap as map;
ghost use Rattle.share_store.specs.Put.{put_once};
ghost use Rattle.share_store.specs.Shares.{Shares, ShareKey, bytes_of};
ghost use Rattle.share_shelf.specs.CrashStates.{Keeps, IsQuiet};
ghost use Rattle.kept_store.specs.Filled.{IsShareTooLong};
ghost use Rattle.share_shelf.specs.declared.open_fault.OpenFault.TheVariants.{Store as StoreRefused};

use crate::KeptStore;
use share_shelf::{OpenFault, Shelf};
use share_store::laws::size_laws;
use share_store::{MemStore, Store, StoreFault};
use std::alloc::Global;

/// Takes a share into memory from a shelf that lists it. What the shelf doesn't give is left out.
fn take_in<H: Shelf>(
    shelf: &mut H,
    memory: &mut MemStore,
    index: [u8; 16],
    number: u16,
) -> Result<(), OpenFault>
    ensures honest { H.honest shelf.new ≡ H.honest shelf.old }
    ensures quiet { IsQuiet H.moment H.left_since shelf.old shelf.new }
    ensures same_history { IsTrue (H.honest shelf.old) →
        H.history shelf.new ≡ H.history shelf.old }
    ensures room { ⟦<MemStore as Store>⟧.room memory.new + ⟦<MemStore as Store>⟧.held memory.new
        ≡ ⟦<MemStore as Store>⟧.room memory.old + ⟦<MemStore as Store>⟧.held memory.old }
    ensures taken { IsTrue (H.honest shelf.old) →
        (m : Shares) → Keeps H.moment H.left_since shelf.old m →
        (bytes : List ℕ) → map.get m (index, number) ≡ Some bytes →
        OnOk result (⟦<MemStore as Store>⟧.shares memory.new
        ≡ put_once (⟦<MemStore as Store>⟧.shares memory.old) (index, number) bytes) }
    ensures not_down { IsErrOf result (StoreRefused StoreFault.Down) → ⊥ }
    ensures empty { IsErrOf result OpenFault.Empty → IsTrue (H.honest shelf.old) →
        (m : Shares) → Keeps H.moment H.left_since shelf.old m →
        map.get m (index, number) ≡ Some [] }
    ensures full { IsErrOf result (StoreRefused StoreFault.Full) → IsTrue (H.honest shelf.old) →
        (m : Shares) → Keeps H.moment H.left_since shelf.old m →
        (bytes : List ℕ) → map.get m (index, number) ≡ Some bytes →
        IsShareTooLong (⟦<MemStore as Store>⟧.shares memory.old) (⟦<MemStore as Store>⟧.room memory.old)
        (index, number) bytes }
{
    let Some(bytes) = shelf.read(index, number)? else {
        return Ok(());
    };
    if bytes.is_empty() {
        return Err(OpenFault::Empty);
    }
    let _put = memory.put(index, number, bytes)?;
    Ok(())
}

impl<H: Shelf + Drop> KeptStore<H> {
    /// A store with the shares of a shelf, which takes `room` bytes, these among them. The shelf is only read. What it
    /// lists and doesn't give, as an honest one never does, is left out.
    ///
    /// Refused with `Shelf` where the shelf refused to be read, with `Store(Full)` where its shares are more than
    /// `room` bytes, with `Store(NoMemory)` where there was no memory for them, and with `Empty` where a share has no
    /// bytes.
    pub fn open(alloc: Global, shelf: H, room: u64) -> Result<KeptStore<H>, OpenFault>
        // After a restart, what is read is what a crash left.
        requires { IsTrue (H.honest shelf) → (m : Shares) × Keeps H.moment H.left_since shelf m }
        ensures up { IfOk result (λ store. store.down ≡ false) }
        ensures none_failed { IfOk result (λ store. store.failures ≡ 0) }
        ensures room { IfOk result (λ store. ⟦<MemStore as Store>⟧.room store.memory
            + ⟦<MemStore as Store>⟧.held store.memory ≡ room) }
        ensures quiet { IfOk result (λ store. IsQuiet H.moment H.left_since shelf store.shelf) }
        ensures same_honest { IfOk result (λ store. H.honest store.shelf ≡ H.honest shelf) }
        ensures same_history { IsTrue (H.honest shelf) →
            IfOk result (λ store. H.history store.shelf ≡ H.history shelf) }
        ensures shares { IsTrue (H.honest shelf) →
            (m : Shares) → Keeps H.moment H.left_since shelf m →
            IfOk result (λ store. ⟦<MemStore as Store>⟧.shares store.memory ≡ m) }
        ensures not_down { IsErrOf result (StoreRefused StoreFault.Down) → ⊥ }
        ensures empty { IsErrOf result OpenFault.Empty → IsTrue (H.honest shelf) →
            (m : Shares) → Keeps H.moment H.left_since shelf m →
            (key : ShareKey) × (map.get m key ≡ Some []) }
        ensures full { IsErrOf result (StoreRefused StoreFault.Full) → IsTrue (H.honest shelf) →
            (m : Shares) → Keeps H.moment H.left_since shelf m → room < bytes_of m }
    {
        size_laws();
        let mut shelf = shelf;
        let mut memory = MemStore::new(alloc, room);
        let names = shelf.list(alloc)?;
        for name in &names {
            take_in(&mut shelf, &mut memory, name.0, name.1)?;
        }
        Ok(KeptStore {
            alloc,
            memory,
            shelf,
            down: false,
            failures: 0,
        })
    }
}
