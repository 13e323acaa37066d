//! Stores opened over shelves that hold shares.
ghost use Rattle.std.specs.Prelude.{◌≡◌, ◌<◌, ◌+◌, ℕ, [], List, Some, None, IsTrue, IfOk, IfErr, IfSome, IfNone, OnOk, IsErrOf, length};
ghost use Rattle.std.specs.Option.{option_map};
ghost use Rattle.std.specs.FinMap as map;
ghost use Rattle.std.specs.Rc.{rc_slice_items};
ghost use Rattle.share_store.specs.Put.{put_once};
ghost use Rattle.share_store.specs.Shares.{Shares, ShareKey, bytes_of};
ghost use Rattle.share_store.specs.Stored.{blank};
ghost use Rattle.share_shelf.specs.CrashStates.{Keeps};
ghost use Rattle.share_shelf.specs.declared.open_fault.OpenFault.TheVariants.{Shelf as ShelfRefused, Store as StoreRefused};
ghost use Rattle.share_shelf.specs.declared.fault.ShelfFault.{ShelfFault};
ghost use Rattle.shelf_store.specs.Known.{known, IsAsRoomy};
ghost use Rattle.shelf_store.specs.Opened.{OfKept, ReadsFor, IsShelfOpened, IsOpenRefused};
ghost use Rattle.shelf_store.specs.Sizes.{sizes_of};

use crate::ShelfStore;
use crate::share_sizes::ShareSizes;
use share_shelf::{OpenFault, Shelf, ShelfFault};
use share_store::{Store, StoreFault};
use std::alloc::Global;
use std::rc::RcSlice;

/// Takes into the index what a shelf gave of a share that it lists, by its length: nothing where it gave nothing, and
/// nothing more where the share is there already.
fn take_given(
    taken: &mut ShareSizes,
    index: [u8; 16],
    number: u16,
    given: &Option<RcSlice<u8>>,
) -> Result<(), OpenFault>
    ensures room { IsAsRoomy taken.old taken.new }
    ensures nothing { IfNone given.now ((result ≡ Ok tt) × (taken.new ≡ taken.old)) }
    ensures taken { IfSome given.now (λ bytes. OnOk result (known taken.new
        ≡ put_once (known taken.old) (index, number) (blank (length (rc_slice_items bytes))))) }
    ensures shelf { (fault : ShelfFault) → IsErrOf result (ShelfRefused fault) → ⊥ }
    ensures not_down { IsErrOf result (StoreRefused StoreFault.Down) → ⊥ }
    ensures empty { IsErrOf result OpenFault.Empty → option_map rc_slice_items given.now ≡ Some [] }
    ensures full { IsErrOf result (StoreRefused StoreFault.Full) →
        (map.get (known taken.old) (index, number) ≡ None)
        × IfSome given.now (λ bytes. taken.old.room < length (rc_slice_items bytes)) }
{
    let Some(bytes) = given else {
        return Ok(());
    };
    if bytes.is_empty() {
        return Err(OpenFault::Empty);
    }
    if taken.get(&index, number).is_some() {
        return Ok(());
    }
    let size = bytes.len() as u64;
    taken.put(index, number, size)?;
    Ok(())
}

/// Takes a share of a shelf that lists it into the index, by its length. What the shelf doesn't give is left out, and
/// what it lists twice is taken once.
fn take_in<H: Shelf>(
    shelf: &mut H,
    taken: &mut ShareSizes,
    index: [u8; 16],
    number: u16,
) -> Result<(), OpenFault>
    ensures read { ReadsFor H.Shelf result shelf.old shelf.new }
    ensures room { IsAsRoomy taken.old taken.new }
    ensures taken { OfKept H.Shelf shelf.old (λ m. (bytes : List ℕ) →
        map.get m (index, number) ≡ Some bytes → OnOk result (known taken.new
        ≡ put_once (known taken.old) (index, number) (blank (length bytes)))) }
    ensures empty { IsErrOf result OpenFault.Empty →
        OfKept H.Shelf shelf.old (λ m. map.get m (index, number) ≡ Some []) }
    ensures full { IsErrOf result (StoreRefused StoreFault.Full) →
        OfKept H.Shelf shelf.old (λ m. (bytes : List ℕ) → map.get m (index, number) ≡ Some bytes →
        (map.get (known taken.old) (index, number) ≡ None) × (taken.old.room < length bytes)) }
{
    let given = shelf.read(index, number)?;
    take_given(taken, index, number, &given)
}

/// The lengths of all shares of a shelf that it lists and gives, with room for so many bytes, these among them.
fn take_all<H: Shelf>(alloc: Global, shelf: &mut H, room: u64) -> Result<ShareSizes, OpenFault>
    ensures read { ReadsFor H.Shelf result shelf.old shelf.new }
    ensures room { IfOk result (λ taken. taken.room + taken.held ≡ room) }
    ensures sizes { OfKept H.Shelf shelf.old (λ m.
        IfOk result (λ taken. sizes_of (known taken) ≡ sizes_of m)) }
    ensures empty { IsErrOf result OpenFault.Empty →
        OfKept H.Shelf shelf.old (λ m. (key : ShareKey) × (map.get m key ≡ Some [])) }
    ensures full { IsErrOf result (StoreRefused StoreFault.Full) →
        OfKept H.Shelf shelf.old (λ m. room < bytes_of m) }
{
    let mut taken = ShareSizes::new(alloc, room);
    let names = shelf.list(alloc)?;
    for name in &names {
        take_in(shelf, &mut taken, name.0, name.1)?;
    }
    Ok(taken)
}

impl<H: Shelf + Drop> ShelfStore<H> {
    /// A store with the shares of a shelf, which takes `room` bytes, these among them. The shelf is only read: it is
    /// listed, and each share read once for its length and let go. What it lists and doesn't give, as an honest one never
    /// does, is left out.
    ///
    /// Refused with `Shelf` where the shelf refused to be read, with `Store(Full)` where its shares are more than
    /// `room` bytes, with `Store(NoMemory)` where there was no memory for the index, and with `Empty` where a share has no
    /// bytes. The shelf is given back then.
    pub fn open(alloc: Global, shelf: H, room: u64) -> Result<ShelfStore<H>, (OpenFault, H)>
        // After a restart, what is read is what a crash left.
        requires { IsTrue (H.honest shelf) → (m : Shares) × Keeps H.moment H.left_since shelf m }
        ensures opened { IfOk result (IsShelfOpened H.Shelf room shelf) }
        ensures refused { IfErr result (λ refused.
            IsOpenRefused H.Shelf room shelf refused.1 refused.0) }
    {
        let mut shelf = shelf;
        match take_all(alloc, &mut shelf, room) {
            Ok(sizes) => Ok(ShelfStore {
                alloc,
                sizes,
                shelf,
                doubt: None,
                failures: 0,
            }),
            Err(fault) => Err((fault, shelf)),
        }
    }
}
