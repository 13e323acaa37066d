//! What a store asks of a shelf.
ghost use Rattle.std.specs.Prelude.{◌≡◌, ◌<◌, ◌≤◌, ◌↔◌, ℕ, Bool, IsTrue, length, map as map_list, IfOk, OnOk, IsErrOf, None};
ghost use Rattle.std.specs.Option.{option_map};
ghost use Rattle.std.specs.FinMap as map;
ghost use Rattle.std.specs.Rc.{rc_slice_items};
ghost use Rattle.share_store.specs.Shares.{Shares};
ghost use Rattle.share_store.specs.History.{History, GoesOnBy};
ghost use Rattle.share_shelf.specs.CrashStates.{Keeps, IsEither, LeavesOnly, IsQuiet, IsChanged, MayBeChanged};

use crate::ShelfFault;
use std::alloc::Global;
use std::rc::RcSlice;

/// A shelf of shares, which outlives the process.
///
/// An honest shelf keeps what it is told: a change is done or not begun at a crash, and from its `Ok` on it is done.
/// Where it failed, a crash may leave either. A shelf that isn't honest may do anything.
pub trait Shelf {
    /// Whether it keeps what it is told.
    ghost honest: { Self → Bool };

    /// The moment, as a number that doesn't fall.
    ghost moment: { Self → ℕ };

    /// What a crash at some moment from that one on might have left, during a call or between two.
    ghost left_since: { Self → ℕ → Shares → Type 0 };

    /// What a crash might have left on it so far, the oldest first, where the shelf tells it.
    ghost history: { Self → History } = { λ _. None };

    /// What stands on it, as far as that is known.
    ghost shares: { Self → Shares };

    /// How often it has failed.
    ghost failures: { Self → ℕ };

    /// The storage index and number of each share, in the order of storage index and then number. Refused as
    /// [`ShelfFault`] says: with `Failed` exactly when the shelf failed, here and below.
    fn list(&mut self, alloc: Global) -> Result<Vec<([u8; 16], u16)>, ShelfFault>
        ensures honest { honest self.new ≡ honest self.old }
        ensures quiet { IsQuiet moment left_since self.old self.new }
        ensures same_history { IsTrue (honest self.old) → history self.new ≡ history self.old }
        ensures rises { failures self.old ≤ failures self.new }
        ensures failed { IsErrOf result ShelfFault.Failed ↔
            (failures self.old < failures self.new) }
        ensures found { IsTrue (honest self.old) →
            (m : Shares) → Keeps moment left_since self.old m →
            IfOk result (λ names. names.items ≡ map_list (λ e. e.0) (map.entries m)) };

    /// The bytes of the share that stands there. `None` where none stands.
    fn read(&mut self, index: [u8; 16], number: u16) -> Result<Option<RcSlice<u8>>, ShelfFault>
        ensures honest { honest self.new ≡ honest self.old }
        ensures quiet { IsQuiet moment left_since self.old self.new }
        ensures same_history { IsTrue (honest self.old) → history self.new ≡ history self.old }
        ensures rises { failures self.old ≤ failures self.new }
        ensures failed { IsErrOf result ShelfFault.Failed ↔
            (failures self.old < failures self.new) }
        ensures found { IsTrue (honest self.old) →
            (m : Shares) → Keeps moment left_since self.old m →
            IfOk result (λ bytes. option_map rc_slice_items bytes ≡ map.get m (index, number)) }

        // Where a change failed before, what is read may be what stood before it or what stands after it.
        ensures given { IsTrue (honest self.old) →
            IfOk result (λ bytes. (c : Shares) × left_since self.old (moment self.old) c
            × (option_map rc_slice_items bytes ≡ map.get c (index, number))) }
        ensures same_shares { IsTrue (honest self.old) → shares self.new ≡ shares self.old };

    /// Puts a share, in the place of one that stands there. After `Ok` a crash leaves it; where it failed, a crash
    /// leaves the share or what stood before; where there was no memory nothing was begun. Where a change failed before,
    /// that is so of each of the shares that a crash might have left.
    fn put(&mut self, index: [u8; 16], number: u16, bytes: RcSlice<u8>) -> Result<(), ShelfFault>
        requires { 0 < length (rc_slice_items bytes) }
        ensures honest { honest self.new ≡ honest self.old }
        ensures rises { failures self.old ≤ failures self.new }
        ensures failed { IsErrOf result ShelfFault.Failed ↔
            (failures self.old < failures self.new) }
        ensures no_memory { IsErrOf result ShelfFault.NoMemory →
            IsQuiet moment left_since self.old self.new }
        ensures done { IsTrue (honest self.old) →
            (m : Shares) → Keeps moment left_since self.old m →
            OnOk result (Keeps moment left_since self.new
            (map.insert m (index, number) (rc_slice_items bytes))) }
        ensures crash { IsTrue (honest self.old) →
            (m : Shares) → Keeps moment left_since self.old m →
            LeavesOnly moment left_since self.old self.new
            (IsEither m (map.insert m (index, number) (rc_slice_items bytes))) }
        ensures history { IsTrue (honest self.old) →
            (m : Shares) → Keeps moment left_since self.old m →
            GoesOnBy (IsEither m (map.insert m (index, number) (rc_slice_items bytes)))
            (history self.old) (history self.new) }

        // Where a change failed before, a crash may leave more than one thing, and each is changed so.
        ensures done_each { IsTrue (honest self.old) → OnOk result ((c : Shares) →
            left_since self.new (moment self.new) c → IsChanged moment left_since self.old
            (λ d. map.insert d (index, number) (rc_slice_items bytes)) c) }
        ensures crash_each { IsTrue (honest self.old) →
            LeavesOnly moment left_since self.old self.new (MayBeChanged moment left_since self.old
            (λ d. map.insert d (index, number) (rc_slice_items bytes))) }
        ensures stands { IsTrue (honest self.old) →
            left_since self.new (moment self.new) (shares self.new) };

    /// Takes the share away that stands there, if one does. What a crash leaves is as for a put.
    fn remove(&mut self, index: [u8; 16], number: u16) -> Result<(), ShelfFault>
        ensures honest { honest self.new ≡ honest self.old }
        ensures rises { failures self.old ≤ failures self.new }
        ensures failed { IsErrOf result ShelfFault.Failed ↔
            (failures self.old < failures self.new) }
        ensures no_memory { IsErrOf result ShelfFault.NoMemory →
            IsQuiet moment left_since self.old self.new }
        ensures done { IsTrue (honest self.old) →
            (m : Shares) → Keeps moment left_since self.old m →
            OnOk result (Keeps moment left_since self.new (map.remove m (index, number))) }
        ensures crash { IsTrue (honest self.old) →
            (m : Shares) → Keeps moment left_since self.old m →
            LeavesOnly moment left_since self.old self.new
            (IsEither m (map.remove m (index, number))) }
        ensures history { IsTrue (honest self.old) →
            (m : Shares) → Keeps moment left_since self.old m →
            GoesOnBy (IsEither m (map.remove m (index, number)))
            (history self.old) (history self.new) }
        ensures done_each { IsTrue (honest self.old) → OnOk result ((c : Shares) →
            left_since self.new (moment self.new) c → IsChanged moment left_since self.old
            (λ d. map.remove d (index, number)) c) }
        ensures crash_each { IsTrue (honest self.old) →
            LeavesOnly moment left_since self.old self.new (MayBeChanged moment left_since self.old
            (λ d. map.remove d (index, number))) }
        ensures stands { IsTrue (honest self.old) →
            left_since self.new (moment self.new) (shares self.new) };

    /// What a later crash might have left, one from an earlier moment on might have.
    ghost narrows: { (shelf : Self) (t u : ℕ) (c : Shares) → t ≤ u →
        left_since shelf u c → left_since shelf t c };

    /// What an honest shelf keeps is what stands on it.
    ghost keeps: { (shelf : Self) (m : Shares) → IsTrue (honest shelf) →
        Keeps moment left_since shelf m → m ≡ shares shelf };
}
