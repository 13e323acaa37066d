//! Preparing long files, before they are read.
ghost use Rattle.std.specs.Prelude.{◌≡◌, IfSome, Some};
ghost use Rattle.grid.specs.GridState.{IsHonest};
ghost use Rattle.grid.specs.Leaves.{Leaves, IsUnchanged};
ghost use Rattle.grid.specs.Views.{AllTell, StandStill, TellOn};
ghost use Rattle.caps.specs.StorageIndex.{index_of};
ghost use Rattle.file_shares.specs.Fit.{fit};
ghost use Rattle.chk_file.specs.Cached.{IsCacheCurrent};
ghost use Rattle.chk_file.specs.Amid.{AreKeptSeen, SeesReached};
ghost use Rattle.chk_file.specs.Seen.{gathered_file};

use crate::cache::{Cache, MOST_KEPT};
use caps::{ReadFields, storage_index};
use file_shares::{Gathered, ReadAhead, has_each};
use grid::Grid;
use grid::laws::found_laws;
use share_store::Store;
use std::alloc::Global;
use std::rc::RcSlice;

impl Cache {
    /// Takes one step of what the reading of a long file will need, and says whether steps are left: the shares of the numbers
    /// below k are hashed, decoded, or hashed again as a crypttext, for some milliseconds at most.
    ///
    /// The first step looks at the shares that stores have in memory. Where one of them isn't there it asks the stores for all
    /// of them, once, and takes as long as the stores do. What they gave is kept with the stamp of the file's storage index:
    /// while that is the present one, `begin` takes what was prepared and asks no store again. Else `begin` compares all that
    /// was prepared with what the stores give, so whatever is looked at here costs time alone.
    ///
    /// Files of at most 1,048,576 bytes need nothing, nor does one that the cache has at the present stamp. What was prepared
    /// for another file is let go first. Where a store fails, a share is missing or isn't good, or memory is refused, no step
    /// is left, and what was prepared is let go, but for what the stores gave.
    pub fn read_ahead<S: Store>(
        &mut self,
        alloc: Global,
        grid: &mut Grid<S>,
        fields: &ReadFields,
    ) -> bool
        ensures leaves { Leaves grid.old grid.new }
        ensures unchanged { IsHonest grid.old → IsUnchanged grid.old grid.new }
        ensures stand_still { StandStill grid.old grid.new }
        ensures told { TellOn grid.old grid.new }
        ensures fresh { IsCacheCurrent self.old grid.old → IsCacheCurrent self.new grid.new }
        ensures kept_seen { AllTell grid.old → AreKeptSeen self.old self.new grid.old grid.new }
    {
        if !self.can_read_ahead(grid, fields) {
            return false;
        }
        match self.take_ahead(fields) {
            Some(ahead) => self.put_ahead(ahead.step(alloc)),
            None => begin_ahead(alloc, grid, self, fields),
        }
    }
}

/// The first step: of strings that were gathered at the present stamp, or that stores lend, or else give now.
fn begin_ahead<S: Store>(
    alloc: Global,
    grid: &mut Grid<S>,
    cache: &mut Cache,
    fields: &ReadFields,
) -> bool
    ensures leaves { Leaves grid.old grid.new }
    ensures unchanged { IsHonest grid.old → IsUnchanged grid.old grid.new }
    ensures stand_still { StandStill grid.old grid.new }
    ensures told { TellOn grid.old grid.new }
    ensures fresh { IsCacheCurrent cache.old grid.old → IsCacheCurrent cache.new grid.new }
    ensures kept_seen { AllTell grid.old → AreKeptSeen cache.old cache.new grid.old grid.new }
{
    if is_gathered(grid, cache, fields) {
        return cache.judge_gathered(alloc);
    }
    cache.let_go_of_read();
    match lent(grid, fields) {
        Some(found) => cache.put_ahead(ReadAhead::new(alloc, fields, found)),
        None => begin_gathered(alloc, grid, cache, fields),
    }
}

/// Whether a file isn't kept whole, and stores have shares of each number below k in memory anyway. No store is asked, and
/// nothing is promised of it.
pub fn lends<S: Store>(grid: &Grid<S>, fields: &ReadFields) -> bool {
    fields.size > MOST_KEPT && lent(grid, fields).is_some()
}

/// Whether strings of the file with these fields are kept that were gathered at the present stamp.
fn is_gathered<S: Store>(grid: &Grid<S>, cache: &Cache, fields: &ReadFields) -> bool {
    match grid.stamp(&storage_index(&fields.key)) {
        Some(stamp) => cache.has_gathered(fields, stamp),
        None => false,
    }
}

/// The strings that stores have in memory of a file, if each number below k is there.
fn lent<S: Store>(grid: &Grid<S>, fields: &ReadFields) -> Option<Vec<(usize, u16, RcSlice<u8>)>> {
    let found = grid.peek_below(storage_index(&fields.key), fields.k).ok()?;
    if has_each(&found, fields.k) {
        Some(found)
    } else {
        None
    }
}

/// The first step of strings that the stores give now, which are kept.
fn begin_gathered<S: Store>(
    alloc: Global,
    grid: &mut Grid<S>,
    cache: &mut Cache,
    fields: &ReadFields,
) -> bool
    ensures leaves { Leaves grid.old grid.new }
    ensures unchanged { IsHonest grid.old → IsUnchanged grid.old grid.new }
    ensures stand_still { StandStill grid.old grid.new }
    ensures told { TellOn grid.old grid.new }
    ensures fresh { IsCacheCurrent cache.old grid.old → IsCacheCurrent cache.new grid.new }
    ensures kept_seen { AllTell grid.old → AreKeptSeen cache.old cache.new grid.old grid.new }
{
    if !gather(grid, cache, fields) {
        return false;
    }
    cache.judge_gathered(alloc)
}

/// Gathers the strings of the numbers below k, and keeps them where no store failed and each number is there. Says whether
/// they are kept.
fn gather<S: Store>(grid: &mut Grid<S>, cache: &mut Cache, fields: &ReadFields) -> bool
    ensures leaves { Leaves grid.old grid.new }
    ensures unchanged { IsHonest grid.old → IsUnchanged grid.old grid.new }
    ensures stand_still { StandStill grid.old grid.new }
    ensures told { TellOn grid.old grid.new }
    ensures fresh { IsCacheCurrent cache.old grid.old → IsCacheCurrent cache.new grid.new }
    ensures kept_seen { AllTell grid.old → AreKeptSeen cache.old cache.new grid.old grid.new }
{
    let Some(stamp) = grid.stamp(&storage_index(&fields.key)) else {
        return false;
    };
    let failures = grid.failures();
    let Some(gathered) = gathered_at(grid, fields, stamp) else {
        return false;
    };
    if grid.failures() != failures {
        return false;
    }
    cache.put_gathered(gathered);
    true
}

/// The strings of the numbers below k that the stores give, if each number is there, with this stamp.
fn gathered_at<S: Store>(grid: &mut Grid<S>, fields: &ReadFields, stamp: u64) -> Option<Gathered>
    ensures leaves { Leaves grid.old grid.new }
    ensures stamps { grid.new.stamps ≡ grid.old.stamps }
    ensures unchanged { IsHonest grid.old → IsUnchanged grid.old grid.new }
    ensures stand_still { StandStill grid.old grid.new }
    ensures told { TellOn grid.old grid.new }
    ensures fields { IfSome result (λ gathered. gathered.fields ≡ fields.now) }
    ensures stamp { IfSome result (λ gathered. gathered.stamp ≡ stamp) }
    ensures seen { AllTell grid.old → IfSome result (λ gathered. IfSome (gathered_file gathered) (λ bytes.
        SeesReached grid.old grid.new (index_of fields.now.key) (λ row.
        fit row fields.now ≡ Some bytes))) }
{
    found_laws();
    // There are at most 256 servers: a row has no more.
    let _ = grid.servers();
    let Ok(found) = grid.gather_below(storage_index(&fields.key), fields.k) else {
        return None;
    };
    if !has_each(&found, fields.k) {
        return None;
    }
    Some(Gathered::new(fields, stamp, found))
}
