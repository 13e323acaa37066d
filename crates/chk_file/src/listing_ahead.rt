//! Preparing the listing of directories, and reading them to be listed.
ghost use Rattle.std.specs.Prelude.{◌≡◌, Contains, IfOk, IfSome, IsErrOf, Some, None};
ghost use Rattle.grid.specs.GridState.{stood, raised_at, IsHonest, NoneFailed};
ghost use Rattle.grid.specs.Leaves.{Leaves, IsUnchanged};
ghost use Rattle.grid.specs.Views.{AllTell, StandStill, TellOn};
ghost use Rattle.caps.specs.StorageIndex.{index_of};
ghost use Rattle.chk_file.specs.Tables.{table_of};
ghost use Rattle.chk_file.specs.Reached.{OfReached};
ghost use Rattle.file_shares.specs.Fit.{fit};
ghost use Rattle.file_shares.specs.Bound.{Bound};
ghost use Rattle.chk_file.specs.Cached.{IsCacheCurrent, IsWithin, IsWithinOr};
ghost use Rattle.chk_file.specs.Amid.{AreKeptSeen, IsKeptOrSeen, SeesReached};

use crate::cache::Cache;
use crate::held::{held_now, read_step};
use crate::listed::Listed;
use crate::reader::read;
use caps::{ReadFields, storage_index};
use file_shares::ReadFault;
use grid::Grid;
use json_view::Counted;
use share_store::Store;
use std::alloc::{AllocError, Global};
use std::rc::RcSlice;

/// A directory of more bytes than these is listed step by step. The listing of a shorter one takes a few milliseconds in
/// all.
const MOST_AT_ONCE: u64 = 131_072;

/// The bytes of the directory that a read cap names, with its children counted, or its fault known, for its JSON.
///
/// They are those that [`read`](crate::read) gives. Where `list_ahead` prepared them at the present stamp they are taken out
/// of the cache, and no store is asked; else they are read, and all children are counted now.
///
/// # Errors
/// As those of [`read`](crate::read).
pub fn read_counted<S: Store>(
    alloc: Global,
    grid: &mut Grid<S>,
    cache: &mut Cache,
    fields: &ReadFields,
) -> Result<Counted, ReadFault>
    ensures leaves { Leaves grid.old grid.new }
    ensures unchanged { IsHonest grid.old → IsUnchanged grid.old grid.new }
    ensures stand_still { StandStill grid.old grid.new }
    ensures told { TellOn grid.old grid.new }
    ensures fresh { IsCacheCurrent cache.old grid.old → IsCacheCurrent cache.new grid.new }
    ensures bound { IfOk result (λ counted. Bound fields.now counted) }
    ensures fit { IsCacheCurrent cache.old grid.old → IsHonest grid.old → NoneFailed grid.old grid.new →
        IfOk result (λ counted. fit (table_of (stood grid.old) (index_of fields.now.key)) fields.now
        ≡ Some counted) }
    ensures missing { IsHonest grid.old → NoneFailed grid.old grid.new →
        IsErrOf result ReadFault.NotEnoughShares →
        fit (table_of (stood grid.old) (index_of fields.now.key)) fields.now ≡ None }
    ensures fit_reached { IsCacheCurrent cache.old grid.old → IsHonest grid.old →
        IfOk result (λ counted. OfReached grid.old grid.new
        (index_of fields.now.key) (λ row. fit row fields.now ≡ Some counted)) }
    ensures missing_reached { IsHonest grid.old → IsErrOf result ReadFault.NotEnoughShares →
        OfReached grid.old grid.new (index_of fields.now.key) (λ row. fit row fields.now ≡ None) }
    ensures seen { AllTell grid.old → IfOk result (λ counted.
        IsKeptOrSeen cache.old grid.old grid.new fields.now counted) }
    ensures seen_missing { AllTell grid.old → IsErrOf result ReadFault.NotEnoughShares →
        SeesReached grid.old grid.new (index_of fields.now.key) (λ row. fit row fields.now ≡ None) }
    ensures kept_seen { AllTell grid.old → AreKeptSeen cache.old cache.new grid.old grid.new }
{
    if let Some(counted) = counted_now(grid, cache, fields) {
        return Ok(counted);
    }
    match read(alloc, grid, cache, fields) {
        Ok(bytes) => Ok(Counted::new(alloc, RcSlice::from_vec(bytes)?)?),
        Err(fault) => Err(fault),
    }
}

/// What is prepared, where it is of the present stamp. It is taken out.
fn counted_now<S: Store>(grid: &Grid<S>, cache: &mut Cache, fields: &ReadFields) -> Option<Counted>
    ensures within { IsWithin cache.old cache.new }
    ensures kept { IfSome result (λ counted. Contains cache.old
        (fields.now, (raised_at grid.now (index_of fields.now.key), counted))) }
    ensures bound { IfSome result (λ counted. Bound fields.now counted) }
    ensures fit { IsCacheCurrent cache.old grid.now → IsHonest grid.now → IfSome result (λ counted.
        fit (table_of (stood grid.now) (index_of fields.now.key)) fields.now ≡ Some counted) }
{
    match grid.stamp(&storage_index(&fields.key)) {
        Some(stamp) => take_counted(cache, fields, stamp),
        None => None,
    }
}

/// What is prepared of the directory with these fields, where all of it is, at this stamp. It is taken out. What is
/// prepared of another directory, or in part, stays.
fn take_counted(cache: &mut Cache, fields: &ReadFields, stamp: u64) -> Option<Counted>
    ensures within { IsWithin cache.old cache.new }
    ensures there { IfSome result (λ counted.
        Contains cache.old (fields.now, (stamp, counted))) }
    ensures bound { IfSome result (λ counted. Bound fields.now counted) }
{
    let listed = cache.take_listed()?;
    match listed.give(fields, stamp) {
        Ok(counted) => Some(counted),
        Err(listed) => {
            cache.put_listed(listed);
            None
        }
    }
}

impl Cache {
    /// Takes one step, of some milliseconds at most, of what the listing of the directory with these fields will need, and
    /// says whether steps are left.
    ///
    /// The directory's file is read as `read_ahead` and `begin` do, its bytes are gathered a segment at a time, and then its
    /// children are counted, some of them at a time ([`json_view::Counting`]). Directories of at most 131,072 bytes need
    /// nothing. One directory is prepared at a time: one with other fields is let go, and so is one that was stored again
    /// since. Where the file isn't found, a store fails or memory is refused, no step is left. What was counted stays until
    /// `read_counted` takes it or it is let go.
    pub fn list_ahead<S: Store>(
        &mut self,
        alloc: Global,
        grid: &mut Grid<S>,
        fields: &ReadFields,
    ) -> bool
        ensures leaves { Leaves grid.old grid.new }
        ensures unchanged { IsHonest grid.old → IsUnchanged grid.old grid.new }
        ensures stand_still { StandStill grid.old grid.new }
        ensures told { TellOn grid.old grid.new }
        ensures fresh { IsCacheCurrent self.old grid.old → IsCacheCurrent self.new grid.new }
        ensures kept_seen { AllTell grid.old → AreKeptSeen self.old self.new grid.old grid.new }
    {
        if !self.can_list_ahead(grid, fields) {
            return false;
        }
        let Some(stamp) = grid.stamp(&storage_index(&fields.key)) else {
            return false;
        };
        if let Some(listed) = self.take_listed() {
            if listed.is_of(fields) {
                return list_on(alloc, self, listed, stamp);
            }
        }
        list_first(alloc, grid, self, fields)
    }

    /// Whether `list_ahead` has something to do for this directory: it has more than 131,072 bytes, and not all of it is
    /// prepared at the present stamp.
    pub fn can_list_ahead<S: Store>(&self, grid: &Grid<S>, fields: &ReadFields) -> bool {
        if fields.size <= MOST_AT_ONCE {
            return false;
        }
        match grid.stamp(&storage_index(&fields.key)) {
            Some(stamp) => !self.has_listed(fields, stamp),
            None => false,
        }
    }
}

/// One step more of a directory whose listing is prepared. Where it was stored again since, it is let go of, and begun anew
/// by the next step.
fn list_on(alloc: Global, cache: &mut Cache, listed: Listed, stamp: u64) -> bool
    requires { Bound listed.0 listed.1.1 }
    ensures { IsWithinOr cache.old cache.new listed }
{
    if !listed.is_at(stamp) {
        return true;
    }
    match listed.step(alloc) {
        Ok(next) => {
            let is_left = !next.is_done();
            cache.put_listed(next);
            is_left
        }
        Err(_) => false,
    }
}

/// One step of reading the file of a directory, after which its listing is prepared.
fn list_first<S: Store>(
    alloc: Global,
    grid: &mut Grid<S>,
    cache: &mut Cache,
    fields: &ReadFields,
) -> bool
    ensures leaves { Leaves grid.old grid.new }
    ensures unchanged { IsHonest grid.old → IsUnchanged grid.old grid.new }
    ensures stand_still { StandStill grid.old grid.new }
    ensures told { TellOn grid.old grid.new }
    ensures fresh { IsCacheCurrent cache.old grid.old → IsCacheCurrent cache.new grid.new }
    ensures kept_seen { AllTell grid.old → AreKeptSeen cache.old cache.new grid.old grid.new }
{
    match read_step(alloc, grid, cache, fields) {
        Ok(true) => begin_listing(alloc, grid, cache, fields),
        Ok(false) => true,
        Err(_) => false,
    }
}

/// Begins to prepare the listing of a directory that the cache has.
fn begin_listing<S: Store>(
    alloc: Global,
    grid: &Grid<S>,
    cache: &mut Cache,
    fields: &ReadFields,
) -> bool
    ensures { IsWithin cache.old cache.new }
{
    match listed_at(alloc, grid, cache, fields) {
        Ok(Some(listed)) => {
            cache.put_listed(listed);
            true
        }
        Ok(None) | Err(_) => false,
    }
}

/// The listing of a directory that the cache has, before its first step.
fn listed_at<S: Store>(
    alloc: Global,
    grid: &Grid<S>,
    cache: &mut Cache,
    fields: &ReadFields,
) -> Result<Option<Listed>, AllocError>
    ensures within { IsWithin cache.old cache.new }
    ensures there { IfOk result (λ found. IfSome found (λ listed. Contains cache.old listed)) }
    ensures bound { IfOk result (λ found. IfSome found (λ listed. Bound listed.0 listed.1.1)) }
{
    let Some((stamp, download)) = held_now(alloc, grid, cache, fields)? else {
        return Ok(None);
    };
    Ok(Some(Listed::new(alloc, fields, stamp, download)?))
}
