//! Files that the cache has: how they come into it before they are looked through or listed, and their bytes.
ghost use Rattle.std.specs.Prelude.{◌≡◌, Contains, IfOk, IfSome};
ghost use Rattle.grid.specs.GridState.{IsHonest};
ghost use Rattle.grid.specs.Leaves.{Leaves, IsUnchanged};
ghost use Rattle.grid.specs.Views.{AllTell, StandStill, TellOn};
ghost use Rattle.file_shares.specs.Bound.{Bound};
ghost use Rattle.chk_file.specs.Cached.{IsCacheCurrent, IsWithin};
ghost use Rattle.chk_file.specs.Amid.{AreKeptSeen};

use crate::cache::{Cache, MOST_KEPT};
use crate::reader::{begin, whole};
use caps::{ReadFields, storage_index};
use file_shares::{Download, ReadFault};
use grid::Grid;
use share_store::Store;
use std::alloc::{AllocError, Global};

/// One step of reading a file, and whether that was the last one.
pub(crate) fn read_step<S: Store>(
    alloc: Global,
    grid: &mut Grid<S>,
    cache: &mut Cache,
    fields: &ReadFields,
) -> Result<bool, ReadFault>
    ensures leaves { Leaves grid.old grid.new }
    ensures unchanged { IsHonest grid.old → IsUnchanged grid.old grid.new }
    ensures stand_still { StandStill grid.old grid.new }
    ensures told { TellOn grid.old grid.new }
    ensures fresh { IsCacheCurrent cache.old grid.old → IsCacheCurrent cache.new grid.new }
    ensures kept_seen { AllTell grid.old → AreKeptSeen cache.old cache.new grid.old grid.new }
{
    if cache.read_ahead(alloc, grid, fields) {
        return Ok(false);
    }
    match begin(alloc, grid, cache, fields) {
        Ok(_) => Ok(true),
        Err(fault) => Err(fault),
    }
}

/// The bytes that the cache has of a file at the present stamp, with this stamp.
pub(crate) fn held_now<S: Store>(
    alloc: Global,
    grid: &Grid<S>,
    cache: &mut Cache,
    fields: &ReadFields,
) -> Result<Option<(u64, Download)>, AllocError>
    ensures within { IsWithin cache.old cache.new }
    ensures there { IfOk result (λ found. IfSome found (λ held.
        Contains cache.old (fields.now, (held.0, held.1.left)))) }
    ensures bound { IfOk result (λ found. IfSome found (λ held.
        Bound fields.now held.1.left)) }
{
    let Some(stamp) = grid.stamp(&storage_index(&fields.key)) else {
        return Ok(None);
    };
    match held(alloc, cache, fields, stamp)? {
        Some(download) => Ok(Some((stamp, download))),
        None => Ok(None),
    }
}

/// The bytes that the cache has of a file at this stamp.
fn held(
    alloc: Global,
    cache: &mut Cache,
    fields: &ReadFields,
    stamp: u64,
) -> Result<Option<Download>, AllocError>
    ensures within { IsWithin cache.old cache.new }
    ensures there { IfOk result (λ found. IfSome found (λ download.
        Contains cache.old (fields.now, (stamp, download.left)))) }
    ensures bound { IfOk result (λ found. IfSome found (λ download.
        Bound fields.now download.left)) }
{
    if fields.size > MOST_KEPT {
        return held_long(alloc, cache, fields, stamp);
    }
    let Some(bytes) = cache.get(fields, stamp)? else {
        return Ok(None);
    };
    Ok(Some(whole(alloc, fields, bytes)))
}

/// The same of a long file.
fn held_long(
    alloc: Global,
    cache: &Cache,
    fields: &ReadFields,
    stamp: u64,
) -> Result<Option<Download>, AllocError>
    ensures there { IfOk result (λ found. IfSome found (λ download.
        Contains cache.now (fields.now, (stamp, download.left)))) }
    ensures bound { IfOk result (λ found. IfSome found (λ download.
        Bound fields.now download.left)) }
{
    let Some(shares) = cache.pinned(fields, stamp)? else {
        return Ok(None);
    };
    Ok(Some(Download::pinned(alloc, shares)))
}
