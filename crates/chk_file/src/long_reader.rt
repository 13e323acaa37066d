//! Reading long files: k good shares of the one that was begun last are kept.
ghost use Rattle.std.specs.Prelude.{◌≡◌, ◌<◌, Contains, IfOk, IfSome, IsErrOf, MatchOption, Some, None};
ghost use Rattle.grid.specs.GridState.{stood, raised_at, IsHonest, NoneFailed};
ghost use Rattle.grid.specs.Leaves.{Leaves, IsUnchanged};
ghost use Rattle.grid.specs.Views.{AllTell, StandStill, TellOn};
ghost use Rattle.caps.specs.StorageIndex.{index_of};
ghost use Rattle.chk_file.specs.Seen.{HasSegmentsOf};
ghost use Rattle.chk_file.specs.Tables.{table_of};
ghost use Rattle.chk_file.specs.Reached.{OfReached};
ghost use Rattle.file_shares.specs.Fit.{fit};
ghost use Rattle.file_shares.specs.Bound.{Bound};
ghost use Rattle.chk_file.specs.Cached.{IsCacheCurrent, IsWithin, IsWithinOr};
ghost use Rattle.chk_file.specs.Amid.{AreKeptSeen, IsKeptOrSeen, SeesReached};
ghost use Rattle.file_shares.specs.Taken.{AreTaken};
ghost use Rattle.file_shares.specs.Ahead.{file_params, plain_from};

use crate::cache::Cache;
use crate::verify::verify;
use caps::{ReadFields, storage_index};
use file_shares::{Download, ReadFault, Ready, ShareReader, file_params};
use grid::Grid;
use grid::laws::found_laws;
use share_codec::Share;
use share_store::Store;
use std::alloc::{AllocError, Global};

/// Begins to give a long file: of the shares that are kept, or that are prepared of strings that the stores gave, or else of
/// those that the stores have. They are kept then.
pub(crate) fn begin_long<S: Store>(
    alloc: Global,
    grid: &mut Grid<S>,
    cache: &mut Cache,
    fields: &ReadFields,
) -> Result<Download, ReadFault>
    ensures leaves { Leaves grid.old grid.new }
    ensures unchanged { IsHonest grid.old → IsUnchanged grid.old grid.new }
    ensures stand_still { StandStill grid.old grid.new }
    ensures told { TellOn grid.old grid.new }
    ensures fresh { IsCacheCurrent cache.old grid.old → IsCacheCurrent cache.new grid.new }
    ensures bound { IfOk result (λ download. Bound fields.now download.left) }
    ensures fit { IsCacheCurrent cache.old grid.old → IsHonest grid.old → NoneFailed grid.old grid.new →
        IfOk result (λ download.
        fit (table_of (stood grid.old) (index_of fields.now.key)) fields.now
        ≡ Some download.left) }
    ensures segments { IfOk result (λ download. HasSegmentsOf fields.now download) }
    ensures missing { IsHonest grid.old → NoneFailed grid.old grid.new →
        IsErrOf result ReadFault.NotEnoughShares →
        fit (table_of (stood grid.old) (index_of fields.now.key)) fields.now ≡ None }
    ensures fit_reached { IsCacheCurrent cache.old grid.old → IsHonest grid.old →
        IfOk result (λ download. OfReached grid.old grid.new
        (index_of fields.now.key) (λ row. fit row fields.now ≡ Some download.left)) }
    ensures missing_reached { IsHonest grid.old → IsErrOf result ReadFault.NotEnoughShares →
        OfReached grid.old grid.new (index_of fields.now.key) (λ row. fit row fields.now ≡ None) }
    ensures seen { AllTell grid.old → IfOk result (λ download.
        IsKeptOrSeen cache.old grid.old grid.new fields.now download.left) }
    ensures seen_missing { AllTell grid.old → IsErrOf result ReadFault.NotEnoughShares →
        SeesReached grid.old grid.new (index_of fields.now.key) (λ row. fit row fields.now ≡ None) }
    ensures kept_seen { AllTell grid.old → AreKeptSeen cache.old cache.new grid.old grid.new }
{
    match look_up(alloc, grid, cache, fields)? {
        Some(shares) => Ok(Download::pinned(alloc, shares)),
        None => begin_anew(alloc, grid, cache, fields),
    }
}

/// The shares that are kept or prepared of a file, where they were found at the present stamp. No store is asked.
fn look_up<S: Store>(
    alloc: Global,
    grid: &Grid<S>,
    cache: &mut Cache,
    fields: &ReadFields,
) -> Result<Option<ShareReader>, AllocError>
    ensures within { IsWithin cache.old cache.new }
    ensures kept { IfOk result (λ found. IfSome found (λ shares. Contains cache.old
        (fields.now, (raised_at grid.now (index_of fields.now.key), shares.left)))) }
    ensures bound { IfOk result (λ found. IfSome found (λ shares.
        Bound fields.now shares.left)) }
    ensures fit { IsCacheCurrent cache.old grid.now → IsHonest grid.now →
        IfOk result (λ found. IfSome found (λ shares.
        fit (table_of (stood grid.now) (index_of fields.now.key)) fields.now
        ≡ Some shares.left)) }
    ensures segments { IfOk result (λ found. IfSome found (λ shares.
        HasSegmentsOf fields.now shares)) }
{
    match grid.stamp(&storage_index(&fields.key)) {
        Some(stamp) => held_at(alloc, cache, fields, stamp),
        None => Ok(None),
    }
}

/// The shares that are kept or prepared of a file, where they were found at this stamp.
fn held_at(
    alloc: Global,
    cache: &mut Cache,
    fields: &ReadFields,
    stamp: u64,
) -> Result<Option<ShareReader>, AllocError>
    ensures within { IsWithin cache.old cache.new }
    ensures there { IfOk result (λ found. IfSome found (λ shares.
        Contains cache.old (fields.now, (stamp, shares.left)))) }
    ensures bound { IfOk result (λ found. IfSome found (λ shares.
        Bound fields.now shares.left)) }
    ensures segments { IfOk result (λ found. IfSome found (λ shares.
        HasSegmentsOf fields.now shares)) }
{
    match cache.pinned(fields, stamp)? {
        Some(shares) => Ok(Some(shares)),
        None => prepared_at(alloc, cache, fields, stamp),
    }
}

/// The shares that are prepared of strings that were gathered at this stamp. They are kept in the place of the strings.
fn prepared_at(
    alloc: Global,
    cache: &mut Cache,
    fields: &ReadFields,
    stamp: u64,
) -> Result<Option<ShareReader>, AllocError>
    ensures within { IsWithin cache.old cache.new }
    ensures there { IfOk result (λ found. IfSome found (λ shares.
        Contains cache.old (fields.now, (stamp, shares.left)))) }
    ensures bound { IfOk result (λ found. IfSome found (λ shares.
        Bound fields.now shares.left)) }
    ensures segments { IfOk result (λ found. IfSome found (λ shares.
        HasSegmentsOf fields.now shares)) }
{
    let Some(shares) = given_at(cache, fields, stamp) else {
        return Ok(None);
    };
    let reader = ShareReader::new(alloc, file_params(fields), fields.key, shares)?;
    keep(cache, fields, Some(stamp), &reader);
    Ok(Some(reader))
}

/// The same, before they are read. They are taken out, with the strings.
fn given_at(cache: &mut Cache, fields: &ReadFields, stamp: u64) -> Option<Vec<Share>>
    ensures within { IsWithin cache.old cache.new }
    ensures there { IfSome result (λ shares.
        Contains cache.old (fields.now, (stamp, plain_from fields.now shares.items))) }
    ensures taken { IfSome result (λ shares. AreTaken (file_params fields.now) shares.items) }
    ensures bound { IfSome result (λ shares. Bound fields.now (plain_from fields.now shares.items)) }
{
    let gathered = cache.take_gathered(fields, stamp)?;
    let ready = cache.take_ready(fields)?;
    ready.give(&gathered.found)
}

/// The same of the shares that the stores have, which are kept where no store failed.
fn begin_anew<S: Store>(
    alloc: Global,
    grid: &mut Grid<S>,
    cache: &mut Cache,
    fields: &ReadFields,
) -> Result<Download, ReadFault>
    ensures leaves { Leaves grid.old grid.new }
    ensures unchanged { IsHonest grid.old → IsUnchanged grid.old grid.new }
    ensures stand_still { StandStill grid.old grid.new }
    ensures told { TellOn grid.old grid.new }
    ensures fresh { IsCacheCurrent cache.old grid.old → IsCacheCurrent cache.new grid.new }
    ensures bound { IfOk result (λ download. Bound fields.now download.left) }
    ensures segments { IfOk result (λ download. HasSegmentsOf fields.now download) }
    ensures seen { AllTell grid.old → IfOk result (λ download.
        SeesReached grid.old grid.new (index_of fields.now.key) (λ row.
        fit row fields.now ≡ Some download.left)) }
    ensures seen_missing { AllTell grid.old → IsErrOf result ReadFault.NotEnoughShares →
        SeesReached grid.old grid.new (index_of fields.now.key) (λ row. fit row fields.now ≡ None) }
    ensures kept_seen { AllTell grid.old → AreKeptSeen cache.old cache.new grid.old grid.new }
{
    let stamp = grid.stamp(&storage_index(&fields.key));
    let failures = grid.failures();
    let ready = cache.take_ready(fields);
    let shares = match find_shares(alloc, grid, ready, fields) {
        Ok(shares) => shares,
        Err(fault) => return Err(fault),
    };
    if grid.failures() != failures {
        return Ok(Download::pinned(alloc, shares));
    }
    keep(cache, fields, stamp, &shares);
    Ok(Download::pinned(alloc, shares))
}

/// Keeps the shares with this stamp, if there is one.
fn keep(cache: &mut Cache, fields: &ReadFields, stamp: Option<u64>, shares: &ShareReader)
    requires bound { Bound fields.now shares.now.left }
    requires segments { HasSegmentsOf fields.now shares.now }
    ensures { MatchOption stamp (cache.new ≡ cache.old)
        (λ stamp. IsWithinOr cache.old cache.new (fields.now, (stamp, shares.now.left))) }
{
    let Some(stamp) = stamp else {
        return;
    };
    let Ok(twin) = shares.twin() else {
        return;
    };
    cache.pin(*fields, stamp, twin);
}

/// K good shares of those that the stores have.
fn find_shares<S: Store>(
    alloc: Global,
    grid: &mut Grid<S>,
    ready: Option<Ready>,
    fields: &ReadFields,
) -> Result<ShareReader, ReadFault>
    requires { IfSome ready (λ ready. ready.fields ≡ fields.now) }
    ensures leaves { Leaves grid.old grid.new }
    ensures stamps { grid.new.stamps ≡ grid.old.stamps }
    ensures unchanged { IsHonest grid.old → IsUnchanged grid.old grid.new }
    ensures stand_still { StandStill grid.old grid.new }
    ensures told { TellOn grid.old grid.new }
    ensures bound { IfOk result (λ shares. Bound fields.now shares.left) }
    ensures segments { IfOk result (λ shares. HasSegmentsOf fields.now shares) }
    ensures seen { AllTell grid.old → IfOk result (λ shares.
        SeesReached grid.old grid.new (index_of fields.now.key) (λ row.
        fit row fields.now ≡ Some shares.left)) }
    ensures seen_missing { AllTell grid.old → IsErrOf result ReadFault.NotEnoughShares →
        SeesReached grid.old grid.new (index_of fields.now.key) (λ row. fit row fields.now ≡ None) }
{
    match good_shares(alloc, grid, ready, fields) {
        Ok(shares) => Ok(ShareReader::new(alloc, file_params(fields), fields.key, shares)?),
        Err(fault) => Err(fault),
    }
}

/// The same, before they are read: those that are prepared, where the stores have the strings among which they were found,
/// or else those that the stores have.
fn good_shares<S: Store>(
    alloc: Global,
    grid: &mut Grid<S>,
    ready: Option<Ready>,
    fields: &ReadFields,
) -> Result<Vec<Share>, ReadFault>
    requires { IfSome ready (λ ready. ready.fields ≡ fields.now) }
    ensures leaves { Leaves grid.old grid.new }
    ensures stamps { grid.new.stamps ≡ grid.old.stamps }
    ensures unchanged { IsHonest grid.old → IsUnchanged grid.old grid.new }
    ensures stand_still { StandStill grid.old grid.new }
    ensures told { TellOn grid.old grid.new }
    ensures taken { IfOk result (λ shares. AreTaken (file_params fields.now) shares.items) }
    ensures bound { IfOk result (λ shares. Bound fields.now (plain_from fields.now shares.items)) }
    ensures seen { AllTell grid.old → IfOk result (λ shares.
        SeesReached grid.old grid.new (index_of fields.now.key) (λ row.
        fit row fields.now ≡ Some (plain_from fields.now shares.items))) }
    ensures seen_missing { AllTell grid.old → IsErrOf result ReadFault.NotEnoughShares →
        SeesReached grid.old grid.new (index_of fields.now.key) (λ row. fit row fields.now ≡ None) }
{
    let Some(ready) = ready else {
        return verified(alloc, grid, fields);
    };
    match verify_ready(grid, ready, fields) {
        Ok(shares) => Ok(shares),
        Err(ReadFault::NotEnoughShares) => verified(alloc, grid, fields),
        Err(ReadFault::NoMemory) => Err(ReadFault::NoMemory),
    }
}

/// The shares that are prepared, where the stores have the strings among which they were found. Where they don't, nothing
/// is said of all shares.
fn verify_ready<S: Store>(
    grid: &mut Grid<S>,
    ready: Ready,
    fields: &ReadFields,
) -> Result<Vec<Share>, ReadFault>
    requires { ready.fields ≡ fields.now }
    ensures leaves { Leaves grid.old grid.new }
    ensures stamps { grid.new.stamps ≡ grid.old.stamps }
    ensures unchanged { IsHonest grid.old → IsUnchanged grid.old grid.new }
    ensures stand_still { StandStill grid.old grid.new }
    ensures told { TellOn grid.old grid.new }
    ensures taken { IfOk result (λ shares. AreTaken (file_params fields.now) shares.items) }
    ensures bound { IfOk result (λ shares. Bound fields.now (plain_from fields.now shares.items)) }
    ensures seen { AllTell grid.old → IfOk result (λ shares.
        SeesReached grid.old grid.new (index_of fields.now.key) (λ row.
        fit row fields.now ≡ Some (plain_from fields.now shares.items))) }
{
    found_laws();
    // There are at most 256 servers: a row has no more.
    let _ = grid.servers();
    let found = grid.gather_below(storage_index(&fields.key), fields.k)?;
    match ready.give(&found) {
        Some(shares) => Ok(shares),
        None => Err(ReadFault::NotEnoughShares),
    }
}

/// K good shares of those that the stores have, all of which are verified now.
fn verified<S: Store>(
    alloc: Global,
    grid: &mut Grid<S>,
    fields: &ReadFields,
) -> Result<Vec<Share>, ReadFault>
    ensures leaves { Leaves grid.old grid.new }
    ensures stamps { grid.new.stamps ≡ grid.old.stamps }
    ensures unchanged { IsHonest grid.old → IsUnchanged grid.old grid.new }
    ensures stand_still { StandStill grid.old grid.new }
    ensures told { TellOn grid.old grid.new }
    ensures taken { IfOk result (λ shares. AreTaken (file_params fields.now) shares.items) }
    ensures bound { IfOk result (λ shares. Bound fields.now (plain_from fields.now shares.items)) }
    ensures seen { AllTell grid.old → IfOk result (λ shares.
        SeesReached grid.old grid.new (index_of fields.now.key) (λ row.
        fit row fields.now ≡ Some (plain_from fields.now shares.items))) }
    ensures seen_missing { AllTell grid.old → IsErrOf result ReadFault.NotEnoughShares →
        SeesReached grid.old grid.new (index_of fields.now.key) (λ row. fit row fields.now ≡ None) }
{
    match verify(alloc, grid, fields) {
        Ok((shares, _)) => Ok(shares),
        Err(fault) => Err(fault),
    }
}
