//! Reading files.
ghost use Rattle.std.specs.Prelude.{◌≡◌, ◌<◌, Contains, IfOk, IfSome, IsErrOf, MatchOption, Some, None};
ghost use Rattle.std.specs.Rc.{rc_slice_items};
ghost use Rattle.grid.specs.GridState.{stood, raised_at, IsHonest, NoneFailed};
ghost use Rattle.grid.specs.Leaves.{Leaves, IsUnchanged};
ghost use Rattle.grid.specs.Views.{AllTell, StandStill, TellOn};
ghost use Rattle.caps.specs.StorageIndex.{index_of};
ghost use Rattle.share_codec.specs.Segments.{segment_size};
ghost use Rattle.file_shares.specs.Numbers.{params_of};
ghost use Rattle.chk_file.specs.Tables.{table_of};
ghost use Rattle.chk_file.specs.Reached.{OfReached};
ghost use Rattle.file_shares.specs.Fit.{fit};
ghost use Rattle.file_shares.specs.Bound.{Bound};
ghost use Rattle.chk_file.specs.Cached.{IsCacheCurrent, IsWithin, IsWithinOr};
ghost use Rattle.chk_file.specs.Amid.{AreKeptSeen, IsKeptOrSeen, SeesReached};

use crate::cache::{Cache, MOST_KEPT};
use crate::long_reader::begin_long;
use crate::verify::verify;
use caps::{ReadFields, storage_index};
use file_shares::{Download, ReadFault, Whole, apply_keystream};
use grid::Grid;
use share_codec::Params;
use share_store::Store;
use std::alloc::{AllocError, Global};
use std::rc::RcSlice;

/// The bytes of the file that a read cap names.
///
/// They are found by verification alone: over any stores they are bound to the cap. Over honest stores that don't fail
/// in the call, with a cache that is fresh, they are those of `fit` in the row of the cap's storage index, and
/// `NotEnoughShares` is answered exactly when that has none. A store that is down is passed over: where some honest
/// stores fail the answer is that of a row with all that stands at the others. Where the cache has the bytes of the
/// present stamp no store is asked; what is read otherwise is kept, if no store failed. Of a file of more than 1,048,576
/// bytes k good shares are kept in their place, of the one that was read last. Over stores that others change too the same
/// holds of what this call saw, each place at some moment of it; what the cache has is what an earlier call saw.
pub fn read<S: Store>(
    alloc: Global,
    grid: &mut Grid<S>,
    cache: &mut Cache,
    fields: &ReadFields,
) -> Result<Vec<u8>, ReadFault>
    ensures leaves { Leaves grid.old grid.new }
    ensures unchanged { IsHonest grid.old → IsUnchanged grid.old grid.new }
    ensures stand_still { StandStill grid.old grid.new }
    ensures told { TellOn grid.old grid.new }
    ensures fresh { IsCacheCurrent cache.old grid.old → IsCacheCurrent cache.new grid.new }
    ensures bound { IfOk result (λ bytes. Bound fields.now bytes.items) }
    ensures fit { IsCacheCurrent cache.old grid.old → IsHonest grid.old → NoneFailed grid.old grid.new →
        IfOk result (λ bytes. fit (table_of (stood grid.old) (index_of fields.now.key)) fields.now
        ≡ Some bytes.items) }
    ensures missing { IsHonest grid.old → NoneFailed grid.old grid.new →
        IsErrOf result ReadFault.NotEnoughShares →
        fit (table_of (stood grid.old) (index_of fields.now.key)) fields.now ≡ None }
    ensures fit_reached { IsCacheCurrent cache.old grid.old → IsHonest grid.old →
        IfOk result (λ bytes. OfReached grid.old grid.new
        (index_of fields.now.key) (λ row. fit row fields.now ≡ Some bytes.items)) }
    ensures missing_reached { IsHonest grid.old → IsErrOf result ReadFault.NotEnoughShares →
        OfReached grid.old grid.new (index_of fields.now.key) (λ row. fit row fields.now ≡ None) }
    ensures seen { AllTell grid.old → IfOk result (λ bytes.
        IsKeptOrSeen cache.old grid.old grid.new fields.now bytes.items) }
    ensures seen_missing { AllTell grid.old → IsErrOf result ReadFault.NotEnoughShares →
        SeesReached grid.old grid.new (index_of fields.now.key) (λ row. fit row fields.now ≡ None) }
    ensures kept_seen { AllTell grid.old → AreKeptSeen cache.old cache.new grid.old grid.new }
{
    if fields.size > MOST_KEPT {
        return read_long(alloc, grid, cache, fields);
    }
    match fetch(alloc, grid, cache, fields) {
        Ok(bytes) => Ok(Vec::from_slice(alloc, bytes.as_slice())?),
        Err(fault) => Err(fault),
    }
}

/// The same of a long file: of the shares that are kept or prepared, or else of those that the stores have.
fn read_long<S: Store>(
    alloc: Global,
    grid: &mut Grid<S>,
    cache: &mut Cache,
    fields: &ReadFields,
) -> Result<Vec<u8>, ReadFault>
    ensures leaves { Leaves grid.old grid.new }
    ensures unchanged { IsHonest grid.old → IsUnchanged grid.old grid.new }
    ensures stand_still { StandStill grid.old grid.new }
    ensures told { TellOn grid.old grid.new }
    ensures fresh { IsCacheCurrent cache.old grid.old → IsCacheCurrent cache.new grid.new }
    ensures bound { IfOk result (λ bytes. Bound fields.now bytes.items) }
    ensures fit { IsCacheCurrent cache.old grid.old → IsHonest grid.old → NoneFailed grid.old grid.new →
        IfOk result (λ bytes. fit (table_of (stood grid.old) (index_of fields.now.key)) fields.now
        ≡ Some bytes.items) }
    ensures missing { IsHonest grid.old → NoneFailed grid.old grid.new →
        IsErrOf result ReadFault.NotEnoughShares →
        fit (table_of (stood grid.old) (index_of fields.now.key)) fields.now ≡ None }
    ensures fit_reached { IsCacheCurrent cache.old grid.old → IsHonest grid.old →
        IfOk result (λ bytes. OfReached grid.old grid.new
        (index_of fields.now.key) (λ row. fit row fields.now ≡ Some bytes.items)) }
    ensures missing_reached { IsHonest grid.old → IsErrOf result ReadFault.NotEnoughShares →
        OfReached grid.old grid.new (index_of fields.now.key) (λ row. fit row fields.now ≡ None) }
    ensures seen { AllTell grid.old → IfOk result (λ bytes.
        IsKeptOrSeen cache.old grid.old grid.new fields.now bytes.items) }
    ensures seen_missing { AllTell grid.old → IsErrOf result ReadFault.NotEnoughShares →
        SeesReached grid.old grid.new (index_of fields.now.key) (λ row. fit row fields.now ≡ None) }
    ensures kept_seen { AllTell grid.old → AreKeptSeen cache.old cache.new grid.old grid.new }
{
    match begin_long(alloc, grid, cache, fields) {
        Ok(download) => Ok(gathered(alloc, download, fields.size as usize)?),
        Err(fault) => Err(fault),
    }
}

/// All bytes of a download, for which so much memory is taken at once.
fn gathered(alloc: Global, download: Download, room: usize) -> Result<Vec<u8>, AllocError>
    ensures { IfOk result (λ bytes. bytes.items ≡ download.left) }
{
    let mut rest = download;
    let mut bytes = Vec::with_capacity(alloc, room)?;
    'segments: loop {
        let Some(segment) = rest.next()? else {
            return Ok(bytes);
        };
        bytes.extend_from_slice(&segment)?;
    }
}

/// Begins to give the bytes of the file that a read cap names, as [`read`] does, but a segment at a time.
///
/// All that is checked is checked here: what is given later is of the shares that were found, which are held, or of the
/// bytes in the cache, and no store is asked again.
///
/// # Errors
/// As those of [`read`].
pub fn begin<S: Store>(
    alloc: Global,
    grid: &mut Grid<S>,
    cache: &mut Cache,
    fields: &ReadFields,
) -> Result<Download, ReadFault>
    ensures leaves { Leaves grid.old grid.new }
    ensures unchanged { IsHonest grid.old → IsUnchanged grid.old grid.new }
    ensures stand_still { StandStill grid.old grid.new }
    ensures told { TellOn grid.old grid.new }
    ensures fresh { IsCacheCurrent cache.old grid.old → IsCacheCurrent cache.new grid.new }
    ensures bound { IfOk result (λ download. Bound fields.now download.left) }
    ensures fit { IsCacheCurrent cache.old grid.old → IsHonest grid.old → NoneFailed grid.old grid.new →
        IfOk result (λ download.
        fit (table_of (stood grid.old) (index_of fields.now.key)) fields.now
        ≡ Some download.left) }
    ensures each { let p = params_of fields.now.k fields.now.n fields.now.size in
        0 < p.size → IfOk result (λ download. download.each ≡ segment_size p) }
    ensures missing { IsHonest grid.old → NoneFailed grid.old grid.new →
        IsErrOf result ReadFault.NotEnoughShares →
        fit (table_of (stood grid.old) (index_of fields.now.key)) fields.now ≡ None }
    ensures fit_reached { IsCacheCurrent cache.old grid.old → IsHonest grid.old →
        IfOk result (λ download. OfReached grid.old grid.new
        (index_of fields.now.key) (λ row. fit row fields.now ≡ Some download.left)) }
    ensures missing_reached { IsHonest grid.old → IsErrOf result ReadFault.NotEnoughShares →
        OfReached grid.old grid.new (index_of fields.now.key) (λ row. fit row fields.now ≡ None) }
    ensures seen { AllTell grid.old → IfOk result (λ download.
        IsKeptOrSeen cache.old grid.old grid.new fields.now download.left) }
    ensures seen_missing { AllTell grid.old → IsErrOf result ReadFault.NotEnoughShares →
        SeesReached grid.old grid.new (index_of fields.now.key) (λ row. fit row fields.now ≡ None) }
    ensures kept_seen { AllTell grid.old → AreKeptSeen cache.old cache.new grid.old grid.new }
{
    if fields.size > MOST_KEPT {
        return begin_long(alloc, grid, cache, fields);
    }
    match fetch(alloc, grid, cache, fields) {
        Ok(bytes) => Ok(whole(alloc, fields, bytes)),
        Err(fault) => Err(fault),
    }
}

/// All bytes of a file, to be given a segment at a time. A file without bytes has none to give.
pub(crate) fn whole(alloc: Global, fields: &ReadFields, bytes: RcSlice<u8>) -> Download
    ensures left { result.left ≡ rc_slice_items bytes }
    ensures each { let p = params_of fields.now.k fields.now.n fields.now.size in
        0 < p.size → result.each ≡ segment_size p }
{
    let params = Params::new(fields.k, fields.n, fields.size);
    Download::whole(alloc, Whole::new(bytes, params.segment_size().max(1)))
}

/// The bytes of a file that isn't long: those that are kept, or else those that the stores give, which are kept then.
fn fetch<S: Store>(
    alloc: Global,
    grid: &mut Grid<S>,
    cache: &mut Cache,
    fields: &ReadFields,
) -> Result<RcSlice<u8>, ReadFault>
    ensures leaves { Leaves grid.old grid.new }
    ensures unchanged { IsHonest grid.old → IsUnchanged grid.old grid.new }
    ensures stand_still { StandStill grid.old grid.new }
    ensures told { TellOn grid.old grid.new }
    ensures fresh { IsCacheCurrent cache.old grid.old → IsCacheCurrent cache.new grid.new }
    ensures bound { IfOk result (λ bytes. Bound fields.now (rc_slice_items bytes)) }
    ensures fit { IsCacheCurrent cache.old grid.old → IsHonest grid.old → NoneFailed grid.old grid.new →
        IfOk result (λ bytes. fit (table_of (stood grid.old) (index_of fields.now.key)) fields.now
        ≡ Some (rc_slice_items bytes)) }
    ensures missing { IsHonest grid.old → NoneFailed grid.old grid.new →
        IsErrOf result ReadFault.NotEnoughShares →
        fit (table_of (stood grid.old) (index_of fields.now.key)) fields.now ≡ None }
    ensures fit_reached { IsCacheCurrent cache.old grid.old → IsHonest grid.old →
        IfOk result (λ bytes. OfReached grid.old grid.new
        (index_of fields.now.key) (λ row. fit row fields.now ≡ Some (rc_slice_items bytes))) }
    ensures missing_reached { IsHonest grid.old → IsErrOf result ReadFault.NotEnoughShares →
        OfReached grid.old grid.new (index_of fields.now.key) (λ row. fit row fields.now ≡ None) }
    ensures seen { AllTell grid.old → IfOk result (λ bytes.
        IsKeptOrSeen cache.old grid.old grid.new fields.now (rc_slice_items bytes)) }
    ensures seen_missing { AllTell grid.old → IsErrOf result ReadFault.NotEnoughShares →
        SeesReached grid.old grid.new (index_of fields.now.key) (λ row. fit row fields.now ≡ None) }
    ensures kept_seen { AllTell grid.old → AreKeptSeen cache.old cache.new grid.old grid.new }
{
    match look_up(grid, cache, fields)? {
        Some(bytes) => Ok(bytes),
        None => read_anew(alloc, grid, cache, fields),
    }
}

/// The bytes that are kept of a file, where they were read at the present stamp.
fn look_up<S: Store>(
    grid: &Grid<S>,
    cache: &mut Cache,
    fields: &ReadFields,
) -> Result<Option<RcSlice<u8>>, AllocError>
    ensures within { IsWithin cache.old cache.new }
    ensures kept { IfOk result (λ found. IfSome found (λ bytes. Contains cache.old
        (fields.now, (raised_at grid.now (index_of fields.now.key), rc_slice_items bytes)))) }
    ensures bound { IfOk result (λ found. IfSome found (λ bytes.
        Bound fields.now (rc_slice_items bytes))) }
    ensures fit { IsCacheCurrent cache.old grid.now → IsHonest grid.now →
        IfOk result (λ found. IfSome found (λ bytes.
        fit (table_of (stood grid.now) (index_of fields.now.key)) fields.now
        ≡ Some (rc_slice_items bytes))) }
{
    match grid.stamp(&storage_index(&fields.key)) {
        Some(stamp) => cache.get(fields, stamp),
        None => Ok(None),
    }
}

/// The bytes that the stores give, which are kept where no store failed.
fn read_anew<S: Store>(
    alloc: Global,
    grid: &mut Grid<S>,
    cache: &mut Cache,
    fields: &ReadFields,
) -> Result<RcSlice<u8>, ReadFault>
    ensures leaves { Leaves grid.old grid.new }
    ensures unchanged { IsHonest grid.old → IsUnchanged grid.old grid.new }
    ensures stand_still { StandStill grid.old grid.new }
    ensures told { TellOn grid.old grid.new }
    ensures fresh { IsCacheCurrent cache.old grid.old → IsCacheCurrent cache.new grid.new }
    ensures bound { IfOk result (λ bytes. Bound fields.now (rc_slice_items bytes)) }
    ensures seen { AllTell grid.old → IfOk result (λ bytes.
        SeesReached grid.old grid.new (index_of fields.now.key) (λ row.
        fit row fields.now ≡ Some (rc_slice_items bytes))) }
    ensures seen_missing { AllTell grid.old → IsErrOf result ReadFault.NotEnoughShares →
        SeesReached grid.old grid.new (index_of fields.now.key) (λ row. fit row fields.now ≡ None) }
    ensures kept_seen { AllTell grid.old → AreKeptSeen cache.old cache.new grid.old grid.new }
{
    let stamp = grid.stamp(&storage_index(&fields.key));
    let failures = grid.failures();
    let bytes = match read_shared(alloc, grid, fields) {
        Ok(bytes) => bytes,
        Err(fault) => return Err(fault),
    };
    if grid.failures() != failures {
        return Ok(bytes);
    }
    keep(cache, fields, stamp, &bytes);
    Ok(bytes)
}

/// Keeps the bytes with this stamp, if there is one. They are shared, not copied.
fn keep(cache: &mut Cache, fields: &ReadFields, stamp: Option<u64>, bytes: &RcSlice<u8>)
    requires { Bound fields.now (rc_slice_items bytes.now) }
    ensures { MatchOption stamp (cache.new ≡ cache.old)
        (λ stamp. IsWithinOr cache.old cache.new (fields.now, (stamp, rc_slice_items bytes.now))) }
{
    let Some(stamp) = stamp else {
        return;
    };
    let Ok(shared) = bytes.clone() else {
        return;
    };
    cache.put(*fields, stamp, shared);
}

/// The bytes that the stores give, so that they can be shared.
fn read_shared<S: Store>(
    alloc: Global,
    grid: &mut Grid<S>,
    fields: &ReadFields,
) -> Result<RcSlice<u8>, ReadFault>
    ensures leaves { Leaves grid.old grid.new }
    ensures stamps { grid.new.stamps ≡ grid.old.stamps }
    ensures unchanged { IsHonest grid.old → IsUnchanged grid.old grid.new }
    ensures stand_still { StandStill grid.old grid.new }
    ensures told { TellOn grid.old grid.new }
    ensures bound { IfOk result (λ bytes. Bound fields.now (rc_slice_items bytes)) }
    ensures seen { AllTell grid.old → IfOk result (λ bytes.
        SeesReached grid.old grid.new (index_of fields.now.key) (λ row.
        fit row fields.now ≡ Some (rc_slice_items bytes))) }
    ensures seen_missing { AllTell grid.old → IsErrOf result ReadFault.NotEnoughShares →
        SeesReached grid.old grid.new (index_of fields.now.key) (λ row. fit row fields.now ≡ None) }
{
    match read_stores(alloc, grid, fields) {
        Ok(bytes) => Ok(RcSlice::from_vec(bytes)?),
        Err(fault) => Err(fault),
    }
}

/// The bytes that the stores give.
fn read_stores<S: Store>(
    alloc: Global,
    grid: &mut Grid<S>,
    fields: &ReadFields,
) -> Result<Vec<u8>, ReadFault>
    ensures leaves { Leaves grid.old grid.new }
    ensures stamps { grid.new.stamps ≡ grid.old.stamps }
    ensures unchanged { IsHonest grid.old → IsUnchanged grid.old grid.new }
    ensures stand_still { StandStill grid.old grid.new }
    ensures told { TellOn grid.old grid.new }
    ensures bound { IfOk result (λ bytes. Bound fields.now bytes.items) }
    ensures seen { AllTell grid.old → IfOk result (λ bytes.
        SeesReached grid.old grid.new (index_of fields.now.key) (λ row.
        fit row fields.now ≡ Some bytes.items)) }
    ensures seen_missing { AllTell grid.old → IsErrOf result ReadFault.NotEnoughShares →
        SeesReached grid.old grid.new (index_of fields.now.key) (λ row. fit row fields.now ≡ None) }
{
    match verify(alloc, grid, fields) {
        Ok((_, bytes)) => Ok(apply_keystream(fields.key, bytes)),
        Err(fault) => Err(fault),
    }
}
