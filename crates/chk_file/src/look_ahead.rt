//! Looking names up in directories, before they are asked for.
ghost use Rattle.std.specs.Prelude.{◌≡◌, Contains, IfOk, IfSome};
ghost use Rattle.grid.specs.GridState.{IsHonest};
ghost use Rattle.grid.specs.Leaves.{Leaves, IsUnchanged};
ghost use Rattle.grid.specs.Views.{AllTell, StandStill, TellOn};
ghost use Rattle.file_shares.specs.Bound.{Bound};
ghost use Rattle.chk_file.specs.Cached.{IsCacheCurrent, IsWithin, IsWithinOr};
ghost use Rattle.chk_file.specs.Amid.{AreKeptSeen};
ghost use Rattle.chk_file.specs.Seen.{step_entry};
ghost use Rattle.chk_file.specs.Steps.{IsSought};
ghost use Rattle.chk_file.specs.Told.{told_in};

use crate::cache::Cache;
use crate::held::{held_now, read_step};
use crate::looking::{Looked, Looking};
use crate::reader::begin;
use crate::steps::{MOST_IN_A_NAME, Step};
use caps::{ReadFields, storage_index};
use dir_codec::{Sought, find_child};
use grid::Grid;
use octets::{Bytes, Text};
use share_store::Store;
use std::alloc::{AllocError, Global};

/// What was found under a name in the directory with these fields, where it was looked up at the present stamp; none where
/// it wasn't. No store is asked.
///
/// # Errors
/// Only where memory is refused, which a cap takes whose bytes stand in it.
pub fn sought<S: Store>(
    alloc: Global,
    grid: &Grid<S>,
    cache: &Cache,
    fields: &ReadFields,
    name: &Text,
) -> Result<Option<Sought>, AllocError>
    ensures { IfOk result (λ found. IfSome found (λ sought.
        IsSought cache.now grid.now fields.now name.now sought)) }
{
    let Some(stamp) = grid.stamp(&storage_index(&fields.key)) else {
        return Ok(None);
    };
    let Some(step) = cache.step(fields, stamp, name) else {
        return Ok(None);
    };
    Ok(Some(step.sought(alloc)?))
}

impl Cache {
    /// Takes one step, of some milliseconds at most, of looking a name up in the directory with these fields, and says
    /// whether steps are left.
    ///
    /// The directory's file is read as `read_ahead` and `begin` do, its bytes are gathered a segment at a time, and then the
    /// name is looked for in some 65,536 bytes at a time. What was found is kept for `sought`, with the stamp of the
    /// directory's storage index: of the last 256 names of at most 16,384 bytes, unless it is a cap in which more than 16,384
    /// bytes stand. One directory is looked through at a time; one that is looked through for another name, or was stored
    /// again since, is let go. Where the file isn't found, a store fails or memory is refused, no step is left.
    pub fn look_ahead<S: Store>(
        &mut self,
        alloc: Global,
        grid: &mut Grid<S>,
        fields: &ReadFields,
        name: &Text,
    ) -> bool
        ensures leaves { Leaves grid.old grid.new }
        ensures unchanged { IsHonest grid.old → IsUnchanged grid.old grid.new }
        ensures stand_still { StandStill grid.old grid.new }
        ensures told { TellOn grid.old grid.new }
        ensures fresh { IsCacheCurrent self.old grid.old → IsCacheCurrent self.new grid.new }
        ensures kept_seen { AllTell grid.old → AreKeptSeen self.old self.new grid.old grid.new }
    {
        let Some(stamp) = grid.stamp(&storage_index(&fields.key)) else {
            return false;
        };
        if name.as_str().len() > MOST_IN_A_NAME || self.step(fields, stamp, name).is_some() {
            return false;
        }
        if let Some(looking) = self.take_looking() {
            if looking.is_of(fields, name) {
                return look_on(alloc, self, looking, stamp);
            }
        }
        read_first(alloc, grid, self, fields, name)
    }

    /// Looks a name up at once in the directory with these fields, which had better be a small one. What was found is kept
    /// for `sought`, as `look_ahead` keeps it: beside what others' walks found, or beside what was found for the one whose
    /// turn it is to be prepared.
    pub fn look_now<S: Store>(
        &mut self,
        alloc: Global,
        grid: &mut Grid<S>,
        fields: &ReadFields,
        name: &Text,
        is_its_turn: bool,
    )
        ensures leaves { Leaves grid.old grid.new }
        ensures unchanged { IsHonest grid.old → IsUnchanged grid.old grid.new }
        ensures stand_still { StandStill grid.old grid.new }
        ensures told { TellOn grid.old grid.new }
        ensures fresh { IsCacheCurrent self.old grid.old → IsCacheCurrent self.new grid.new }
        ensures kept_seen { AllTell grid.old → AreKeptSeen self.old self.new grid.old grid.new }
    {
        if begin(alloc, grid, self, fields).is_ok() {
            keep_found(alloc, grid, self, fields, name, is_its_turn);
        }
    }
}

/// Looks a name up in a directory of at most 1,048,576 bytes that the cache has, and keeps what was found.
fn keep_found<S: Store>(
    alloc: Global,
    grid: &Grid<S>,
    cache: &mut Cache,
    fields: &ReadFields,
    name: &Text,
    is_its_turn: bool,
)
    ensures { IsWithin cache.old cache.new }
{
    if let Ok(Some(step)) = step_now(alloc, grid, cache, fields, name) {
        if step.is_small() {
            cache.add_step(step, is_its_turn);
        }
    }
}

/// What is found under a name in a directory that the cache has.
fn step_now<S: Store>(
    alloc: Global,
    grid: &Grid<S>,
    cache: &mut Cache,
    fields: &ReadFields,
    name: &Text,
) -> Result<Option<Step>, AllocError>
    ensures within { IsWithin cache.old cache.new }
    ensures there { IfOk result (λ found. IfSome found (λ step.
        Contains cache.old (step_entry step))) }
    ensures bound { IfOk result (λ found. IfSome found (λ step.
        Bound step.fields (told_in step.told.items))) }
{
    let Some(stamp) = grid.stamp(&storage_index(&fields.key)) else {
        return Ok(None);
    };
    let Some(kept) = cache.get(fields, stamp)? else {
        return Ok(None);
    };
    // A step tells of `Bytes`.
    let bytes = Bytes::from_slice(alloc, kept.as_slice())?;
    let sought = find_child(alloc, bytes.as_slice(), name.as_str())?;
    let text = Text::from_string(String::from_str(alloc, name.as_str())?);
    Ok(Some(Step::new(*fields, stamp, text, sought, &bytes)))
}

/// One step more of a directory that is looked through. Where it was stored again since, it is let go of, and begun anew by
/// the next step.
fn look_on(alloc: Global, cache: &mut Cache, looking: Looking, stamp: u64) -> bool
    requires { Bound looking.0 looking.1.1 }
    ensures { IsWithinOr cache.old cache.new looking }
{
    if !looking.is_at(stamp) {
        return true;
    }
    match looking.step(alloc) {
        Ok(Looked::Going(next)) => {
            cache.put_looking(next);
            true
        }
        Ok(Looked::Done(step)) => {
            if step.is_small() {
                cache.add_step(step, true);
            }
            false
        }
        Err(_) => false,
    }
}

/// One step of reading the file of a directory, after which it is looked through.
fn read_first<S: Store>(
    alloc: Global,
    grid: &mut Grid<S>,
    cache: &mut Cache,
    fields: &ReadFields,
    name: &Text,
) -> bool
    ensures leaves { Leaves grid.old grid.new }
    ensures unchanged { IsHonest grid.old → IsUnchanged grid.old grid.new }
    ensures stand_still { StandStill grid.old grid.new }
    ensures told { TellOn grid.old grid.new }
    ensures fresh { IsCacheCurrent cache.old grid.old → IsCacheCurrent cache.new grid.new }
    ensures kept_seen { AllTell grid.old → AreKeptSeen cache.old cache.new grid.old grid.new }
{
    match read_step(alloc, grid, cache, fields) {
        Ok(true) => look_first(alloc, grid, cache, fields, name),
        Ok(false) => true,
        Err(_) => false,
    }
}

/// Begins to look through a directory that the cache has.
fn look_first<S: Store>(
    alloc: Global,
    grid: &Grid<S>,
    cache: &mut Cache,
    fields: &ReadFields,
    name: &Text,
) -> bool
    ensures { IsWithin cache.old cache.new }
{
    match looking_at(alloc, grid, cache, fields, name) {
        Ok(Some(looking)) => {
            cache.put_looking(looking);
            true
        }
        Ok(None) | Err(_) => false,
    }
}

/// A look through a directory that the cache has, before its first step.
fn looking_at<S: Store>(
    alloc: Global,
    grid: &Grid<S>,
    cache: &mut Cache,
    fields: &ReadFields,
    name: &Text,
) -> Result<Option<Looking>, AllocError>
    ensures within { IsWithin cache.old cache.new }
    ensures there { IfOk result (λ found. IfSome found (λ looking. Contains cache.old looking)) }
    ensures bound { IfOk result (λ found. IfSome found (λ looking.
        Bound looking.0 looking.1.1)) }
{
    let Some((stamp, download)) = held_now(alloc, grid, cache, fields)? else {
        return Ok(None);
    };
    Ok(Some(Looking::new(alloc, fields, stamp, name, download)?))
}
