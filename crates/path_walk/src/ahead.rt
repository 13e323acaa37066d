//! Walks that are prepared: names are looked up before the walk, a step at a time.
ghost use Rattle.grid.specs.GridState.{IsHonest};
ghost use Rattle.grid.specs.Leaves.{Leaves, IsUnchanged};
ghost use Rattle.grid.specs.Views.{AllTell, StandStill, TellOn};
ghost use Rattle.chk_file.specs.Amid.{AreKeptSeen};
ghost use Rattle.chk_file.specs.Cached.{IsCacheCurrent};

use caps::{Cap, ReadFields, copy_cap};
use chk_file::{Cache, sought};
use dir_codec::{Sought, find_child};
use grid::Grid;
use octets::Text;
use path_names::Names;
use share_store::Store;
use std::alloc::Global;

/// The most bytes of directories that are read and looked through in one step.
const MOST_AT_ONCE: u64 = 65_536;

/// The most bytes of a directory in a cap that are looked through.
const MOST_IN_A_CAP: usize = 16_384;

/// How far a walk is prepared.
#[derive(Drop)]
pub enum Ahead {
    /// Steps are left.
    Waits,
    /// The names lead to this cap, as far as is known.
    At(Cap),
    /// Nothing more can be prepared: a name leads nowhere, or memory is refused.
    Over,
}

/// What is known of a child.
#[derive(Drop)]
enum Next {
    /// It is this one, for which directories of so many bytes were looked through now.
    At(Cap, u64),
    /// It is looked for.
    Waits,
    /// There is none, or memory is refused.
    Over,
}

/// Takes one step, of some milliseconds at most, of what a walk from a cap down these names will need, and says how far it
/// is then. What is found is kept in the cache, where [`crate::walk`] looks first.
///
/// Directories are looked through at once, up to 65,536 bytes a step. A longer one is looked through a piece at a time, and
/// one such walk is prepared at a time: it waits where `is_its_turn` is false. Whatever is prepared, or isn't, a walk
/// ends as it does without.
pub fn walk_ahead<S: Store>(
    alloc: Global,
    grid: &mut Grid<S>,
    cache: &mut Cache,
    cap: &Cap,
    names: &Names,
    is_its_turn: bool,
) -> Ahead
    ensures leaves { Leaves grid.old grid.new }
    ensures unchanged { IsHonest grid.old → IsUnchanged grid.old grid.new }
    ensures stand_still { StandStill grid.old grid.new }
    ensures told { TellOn grid.old grid.new }
    ensures fresh { IsCacheCurrent cache.old grid.old → IsCacheCurrent cache.new grid.new }
    ensures kept_seen { AllTell grid.old → AreKeptSeen cache.old cache.new grid.old grid.new }
{
    let Ok(mut here) = copy_cap(alloc, cap) else {
        return Ahead::Over;
    };
    let mut left = MOST_AT_ONCE;
    for name in names.as_slice() {
        match next_ahead(alloc, grid, cache, &here, name, left, is_its_turn) {
            Next::At(child, bytes) => {
                here = child;
                left = left.saturating_sub(bytes);
            }
            Next::Waits => return Ahead::Waits,
            Next::Over => return Ahead::Over,
        }
    }
    Ahead::At(here)
}

/// The child of this name in what a cap names, where directories of `left` bytes may be looked through now.
fn next_ahead<S: Store>(
    alloc: Global,
    grid: &mut Grid<S>,
    cache: &mut Cache,
    cap: &Cap,
    name: &Text,
    left: u64,
    is_its_turn: bool,
) -> Next
    ensures leaves { Leaves grid.old grid.new }
    ensures unchanged { IsHonest grid.old → IsUnchanged grid.old grid.new }
    ensures stand_still { StandStill grid.old grid.new }
    ensures told { TellOn grid.old grid.new }
    ensures fresh { IsCacheCurrent cache.old grid.old → IsCacheCurrent cache.new grid.new }
    ensures kept_seen { AllTell grid.old → AreKeptSeen cache.old cache.new grid.old grid.new }
{
    match cap {
        Cap::DirChk(fields) => match known_child(alloc, grid, cache, fields, name) {
            Next::Waits => look(alloc, grid, cache, fields, name, left, is_its_turn),
            known => known,
        },
        Cap::DirLit(bytes) => child_here(alloc, bytes.as_slice(), name),
        Cap::Chk(_) | Cap::Lit(_) | Cap::ChkVerify(_) | Cap::DirChkVerify(_) => Next::Over,
    }
}

/// The child of this name in the directory with these fields, where it was looked up before.
fn known_child<S: Store>(
    alloc: Global,
    grid: &Grid<S>,
    cache: &Cache,
    fields: &ReadFields,
    name: &Text,
) -> Next {
    match sought(alloc, grid, cache, fields, name) {
        Ok(Some(Sought::Child(child))) => Next::At(child, 0),
        Ok(None) => Next::Waits,
        Ok(Some(_)) | Err(_) => Next::Over,
    }
}

/// The child of this name in a directory whose text stands in its cap, if it isn't long.
fn child_here(alloc: Global, bytes: &[u8], name: &Text) -> Next {
    if bytes.len() > MOST_IN_A_CAP {
        return Next::Over;
    }
    match find_child(alloc, bytes, name.as_str()) {
        Ok(Sought::Child(child)) => Next::At(child, 0),
        _ => Next::Over,
    }
}

/// Looks this name up in the directory with these fields: in a long one it takes a step.
fn look<S: Store>(
    alloc: Global,
    grid: &mut Grid<S>,
    cache: &mut Cache,
    fields: &ReadFields,
    name: &Text,
    left: u64,
    is_its_turn: bool,
) -> Next
    ensures leaves { Leaves grid.old grid.new }
    ensures unchanged { IsHonest grid.old → IsUnchanged grid.old grid.new }
    ensures stand_still { StandStill grid.old grid.new }
    ensures told { TellOn grid.old grid.new }
    ensures fresh { IsCacheCurrent cache.old grid.old → IsCacheCurrent cache.new grid.new }
    ensures kept_seen { AllTell grid.old → AreKeptSeen cache.old cache.new grid.old grid.new }
{
    if fields.size.min(MOST_AT_ONCE) > left {
        return Next::Waits;
    }
    if fields.size <= MOST_AT_ONCE {
        cache.look_now(alloc, grid, fields, name, is_its_turn);
        return found(known_child(alloc, grid, cache, fields, name), fields.size);
    }
    if !is_its_turn {
        return Next::Waits;
    }
    if cache.look_ahead(alloc, grid, fields, name) {
        return Next::Waits;
    }
    found(known_child(alloc, grid, cache, fields, name), fields.size)
}

/// What is known once a directory of so many bytes was looked through.
fn found(known: Next, bytes: u64) -> Next {
    match known {
        Next::At(child, _) => Next::At(child, bytes),
        Next::Waits | Next::Over => Next::Over,
    }
}
