//! A set of numbers that takes memory for its gaps, and not for its numbers.
ghost use Rattle.std.specs.Prelude.{◌≡◌, ◌<◌, ◌+◌, ◌||◌, ◌^◌, ℕ, nat_eq, OnOk, OnErr, IsSome};
ghost use Rattle.std.specs.Ordering.{nat_cmp};
ghost use Rattle.std.specs.FinSet as set;
ghost use Rattle.std.specs.BTreeMap.{get};
ghost use Rattle.gate_base.specs.Ids.{is_among, is_before};

use std::alloc::{AllocError, Global};
use std::collections::BTreeMap;
use std::marker::Model;

/// A set of ids. Ids that follow each other take as much memory as one: what is kept are the numbers at which
/// membership turns, with what holds from there on.
#[derive(Drop)]
pub struct Ids {
    turns: BTreeMap<u64, bool>,
}

impl Model for Ids {
    ghost use Rattle.std.specs.Ordering.{nat_cmp};
    ghost use Rattle.std.specs.FinSet as set;
    ghost use Rattle.std.specs.Coded.{coded_ℕ};
    ghost use Rattle.std.specs.BTreeMap.{get};
    ghost use Rattle.gate_base.specs.Ids.{ids_of};

    ghost Value = { set.FinSet nat_cmp };

    ghost coded = { set.code coded_ℕ };

    ghost view = { λ ids. ids_of (get nat_cmp ids.turns) };
}

impl Ids {
    /// No ids. Takes no memory.
    pub fn new(alloc: Global) -> Ids
        ensures { result ≡ set.empty }
    {
        Ids {
            turns: BTreeMap::new(alloc),
        }
    }

    /// Whether an id is among them. Takes no memory.
    pub fn contains(&self, id: u64) -> bool
        ensures { result ≡ set.contains self.now id }
    {
        is_among(&self.turns, id)
    }

    /// Adds an id, if it isn't among them.
    pub fn insert(&mut self, id: u64) -> Result<(), AllocError>
        ensures ok { OnOk result (self.new ≡ set.insert self.old id) }
        ensures err { OnErr result (self.new ≡ self.old) }
    {
        add(&mut self.turns, id)
    }
}

/// Whether a number is among those of these turns.
fn is_among(turns: &BTreeMap<u64, bool>, id: u64) -> bool
    ensures { result ≡ is_among (get nat_cmp turns.now) id }
{
    match turns.range(..=id).next_back() {
        Some((_, holds)) => *holds,
        None => false,
    }
}

/// Adds a number.
fn add(turns: &mut BTreeMap<u64, bool>, id: u64) -> Result<(), AllocError>
    ensures ok { OnOk result ((x : ℕ) → x < 2 ^ 64 → is_among (get nat_cmp turns.new) x
        ≡ (nat_eq x id || is_among (get nat_cmp turns.old) x)) }
    ensures err { OnErr result ((x : ℕ) → is_among (get nat_cmp turns.new) x
        ≡ is_among (get nat_cmp turns.old) x) }
{
    part_behind(turns, id)?;
    let Ok(_) = turns.insert(id, true) else {
        return Err(AllocError);
    };
    join(turns, id);
    if let Some(next) = id.checked_add(1) {
        join(turns, next);
    }
    Ok(())
}

/// Writes down behind a number what holds there, so that a turn at the number itself says nothing of those behind it.
fn part_behind(turns: &mut BTreeMap<u64, bool>, id: u64) -> Result<(), AllocError>
    ensures same { (x : ℕ) → is_among (get nat_cmp turns.new) x
        ≡ is_among (get nat_cmp turns.old) x }
    ensures parted { OnOk result (id + 1 < 2 ^ 64 → IsSome (get nat_cmp turns.new (id + 1))) }
{
    let Some(next) = id.checked_add(1) else {
        return Ok(());
    };
    let holds = is_among(turns, next);
    match turns.insert(next, holds) {
        Ok(_) => Ok(()),
        Err(_) => Err(AllocError),
    }
}

/// Whether the number before this is among them.
fn is_before(turns: &BTreeMap<u64, bool>, id: u64) -> bool
    ensures { result ≡ is_before (get nat_cmp turns.now) id }
{
    match id.checked_sub(1) {
        Some(last) => is_among(turns, last),
        None => false,
    }
}

/// Drops a turn at which nothing turns.
fn join(turns: &mut BTreeMap<u64, bool>, id: u64)
    ensures { (x : ℕ) → is_among (get nat_cmp turns.new) x
        ≡ is_among (get nat_cmp turns.old) x }
{
    let before = is_before(turns, id);
    let Some(&holds) = turns.get(&id) else {
        return;
    };
    if holds == before {
        turns.remove(&id);
    }
}
