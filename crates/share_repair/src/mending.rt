//! The files of a grid, looked at and repaired one by one.
ghost use Rattle.std.specs.Prelude.{◌≡◌, ◌<◌, ◌≤◌, ◌^◌, All, IfOk, length, map};
ghost use Rattle.std.specs.Rc.{rc_slice_items};
ghost use Rattle.grid.specs.GridState.{IsHonest};
ghost use Rattle.grid.specs.Leaves.{Leaves, IsUnchanged};
ghost use Rattle.share_repair.specs.Judged.{IsJudged};
ghost use Rattle.share_repair.specs.Kept.{KeepsGood, IsStandingShare, LosesAtMost};
ghost use Rattle.share_repair.specs.Made.{PutsDetermined, PutsOnly, PutsNone};
ghost use Rattle.share_repair.specs.Whole.{IsMended, IsWholeFile};

use crate::choosing::{chosen, given, has_rival, missing, place_of};
use crate::fault::RepairFault;
use crate::judging::{Judged, judge_each};
use crate::label::Label;
use crate::making::repaired;
use grid::{Grid, GridFault};
use share_store::Store;
use std::alloc::{AllocError, Global};
use std::rc::RcSlice;

/// How a file was found, and how it was left.
#[derive(Clone, Copy, PartialEq, Eq)]
pub enum Outcome {
    /// A good share of each number stood in its place.
    Whole,
    /// So many shares were put, and now a good share of each number stands in its place.
    Repaired(u32),
    /// There are not enough good shares, or they aren't of one crypttext. Nothing was changed.
    Lost,
    /// There are enough good shares of each of two files. Nothing was changed.
    Several,
    /// In so many places there is still no good share of the file: another file's stands there, or it was not given back.
    Unfinished(u32),
}

/// Looks at the shares under a storage index, each by what it says itself, and puts those that aren't there or aren't good
/// back in their places, made of the others.
///
/// A share that is good, for whatever file, stays as it is wherever it stands. A string that is good for none is taken away
/// where a share of the file is to stand, and else left alone.
///
/// # Errors
/// `NoMemory` where memory is refused; `Down` and `Full` name the server whose store failed or had no room, at which it
/// stopped. What was put till then stands.
#[tactic(auto, using(crate::proofs::Leaving::leaves_then))]
pub fn repair<S: Store>(
    alloc: Global,
    grid: &mut Grid<S>,
    index: [u8; 16],
) -> Result<Outcome, GridFault>
    ensures leaves { Leaves grid.old grid.new }
    ensures kept { IsHonest grid.old → KeepsGood index grid.old grid.new }
    ensures puts { IsHonest grid.old → PutsDetermined index grid.old grid.new }
    ensures whole { IsHonest grid.old → IfOk result (λ outcome.
        IsMended outcome → IsWholeFile index grid.new) }
{
    let standing = judged(alloc, grid, index)?;
    let Some(one) = chosen(&standing) else {
        return Ok(Outcome::Lost);
    };
    let Some(label) = &one.label else {
        return Ok(Outcome::Lost);
    };
    if has_rival(&standing, label) {
        return Ok(Outcome::Several);
    }
    mend(alloc, grid, index, label, &standing)
}

/// What stands under a storage index, judged.
fn judged<S: Store>(
    alloc: Global,
    grid: &mut Grid<S>,
    index: [u8; 16],
) -> Result<Vec<Judged>, AllocError>
    ensures leaves { Leaves grid.old grid.new }
    ensures unchanged { IsHonest grid.old → IsUnchanged grid.old grid.new }
    ensures stands { IsHonest grid.old → IfOk result (λ judged.
        All (IsStandingShare grid.new index) judged.items) }
    ensures told { IfOk result (λ judged. All IsJudged judged.items) }
{
    let found = grid.gather(index)?;
    judge_each(alloc, &found)
}

/// Puts the shares of a file that aren't in their places.
#[tactic(auto, using(crate::proofs::Leaving::leaves_then))]
fn mend<S: Store>(
    alloc: Global,
    grid: &mut Grid<S>,
    index: [u8; 16],
    label: &Label,
    standing: &[Judged],
) -> Result<Outcome, GridFault>
    requires told { All IsJudged standing.now }
    requires stands { IsHonest grid.old → All (IsStandingShare grid.old index) standing.now }
    ensures leaves { Leaves grid.old grid.new }
    ensures kept { IsHonest grid.old → KeepsGood index grid.old grid.new }
    ensures puts { IsHonest grid.old → PutsDetermined index grid.old grid.new }
    ensures whole { IsHonest grid.old → IfOk result (λ outcome.
        IsMended outcome → IsWholeFile index grid.new) }
{
    share_codec::laws::params_are_a_sharing(&label.params);
    size_fits(label);
    let servers = grid.servers();
    let before = missing(standing, label, &index, servers);
    if before == 0 {
        return Ok(Outcome::Whole);
    }
    let given = given(alloc, standing, label)?;
    match repaired(alloc, label, &given) {
        Ok(made) => {
            let shares = shared(alloc, made)?;
            put_back(grid, index, standing, &shares)?;
            let standing = judged(alloc, grid, index)?;
            let after = missing(&standing, label, &index, servers);
            Ok(outcome_of(before, after))
        }
        Err(RepairFault::Unlike) => Ok(Outcome::Lost),
        Err(RepairFault::NoMemory) => Err(GridFault::NoMemory),
    }
}

/// A file has as many bytes as 64 bits count.
fn size_fits(label: &Label)
    ensures { label.now.params.size < 2 ^ 64 }
{
    let _size = label.params.size;
}

/// How a file is left of which so many places lacked a share before, and so many after.
fn outcome_of(before: u32, after: u32) -> Outcome
    ensures { IsMended result → after ≡ 0 }
{
    match after {
        0 => Outcome::Repaired(before),
        _ => Outcome::Unfinished(after),
    }
}

/// Takes away what is a good share of no file where a share is to stand, and puts the shares where none stands.
#[tactic(auto, using(crate::proofs::Leaving::leaves_then))]
fn put_back<S: Store>(
    grid: &mut Grid<S>,
    index: [u8; 16],
    standing: &[Judged],
    shares: &[RcSlice<u8>],
) -> Result<(), GridFault>
    requires told { All IsJudged standing.now }
    requires stands { IsHonest grid.old → All (IsStandingShare grid.old index) standing.now }
    requires few { length shares.now ≤ 256 }
    requires some { All (λ share. 0 < length (rc_slice_items share)) shares.now }
    ensures leaves { Leaves grid.old grid.new }
    ensures kept { IsHonest grid.old → KeepsGood index grid.old grid.new }
    ensures puts { IsHonest grid.old →
        PutsOnly index (map rc_slice_items shares.now) grid.old grid.new }
{
    clear(grid, index, standing, shares.len())?;
    grid.put_all(index, shares)
}

/// Takes away what is a good share of no file where one of so many shares is to stand.
fn clear<S: Store>(
    grid: &mut Grid<S>,
    index: [u8; 16],
    standing: &[Judged],
    shares: usize,
) -> Result<(), GridFault>
    requires told { All IsJudged standing.now }
    requires stands { IsHonest grid.old → All (IsStandingShare grid.old index) standing.now }
    ensures leaves { Leaves grid.old grid.new }
    ensures kept { IsHonest grid.old → KeepsGood index grid.old grid.new }
    ensures puts { IsHonest grid.old → PutsNone grid.old grid.new }
{
    for one in standing {
        clear_one(grid, index, one, shares)?;
    }
    Ok(())
}

/// Takes a string away, if it is a good share of no file and one of so many shares is to stand there.
fn clear_one<S: Store>(
    grid: &mut Grid<S>,
    index: [u8; 16],
    one: &Judged,
    shares: usize,
) -> Result<(), GridFault>
    requires { IsJudged one.now }
    ensures leaves { Leaves grid.old grid.new }
    ensures kept { IsHonest grid.old → LosesAtMost index one.now grid.old grid.new }
{
    let place = place_of(&index, one.number, grid.servers());
    let number = usize::from(one.number);
    if number >= shares {
        return Ok(());
    }
    if !one.gives_way(place) {
        return Ok(());
    }
    match grid.lose(one.server, index, one.number) {
        Ok(_) => Ok(()),
        Err(fault) => Err(fault),
    }
}

/// Shares that can be lent.
fn shared(alloc: Global, shares: Vec<Vec<u8>>) -> Result<Vec<RcSlice<u8>>, AllocError>
    ensures { IfOk result (λ lent. map rc_slice_items lent.items
        ≡ map (λ share. share.items) shares.items) }
{
    let mut lent = Vec::with_capacity(alloc, shares.len())?;
    for share in shares {
        lent.push(RcSlice::from_vec(share)?)?;
    }
    Ok(lent)
}
