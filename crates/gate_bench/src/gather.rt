//! Times the gathering of a file's ten shares: from a grid in which nothing else stands, and from one that holds the
//! shares of ten thousand files.
ghost use Rattle.std.specs.Prelude.{◌≡◌, ◌<◌, All, IfOk, vec_len};
ghost use Rattle.std.specs.Prelude.{length as length_of};
ghost use Rattle.std.specs.Rc.{rc_slice_items};

use anyhow::ensure;
use grid::Grid;
use share_store::MemStore;
use std::alloc::Global;
use std::rc::RcSlice;
use std::rt::Clock;
use std::time::Instant;

/// How many servers there are.
const SERVERS: usize = 5;

/// The room of each in bytes.
const ROOM: u64 = 1_073_741_824;

/// How many shares a file has.
const SHARES: usize = 10;

/// How many files the larger grid holds.
const FILES: u32 = 10_000;

/// How often the shares are gathered in a turn.
const TIMES: u32 = 1_000;

/// The least microseconds that so many gatherings took in one of so many turns: from a grid of ten shares, and from one
/// of a hundred thousand.
pub(crate) fn least(
    rt: &(impl Clock + AllocGlobal),
    turns: u32,
    byte: u8,
) -> anyhow::Result<(u128, u128)> {
    let mut few = grid_of(rt.alloc(), 1, byte)?;
    let mut many = grid_of(rt.alloc(), FILES, byte)?;
    least_over(rt, turns, &mut few, &mut many)
}

/// The same over these grids: a function that owns them and leaves at several places takes the prover long.
fn least_over(
    rt: &(impl Clock + AllocGlobal),
    turns: u32,
    few: &mut Grid<MemStore>,
    many: &mut Grid<MemStore>,
) -> anyhow::Result<(u128, u128)> {
    let mut least = (u128::MAX, u128::MAX);
    for _turn in 0..turns {
        least.0 = least.0.min(gathered(rt, few, 1)?);
        least.1 = least.1.min(gathered(rt, many, FILES)?);
    }
    Ok(least)
}

/// A grid with the shares of so many files. Each share is one byte.
fn grid_of(alloc: Global, files: u32, byte: u8) -> anyhow::Result<Grid<MemStore>> {
    let shares = shares(alloc, byte)?;
    let mut grid = Grid::new(stores(alloc)?);
    for file in 0..files {
        grid.put_all(index_of(file), &shares)?;
    }
    Ok(grid)
}

/// The storage index of a file. Neighbours stand far from each other in the order of indexes.
fn index_of(file: u32) -> [u8; 16] {
    let mixed = u64::from(file).wrapping_mul(0x9e37_79b9_7f4a_7c15);
    let mut index = [0; 16];
    index[..8].copy_from_slice(&mixed.to_be_bytes());
    index[15] = index[0];
    index
}

/// Empty stores.
fn stores(alloc: Global) -> anyhow::Result<Vec<MemStore>>
    ensures { IfOk result (λ stores. vec_len stores ≡ 5) }
{
    let mut stores = Vec::with_capacity(alloc, SERVERS)?;
    for _server in 0..SERVERS {
        stores.push(MemStore::new(alloc, ROOM))?;
    }
    Ok(stores)
}

/// The shares of a file.
fn shares(alloc: Global, byte: u8) -> anyhow::Result<Vec<RcSlice<u8>>>
    ensures count { IfOk result (λ shares. vec_len shares ≡ 10) }
    ensures some { IfOk result (λ shares.
        All (λ share. 0 < length_of (rc_slice_items share)) shares.items) }
{
    let mut shares = Vec::with_capacity(alloc, SHARES)?;
    for _share in 0..SHARES {
        shares.push(RcSlice::from_slice(alloc, &[byte])?)?;
    }
    Ok(shares)
}

/// The microseconds of gathering the shares of files in turn.
fn gathered(
    rt: &(impl Clock + AllocGlobal),
    grid: &mut Grid<MemStore>,
    files: u32,
) -> anyhow::Result<u128> {
    let mut seen = 0;
    let start = Instant::now(rt)?;
    for time in 0..TIMES {
        let file = if time < files { time } else { 0 };
        seen |= grid.gather(index_of(file))?.len() ^ SHARES;
    }
    let took = start.elapsed(rt)?.as_micros();
    ensure!(seen == 0, "a share is missing");
    Ok(took)
}
