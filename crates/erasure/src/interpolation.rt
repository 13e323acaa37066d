//! The value of a polynomial at one evaluation point from its values at others, byte by byte over whole blocks.
ghost use Rattle.std.specs.Prelude.{◌≡◌, ◌<◌, ◌≤◌, ◌++◌, length, take, replicate, OnOk, OnErr};
ghost use Rattle.erasure.specs.Code.{place_of, AreBytes};
ghost use Rattle.erasure.specs.Blocks.{distance_of, whole_distance_of, weight_of, size_of, block_through, first_places, AreInverses};
ghost use Rattle.erasure.specs.Given.{contents_of, HaveOneLength};

use crate::kernel::mul_add;
use gf_field::{exp, inv, mul};
use std::alloc::AllocError;

/// The evaluation point of block `number`.
pub(crate) fn place(number: u16) -> u8
    requires { number < 256 }
    ensures { result ≡ place_of number }
{
    if number == 0 {
        0
    } else {
        exp((number - 1) as u8)
    }
}

/// The points of the first `k` blocks, and 0 past them.
pub(crate) fn places_of_first(k: u16) -> [u8; 256]
    requires { k ≤ 256 }
    ensures { take k result ≡ first_places k }
{
    let mut places = [0u8; 256];
    for j in 0..k {
        places[j as usize] = place(j);
    }
    places
}

/// How far `x` is from each of the points but point `j`, multiplied.
fn distance(places: &[u8], j: usize, x: u8) -> u8
    ensures { result ≡ distance_of places.now j x }
{
    let mut product = 1;
    for (m, place) in places.iter().enumerate() {
        if m != j {
            product = mul(product, x ^ *place);
        }
    }
    product
}

/// How far `x` is from each of the points, multiplied.
fn whole_distance(places: &[u8], x: u8) -> u8
    ensures { result ≡ whole_distance_of places.now x }
{
    let mut product = 1;
    for place in places {
        product = mul(product, x ^ *place);
    }
    product
}

/// `distance`, by one product where `x` isn't point `j`: from `whole`, how far it is from all of the points.
fn distance_from_whole(places: &[u8], j: usize, x: u8, whole: u8) -> u8
    requires within { j < length places.now }
    requires whole { whole ≡ whole_distance_of places.now x }
    ensures { result ≡ distance_of places.now j x }
{
    match inv(x ^ places[j]) {
        Some(inverse) => mul(whole, inverse),
        None => distance(places, j, x),
    }
}

/// For each point the inverse of how far it is from the others, and 0 past them.
pub(crate) fn inverses_at(places: &[u8]) -> [u8; 256]
    requires { length places.now ≤ 256 }
    ensures { AreInverses places.now result }
{
    let mut inverses = [0u8; 256];
    for j in 0..places.len() {
        inverses[j] = inv(distance(places, j, places[j])).unwrap_or(0);
    }
    inverses
}

/// The Lagrange coefficient of point `j` at `x`, from `whole`, how far `x` is from all of the points.
fn weight(places: &[u8], inverses: &[u8; 256], j: usize, x: u8, whole: u8) -> u8
    requires few { length places.now ≤ 256 }
    requires within { j < length places.now }
    requires inverses { AreInverses places.now inverses.now }
    requires whole { whole ≡ whole_distance_of places.now x }
    ensures { result ≡ weight_of places.now j x }
{
    mul(distance_from_whole(places, j, x, whole), inverses[j])
}

/// Appends the block at `x`, from the blocks at these points. Where memory is refused, nothing is appended.
pub(crate) fn push_block_at(
    places: &[u8],
    inverses: &[u8; 256],
    blocks: &[&[u8]],
    x: u8,
    bytes: &mut Vec<u8>,
) -> Result<(), AllocError>
    requires some { 0 < length blocks.now }
    requires few { length places.now ≤ 256 }
    requires as_many { length places.now ≡ length blocks.now }
    requires inverses { AreInverses places.now inverses.now }
    requires one_length { HaveOneLength (contents_of blocks.now) }
    ensures block { OnOk result (bytes.new.items
        ≡ bytes.old.items ++ block_through places.now (contents_of blocks.now) x) }
    ensures refused { OnErr result (bytes.new.items ≡ bytes.old.items) }
{
    let start = bytes.len();
    push_zeros(blocks[0], bytes)?;
    add_blocks(
        places,
        inverses,
        blocks,
        x,
        &mut bytes.as_mut_slice()[start..],
    );
    Ok(())
}

/// Appends as many zeros as a block has bytes. Where memory is refused, nothing is appended.
fn push_zeros(block: &[u8], bytes: &mut Vec<u8>) -> Result<(), AllocError>
    ensures zeros { OnOk result (bytes.new.items
        ≡ bytes.old.items ++ replicate (length block.now) 0) }
    ensures refused { OnErr result (bytes.new.items ≡ bytes.old.items) }
{
    bytes.resize(bytes.len() + block.len(), 0)
}

/// Appends a copy of a block. Where memory is refused, nothing is appended.
pub(crate) fn push_copy(block: &[u8], bytes: &mut Vec<u8>) -> Result<(), AllocError>
    ensures block { OnOk result (bytes.new.items ≡ bytes.old.items ++ block.now) }
    ensures refused { OnErr result (bytes.new.items ≡ bytes.old.items) }
    ensures small { AreBytes block.now }
{
    bytes.extend_from_slice(block)
}

/// Adds to zeros the weighted blocks, which gives the block at `x`.
fn add_blocks(places: &[u8], inverses: &[u8; 256], blocks: &[&[u8]], x: u8, sum: &mut [u8])
    requires few { length places.now ≤ 256 }
    requires as_many { length places.now ≡ length blocks.now }
    requires inverses { AreInverses places.now inverses.now }
    requires one_length { HaveOneLength (contents_of blocks.now) }
    requires zeros { sum.old ≡ replicate (size_of (contents_of blocks.now)) 0 }
    ensures { sum.new ≡ block_through places.now (contents_of blocks.now) x }
{
    let whole = whole_distance(places, x);
    for (j, block) in blocks.iter().enumerate() {
        mul_add(sum, block, weight(places, inverses, j, x, whole));
    }
}
