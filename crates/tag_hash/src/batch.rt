//! Tagged hashes of many values under one tag, eight or four at a time.
ghost use Rattle.std.specs.Prelude.{◌≡◌, ℕ, [], ◌+◌, ◌<◌, ◌≤◌, ◌^◌, ◌++◌, length, map, take, slice_index_or, IfOk, IsTrue};
ghost use Rattle.std.specs.List.{All};
ghost use Rattle.tag_hash.specs.Lanes.{lane_bytes};
ghost use Rattle.tag_hash.specs.Netstring.{netstring};
ghost use Rattle.tag_hash.specs.Tagged.{tagged};

use crate::decimals::Decimal;
use crate::hashes::tagged;
use crate::messages::sha256_each;
use crate::words::Words;
use std::alloc::{AllocError, Global};
use std::simd::prelude::*;

/// The tagged hashes of four values, in their order.
///
/// They are hashed side by side where the tag has at most 60 bytes, each value is below 2^58 bytes, and all four are
/// together at least 1.8 times the longest, counted in bytes with 128 more for each. Others are hashed one after another.
/// It takes no memory.
pub fn tagged_four(tag: &[u8], values: &[&[u8]; 4]) -> [[u8; 32]; 4]
    ensures { result ≡ map (λ value. tagged tag.now value.now) values.now }
{
    let [a, b, c, d] = *values;
    if tag.len() <= 60 && pay(values, FIFTHS_FOR_FOUR) {
        let hashes = side_by_side([u32x4::splat(0); 16], tag, &[a, b, c, d, a, a, a, a]);
        [hashes[0], hashes[1], hashes[2], hashes[3]]
    } else {
        [
            tagged(tag, a),
            tagged(tag, b),
            tagged(tag, c),
            tagged(tag, d),
        ]
    }
}

/// How many fifths of the longest value at most four have to be together, that four lanes are quicker than one message
/// after another: lanes run as long as the longest one does, for at most the time of 1.8 of its length.
const FIFTHS_FOR_FOUR: usize = 9;

/// The same for more than four values in eight lanes: where the longest is at most a quarter of all. They take the time
/// of 1.7 messages on vectors of 256 bits, and of 3.9 on those of 128.
const FIFTHS_FOR_EIGHT: usize = 20;

/// Whether these values, at most eight, are together at least so many fifths of the longest. A value counts as its bytes
/// and 128 more, for the tag, the padding and the second hash. `false` where one has 2^58 bytes or more.
fn pay(values: &[&[u8]], fifths: usize) -> bool
    requires few { length values.now ≤ 8 }
    requires small { fifths ≤ 20 }
    ensures { IsTrue result → All (λ value. length value.now < 2 ^ 58) values.now }
{
    let mut longest = 0;
    let mut all = 0;
    for value in values {
        if value.len() >= 1 << 58 {
            return false;
        }
        longest = longest.max(value.len() + 128);
        all += value.len() + 128;
    }
    fifths * longest <= 5 * all
}

/// The tagged hashes of as many values as there are lanes; `room` is for the words of their blocks.
fn side_by_side<L: Words>(room: [L; 16], tag: &[u8], values: &[&[u8]; 8]) -> [[u8; 32]; 8]
    requires short_tag { length tag.now ≤ 60 }
    requires short { (j : ℕ) → j < 8 → length (lane_bytes values.now j) < 2 ^ 58 }
    ensures { (j : ℕ) → j < 8 → j < L.lanes
        → slice_index_or result j [] ≡ tagged tag.now (lane_bytes values.now j) }
{
    let (text, len) = short_netstring(tag);
    let once = sha256_each(room, &text[..len], values);
    sha256_each(room, &[], &as_values(&once))
}

/// Hashes as values that are hashed again.
fn as_values<'a>(hashes: &'a [[u8; 32]; 8]) -> [&'a [u8]; 8]
    ensures each { (j : ℕ) → j < 8 → lane_bytes result j ≡ slice_index_or hashes.now j [] }
    ensures long { (j : ℕ) → j < 8 → length (lane_bytes result j) ≡ 32 }
{
    [
        &hashes[0], &hashes[1], &hashes[2], &hashes[3], &hashes[4], &hashes[5], &hashes[6],
        &hashes[7],
    ]
}

/// The netstring of a short tag, and how many bytes it has.
fn short_netstring(tag: &[u8]) -> ([u8; 64], usize)
    requires { length tag.now ≤ 60 }
    ensures text { take result.1 result.0 ≡ netstring tag.now }
    ensures len { result.1 ≤ 64 }
{
    let size = Decimal::new(tag.len() as u64);
    let mut text = [0u8; 64];
    let colon = append(&mut text, 0, size.as_bytes());
    let start = append(&mut text, colon, b":");
    let comma = append(&mut text, start, tag);
    let len = append(&mut text, comma, b",");
    (text, len)
}

/// Writes a piece after the first `len` bytes, and gives how many bytes there are with it.
fn append(text: &mut [u8; 64], len: usize, piece: &[u8]) -> usize
    requires { len + length piece.now ≤ 64 }
    ensures text { take result text.new ≡ take len text.old ++ piece.now }
    ensures len { result ≡ len + length piece.now }
    ensures long { length text.new ≡ 64 }
{
    let end = len + piece.len();
    text[len..end].copy_from_slice(piece);
    end
}

/// The tagged hashes of values of any lengths, in their order: `Err` only where memory is refused.
///
/// The next eight values, or the last five to seven, go side by side where the longest is at most a quarter of all; else
/// the next four, or the last two or three, by the rule of `tagged_four`; else the next one is hashed alone.
pub fn tagged_all(alloc: Global, tag: &[u8], values: &[&[u8]]) -> Result<Vec<[u8; 32]>, AllocError>
    ensures { IfOk result (λ digests.
        digests.items ≡ map (λ value. tagged tag.now value.now) values.now) }
{
    let mut digests = Vec::with_capacity(alloc, values.len())?;
    let mut at = 0;
    while at < values.len() {
        at += push_next(&mut digests, tag, &values[at..])?;
    }
    Ok(digests)
}

/// Appends the tagged hashes of the next values: of up to eight in eight lanes, or else of up to four in four, where that
/// is quicker, or else of one. It gives of how many.
fn push_next(digests: &mut Vec<[u8; 32]>, tag: &[u8], values: &[&[u8]]) -> Result<usize, AllocError>
    requires { 0 < length values.now }
    ensures some { IfOk result (λ n. 0 < n) }
    ensures within { IfOk result (λ n. n ≤ length values.now) }
    ensures pushed { IfOk result (λ n. digests.new.items
        ≡ digests.old.items ++ map (λ value. tagged tag.now value.now) (take n values.now)) }
{
    if tag.len() <= 60 {
        let eight = &values[..values.len().min(8)];
        if eight.len() > 4 && pay(eight, FIFTHS_FOR_EIGHT) {
            return push_group([u32x8::splat(0); 16], digests, tag, eight);
        }
        let four = &values[..values.len().min(4)];
        if pay(four, FIFTHS_FOR_FOUR) {
            return push_group([u32x4::splat(0); 16], digests, tag, four);
        }
    }
    digests.push(tagged(tag, values[0]))?;
    Ok(1)
}

/// Appends the tagged hashes of no more values than there are lanes, and gives how many they are. An idle lane hashes the
/// first value again.
fn push_group<L: Words>(
    room: [L; 16],
    digests: &mut Vec<[u8; 32]>,
    tag: &[u8],
    values: &[&[u8]],
) -> Result<usize, AllocError>
    requires short_tag { length tag.now ≤ 60 }
    requires some { 0 < length values.now }
    requires few { (length values.now ≤ L.lanes) × (length values.now ≤ 8) }
    requires short { All (λ value. length value.now < 2 ^ 58) values.now }
    ensures count { IfOk result (λ n. n ≡ length values.now) }
    ensures pushed { IfOk result (λ n. digests.new.items
        ≡ digests.old.items ++ map (λ value. tagged tag.now value.now) values.now) }
{
    let hashes = side_by_side(room, tag, &in_lanes(values));
    digests.extend_from_slice(&hashes[..values.len()])?;
    Ok(values.len())
}

/// The value of each of eight lanes.
fn in_lanes<'a>(values: &[&'a [u8]]) -> [&'a [u8]; 8]
    requires { 0 < length values.now }
    ensures own { (j : ℕ) → j < 8 → j < length values.now
        → lane_bytes result j ≡ lane_bytes values.now j }
    ensures short { (m : ℕ) → All (λ value. length value.now < m) values.now
        → (j : ℕ) → j < 8 → length (lane_bytes result j) < m }
{
    [
        in_lane(values, 0),
        in_lane(values, 1),
        in_lane(values, 2),
        in_lane(values, 3),
        in_lane(values, 4),
        in_lane(values, 5),
        in_lane(values, 6),
        in_lane(values, 7),
    ]
}

/// The value that lane `j` hashes: the one at that place, or else the first.
fn in_lane<'a>(values: &[&'a [u8]], j: usize) -> &'a [u8]
    requires { 0 < length values.now }
    ensures own { j < length values.now → result.now ≡ lane_bytes values.now j }
    ensures short { (m : ℕ) → All (λ value. length value.now < m) values.now → length result.now < m }
{
    if j < values.len() {
        values[j]
    } else {
        values[0]
    }
}
