//! The keystream (SP 800-38A, section 6.5), sixteen blocks at a time.

ghost use Rattle.std.specs.Prelude.{◌≡◌, ℕ, List, ◌+◌, ◌*◌, ◌/◌, ◌%◌, ◌^◌, ◌<◌, slice_index, nat_eq, if◌then◌else◌};
ghost use Rattle.aes_ctr.specs.Keystream.{counter_block, stream};
ghost use Rattle.aes_ctr.specs.Planes.{AreKeyPlanes, each_block, lanes, place, planes};

use crate::planes::added;
use crate::rounds::encrypted;
use crate::transposition::{beside, blocks_of, lower, planes_of, twice, upper};
use std::simd::prelude::*;

/// The 256 bytes of group `number` of the keystream, which is of sixteen blocks.
#[inline(always)]
pub(crate) fn group(keys: &[[u8x32; 8]; 11], number: u64) -> [u8; 256]
    requires { number < 2 ^ 56 }
    ensures { (key : List ℕ) → ((i : ℕ) → slice_index key i < 256) → AreKeyPlanes key keys.now
        → (i : ℕ) → i < 256 → slice_index result i ≡ stream key (256 * number + i) }
{
    let blocks = encrypted(keys, counter_planes(16 * number));
    joined(blocks_of(blocks))
}

/// The planes of sixteen counter blocks in a row, from block `number` on.
fn counter_planes(number: u64) -> [u8x32; 8]
    requires { number % 16 ≡ 0 }
    ensures { result ≡ planes (λ j. counter_block (number + j)) }
{
    let low = (number as u128).to_be_bytes();
    let high = ((number + 8) as u128).to_be_bytes();
    added(planes_of(beside(low, high)), &places())
}

/// The planes of sixteen blocks of which each has its place in its half in its last byte.
fn places() -> [u8x32; 8]
    ensures { result ≡ planes (λ j. place (j % 8)) }
{
    let zeros = u8x32::splat(0);
    [
        last_byte(0xaa),
        last_byte(0xcc),
        last_byte(0xf0),
        zeros,
        zeros,
        zeros,
        zeros,
        zeros,
    ]
}

/// Zeros, and a last byte, in each half.
fn last_byte(byte: u8) -> u8x32
    ensures { result ≡ lanes (λ i. if nat_eq (i % 16) 15 then byte else 0) }
{
    twice([0, 0, 0, 0, 0, 0, 0, 0, 0, 0, 0, 0, 0, 0, 0, byte])
}

/// The bytes of sixteen blocks in a row.
fn joined(blocks: [u8x32; 8]) -> [u8; 256]
    ensures { (s : ℕ → List ℕ) → blocks ≡ each_block s → (i : ℕ) → i < 256
        → slice_index result i ≡ slice_index (s (i / 16)) (i % 16) }
{
    let mut bytes = [0u8; 256];
    for j in 0..8usize {
        bytes[16 * j..16 * j + 16].copy_from_slice(&lower(blocks[j]));
        bytes[128 + 16 * j..128 + 16 * j + 16].copy_from_slice(&upper(blocks[j]));
    }
    bytes
}
