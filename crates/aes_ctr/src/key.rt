//! A key, and its keystream added to bytes.

ghost use Rattle.std.specs.Prelude.{◌≡◌, ℕ, List, ◌+◌, ◌%◌, ◌^◌, ◌<◌, ◌≤◌, length, bit_xor, slice_index, EachIndex};
ghost use Rattle.aes_ctr.specs.Crypt.{crypt_from};
ghost use Rattle.aes_ctr.specs.Planes.{AreKeyPlanes};

use crate::keystream::group;
use crate::schedule::{expanded, key_planes};
use std::marker::Model;
use std::simd::prelude::*;

/// A key of AES-128, ready for use. Contracts see its 16 bytes.
#[derive(Drop)]
pub struct Key {
    round_keys: [[u8; 16]; 11],
}

impl Model for Key {
    ghost use Rattle.std.specs.Prelude.{◌≡◌, ◌<◌, ℕ, List, [], length, slice_index, slice_index_or};
    ghost use Rattle.aes_ctr.specs.KeyExpansion.{AreRoundKeys};

    ghost Value = { List ℕ };

    ghost view = { λ k. slice_index_or k.round_keys 0 [] };

    ghost invariant = { λ k. let key = slice_index_or k.round_keys 0 [] in
        (length key ≡ 16) × ((i : ℕ) → slice_index key i < 256) × AreRoundKeys key k.round_keys };
}

impl Key {
    /// The key with these 16 bytes (FIPS 197, section 5.2).
    pub fn new(bytes: [u8; 16]) -> Key
        ensures { result ≡ bytes }
    {
        Key {
            round_keys: expanded(bytes),
        }
    }

    /// Adds the keystream (SP 800-38A, section 6.5) to `bytes`, bit by bit: the byte at place i of `bytes` meets
    /// byte `offset + i` of the keystream. The counter blocks are 0, 1, 2, .. as 128-bit numbers, high byte first.
    ///
    /// Applied twice at one offset it gives the bytes back, and bytes may be passed in pieces, each at its own
    /// offset. The offset and the length together must fit a `u64`.
    pub fn apply(&self, offset: u64, bytes: &mut [u8])
        requires { offset + length bytes.old < 2 ^ 64 }
        ensures { bytes.new ≡ crypt_from self.now offset bytes.old }
    {
        let keys = key_planes(&self.round_keys);
        let mut done = 0;
        while done < bytes.len() {
            let place = offset + done as u64;
            let skip = (place % 256) as usize;
            let end = bytes.len().min(done + (256 - skip));
            apply_in_group(&keys, place, &mut bytes[done..end]);
            done = end;
        }
    }
}

/// `apply` to bytes whose places are in one group of sixteen blocks of the keystream, by the planes of the key's round
/// keys.
fn apply_in_group(keys: &[[u8x32; 8]; 11], place: u64, bytes: &mut [u8])
    requires fits { place + length bytes.old < 2 ^ 64 }
    requires within { place % 256 + length bytes.old ≤ 256 }
    ensures { (key : List ℕ) → ((i : ℕ) → slice_index key i < 256) → AreKeyPlanes key keys.now
        → bytes.new ≡ crypt_from key place bytes.old }
{
    let stream = group(keys, place / 256);
    add(bytes, &stream[(place % 256) as usize..]);
}

/// Adds to each byte the one at its place in `stream`.
fn add(bytes: &mut [u8], stream: &[u8])
    requires { length bytes.old ≤ length stream.now }
    ensures { EachIndex bytes.old (λ i. slice_index bytes.new i
        ≡ bit_xor (slice_index bytes.old i) (slice_index stream.now i)) }
{
    for i in 0..bytes.len() {
        bytes[i] ^= stream[i];
    }
}
