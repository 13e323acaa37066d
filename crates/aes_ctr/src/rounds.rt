//! The cipher (FIPS 197, section 5.1) on sixteen blocks at once, bit by bit.

ghost use Rattle.std.specs.Prelude.{◌≡◌, ◌<◌, ℕ, List, slice_index};
ghost use Rattle.aes_ctr.specs.Rounds.{sub_bytes, shift_rows, mix_columns, add_round_key};
ghost use Rattle.aes_ctr.specs.Cipher.{encrypt};
ghost use Rattle.aes_ctr.specs.Planes.{planes, AreByteStates, AreKeyPlanes};

use crate::circuit::substituted;
use crate::planes::{added, mixed, shifted};
use std::simd::prelude::*;

/// A whole round.
#[inline(always)]
fn round(x: [u8x32; 8], key: &[u8x32; 8]) -> [u8x32; 8]
    ensures { (s t : ℕ → List ℕ) → AreByteStates s → x ≡ planes s → key.now ≡ planes t
        → result
        ≡ planes (λ j. add_round_key (mix_columns (shift_rows (sub_bytes (s j)))) (t j)) }
{
    added(mixed(shifted(substituted(x))), key)
}

/// The last round, which mixes no columns.
#[inline(always)]
fn last_round(x: [u8x32; 8], key: &[u8x32; 8]) -> [u8x32; 8]
    ensures { (s t : ℕ → List ℕ) → AreByteStates s → x ≡ planes s → key.now ≡ planes t
        → result ≡ planes (λ j. add_round_key (shift_rows (sub_bytes (s j))) (t j)) }
{
    added(shifted(substituted(x)), key)
}

/// The encryptions of sixteen blocks, by the planes of a key's round keys.
pub(crate) fn encrypted(keys: &[[u8x32; 8]; 11], blocks: [u8x32; 8]) -> [u8x32; 8]
    ensures { (key : List ℕ) (s : ℕ → List ℕ) → ((i : ℕ) → slice_index key i < 256) → AreByteStates s
        → AreKeyPlanes key keys.now → blocks ≡ planes s
        → result ≡ planes (λ j. encrypt key (s j)) }
{
    let mut x = added(blocks, &keys[0]);
    for n in 1..10 {
        let next = round(x, &keys[n]);
        x = next;
    }
    last_round(x, &keys[10])
}
