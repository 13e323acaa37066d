//! The loops over the bytes of blocks that encoding and decoding run.
ghost use Rattle.std.specs.Prelude.{◌≡◌, ◌*◌, ◌/◌, ◌<◌, ◌≤◌, ℕ, length, slice_index, EachIndex, bit_xor};
ghost use Rattle.gf_field.specs.Field.{mul_of};
ghost use Rattle.erasure.specs.Tables.{AreTables, IsAdded};

use crate::lanes::{add_products_at, tables_of};
use gf_field::laws;
use std::simd::prelude::*;

/// Adds `c` times each byte of `src` to the byte of `dst` at its place, in the field.
pub fn mul_add(dst: &mut [u8], src: &[u8], c: u8)
    requires { length dst.old ≡ length src.now }
    ensures { EachIndex dst.new (λ i. slice_index dst.new i
        ≡ bit_xor (slice_index dst.old i) (mul_of c (slice_index src.now i))) }
{
    let (low, high) = tables_of(c);
    add_whole(dst, src, low, high);
    add_rest(dst, src, &low.to_array(), &high.to_array());
}

/// `mul_add` as far as there are 32 bytes at a time.
fn add_whole(dst: &mut [u8], src: &[u8], low: u8x32, high: u8x32)
    requires { length dst.old ≡ length src.now }
    ensures added { (c : ℕ) → AreTables c low high
        → IsAdded c src.now dst.old dst.new 0 (32 * (length src.now / 32)) }
    ensures rest { (i : ℕ) → 32 * (length src.now / 32) ≤ i
        → slice_index dst.new i ≡ slice_index dst.old i }
{
    for n in 0..src.len() / 32 {
        add_products_at(dst, src, 32 * n, low, high);
    }
}

/// `mul_add` to the bytes that `add_whole` leaves, fewer than 32.
fn add_rest(dst: &mut [u8], src: &[u8], low: &[u8; 32], high: &[u8; 32])
    requires { length dst.old ≡ length src.now }
    ensures added { (c : ℕ) → AreTables c low.now high.now
        → IsAdded c src.now dst.old dst.new (32 * (length src.now / 32)) (length src.now) }
    ensures whole { (i : ℕ) → i < 32 * (length src.now / 32)
        → slice_index dst.new i ≡ slice_index dst.old i }
{
    laws::is_a_field();
    for i in src.len() / 32 * 32..src.len() {
        dst[i] ^= low[(src[i] % 16) as usize] ^ high[(src[i] / 16) as usize];
    }
}
