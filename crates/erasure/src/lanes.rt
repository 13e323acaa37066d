//! Products of 32 bytes at a time. A byte is the sum of its two halves, so its product is the sum of theirs, and a half
//! has sixteen values.
ghost use Rattle.std.specs.Prelude.{◌≡◌, ◌+◌, ◌<◌, ◌≤◌, ℕ, length, slice_index};
ghost use Rattle.gf_field.specs.Field.{mul_of};
ghost use Rattle.erasure.specs.Tables.{AreTables, IsAdded};

use gf_field::{laws, mul_lanes};
use std::simd::prelude::*;

/// The values of half a byte, twice over.
const HALVES: [u8; 32] = [
    0, 1, 2, 3, 4, 5, 6, 7, 8, 9, 10, 11, 12, 13, 14, 15, 0, 1, 2, 3, 4, 5, 6, 7, 8, 9, 10, 11, 12,
    13, 14, 15,
];

/// The products of `c` with the values of a byte's low half and with those of its high half, each twice over.
pub(crate) fn tables_of(c: u8) -> (u8x32, u8x32)
    ensures { AreTables c result.0 result.1 }
{
    laws::is_a_field();
    let halves = u8x32::from_array(HALVES);
    (
        mul_lanes(halves, c),
        mul_lanes(halves << u8x32::splat(4), c),
    )
}

/// The products with the 32 bytes of `src` from `at` on.
#[inline(always)]
fn products_at(src: &[u8], at: usize, low: u8x32, high: u8x32) -> u8x32
    requires { at + 32 ≤ length src.now }
    ensures long { length result ≡ 32 }
    ensures products { (c k : ℕ) → AreTables c low high → k < 32
        → slice_index result k ≡ mul_of c (slice_index src.now (at + k)) }
{
    laws::is_a_field();
    let bytes = u8x32::from_slice(&src[at..]);
    let low_products = low.swizzle_dyn_within::<16>(bytes & u8x32::splat(15));
    let high_products = high.swizzle_dyn_within::<16>(bytes >> u8x32::splat(4));
    low_products ^ high_products
}

/// Adds the products with the 32 bytes of `src` from `at` on to those of `dst`.
#[inline(always)]
pub(crate) fn add_products_at(dst: &mut [u8], src: &[u8], at: usize, low: u8x32, high: u8x32)
    requires within { at + 32 ≤ length src.now }
    requires as_long { length dst.old ≡ length src.now }
    ensures added { (c : ℕ) → AreTables c low high
        → IsAdded c src.now dst.old dst.new at (at + 32) }
    ensures below { (i : ℕ) → i < at → slice_index dst.new i ≡ slice_index dst.old i }
    ensures above { (i : ℕ) → at + 32 ≤ i → slice_index dst.new i ≡ slice_index dst.old i }
{
    let products = products_at(src, at, low, high);
    let sum = u8x32::from_slice(&dst[at..]) ^ products;
    sum.copy_to_slice(&mut dst[at..]);
}
