//! Products of one element with 32 at once.
ghost use Rattle.std.specs.Prelude.{◌≡◌, map};
ghost use Rattle.gf_field.specs.Field.{mul_of};

use crate::arithmetic::REDUCTION;
use std::simd::prelude::*;

/// Twice each element in the field.
fn double_lanes(a: u8x32) -> u8x32
    ensures { result ≡ map (λ x. mul_of 2 x) a }
{
    let reductions = a
        .simd_ge(u8x32::splat(128))
        .select(u8x32::splat(REDUCTION), u8x32::splat(0));
    (a + a) ^ reductions
}

/// The product of each of 32 elements with `c`: lane by lane what `mul` gives.
///
/// Each bit of `c` is a mask of a doubling of `src`, so that no branch and no look-up depends on the elements.
pub fn mul_lanes(src: u8x32, c: u8) -> u8x32
    ensures { result ≡ map (λ x. mul_of x c) src }
{
    let mut products = u8x32::splat(0);
    let mut terms = src;
    for i in 0..8u8 {
        let mask = u8x32::splat(((c >> i) & 1) * 255);
        products ^= terms & mask;
        terms = double_lanes(terms);
    }
    products
}
