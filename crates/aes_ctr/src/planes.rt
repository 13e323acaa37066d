//! The steps of a round (FIPS 197, section 5.1), but SubBytes, on sixteen states bit by bit: each of eight vectors is a
//! plane, which has one bit of each byte of each state.

ghost use Rattle.std.specs.Prelude.{◌≡◌, ◌+◌, ◌*◌, ◌/◌, ◌%◌, ◌<◌, ℕ, List, slice_index};
ghost use Rattle.aes_ctr.specs.Rounds.{add_round_key, shift_rows, mix_columns};
ghost use Rattle.aes_ctr.specs.Planes.{lanes, planes, raised_rows, doubled, AreByteStates};

use std::simd::prelude::*;

/// AddRoundKey (FIPS 197, section 5.1.4) on each of sixteen states, where each has a round key of its own.
#[inline(always)]
pub(crate) fn added(x: [u8x32; 8], y: &[u8x32; 8]) -> [u8x32; 8]
    ensures { (s t : ℕ → List ℕ) → x ≡ planes s → y.now ≡ planes t
        → result ≡ planes (λ j. add_round_key (s j) (t j)) }
{
    [
        x[0] ^ y[0],
        x[1] ^ y[1],
        x[2] ^ y[2],
        x[3] ^ y[3],
        x[4] ^ y[4],
        x[5] ^ y[5],
        x[6] ^ y[6],
        x[7] ^ y[7],
    ]
}

/// ShiftRows (section 5.1.2) on each of sixteen states: in each plane the bytes go where they go in a state.
#[inline(always)]
pub(crate) fn shifted(x: [u8x32; 8]) -> [u8x32; 8]
    ensures { (s : ℕ → List ℕ) → x ≡ planes s → result ≡ planes (λ j. shift_rows (s j)) }
{
    [
        turned(x[0]),
        turned(x[1]),
        turned(x[2]),
        turned(x[3]),
        turned(x[4]),
        turned(x[5]),
        turned(x[6]),
        turned(x[7]),
    ]
}

/// ShiftRows on one plane, in each half.
#[inline(always)]
fn turned(plane: u8x32) -> u8x32
    ensures { (f : ℕ → ℕ) → plane ≡ lanes f
        → result ≡ lanes (λ i. f ((i + 4 * (i % 4)) % 16 + 16 * (i / 16))) }
{
    plane.swizzle([
        0, 5, 10, 15, 4, 9, 14, 3, 8, 13, 2, 7, 12, 1, 6, 11, 16, 21, 26, 31, 20, 25, 30, 19, 24,
        29, 18, 23, 28, 17, 22, 27,
    ])
}

/// Each byte of sixteen states times x (section 4.2.1): plane 7 goes on into those of the polynomial that products are
/// taken modulo.
#[inline(always)]
fn doubled(x: [u8x32; 8]) -> [u8x32; 8]
    ensures { (s : ℕ → List ℕ) → AreByteStates s → x ≡ planes s
        → result ≡ planes (λ j. doubled (s j)) }
{
    [
        x[7],
        x[0] ^ x[7],
        x[1],
        x[2] ^ x[7],
        x[3] ^ x[7],
        x[4],
        x[5],
        x[6],
    ]
}

/// The rows of sixteen states, each in the place of the row above it, and the first in that of the last.
#[inline(always)]
fn raised(x: [u8x32; 8]) -> [u8x32; 8]
    ensures { (s : ℕ → List ℕ) → x ≡ planes s → result ≡ planes (λ j. raised_rows 1 (s j)) }
{
    const ROWS: [usize; 32] = [
        1, 2, 3, 0, 5, 6, 7, 4, 9, 10, 11, 8, 13, 14, 15, 12, 17, 18, 19, 16, 21, 22, 23, 20, 25,
        26, 27, 24, 29, 30, 31, 28,
    ];
    [
        x[0].swizzle(ROWS),
        x[1].swizzle(ROWS),
        x[2].swizzle(ROWS),
        x[3].swizzle(ROWS),
        x[4].swizzle(ROWS),
        x[5].swizzle(ROWS),
        x[6].swizzle(ROWS),
        x[7].swizzle(ROWS),
    ]
}

/// The rows of sixteen states, each in the place of the one two above it.
#[inline(always)]
fn raised_twice(x: [u8x32; 8]) -> [u8x32; 8]
    ensures { (s : ℕ → List ℕ) → x ≡ planes s → result ≡ planes (λ j. raised_rows 2 (s j)) }
{
    const ROWS: [usize; 32] = [
        2, 3, 0, 1, 6, 7, 4, 5, 10, 11, 8, 9, 14, 15, 12, 13, 18, 19, 16, 17, 22, 23, 20, 21, 26,
        27, 24, 25, 30, 31, 28, 29,
    ];
    [
        x[0].swizzle(ROWS),
        x[1].swizzle(ROWS),
        x[2].swizzle(ROWS),
        x[3].swizzle(ROWS),
        x[4].swizzle(ROWS),
        x[5].swizzle(ROWS),
        x[6].swizzle(ROWS),
        x[7].swizzle(ROWS),
    ]
}

/// MixColumns (section 5.1.3) on each of sixteen states. With a byte a, those below it in its column b, c and d, and the
/// sum of each byte and the one below it, a byte becomes the double of its sum, b and the sum two rows below.
#[inline(always)]
pub(crate) fn mixed(x: [u8x32; 8]) -> [u8x32; 8]
    ensures { (s : ℕ → List ℕ) → AreByteStates s → x ≡ planes s
        → result ≡ planes (λ j. mix_columns (s j)) }
{
    let below = raised(x);
    let sums = added(x, &below);
    added(added(doubled(sums), &below), &raised_twice(sums))
}
