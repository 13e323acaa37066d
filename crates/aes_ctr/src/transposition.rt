//! From sixteen blocks bit by bit to the blocks, and from two blocks to their bits.

ghost use Rattle.std.specs.Prelude.{◌≡◌, ◌+◌, ◌/◌, ◌<◌, ◌∷◌, [], ℕ, List, slice_index};
ghost use Rattle.aes_ctr.specs.Planes.{byte_of, each_block, halves, lanes, planes, sliced};
ghost use Rattle.aes_ctr.specs.Exchanges.{HasMask, first_after, rows, rows_after, second_after};

use std::simd::prelude::*;

/// In each lane, the bits of `a` at upper places exchanged for those of `b` at lower places. `mask` has the bits at
/// lower places, which are `distance` below the upper ones.
#[inline(always)]
fn exchanged(a: u8x32, b: u8x32, distance: u8, mask: u8) -> [u8x32; 2]
    requires { HasMask distance mask }
    ensures { (f g : ℕ → ℕ → ℕ) → ((i k : ℕ) → f i k < 2) → ((i k : ℕ) → g i k < 2)
        → a ≡ lanes (λ i. byte_of (f i)) → b ≡ lanes (λ i. byte_of (g i))
        → result ≡ lanes (λ i. byte_of (first_after distance (f i) (g i)))
        ∷ lanes (λ i. byte_of (second_after distance (f i) (g i))) ∷ [] }
{
    let n = u8x32::splat(distance);
    let lower = u8x32::splat(mask);
    [
        (a & lower) | ((b & lower) << n),
        ((a >> n) & lower) | (b & !lower),
    ]
}

/// The exchanges at distance 1.
#[inline(always)]
fn exchanged_by_1(x: [u8x32; 8]) -> [u8x32; 8]
    ensures { (m : ℕ → ℕ → ℕ → ℕ) → ((i r k : ℕ) → m i r k < 2) → x ≡ rows m
        → result ≡ rows (λ i. rows_after 1 (m i)) }
{
    let a = exchanged(x[0], x[1], 1, 0x55);
    let b = exchanged(x[2], x[3], 1, 0x55);
    let c = exchanged(x[4], x[5], 1, 0x55);
    let d = exchanged(x[6], x[7], 1, 0x55);
    [a[0], a[1], b[0], b[1], c[0], c[1], d[0], d[1]]
}

/// The exchanges at distance 2.
#[inline(always)]
fn exchanged_by_2(x: [u8x32; 8]) -> [u8x32; 8]
    ensures { (m : ℕ → ℕ → ℕ → ℕ) → ((i r k : ℕ) → m i r k < 2) → x ≡ rows m
        → result ≡ rows (λ i. rows_after 2 (m i)) }
{
    let a = exchanged(x[0], x[2], 2, 0x33);
    let b = exchanged(x[1], x[3], 2, 0x33);
    let c = exchanged(x[4], x[6], 2, 0x33);
    let d = exchanged(x[5], x[7], 2, 0x33);
    [a[0], b[0], a[1], b[1], c[0], d[0], c[1], d[1]]
}

/// The exchanges at distance 4.
#[inline(always)]
fn exchanged_by_4(x: [u8x32; 8]) -> [u8x32; 8]
    ensures { (m : ℕ → ℕ → ℕ → ℕ) → ((i r k : ℕ) → m i r k < 2) → x ≡ rows m
        → result ≡ rows (λ i. rows_after 4 (m i)) }
{
    let a = exchanged(x[0], x[4], 4, 0x0f);
    let b = exchanged(x[1], x[5], 4, 0x0f);
    let c = exchanged(x[2], x[6], 4, 0x0f);
    let d = exchanged(x[3], x[7], 4, 0x0f);
    [a[0], b[0], c[0], d[0], a[1], b[1], c[1], d[1]]
}

/// Sixteen states from their bits, two in each vector: in each lane, the transposition of 8 by 8 bits.
#[inline(always)]
pub(crate) fn blocks_of(x: [u8x32; 8]) -> [u8x32; 8]
    ensures { (s : ℕ → List ℕ) → ((j i : ℕ) → slice_index (s j) i < 256) → x ≡ planes s
        → result ≡ each_block s }
{
    let pairs = exchanged_by_1(x);
    let fours = exchanged_by_2(pairs);
    exchanged_by_4(fours)
}

/// In each lane, bit `b` of its byte at all eight places.
#[inline(always)]
fn plane_of(pair: u8x32, b: u8) -> u8x32
    requires { b < 8 }
    ensures { (f : ℕ → ℕ) → pair ≡ lanes f → result ≡ lanes (λ i. sliced (λ j. f i) b) }
{
    u8x32::splat(0) - ((pair >> u8x32::splat(b)) & u8x32::splat(1))
}

/// Two states bit by bit, each eight times: the one in the lower half, and then the one in the upper half.
#[inline(always)]
pub(crate) fn planes_of(pair: u8x32) -> [u8x32; 8]
    ensures { (s : ℕ → List ℕ) → pair ≡ halves s → result ≡ planes (λ j. s (j / 8)) }
{
    [
        plane_of(pair, 0),
        plane_of(pair, 1),
        plane_of(pair, 2),
        plane_of(pair, 3),
        plane_of(pair, 4),
        plane_of(pair, 5),
        plane_of(pair, 6),
        plane_of(pair, 7),
    ]
}

/// Two blocks side by side.
#[inline(always)]
pub(crate) fn beside(low: [u8; 16], high: [u8; 16]) -> u8x32
    ensures { (s : ℕ → List ℕ) → low ≡ s 0 → high ≡ s 1 → result ≡ halves s }
{
    u8x16::from_array(low).shuffle(
        u8x16::from_array(high),
        [
            0, 1, 2, 3, 4, 5, 6, 7, 8, 9, 10, 11, 12, 13, 14, 15, 16, 17, 18, 19, 20, 21, 22, 23,
            24, 25, 26, 27, 28, 29, 30, 31,
        ],
    )
}

/// A block in both halves.
#[inline(always)]
pub(crate) fn twice(block: [u8; 16]) -> u8x32
    ensures { result ≡ halves (λ h. block) }
{
    beside(block, block)
}

/// The bytes in the lower half of a vector.
#[inline(always)]
pub(crate) fn lower(pair: u8x32) -> [u8; 16]
    ensures { (f : ℕ → ℕ) → pair ≡ lanes f → (i : ℕ) → i < 16 → slice_index result i ≡ f i }
{
    pair.extract::<0, 16>().to_array()
}

/// The bytes in its upper half.
#[inline(always)]
pub(crate) fn upper(pair: u8x32) -> [u8; 16]
    ensures { (f : ℕ → ℕ) → pair ≡ lanes f → (i : ℕ) → i < 16
        → slice_index result i ≡ f (16 + i) }
{
    pair.extract::<16, 16>().to_array()
}
