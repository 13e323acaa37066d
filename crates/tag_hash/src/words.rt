//! Vectors of 32-bit words, four or eight lanes wide, and what SHA-256 (FIPS 180-4, 4.1.2) computes in each lane.
ghost use Rattle.std.specs.Prelude.{◌≡◌, ℕ, ◌-◌, ◌*◌, ◌/◌, ◌%◌, ◌^◌, ◌<◌, bit_or, slice_index};
ghost use Rattle.sha2.specs.Sha256.{add32, big_sigma0, big_sigma1, ch, maj, small_sigma0, small_sigma1};
ghost use Rattle.tag_hash.specs.Lanes.{eight, four};

use std::simd::prelude::*;

/// Vectors of words of 32 bits, one in each lane. `of f` is the vector with `f j` in lane `j`.
pub(crate) trait Words: Copy {
    ghost of: { (ℕ → ℕ) → Self };

    /// How many lanes there are, at most 8.
    ghost lanes: { ℕ };

    /// The same word in each lane.
    fn splat(word: u32) -> Self
        ensures { result ≡ of (λ j. word) };

    /// The first of these words, one in each lane.
    fn gathered(words: &[u32; 8]) -> Self
        ensures { (f : ℕ → ℕ) → ((j : ℕ) → j < 8 → slice_index words.now j ≡ f j)
            → result ≡ of f };

    /// The words, lane by lane, and zeros for lanes that there are not.
    fn words(self) -> [u32; 8]
        ensures { (f : ℕ → ℕ) (j : ℕ) → self ≡ of f → j < lanes
            → slice_index result j ≡ f j };

    /// Sums modulo 2^32.
    fn plus(self, other: Self) -> Self
        ensures { (f g : ℕ → ℕ) → self ≡ of f → other ≡ of g
            → result ≡ of (λ j. add32 (f j) (g j)) };

    /// Bit by bit, `y` where this has a 1 and `z` where it has a 0.
    fn choice(self, y: Self, z: Self) -> Self
        ensures { (f g h : ℕ → ℕ) → self ≡ of f → y ≡ of g → z ≡ of h
            → result ≡ of (λ j. ch (f j) (g j) (h j)) };

    /// Bit by bit, what most of the three have.
    fn majority(self, y: Self, z: Self) -> Self
        ensures { (f g h : ℕ → ℕ) → self ≡ of f → y ≡ of g → z ≡ of h
            → result ≡ of (λ j. maj (f j) (g j) (h j)) };

    /// A rotation to the right.
    fn rotated(self, n: u32) -> Self
        requires above { 0 < n }
        requires below { n < 32 }
        ensures { (f : ℕ → ℕ) → self ≡ of f
            → result ≡ of (λ j. bit_or (f j / 2 ^ n) (f j * 2 ^ (32 - n) % 2 ^ 32)) };

    /// The upper case sigma 0 (4.1.2).
    fn upper_sigma0(self) -> Self
        ensures { (f : ℕ → ℕ) → self ≡ of f → result ≡ of (λ j. big_sigma0 (f j)) };

    /// The upper case sigma 1.
    fn upper_sigma1(self) -> Self
        ensures { (f : ℕ → ℕ) → self ≡ of f → result ≡ of (λ j. big_sigma1 (f j)) };

    /// The lower case sigma 0.
    fn lower_sigma0(self) -> Self
        ensures { (f : ℕ → ℕ) → self ≡ of f → result ≡ of (λ j. small_sigma0 (f j)) };

    /// The lower case sigma 1.
    fn lower_sigma1(self) -> Self
        ensures { (f : ℕ → ℕ) → self ≡ of f → result ≡ of (λ j. small_sigma1 (f j)) };
}

impl Words for u32x4 {
    ghost of = { λ f. four f };

    ghost lanes = { 4 };

    #[inline(always)]
    fn splat(word: u32) -> u32x4 {
        u32x4::splat(word)
    }

    #[inline(always)]
    fn gathered(words: &[u32; 8]) -> u32x4 {
        u32x4::from_array([words[0], words[1], words[2], words[3]])
    }

    #[inline(always)]
    fn words(self) -> [u32; 8] {
        let [a, b, c, d] = self.to_array();
        [a, b, c, d, 0, 0, 0, 0]
    }

    #[inline(always)]
    fn plus(self, other: u32x4) -> u32x4 {
        self + other
    }

    #[inline(always)]
    fn choice(self, y: u32x4, z: u32x4) -> u32x4 {
        (self & y) ^ (!self & z)
    }

    #[inline(always)]
    fn majority(self, y: u32x4, z: u32x4) -> u32x4 {
        y ^ ((self ^ y) & (y ^ z))
    }

    #[inline(always)]
    fn rotated(self, n: u32) -> u32x4 {
        (self >> u32x4::splat(n)) | (self << u32x4::splat(32 - n))
    }

    #[inline(always)]
    fn upper_sigma0(self) -> u32x4 {
        (self ^ (self ^ self.rotated(9)).rotated(11)).rotated(2)
    }

    #[inline(always)]
    fn upper_sigma1(self) -> u32x4 {
        (self ^ (self ^ self.rotated(14)).rotated(5)).rotated(6)
    }

    #[inline(always)]
    fn lower_sigma0(self) -> u32x4 {
        (self ^ self.rotated(11)).rotated(7) ^ (self >> u32x4::splat(3))
    }

    #[inline(always)]
    fn lower_sigma1(self) -> u32x4 {
        (self ^ self.rotated(2)).rotated(17) ^ (self >> u32x4::splat(10))
    }
}

impl Words for u32x8 {
    ghost of = { λ f. eight f };

    ghost lanes = { 8 };

    #[inline(always)]
    fn splat(word: u32) -> u32x8 {
        u32x8::splat(word)
    }

    #[inline(always)]
    fn gathered(words: &[u32; 8]) -> u32x8 {
        u32x8::from_array([
            words[0], words[1], words[2], words[3], words[4], words[5], words[6], words[7],
        ])
    }

    #[inline(always)]
    fn words(self) -> [u32; 8] {
        self.to_array()
    }

    #[inline(always)]
    fn plus(self, other: u32x8) -> u32x8 {
        self + other
    }

    #[inline(always)]
    fn choice(self, y: u32x8, z: u32x8) -> u32x8 {
        (self & y) ^ (!self & z)
    }

    #[inline(always)]
    fn majority(self, y: u32x8, z: u32x8) -> u32x8 {
        y ^ ((self ^ y) & (y ^ z))
    }

    #[inline(always)]
    fn rotated(self, n: u32) -> u32x8 {
        (self >> u32x8::splat(n)) | (self << u32x8::splat(32 - n))
    }

    #[inline(always)]
    fn upper_sigma0(self) -> u32x8 {
        (self ^ (self ^ self.rotated(9)).rotated(11)).rotated(2)
    }

    #[inline(always)]
    fn upper_sigma1(self) -> u32x8 {
        (self ^ (self ^ self.rotated(14)).rotated(5)).rotated(6)
    }

    #[inline(always)]
    fn lower_sigma0(self) -> u32x8 {
        (self ^ self.rotated(11)).rotated(7) ^ (self >> u32x8::splat(3))
    }

    #[inline(always)]
    fn lower_sigma1(self) -> u32x8 {
        (self ^ self.rotated(2)).rotated(17) ^ (self >> u32x8::splat(10))
    }
}
