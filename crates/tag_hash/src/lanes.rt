//! SHA-256's compression (FIPS 180-4, 6.2.2) of several blocks at once: vector by vector, with a message in each lane.
ghost use Rattle.std.specs.Prelude.{◌≡◌, ℕ, List, ◌+◌, ◌-◌, ◌*◌, ◌<◌, ◌≤◌};
ghost use Rattle.sha2.specs.Sha256.{add32, add_state, compress, round, small_sigma0, small_sigma1, word_at};
ghost use Rattle.tag_hash.specs.Lanes.{AreLaneBlocks, scheduled, together, variables_at, words_from};

use crate::words::Words;

/// The round constants (4.2.2).
const ROUND_CONSTANTS: [u32; 64] = [
    0x428A2F98, 0x71374491, 0xB5C0FBCF, 0xE9B5DBA5, 0x3956C25B, 0x59F111F1, 0x923F82A4, 0xAB1C5ED5,
    0xD807AA98, 0x12835B01, 0x243185BE, 0x550C7DC3, 0x72BE5D74, 0x80DEB1FE, 0x9BDC06A7, 0xC19BF174,
    0xE49B69C1, 0xEFBE4786, 0x0FC19DC6, 0x240CA1CC, 0x2DE92C6F, 0x4A7484AA, 0x5CB0A9DC, 0x76F988DA,
    0x983E5152, 0xA831C66D, 0xB00327C8, 0xBF597FC7, 0xC6E00BF3, 0xD5A79147, 0x06CA6351, 0x14292967,
    0x27B70A85, 0x2E1B2138, 0x4D2C6DFC, 0x53380D13, 0x650A7354, 0x766A0ABB, 0x81C2C92E, 0x92722C85,
    0xA2BFE8A1, 0xA81A664B, 0xC24B8B70, 0xC76C51A3, 0xD192E819, 0xD6990624, 0xF40E3585, 0x106AA070,
    0x19A4C116, 0x1E376C08, 0x2748774C, 0x34B0BCB5, 0x391C0CB3, 0x4ED8AA4A, 0x5B9CCA4F, 0x682E6FF3,
    0x748F82EE, 0x78A5636F, 0x84C87814, 0x8CC70208, 0x90BEFFFA, 0xA4506CEB, 0xBEF9A3F7, 0xC67178F2,
];

/// The word at byte `at` of a block.
#[inline(always)]
fn word(block: &[u8; 64], at: usize) -> u32
    requires { at + 4 ≤ 64 }
    ensures { result ≡ word_at block.now at }
{
    u32::from_be_bytes([block[at], block[at + 1], block[at + 2], block[at + 3]])
}

/// Word `i` of each block.
#[inline(always)]
fn words_at<L: Words>(blocks: &[&[u8; 64]; 8], i: usize) -> L
    requires { i < 16 }
    ensures { (b : ℕ → List ℕ) → AreLaneBlocks blocks.now b → result ≡ L.of (scheduled b (0 + i)) }
{
    let at = 4 * i;
    let [a, b, c, d, e, f, g, h] = *blocks;
    L::gathered(&[
        word(a, at),
        word(b, at),
        word(c, at),
        word(d, at),
        word(e, at),
        word(f, at),
        word(g, at),
        word(h, at),
    ])
}

/// The words of as many of the blocks as there are lanes.
#[inline(always)]
pub(crate) fn first_words<L: Words>(blocks: &[&[u8; 64]; 8]) -> [L; 16]
    ensures { (b : ℕ → List ℕ) → AreLaneBlocks blocks.now b → result ≡ words_from L.of b 0 }
{
    [
        words_at(blocks, 0),
        words_at(blocks, 1),
        words_at(blocks, 2),
        words_at(blocks, 3),
        words_at(blocks, 4),
        words_at(blocks, 5),
        words_at(blocks, 6),
        words_at(blocks, 7),
        words_at(blocks, 8),
        words_at(blocks, 9),
        words_at(blocks, 10),
        words_at(blocks, 11),
        words_at(blocks, 12),
        words_at(blocks, 13),
        words_at(blocks, 14),
        words_at(blocks, 15),
    ]
}

/// The schedules' next word, from those sixteen, fifteen, seven and two words before it.
#[inline(always)]
fn next_word<L: Words>(sixteenth: L, fifteenth: L, seventh: L, second: L) -> L
    ensures { (f g h k : ℕ → ℕ) → sixteenth ≡ L.of f → fifteenth ≡ L.of g → seventh ≡ L.of h
        → second ≡ L.of k
        → result ≡ L.of (λ j. add32 (add32 (add32 (small_sigma1 (k j)) (h j))
        (small_sigma0 (g j))) (f j)) }
{
    let early = second.lower_sigma1().plus(seventh);
    early.plus(fifteenth.lower_sigma0()).plus(sixteenth)
}

/// One round (6.2.2, step 3).
#[inline(always)]
fn round<L: Words>(v: [L; 8], constant: u32, word: L) -> [L; 8]
    ensures { (vs : ℕ → List ℕ) (x : ℕ → ℕ) → v ≡ together L.of 8 vs → word ≡ L.of x
        → result ≡ together L.of 8 (λ j. round (vs j) constant (x j)) }
{
    let [a, b, c, d, e, f, g, h] = v;
    let first = h
        .plus(e.upper_sigma1())
        .plus(e.choice(f, g))
        .plus(L::splat(constant))
        .plus(word);
    let second = a.upper_sigma0().plus(a.majority(b, c));
    [first.plus(second), a, b, c, d.plus(first), e, f, g]
}

/// Round `from + place`, with its word.
#[inline(always)]
fn numbered_round<L: Words>(v: [L; 8], word: L, from: usize, place: usize) -> [L; 8]
    requires { from + place < 64 }
    ensures { (b h : ℕ → List ℕ) → word ≡ L.of (scheduled b (from + place))
        → v ≡ variables_at L.of b h (from + place)
        → result ≡ variables_at L.of b h (from + (place + 1)) }
{
    round(v, ROUND_CONSTANTS[from + place], word)
}

/// The first sixteen rounds, with the words of the blocks.
#[inline(always)]
fn first_rounds<L: Words>(v: [L; 8], w: [L; 16]) -> [L; 8]
    ensures { (b h : ℕ → List ℕ) → w ≡ words_from L.of b 0 → v ≡ variables_at L.of b h 0
        → result ≡ variables_at L.of b h 16 }
{
    let v = numbered_round(v, w[0], 0, 0);
    let v = numbered_round(v, w[1], 0, 1);
    let v = numbered_round(v, w[2], 0, 2);
    let v = numbered_round(v, w[3], 0, 3);
    let v = numbered_round(v, w[4], 0, 4);
    let v = numbered_round(v, w[5], 0, 5);
    let v = numbered_round(v, w[6], 0, 6);
    let v = numbered_round(v, w[7], 0, 7);
    let v = numbered_round(v, w[8], 0, 8);
    let v = numbered_round(v, w[9], 0, 9);
    let v = numbered_round(v, w[10], 0, 10);
    let v = numbered_round(v, w[11], 0, 11);
    let v = numbered_round(v, w[12], 0, 12);
    let v = numbered_round(v, w[13], 0, 13);
    let v = numbered_round(v, w[14], 0, 14);
    numbered_round(v, w[15], 0, 15)
}

/// The words that eight rounds from `from` on make, after the last eight of the sixteen before them, and the variables.
#[inline(always)]
fn later_rounds<L: Words>(v: [L; 8], w: [L; 16], from: usize) -> ([L; 16], [L; 8])
    requires after { 16 ≤ from }
    requires within { from + 8 ≤ 64 }
    ensures words { (b : ℕ → List ℕ) → w ≡ words_from L.of b (from - 16)
        → result.0 ≡ words_from L.of b (from - 8) }
    ensures rounded { (b h : ℕ → List ℕ) → w ≡ words_from L.of b (from - 16)
        → v ≡ variables_at L.of b h from
        → result.1 ≡ variables_at L.of b h (from + 8) }
{
    let w0 = next_word(w[0], w[1], w[9], w[14]);
    let v = numbered_round(v, w0, from, 0);
    let w1 = next_word(w[1], w[2], w[10], w[15]);
    let v = numbered_round(v, w1, from, 1);
    let w2 = next_word(w[2], w[3], w[11], w0);
    let v = numbered_round(v, w2, from, 2);
    let w3 = next_word(w[3], w[4], w[12], w1);
    let v = numbered_round(v, w3, from, 3);
    let w4 = next_word(w[4], w[5], w[13], w2);
    let v = numbered_round(v, w4, from, 4);
    let w5 = next_word(w[5], w[6], w[14], w3);
    let v = numbered_round(v, w5, from, 5);
    let w6 = next_word(w[6], w[7], w[15], w4);
    let v = numbered_round(v, w6, from, 6);
    let w7 = next_word(w[7], w[8], w0, w5);
    let v = numbered_round(v, w7, from, 7);
    (
        [
            w[8], w[9], w[10], w[11], w[12], w[13], w[14], w[15], w0, w1, w2, w3, w4, w5, w6, w7,
        ],
        v,
    )
}

/// The hash values with the outcome of the rounds added (6.2.2, step 4).
#[inline(always)]
fn sums<L: Words>(h: [L; 8], v: [L; 8]) -> [L; 8]
    ensures { (hs vs : ℕ → List ℕ) → h ≡ together L.of 8 hs → v ≡ together L.of 8 vs
        → result ≡ together L.of 8 (λ j. add_state (hs j) (vs j)) }
{
    [
        h[0].plus(v[0]),
        h[1].plus(v[1]),
        h[2].plus(v[2]),
        h[3].plus(v[3]),
        h[4].plus(v[4]),
        h[5].plus(v[5]),
        h[6].plus(v[6]),
        h[7].plus(v[7]),
    ]
}

/// The compression of one block more in each lane.
#[inline(always)]
pub(crate) fn compressed<L: Words>(state: [L; 8], words: [L; 16]) -> [L; 8]
    ensures { (b h : ℕ → List ℕ) → words ≡ words_from L.of b 0 → state ≡ together L.of 8 h
        → result ≡ together L.of 8 (λ j. compress (h j) (b j)) }
{
    let mut w = words;
    let mut v = first_rounds(state, w);
    for turn in 2..8usize {
        let (next_words, next) = later_rounds(v, w, 8 * turn);
        w = next_words;
        v = next;
    }
    sums(state, v)
}
