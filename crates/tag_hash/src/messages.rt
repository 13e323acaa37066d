//! SHA-256 (FIPS 180-4) of up to eight messages that begin alike, one in each lane.
ghost use Rattle.std.specs.Prelude.{◌≡◌, ◌≢◌, ◌-◌, ℕ, List, [], ◌++◌, ◌+◌, ◌*◌, ◌/◌, ◌^◌, ◌<◌, ◌≤◌, length, take, drop, slice_index, slice_index_or};
ghost use Rattle.sha2.specs.Sha256.{digest_bytes, initial_hash_256, padded_message, sha256};
ghost use Rattle.tag_hash.specs.Lanes.{lane_bytes, together, words_from};

use crate::lanes::{compressed, first_words};
use crate::words::Words;

/// Writes those bytes of `source` that fall into a block: it begins at byte `at` of the message, they at byte `from`.
fn lay(block: &mut [u8; 64], at: usize, source: &[u8], from: usize)
    requires at_fits { at < 2 ^ 61 }
    requires source_fits { from + length source.now < 2 ^ 61 }
    ensures inside { (k : ℕ) → k < 64 → from ≤ at + k → at + k < from + length source.now
        → slice_index block.new k ≡ slice_index source.now (at + k - from) }
    ensures before { (k : ℕ) → at + k < from → slice_index block.new k ≡ slice_index block.old k }
    ensures after { (k : ℕ) → from + length source.now ≤ at + k
        → slice_index block.new k ≡ slice_index block.old k }
    ensures long { length block.new ≡ 64 }
{
    let low = from.saturating_sub(at).min(64);
    let high = (from + source.len()).saturating_sub(at).min(64);
    for i in low..high {
        block[i] = source[at + i - from];
    }
}

/// How many blocks a message and its padding have (5.1.1).
fn block_count(prefix: &[u8], value: &[u8]) -> usize
    requires { length prefix.now + length value.now < 2 ^ 60 }
    ensures { result ≡ (length prefix.now + length value.now + 72) / 64 }
{
    (prefix.len() + value.len() + 72) / 64
}

/// Block `n` of a message and its padding, and zeros past its last one.
fn block_of(prefix: &[u8], value: &[u8], n: usize) -> [u8; 64]
    requires short { length prefix.now + length value.now < 2 ^ 60 }
    requires near { n < 2 ^ 55 }
    ensures { (k : ℕ) → slice_index result k
        ≡ slice_index (take 64 (drop (n * 64) (padded_message (prefix.now ++ value.now)))) k }
{
    let at = 64 * n;
    let len = prefix.len() + value.len();
    let mut block = [0u8; 64];
    if prefix.len() <= at && at + 64 <= len {
        let from = at - prefix.len();
        block.copy_from_slice(&value[from..from + 64]);
        return block;
    }
    let end = 64 * block_count(prefix, value);
    let bits = (len as u64 * 8).to_be_bytes();
    lay(&mut block, at, prefix, 0);
    lay(&mut block, at, value, prefix.len());
    lay(&mut block, at, &[0x80], len);
    lay(&mut block, at, &bits, end - 8);
    block
}

/// The 64 bytes of a value from byte `from` on.
#[inline(always)]
fn inside<'a>(value: &'a [u8], from: usize) -> &'a [u8; 64]
    requires { from + 64 ≤ length value.now }
    ensures { result.now ≡ take 64 (drop from value.now) }
{
    <&[u8; 64]>::try_from(&value[from..from + 64]).unwrap()
}

/// The words of block `n` of each message, in the lanes: from the values' own bytes where the block lies within the first
/// `shortest` of all eight.
#[inline(always)]
fn block_words<L: Words>(prefix: &[u8], values: &[&[u8]; 8], shortest: usize, n: usize) -> [L; 16]
    requires short { (j : ℕ) → j < 8
        → length prefix.now + length (lane_bytes values.now j) < 2 ^ 60 }
    requires within { (j : ℕ) → j < 8 → shortest ≤ length (lane_bytes values.now j) }
    requires near { n < 2 ^ 55 }
    ensures { result ≡ words_from L.of (λ j. take 64 (drop (n * 64)
        (padded_message (prefix.now ++ lane_bytes values.now j)))) 0 }
{
    let [a, b, c, d, e, f, g, h] = *values;
    let at = 64 * n;
    if prefix.len() <= at && at - prefix.len() + 64 <= shortest {
        let from = at - prefix.len();
        return first_words(&[
            inside(a, from),
            inside(b, from),
            inside(c, from),
            inside(d, from),
            inside(e, from),
            inside(f, from),
            inside(g, from),
            inside(h, from),
        ]);
    }
    first_words(&[
        &block_of(prefix, a, n),
        &block_of(prefix, b, n),
        &block_of(prefix, c, n),
        &block_of(prefix, d, n),
        &block_of(prefix, e, n),
        &block_of(prefix, f, n),
        &block_of(prefix, g, n),
        &block_of(prefix, h, n),
    ])
}

/// The hash value before the first block (5.3.3), in each lane.
fn initial<L: Words>() -> [L; 8]
    ensures { result ≡ together L.of 8 (λ j. initial_hash_256) }
{
    [
        L::splat(0x6A09E667),
        L::splat(0xBB67AE85),
        L::splat(0x3C6EF372),
        L::splat(0xA54FF53A),
        L::splat(0x510E527F),
        L::splat(0x9B05688C),
        L::splat(0x1F83D9AB),
        L::splat(0x5BE0CD19),
    ]
}

/// The digest in lane `j`.
fn digest_at<L: Words>(state: &[L; 8], j: usize) -> [u8; 32]
    requires { j < 8 }
    ensures { (h : ℕ → List ℕ) → state.now ≡ together L.of 8 h → j < L.lanes
        → result ≡ digest_bytes (h j) 8 }
{
    let mut digest = [0u8; 32];
    for i in 0..8usize {
        let word = state[i].words()[j];
        digest[4 * i..4 * i + 4].copy_from_slice(&word.to_be_bytes());
    }
    digest
}

/// Writes the digest of each message of `n` blocks, once the lanes have taken in so many.
fn keep_ended<L: Words>(digests: &mut [[u8; 32]; 8], state: &[L; 8], counts: &[usize; 8], n: usize)
    ensures ended { (h : ℕ → List ℕ) (j : ℕ) → state.now ≡ together L.of 8 h → j < 8
        → j < L.lanes → slice_index counts.now j ≡ n
        → slice_index_or digests.new j [] ≡ digest_bytes (h j) 8 }
    ensures others { (j : ℕ) → slice_index counts.now j ≢ n
        → slice_index_or digests.new j [] ≡ slice_index_or digests.old j [] }
{
    for j in 0..8usize {
        if counts[j] == n {
            digests[j] = digest_at(state, j);
        }
    }
}

/// The most of eight counts.
fn longest_of(counts: &[usize; 8]) -> usize
    ensures each { (j : ℕ) → j < 8 → slice_index counts.now j ≤ result }
    ensures below { (m : ℕ) → 0 < m → ((j : ℕ) → j < 8 → slice_index counts.now j < m)
        → result < m }
{
    let mut most = 0;
    for j in 0..8usize {
        most = counts[j].max(most);
    }
    most
}

/// The least of eight counts.
fn shortest_of(counts: &[usize; 8]) -> usize
    ensures { (j : ℕ) → j < 8 → result ≤ slice_index counts.now j }
{
    let mut least = usize::MAX;
    for j in 0..8usize {
        least = counts[j].min(least);
    }
    least
}

/// The digests of messages that begin with `prefix`, of as many as there are lanes; `words` is room for a block's words.
/// The lanes run on to the longest one's last block, so where there are more lanes than messages a message stands twice.
pub(crate) fn sha256_each<L: Words>(
    words: [L; 16],
    prefix: &[u8],
    values: &[&[u8]; 8],
) -> [[u8; 32]; 8]
    requires short { (j : ℕ) → j < 8
        → length prefix.now + length (lane_bytes values.now j) < 2 ^ 60 }
    ensures { (j : ℕ) → j < 8 → j < L.lanes
        → slice_index_or result j [] ≡ sha256 (prefix.now ++ lane_bytes values.now j) }
{
    let [a, b, c, d, e, f, g, h] = *values;
    let counts = [
        block_count(prefix, a),
        block_count(prefix, b),
        block_count(prefix, c),
        block_count(prefix, d),
        block_count(prefix, e),
        block_count(prefix, f),
        block_count(prefix, g),
        block_count(prefix, h),
    ];
    let longest = longest_of(&counts);
    let first_end = shortest_of(&counts);
    let shortest = shortest_of(&[
        a.len(),
        b.len(),
        c.len(),
        d.len(),
        e.len(),
        f.len(),
        g.len(),
        h.len(),
    ]);
    let mut words = words;
    let mut state = initial();
    let mut digests = [[0u8; 32]; 8];
    for n in 0..longest {
        words = block_words(prefix, values, shortest, n);
        state = compressed(state, words);
        if first_end <= n + 1 {
            keep_ended(&mut digests, &state, &counts, n + 1);
        }
    }
    digests
}
