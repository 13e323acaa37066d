//! Times the hashing in a put and in a get alone, by `sha2`, over strings as long as those that the formats have hashed.

use crate::BODY;
use sha2::{Digest, Sha256};
use std::rt::Clock;
use std::time::Instant;

/// The bytes of a segment's hashed string, for 3 of 10: the lesser of 131,072 and the body's, up to a multiple of 3.
const SEGMENT: usize = 131_073;

/// The bytes of a block: a third of a segment.
const BLOCK: usize = 43_691;

/// How many shares a file has, and how many of them are read.
const SHARES: usize = 10;

const NEEDED: usize = 3;

/// The least microseconds of the hashing in a put (the key, the segments, the blocks of ten shares) and in a get (the
/// blocks of three shares, the segments).
pub(crate) fn least(
    rt: &(impl Clock + AllocGlobal),
    turns: u32,
    byte: u8,
) -> anyhow::Result<(u128, u128)> {
    let body = vec![in rt.alloc(); byte; BODY]?;
    let mut least = (u128::MAX, u128::MAX);
    let mut seen = 0;
    for _turn in 0..turns {
        let start = Instant::now(rt)?;
        seen ^= first_byte(&body) ^ of_pieces(&body, SEGMENT, 1) ^ of_pieces(&body, BLOCK, SHARES);
        least.0 = least.0.min(start.elapsed(rt)?.as_micros());
        let start = Instant::now(rt)?;
        seen ^= of_pieces(&body, BLOCK, NEEDED) ^ of_pieces(&body, SEGMENT, 1);
        least.1 = least.1.min(start.elapsed(rt)?.as_micros());
    }
    // What was hashed is looked at, so that no compiler leaves it out.
    anyhow::ensure!(seen < 256, "a byte is below 256");
    Ok(least)
}

/// Hashes pieces of this many bytes of a body, and of as many shares of it: a third of the pieces for each, since a
/// block is a third of a segment.
fn of_pieces(body: &[u8], bytes: usize, shares: usize) -> u16 {
    let mut seen = 0;
    for _share in 0..shares {
        let pieces = if bytes == BLOCK {
            &body[..BODY_THIRD.min(body.len())]
        } else {
            body
        };
        for piece in pieces.chunks(bytes.max(1)) {
            seen ^= first_byte(piece);
        }
    }
    seen
}

/// A third of the body.
const BODY_THIRD: usize = BODY / 3;

/// The first byte of a hash.
fn first_byte(bytes: &[u8]) -> u16 {
    let hash = Sha256::digest(bytes);
    u16::from(hash[0])
}
