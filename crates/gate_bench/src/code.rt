//! Times the code of 3 of 10 blocks.
ghost use Rattle.std.specs.Prelude.{◌≡◌, ◌+◌, ◌*◌, ◌<◌, ◌≤◌, length, IfOk, vec_len};
ghost use Rattle.erasure.specs.Given.{contents_of, HaveOneLength};

use crate::BODY;
use anyhow::ensure;
use erasure::Code;
use std::alloc::{AllocError, Global};
use std::rt::Clock;
use std::time::Instant;

/// The least microseconds of encoding and of decoding. The primary blocks are made of three bytes from `byte` on.
pub(crate) fn least(
    rt: &(impl Clock + AllocGlobal),
    turns: u32,
    byte: u8,
) -> anyhow::Result<(u128, u128)>
    requires { byte < 251 }
{
    let code = Code::new(3, 10)?;
    let size = block_size(BODY);
    let first = block(rt.alloc(), size, byte)?;
    let second = block(rt.alloc(), size, byte + 1)?;
    let third = block(rt.alloc(), size, byte + 2)?;
    let primary = [first.as_slice(), second.as_slice(), third.as_slice()];
    let mut least = (u128::MAX, u128::MAX);
    for _turn in 0..turns {
        let (encode, secondary) = encode_turn(rt, &code, &primary)?;
        let (decode, decoded) = decode_turn(rt, &code, &secondary)?;
        least = (least.0.min(encode), least.1.min(decode));
        ensure!(decoded.len() == 3, "decoding gives too few blocks");
        for j in 0..3usize {
            ensure!(
                decoded[j].as_slice() == primary[j],
                "decoding gives another block"
            );
        }
    }
    Ok(least)
}

/// The bytes of each of three blocks that hold so many bytes.
fn block_size(bytes: usize) -> usize
    ensures holds { bytes ≤ 3 * result }
    ensures least { 3 * result < bytes + 3 }
{
    bytes.div_ceil(3)
}

/// A block of `size` bytes, all of them `byte`.
fn block(alloc: Global, size: usize, byte: u8) -> Result<Vec<u8>, AllocError>
    ensures { IfOk result (λ block. vec_len block ≡ size) }
{
    vec![in alloc; byte; size]
}

/// The secondary blocks, and the microseconds of encoding them.
fn encode_turn(
    rt: &(impl Clock + AllocGlobal),
    code: &Code,
    primary: &[&[u8]],
) -> anyhow::Result<(u128, Vec<Vec<u8>>)>
    requires code { (code.now.k ≡ 3) × (code.now.n ≡ 10) }
    requires count { length primary.now ≡ 3 }
    requires one_length { HaveOneLength (contents_of primary.now) }
{
    let start = Instant::now(rt)?;
    let mut secondary = Vec::with_capacity(rt.alloc(), 7)?;
    for i in 3..10u16 {
        secondary.push(code.encode_block(rt.alloc(), primary, i)?)?;
    }
    Ok((start.elapsed(rt)?.as_micros(), secondary))
}

/// The primary blocks from the last three, and the microseconds of decoding them.
fn decode_turn(
    rt: &(impl Clock + AllocGlobal),
    code: &Code,
    secondary: &[Vec<u8>],
) -> anyhow::Result<(u128, Vec<Vec<u8>>)>
    requires code { (code.now.k ≡ 3) × (code.now.n ≡ 10) }
{
    let [.., eighth, ninth, tenth] = secondary else {
        return Err(anyhow::Error::msg("too few secondary blocks"));
    };
    let given = [
        (7, eighth.as_slice()),
        (8, ninth.as_slice()),
        (9, tenth.as_slice()),
    ];
    let start = Instant::now(rt)?;
    let primary = code.decode(rt.alloc(), &given)?;
    Ok((start.elapsed(rt)?.as_micros(), primary))
}
