//! Times AES-128 in counter mode.

use crate::BODY;
use aes_ctr::Key;
use anyhow::ensure;
use std::rt::Clock;
use std::time::Instant;

/// The least microseconds of encrypting the body, which is made of one byte.
pub(crate) fn least(rt: &(impl Clock + AllocGlobal), turns: u32, byte: u8) -> anyhow::Result<u128> {
    let key = Key::new([byte; 16]);
    let mut body = vec![in rt.alloc(); byte; BODY]?;
    let mut least = u128::MAX;
    for _turn in 0..turns {
        least = least.min(turn(rt, &key, &mut body)?);
        let _decrypted = turn(rt, &key, &mut body)?;
        ensure!(
            body.iter().all(|b| *b == byte),
            "decryption gives another body"
        );
    }
    Ok(least)
}

/// The microseconds of one call.
fn turn(rt: &impl Clock, key: &Key, body: &mut [u8]) -> anyhow::Result<u128> {
    let start = Instant::now(rt)?;
    key.apply(0, body);
    Ok(start.elapsed(rt)?.as_micros())
}
