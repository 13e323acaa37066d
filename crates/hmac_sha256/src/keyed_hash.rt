//! The key's blocks and the two hashes.
ghost use Rattle.std.specs.Prelude.{◌≡◌};
ghost use Rattle.hmac_sha256.specs.Hmac.{added_to_each, block_key, hmac_sha256};

use sha2::{Digest, Sha256};

/// The bytes of a block of SHA-256.
const BLOCK_SIZE: usize = 64;

/// What is added to each byte of the key for the inner hash.
const INNER_PAD: u8 = 0x36;

/// What is added to each byte of the key for the outer hash.
const OUTER_PAD: u8 = 0x5c;

/// The HMAC of `message` under `key`, 32 bytes. A key has any length; one of more than 64 bytes is hashed first.
pub fn hmac(key: &[u8], message: &[u8]) -> [u8; 32]
    ensures { result ≡ hmac_sha256 key.now message.now }
{
    let block = block_key(key);
    let mut inner = Sha256::new();
    inner.update(added_to_each(INNER_PAD, &block));
    inner.update(message);
    let digest = inner.finalize();
    let mut outer = Sha256::new();
    outer.update(added_to_each(OUTER_PAD, &block));
    outer.update(digest);
    outer.finalize()
}

/// The key, hashed where it is longer than a block, with zeros behind it.
fn block_key(key: &[u8]) -> [u8; BLOCK_SIZE]
    ensures { result ≡ block_key key.now }
{
    let mut block = [0u8; BLOCK_SIZE];
    if key.len() > BLOCK_SIZE {
        block[..32].copy_from_slice(&Sha256::digest(key));
    } else {
        block[..key.len()].copy_from_slice(key);
    }
    block
}

/// A block, with one byte added to each of its bytes, bit by bit.
fn added_to_each(pad: u8, block: &[u8; BLOCK_SIZE]) -> [u8; BLOCK_SIZE]
    ensures { result ≡ added_to_each pad block.now }
{
    let mut sum = *block;
    for byte in &mut sum {
        *byte ^= pad;
    }
    sum
}
