//! What stands in a file: bytes, and their seal behind them.
ghost use Rattle.std.specs.Prelude.{◌≡◌, ◌≢◌, ◌<◌, ◌≤◌, ◌↔◌, ℕ, List, length, take, drop, map, IsTrue, IfSome, IfNone, IsSomeAnd};
ghost use Rattle.std.specs.List.{concat};
ghost use Rattle.sha2.specs.Sha256.{sha256};
ghost use Rattle.folder_shelf.specs.Sealed.{four_parts, seal, sealed};

use sha2::{Digest, Sha256};
use tag_hash::tagged_four;

/// How many bytes a seal has.
pub(crate) const SEAL: usize = 8;

/// What the parts of bytes are hashed under.
const SEAL_TAG: &[u8; 20] = b"wozhinnam shelf seal";

/// The seal of bytes: they are cut in four parts of almost one length, which are hashed side by side, and the seal is
/// the first 8 bytes of the SHA-256 of the four hashes (FIPS 180-4, 6.2).
pub fn seal_of(bytes: &[u8]) -> [u8; 8]
    ensures { result ≡ seal bytes.now }
{
    let hashes = tagged_four(SEAL_TAG, &four_parts(bytes));
    let digest = digest_of_all(&hashes);
    let mut first = [0; SEAL];
    first.copy_from_slice(&digest[..SEAL]);
    first
}

/// Bytes in four parts: three of a quarter of their number, rounded up, as far as they go, and one of the rest.
fn four_parts(bytes: &[u8]) -> [&[u8]; 4]
    ensures { map (λ part. part.now) result ≡ four_parts bytes.now }
{
    let quarter = bytes.len().div_ceil(4);
    let (first, rest) = cut(bytes, quarter);
    let (second, rest) = cut(rest, quarter);
    let (third, fourth) = cut(rest, quarter);
    [first, second, third, fourth]
}

/// The first `len` bytes, or all where there are fewer, and the rest.
fn cut(bytes: &[u8], len: usize) -> (&[u8], &[u8])
    ensures front { result.0.now ≡ take len bytes.now }
    ensures back { result.1.now ≡ drop len bytes.now }
{
    bytes.split_at(len.min(bytes.len()))
}

/// The SHA-256 of pieces one behind the other.
fn digest_of_all(pieces: &[[u8; 32]]) -> [u8; 32]
    ensures { result ≡ sha256 (concat pieces.now) }
{
    let mut hasher = Sha256::new();
    for piece in pieces {
        hasher.update(piece);
    }
    hasher.finalize()
}

/// Whether the bytes of a text from `len` on are the seal of those before.
fn is_sealed(text: &[u8], len: usize) -> bool
    requires { len ≤ length text.now }
    ensures { IsTrue result ↔ (drop len text.now ≡ seal (take len text.now)) }
{
    let (bytes, behind) = text.split_at(len);
    behind == seal_of(bytes).as_slice()
}

/// The bytes whose seal stands behind them in a file, and `None` where the text is of no bytes. They stay where they
/// lie: no byte is copied.
pub fn unsealed(text: Vec<u8>) -> Option<Vec<u8>>
    ensures whole { IfSome result (λ bytes. text.items ≡ sealed bytes.items) }
    ensures rotten { IfNone result ((bytes : List ℕ) → text.items ≢ sealed bytes) }
{
    let mut text = text;
    if text.len() < SEAL {
        return None;
    }
    let len = text.len() - SEAL;
    if !is_sealed(&text, len) {
        return None;
    }
    text.truncate(len);
    Some(text)
}

/// The share that stands in a file whose bytes these are. `None` where there is no such file, or its text is of none: no
/// share has no bytes.
pub fn share_in(text: Option<Vec<u8>>) -> Option<Vec<u8>>
    ensures some { IfSome result (λ bytes. 0 < length bytes.items) }
    ensures whole { IfSome result (λ bytes. IsSomeAnd text (λ t. t.items ≡ sealed bytes.items)) }
    ensures rotten { IfNone result ((bytes : List ℕ) → 0 < length bytes →
        IsSomeAnd text (λ t. t.items ≡ sealed bytes) → ⊥) }
{
    let bytes = unsealed(text?)?;
    if bytes.as_slice().is_empty() {
        return None;
    }
    Some(bytes)
}
