//! Bytes under a key.
ghost use Rattle.std.specs.Prelude.{◌≡◌, ◌<◌, ◌+◌, ◌^◌, length};
ghost use Rattle.aes_ctr.specs.Crypt.{crypt, crypt_from};

use aes_ctr::Key;
use aes_ctr::laws::{keystream_by_place, parts_agree};

/// Encrypts bytes, or decrypts them, which is the same.
pub fn apply_keystream(key: [u8; 16], mut bytes: Vec<u8>) -> Vec<u8>
    ensures { result.items ≡ crypt key bytes.items }
{
    keystream_by_place();
    parts_agree();
    Key::new(key).apply(0, &mut bytes);
    bytes
}

/// The same of bytes whose first one is at a place.
pub(crate) fn apply_keystream_at(key: [u8; 16], place: u64, mut bytes: Vec<u8>) -> Vec<u8>
    requires { place + length bytes.items < 2 ^ 64 }
    ensures { result.items ≡ crypt_from key place bytes.items }
{
    keystream_by_place();
    Key::new(key).apply(place, &mut bytes);
    bytes
}
