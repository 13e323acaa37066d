//! What bytes begin with.
ghost use Rattle.std.specs.Prelude.{◌≡◌, ◌≢◌, ◌++◌, ℕ, List, IsSomeAnd};
ghost use Rattle.tag_hash.specs.Netstring.{netstring};

use tag_hash::{laws, read_netstring};

/// The bytes of the netstring that these bytes begin with, and what follows it; `None` where they begin with none.
pub(crate) fn split_netstring(bytes: &[u8]) -> Option<(&[u8], &[u8])>
    ensures { (value rest : List ℕ) → bytes.now ≡ netstring value ++ rest
        → IsSomeAnd result (λ parts. (parts.0.now ≡ value) × (parts.1.now ≡ rest)) }
{
    laws::netstrings_are_read_back();
    match read_netstring(bytes, 0) {
        Ok((span, next)) => Some((&bytes[span.start..span.start + span.len], &bytes[next..])),
        Err(_) => None,
    }
}
