//! Bytes that are cut in two.
ghost use Rattle.std.specs.Prelude.{◌≢◌, All, MatchOption};
ghost use Rattle.octets.specs.Cut.{IsCutAt};

use memchr::memchr;

/// What stands before the first such byte and after it, or `None` where there is none.
pub fn split_at_byte(bytes: &[u8], byte: u8) -> Option<(&[u8], &[u8])>
    ensures { MatchOption result (All (λ b. b ≢ byte) bytes.now)
        (λ parts. IsCutAt byte bytes.now parts.0.now parts.1.now) }
{
    let at = memchr(byte, bytes)?;
    Some((&bytes[..at], &bytes[at + 1..]))
}
