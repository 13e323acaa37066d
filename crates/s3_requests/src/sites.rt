//! Where objects stand, and what a bucket and a prefix are.
ghost use Rattle.std.specs.Prelude.{◌≡◌, ◌↔◌, ◌==◌, IsTrue};
ghost use Rattle.std.specs.Option.{ForSome};
ghost use Rattle.std.specs.List.{AllPass, list_all, slice_split};
ghost use Rattle.s3_requests.specs.ObjectSites.{IsBucket, IsPrefix, is_bucket_byte, is_good_part, is_prefix_byte};

use octets::Bytes;
use s3_sign::is_visible;

/// Where the objects of a grid stand.
#[derive(Drop)]
pub struct ObjectSite {
    /// The host, as the field `Host` has it: with the port, where it isn't the scheme's.
    pub host: Bytes,
    /// The bucket.
    pub bucket: Bytes,
    /// What the names of objects begin with, before a slash, if they begin so.
    pub prefix: Option<Bytes>,
}

impl ObjectSite {
    ghost use Rattle.s3_requests.specs.ObjectSites.{IsObjectSite};

    /// Whether the host has no blanks, and bucket and prefix are such.
    pub fn is_site(&self) -> bool
        ensures { IsTrue result ↔ IsObjectSite self.now }
    {
        is_visible(self.host.as_slice())
            && is_bucket(self.bucket.as_slice())
            && self.has_right_prefix()
    }

    /// Whether its prefix is one, where it has one.
    fn has_right_prefix(&self) -> bool
        ensures { IsTrue result ↔ ForSome self.now.prefix IsPrefix }
    {
        match &self.prefix {
            Some(prefix) => is_prefix(prefix.as_slice()),
            None => true,
        }
    }
}

/// Whether it is a small letter, a digit, `-` or `.`.
fn is_bucket_byte(byte: u8) -> bool
    ensures { result ≡ is_bucket_byte byte }
{
    byte.is_ascii_lowercase() || byte.is_ascii_digit() || byte == b'-' || byte == b'.'
}

/// Whether it is a letter, a digit, `-`, `.`, `_` or `/`.
fn is_prefix_byte(byte: u8) -> bool
    ensures { result ≡ is_prefix_byte byte }
{
    byte.is_ascii_alphanumeric() || byte == b'-' || byte == b'.' || byte == b'_' || byte == b'/'
}

/// Whether each byte is one that a bucket has.
fn are_bucket_bytes(text: &[u8]) -> bool
    ensures { IsTrue result ↔ AllPass is_bucket_byte text.now }
{
    text.iter().all(|byte| is_bucket_byte(*byte))
}

/// Whether each byte is one that a prefix has.
fn are_prefix_bytes(text: &[u8]) -> bool
    ensures { IsTrue result ↔ AllPass is_prefix_byte text.now }
{
    text.iter().all(|byte| is_prefix_byte(*byte))
}

/// Whether it is neither nothing nor `.` nor `..`.
#[tactic(auto, unfolding(crate::specs::ObjectSites::is_good_part))]
fn is_good_part(part: &[u8]) -> bool
    ensures { result ≡ is_good_part part.now }
{
    part.iter().any(|byte| *byte != b'.') || part.len() > 2
}

/// Whether no part between the slashes is nothing, `.` or `..`.
fn are_good_parts(text: &[u8]) -> bool
    ensures { result ≡ list_all is_good_part (slice_split (λ byte. byte == 47) text.now) }
{
    text.split(|byte| *byte == b'/')
        .all(|part| is_good_part(part))
}

/// Whether it is a bucket's name in path style: 3 to 63 of `a` to `z`, `0` to `9`, `-` and `.`.
pub fn is_bucket(text: &[u8]) -> bool
    ensures { IsTrue result ↔ IsBucket text.now }
{
    text.len() >= 3 && text.len() <= 63 && are_bucket_bytes(text)
}

/// Whether it is a prefix of names: 1 to 200 of letters, digits, `-`, `_`, `.` and `/`, where no part between the
/// slashes is nothing, `.` or `..`.
pub fn is_prefix(text: &[u8]) -> bool
    ensures { IsTrue result ↔ IsPrefix text.now }
{
    !text.is_empty() && text.len() <= 200 && are_prefix_bytes(text) && are_good_parts(text)
}
