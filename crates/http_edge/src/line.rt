//! A connection's bytes by lines, and how a head block ends.
ghost use Rattle.std.specs.Prelude.{◌≡◌, ◌<◌, ◌++◌, length};
ghost use Rattle.http_edge.specs.Line.{IsLine, is_empty_line, end_of_block};

use memchr::memchr;

/// The most bytes of a head block.
pub const MOST_HEAD_BYTES: usize = 16384;

/// How a head block ends.
#[derive(Clone, Copy, PartialEq, Eq)]
pub enum BlockEnd {
    /// With an empty line after a line.
    EmptyLine,
    /// Without one, in as many bytes as a head block may have.
    TooLong,
}

/// The first line with its LF, or all bytes where none ends, and what follows it.
pub fn split_line(bytes: &[u8]) -> (&[u8], &[u8])
    requires { 0 < length bytes.now }
    ensures parts { bytes.now ≡ result.0.now ++ result.1.now }
    ensures line { IsLine result.0.now }
    ensures shorter { length result.1.now < length bytes.now }
{
    match memchr(b'\n', bytes) {
        Some(at) => bytes.split_at(at + 1),
        None => bytes.split_at(bytes.len()),
    }
}

/// Whether the bytes are LF or CRLF.
pub fn is_empty_line(part: &[u8]) -> bool
    ensures { result ≡ is_empty_line part.now }
{
    part == b"\n".as_slice() || part == b"\r\n".as_slice()
}

/// How a head block ends with its last line, or nothing where it goes on.
#[tactic(auto, unfolding(crate::specs::Line::end_of_block))]
pub fn end_of_block(part: &[u8]) -> Option<BlockEnd>
    ensures { result ≡ end_of_block part.now }
{
    if part.ends_with(b"\n\n") || part.ends_with(b"\n\r\n") {
        return Some(BlockEnd::EmptyLine);
    }
    if part.len() >= MOST_HEAD_BYTES {
        return Some(BlockEnd::TooLong);
    }
    None
}
