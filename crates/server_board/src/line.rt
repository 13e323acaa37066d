//! What stands in a file of one line.
ghost use Rattle.std.specs.Prelude.{◌≡◌};
ghost use Rattle.server_board.specs.Line.{without_line_feed};

/// These bytes, but for a line feed at their end.
pub fn without_line_feed(bytes: &[u8]) -> &[u8]
    ensures { result.now ≡ without_line_feed bytes.now }
{
    if bytes.ends_with(b"\n") {
        &bytes[..bytes.len() - 1]
    } else {
        bytes
    }
}
