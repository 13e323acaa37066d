//! What is signed as it stands.
ghost use Rattle.std.specs.Prelude.{◌≡◌, ◌↔◌, IsTrue};
ghost use Rattle.std.specs.List.{AllPass};
ghost use Rattle.s3_sign.specs.Spelling.{IsVisible, is_path_byte};

/// Whether a byte of a path is escaped by none (RFC 3986, section 2.3), or is `/`.
fn is_path_byte(byte: u8) -> bool
    ensures { result ≡ is_path_byte byte }
{
    byte.is_ascii_alphanumeric() || matches!(byte, b'-' | b'.' | b'_' | b'~' | b'/')
}

/// Whether each byte is one that a path has unescaped.
pub fn are_path_bytes(path: &[u8]) -> bool
    ensures { IsTrue result ↔ AllPass is_path_byte path.now }
{
    path.iter().all(|byte| is_path_byte(*byte))
}

/// Whether each byte is a visible character of ASCII.
pub fn is_visible(text: &[u8]) -> bool
    ensures { IsTrue result ↔ IsVisible text.now }
{
    text.iter().all(|byte| byte.is_ascii_graphic())
}
