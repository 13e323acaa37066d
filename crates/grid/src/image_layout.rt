//! The two layouts of an image.
ghost use Rattle.std.specs.Prelude.{◌≡◌, ◌≤◌, ◌+◌, length};
ghost use Rattle.grid.specs.Layout.{count_at as count_said, layout_said, u32_at as number_said, wide as width, long_number_at as long_said};

/// How an image is laid out. The number of shares and each share's length have four bytes in version 1, and eight in
/// version 2; all else is the same. Numbers have their highest byte first.
#[derive(Clone, Copy)]
pub enum Layout {
    /// `TGRIDIM1`, which is only read.
    VersionOne,
    /// `TGRIDIM2`, which is read and written.
    VersionTwo,
}

impl Layout {
    /// The layout that an image's first 8 bytes name.
    pub fn named(bytes: &[u8]) -> Option<Self>
        ensures { result ≡ layout_said bytes.now }
    {
        if bytes == b"TGRIDIM1".as_slice() {
            return Some(Layout::VersionOne);
        }
        if bytes == b"TGRIDIM2".as_slice() {
            return Some(Layout::VersionTwo);
        }
        None
    }

    /// How many bytes the number of shares has, and each share's length.
    pub fn wide(self) -> usize
        ensures { result ≡ width self }
    {
        match self {
            Layout::VersionOne => 4,
            Layout::VersionTwo => 8,
        }
    }

    /// The number of shares or the length in the bytes at a place.
    pub fn count_at(self, bytes: &[u8], at: usize) -> u64
        requires { at + width self ≤ length bytes.now }
        ensures { result ≡ count_said self bytes.now at }
    {
        match self {
            Layout::VersionOne => u64::from(number_at(bytes, at)),
            Layout::VersionTwo => long_number_at(bytes, at),
        }
    }
}

/// The number in the four bytes at a place.
pub fn number_at(bytes: &[u8], at: usize) -> u32
    requires { at + 4 ≤ length bytes.now }
    ensures { result ≡ number_said bytes.now at }
{
    let mut four = [0; 4];
    four.copy_from_slice(&bytes[at..at + 4]);
    u32::from_be_bytes(four)
}

/// The number in the eight bytes at a place.
fn long_number_at(bytes: &[u8], at: usize) -> u64
    requires { at + 8 ≤ length bytes.now }
    ensures { result ≡ long_said bytes.now at }
{
    let mut eight = [0; 8];
    eight.copy_from_slice(&bytes[at..at + 8]);
    u64::from_be_bytes(eight)
}
