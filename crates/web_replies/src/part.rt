//! Parts of files.
ghost use Rattle.std.specs.Prelude.{◌≡◌, ◌≤◌, ◌<◌, ◌+◌, ◌^◌, [], ◌++◌, length, take, drop, IfOk, OnErr, IsOk, MatchOption};

use file_shares::Download;
use std::alloc::AllocError;
use std::marker::Model;

/// So many bytes of a file, after those that are passed over. Each segment is decoded when its bytes are asked for, and
/// none that is passed over.
#[derive(Drop)]
pub struct Part {
    download: Download,
    skip: usize,
    count: usize,
}

impl Model for Part {
    ghost use Rattle.std.specs.Prelude.{List, ℕ, ◌<◌, ◌≤◌, ◌+◌, ◌^◌, length, take, drop};

    ghost Value = { List ℕ };

    ghost view = { λ p. take p.count (drop p.skip p.download.left) };

    ghost invariant = { λ p. (p.skip + p.count ≤ length p.download.left)
        × ((0 < p.count → p.skip < p.download.each) × (p.skip + p.count < 2 ^ 64)) };
}

impl Part {
    /// So many bytes of a file, after those that are passed over.
    pub fn new(download: Download, skip: usize, count: usize) -> Self
        requires inside { skip + count ≤ length download.left }
        requires fits { skip + count < 2 ^ 64 }
        ensures { result ≡ take count (drop skip download.left) }
    {
        let mut download = download;
        if count == 0 {
            return Part {
                download,
                skip,
                count,
            };
        }
        let passed = download.skip(skip);
        Part {
            download,
            skip: skip - passed,
            count,
        }
    }

    /// So many of its bytes, after those that are passed over.
    pub(crate) fn narrow(self, skip: usize, count: usize) -> Part
        requires { skip + count ≤ length self }
        ensures { result ≡ take count (drop skip self) }
    {
        let Part {
            download,
            skip: before,
            ..
        } = self;
        Part::new(download, before + skip, count)
    }

    /// How many bytes are left.
    pub fn len(&self) -> usize
        ensures { result ≡ length self.now }
    {
        self.count
    }

    /// The bytes of the next segment, of which there is one at least, or none where no byte is left.
    ///
    /// # Errors
    /// Only where memory is refused. Then the same bytes are left: the call can be made again.
    pub fn next(&mut self) -> Result<Option<Vec<u8>>, AllocError>
        ensures given { IfOk result (λ given.
            MatchOption given ((self.old ≡ []) × (self.new ≡ []))
            (λ bytes. (0 < length bytes.items) × (self.old ≡ bytes.items ++ self.new))) }
        ensures err { OnErr result (self.new ≡ self.old) }
        ensures nothing { self.old ≡ [] → IsOk result }
    {
        if self.count == 0 {
            return Ok(None);
        }
        let Some(mut segment) = self.download.next()? else {
            unreachable!();
        };
        let many = self.count.min(segment.len() - self.skip);
        cut(&mut segment, self.skip, many);
        self.skip = 0;
        self.count -= many;
        Ok(Some(segment))
    }
}

/// Leaves so many bytes, from a place on.
fn cut(bytes: &mut Vec<u8>, from: usize, many: usize)
    requires { from + many ≤ length bytes.old.items }
    ensures { bytes.new.items ≡ take many (drop from bytes.old.items) }
{
    if from != 0 {
        bytes.copy_within(from..from + many, 0);
    }
    bytes.truncate(many);
}
