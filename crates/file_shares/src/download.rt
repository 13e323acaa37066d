//! Downloads: the bytes of a file, a segment at a time.
ghost use Rattle.std.specs.Prelude.{◌≡◌, ◌<◌, length, IfOk, OnErr, MatchOption};
ghost use Rattle.file_shares.specs.Downloads.{IsGiven, IsDone, IsPassed};

use crate::share_reader::ShareReader;
use crate::whole::Whole;
use std::alloc::{AllocError, Global};
use std::marker::Model;

/// Where the bytes come from.
#[derive(Drop)]
pub(crate) enum Source {
    /// The whole file is held.
    Whole(Whole),
    /// So are k good shares of it.
    Pinned(ShareReader),
}

/// The bytes of a file that are left, which are given a segment at a time. No store is asked for them.
#[derive(Drop)]
pub struct Download {
    alloc: Global,
    source: Source,
}

impl Model for Download {
    ghost use Rattle.file_shares.specs.Downloads.{DownloadValue};

    ghost Value = { DownloadValue };

    ghost use Rattle.file_shares.specs.Sources.{download_of};

    ghost view = { λ d. download_of d.source };
}

impl Download {
    /// All bytes of a file that is held.
    pub fn whole(alloc: Global, whole: Whole) -> Self
        ensures { result ≡ whole }
    {
        Download {
            alloc,
            source: Source::Whole(whole),
        }
    }

    /// All bytes of a file of which shares are held.
    pub fn pinned(alloc: Global, shares: ShareReader) -> Self
        ensures { result ≡ shares }
    {
        Download {
            alloc,
            source: Source::Pinned(shares),
        }
    }

    /// The bytes of the next segment, or none where no byte is left.
    ///
    /// # Errors
    /// Only where memory is refused. Then the same bytes are left: the call can be made again.
    pub fn next(&mut self) -> Result<Option<Vec<u8>>, AllocError>
        ensures given { IfOk result (λ given. MatchOption given (IsDone self.old self.new)
            (λ bytes. IsGiven bytes.items self.old self.new)) }
        ensures err { OnErr result (self.new ≡ self.old) }
    {
        match &mut self.source {
            Source::Whole(whole) => whole.next(self.alloc),
            Source::Pinned(shares) => shares.next(self.alloc),
        }
    }

    /// Passes over bytes of which at least one is left behind: whole segments that end within the next `bytes` bytes, so
    /// that the byte behind these is in the next segment. No segment is decoded. It gives how many bytes it passed over.
    pub fn skip(&mut self, bytes: usize) -> usize
        requires { bytes < length self.old.left }
        ensures { IsPassed result bytes self.old self.new }
    {
        match &mut self.source {
            Source::Whole(whole) => whole.skip(bytes),
            Source::Pinned(shares) => shares.skip(bytes),
        }
    }
}
