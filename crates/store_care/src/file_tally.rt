//! What is counted of the files whose shares stand in folders.
ghost use Rattle.std.specs.Prelude.{◌≡◌, ◌↔◌, IsTrue};
ghost use Rattle.store_care.specs.Files.{AreAllWhole, counted_with, has_standing};

use base32_text::encode;
use log::{Log, warn};
use server_stores::ProgramFault;
use std::alloc::AllocError;
use std::collections::BTreeSet;

/// The shares that stand: each the storage index of its file, and its number.
pub(crate) type Shares = BTreeSet<([u8; 16], u16)>;

/// How a file stands.
#[derive(Clone, Copy, PartialEq, Eq)]
pub(crate) enum Standing {
    /// All its shares do.
    Whole,
    /// Enough do to give it back.
    Short,
    /// Too few do.
    Lost,
}

/// How many files there are of each standing. A number that reached its largest value stays there.
#[derive(Clone, Copy, PartialEq, Eq)]
pub(crate) struct FileTally {
    pub(crate) whole: u64,
    pub(crate) short: u64,
    pub(crate) lost: u64,
}

/// The standing of a file of which so many shares stand, where so many are needed, and made.
pub(crate) fn standing_of(shares: u64, needed: u16, made: u16) -> Standing
    ensures { result ≡ has_standing shares needed made }
{
    if shares >= u64::from(made) {
        Standing::Whole
    } else if shares >= u64::from(needed) {
        Standing::Short
    } else {
        Standing::Lost
    }
}

impl FileTally {
    /// No file was counted.
    pub(crate) fn new() -> FileTally
        ensures { AreAllWhole result }
    {
        FileTally {
            whole: 0,
            short: 0,
            lost: 0,
        }
    }

    /// Counts a file that stands so.
    pub(crate) fn count(&mut self, standing: Standing)
        ensures { self.new ≡ counted_with standing self.old }
    {
        match standing {
            Standing::Whole => self.whole = self.whole.saturating_add(1),
            Standing::Short => self.short = self.short.saturating_add(1),
            Standing::Lost => self.lost = self.lost.saturating_add(1),
        }
    }

    /// Whether each file that was counted is whole.
    pub(crate) fn are_whole(&self) -> bool
        ensures { IsTrue result ↔ AreAllWhole self.now }
    {
        self.short == 0 && self.lost == 0
    }

    /// Counts each file of which a share is among these, where so many are needed, and made. Each that isn't whole is
    /// logged.
    pub(crate) fn count_each<R: AllocGlobal + Log>(
        &mut self,
        rt: &R,
        shares: &Shares,
        needed: u16,
        made: u16,
    ) -> Result<(), AllocError> {
        let mut last: Option<[u8; 16]> = None;
        let mut count = 0u64;
        for share in shares.iter() {
            if last == Some(share.0) {
                count = count.saturating_add(1);
                continue;
            }
            self.count_last(rt, last, count, needed, made)?;
            last = Some(share.0);
            count = 1;
        }
        self.count_last(rt, last, count, needed, made)
    }

    /// Counts the file of an index, if there is one, of which so many shares stand.
    fn count_last<R: AllocGlobal + Log>(
        &mut self,
        rt: &R,
        index: Option<[u8; 16]>,
        shares: u64,
        needed: u16,
        made: u16,
    ) -> Result<(), AllocError> {
        let Some(index) = index else {
            return Ok(());
        };
        let standing = standing_of(shares, needed, made);
        self.count(standing);
        let word = match standing {
            Standing::Whole => return Ok(()),
            Standing::Short => "short",
            Standing::Lost => "lost",
        };
        let name = encode(rt.alloc(), &index)?;
        warn!(rt; "{word}: {name}: {shares} of {made} shares, and {needed} are needed");
        Ok(())
    }

    /// Tells all that was counted.
    pub(crate) fn tell<R: Print>(
        &self,
        rt: &R,
        needed: u16,
        made: u16,
    ) -> Result<(), ProgramFault> {
        let FileTally { whole, short, lost } = *self;
        let told = println!(rt;
            "files: {whole} whole, {short} with fewer than {made} shares, {lost} with fewer than {needed}"
        );
        match told {
            Ok(()) => Ok(()),
            Err(_) => Err(ProgramFault::NotPrinted),
        }
    }
}
