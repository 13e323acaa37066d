//! What is told of files that pass.
ghost use Rattle.std.specs.Prelude.{◌≡◌};
ghost use Rattle.client_tasks.specs.Rates.{rate_of};

use crate::messages::{Line, Tell};
use std::alloc::{AllocError, Global};

/// How often it is told at most: once in so many milliseconds.
const PAUSE: u64 = 250;

/// What is told of files that pass, on standard error: how many, their bytes, and how many bytes a second.
#[derive(Drop)]
pub struct Progress {
    /// Whether anything is told.
    told: bool,
    /// How many files passed.
    files: u64,
    /// How many bytes they have.
    bytes: u64,
    /// When it began, in milliseconds.
    began: u64,
    /// When it was told last.
    last: u64,
}

impl Progress {
    /// Of no file yet, from now on.
    pub fn new<R: Tell>(rt: &R, told: bool) -> Self {
        let now = rt.milliseconds();
        Progress {
            told,
            files: 0,
            bytes: 0,
            began: now,
            last: now,
        }
    }

    /// So many bytes more, of one more file or of the one that came last.
    pub fn count<R: Tell + AllocGlobal>(&mut self, rt: &R, bytes: usize, is_new: bool) {
        self.files = self.files.saturating_add(u64::from(is_new));
        self.bytes = self.bytes.saturating_add(bytes as u64);
        if !self.told {
            return;
        }
        let now = rt.milliseconds();
        if now.saturating_sub(self.last) < PAUSE {
            return;
        }
        self.last = now;
        if let Ok(line) = self.line(rt.alloc(), now) {
            rt.tell_over(&line);
        }
    }

    /// Nothing more comes: tells what passed, on a line that stays.
    pub fn end<R: Tell + AllocGlobal>(&self, rt: &R) {
        if self.told && self.files > 0 {
            if let Ok(line) = self.line(rt.alloc(), rt.milliseconds()) {
                rt.tell_last(&line);
            }
        }
    }

    /// What passed up to a time.
    fn line(&self, alloc: Global, now: u64) -> Result<Line, AllocError> {
        let files = self.files;
        let word = if files == 1 { "file" } else { "files" };
        let bytes = size_text(alloc, self.bytes)?;
        let rate = size_text(alloc, rate_of(self.bytes, now.saturating_sub(self.began)))?;
        let text = format!(in alloc; "{files} {word}, {bytes}, {rate}/s")?;
        Line::new(alloc, text.as_str())
    }
}

/// How many bytes a second so many bytes in so many milliseconds are. A time of less than a millisecond counts as one.
fn rate_of(bytes: u64, milliseconds: u64) -> u64
    ensures { result ≡ rate_of bytes milliseconds }
{
    bytes.saturating_mul(1_000) / milliseconds.max(1)
}

/// A number of bytes as text: below 1,000 as it is, else with one digit behind the point and a unit of 1,000, 1,000,000 or
/// 1,000,000,000 bytes, cut and not rounded.
fn size_text(alloc: Global, bytes: u64) -> Result<String, AllocError> {
    if bytes < 1_000 {
        return format!(in alloc; "{bytes} B");
    }
    let (tenth, unit) = if bytes < 1_000_000 {
        (100, "kB")
    } else if bytes < 1_000_000_000 {
        (100_000, "MB")
    } else {
        (100_000_000, "GB")
    };
    let tenths = bytes / tenth;
    let whole = tenths / 10;
    let digit = tenths % 10;
    format!(in alloc; "{whole}.{digit} {unit}")
}
