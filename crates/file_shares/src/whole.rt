//! Bytes that are held whole, and given a piece at a time.
ghost use Rattle.std.specs.Prelude.{◌≡◌, ◌<◌, length, IfOk, OnErr, MatchOption};
ghost use Rattle.std.specs.Rc.{rc_slice_items};
ghost use Rattle.file_shares.specs.Downloads.{IsGiven, IsDone, IsPassed};

use std::alloc::{AllocError, Global};
use std::marker::Model;
use std::rc::RcSlice;

/// The bytes from a place on, in pieces of this size.
#[derive(Drop)]
pub struct Whole {
    bytes: RcSlice<u8>,
    at: usize,
    each: usize,
}

impl Model for Whole {
    ghost use Rattle.std.specs.Prelude.{◌<◌, ◌≤◌, drop, length};
    ghost use Rattle.std.specs.Rc.{rc_slice_items};
    ghost use Rattle.file_shares.specs.Downloads.{DownloadValue};

    ghost Value = { DownloadValue };

    ghost view = { λ w. record { left = drop w.at (rc_slice_items w.bytes); each = w.each } };

    ghost invariant = { λ w. (w.at ≤ length (rc_slice_items w.bytes)) × (0 < w.each) };
}

impl Whole {
    /// All of these bytes, in pieces of this size.
    pub fn new(bytes: RcSlice<u8>, each: usize) -> Self
        requires { 0 < each }
        ensures { result ≡ record { left = rc_slice_items bytes; each = each } }
    {
        Whole { bytes, at: 0, each }
    }

    /// The next piece, or none where no byte is left. After a refusal the same bytes are left.
    pub(crate) fn next(&mut self, alloc: Global) -> Result<Option<Vec<u8>>, AllocError>
        ensures given { IfOk result (λ given. MatchOption given (IsDone self.old self.new)
            (λ bytes. IsGiven bytes.items self.old self.new)) }
        ensures err { OnErr result (self.new ≡ self.old) }
    {
        let left = self.bytes.len() - self.at;
        if left == 0 {
            return Ok(None);
        }
        let end = self.at + self.each.min(left);
        let bytes = Vec::from_slice(alloc, &self.bytes.as_slice()[self.at..end])?;
        self.at = end;
        Ok(Some(bytes))
    }

    /// Passes over bytes of which at least one is left behind, all of them.
    pub(crate) fn skip(&mut self, bytes: usize) -> usize
        requires { bytes < length self.old.left }
        ensures { IsPassed result bytes self.old self.new }
    {
        self.at += bytes;
        bytes
    }
}
