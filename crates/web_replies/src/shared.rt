//! Bytes that replies share.
ghost use Rattle.std.specs.Prelude.{◌≡◌, ◌<◌, ◌↔◌, [], ◌++◌, length, IfOk, OnErr, IsOk, IsTrue, MatchOption};

use std::alloc::{AllocError, Global};
use std::marker::Model;
use std::rc::RcSlice;

/// How many bytes are copied at once when a reply is taken.
const PIECE: usize = 65_536;

/// Bytes that several replies have at once, none of which has a copy of them.
#[derive(Drop)]
pub struct SharedBytes {
    bytes: RcSlice<u8>,
    at: usize,
}

impl Model for SharedBytes {
    ghost use Rattle.std.specs.Prelude.{List, ℕ, ◌≤◌, drop, length};
    ghost use Rattle.std.specs.Rc.{rc_slice_items};

    ghost Value = { List ℕ };

    ghost view = { λ s. drop s.at (rc_slice_items s.bytes) };

    ghost invariant = { λ s. s.at ≤ length (rc_slice_items s.bytes) };
}

impl SharedBytes {
    /// The bytes of a vector, which isn't copied.
    pub fn from_vec(bytes: Vec<u8>) -> Result<SharedBytes, AllocError>
        ensures { IfOk result (λ shared. shared ≡ bytes.items) }
    {
        let bytes = RcSlice::from_vec(bytes)?;
        Ok(SharedBytes { bytes, at: 0 })
    }

    /// The same bytes once more, without a copy of them.
    pub fn share(&self) -> Result<SharedBytes, AllocError>
        ensures { IfOk result (λ shared. shared ≡ self.now) }
    {
        let bytes = self.bytes.clone()?;
        Ok(SharedBytes { bytes, at: self.at })
    }

    /// The bytes that are left.
    pub(crate) fn as_slice(&self) -> &[u8]
        ensures { result.now ≡ self.now }
    {
        &self.bytes[self.at..]
    }

    /// How many bytes are left.
    pub fn len(&self) -> usize
        ensures { result ≡ length self.now }
    {
        self.bytes.len() - self.at
    }

    /// Whether no byte is left.
    pub fn is_empty(&self) -> bool
        ensures { IsTrue result ↔ (self.now ≡ []) }
    {
        self.len() == 0
    }

    /// A copy of the next bytes, 65,536 at most and one at least, or none where no byte is left.
    ///
    /// # Errors
    /// Only where memory is refused. Then the same bytes are left.
    pub(crate) fn next(&mut self, alloc: Global) -> Result<Option<Vec<u8>>, AllocError>
        ensures given { IfOk result (λ given.
            MatchOption given ((self.old ≡ []) × (self.new ≡ []))
            (λ bytes. (0 < length bytes.items) × (self.old ≡ bytes.items ++ self.new))) }
        ensures err { OnErr result (self.new ≡ self.old) }
        ensures nothing { self.old ≡ [] → IsOk result }
    {
        let left = self.len();
        if left == 0 {
            return Ok(None);
        }
        let end = self.at + left.min(PIECE);
        let bytes = Vec::from_slice(alloc, &self.bytes.as_slice()[self.at..end])?;
        self.at = end;
        Ok(Some(bytes))
    }
}
