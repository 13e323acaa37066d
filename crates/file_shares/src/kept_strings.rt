//! Strings of a long file that stores gave before it is read.
ghost use Rattle.std.specs.Prelude.{◌≡◌, map, IsTrue};
ghost use Rattle.std.specs.Option.{ForSome};
ghost use Rattle.std.specs.Rc.{rc_slice_items};
ghost use Rattle.file_shares.specs.Gathered.{found_string, fit_of};
ghost use Rattle.file_shares.specs.Bound.{Bound};

use crate::read_ahead::ReadAhead;
use aes_ctr::laws::{keystream_by_place, parts_agree, twice_is_unchanged};
use caps::ReadFields;
use std::alloc::{AllocError, Global};
use std::rc::RcSlice;

/// The strings of the numbers below k that stores gave of a file, and the stamp of its storage index at that time.
#[derive(Drop)]
pub struct Gathered {
    /// The fields of the file.
    pub fields: ReadFields,
    /// The stamp of its storage index.
    pub stamp: u64,
    /// The server, the number and the bytes of each string.
    pub found: Vec<(usize, u16, RcSlice<u8>)>,
    pub ghost bound: { ForSome (fit_of (map (found_string rc_slice_items) found.items) fields) (Bound fields) },
}

impl Gathered {
    /// Strings of the file with these fields, that were gathered at this stamp.
    pub fn new(fields: &ReadFields, stamp: u64, found: Vec<(usize, u16, RcSlice<u8>)>) -> Gathered
        ensures fields { result.fields ≡ fields.now }
        ensures stamp { result.stamp ≡ stamp }
        ensures strings { result.found.items ≡ found.items }
    {
        share_codec::laws::good_shares_are_read();
        share_codec::laws::segments_are_joined_again();
        erasure::laws::decoded_blocks_are_the_given();
        keystream_by_place();
        twice_is_unchanged();
        parts_agree();
        Gathered {
            fields: *fields,
            stamp,
            found,
        }
    }

    /// Whether they are of the file with these fields, and were gathered at this stamp.
    pub fn is_of(&self, fields: &ReadFields, stamp: u64) -> bool
        ensures fields { IsTrue result → self.now.fields ≡ fields.now }
        ensures stamp { IsTrue result → self.now.stamp ≡ stamp }
    {
        self.stamp == stamp && self.fields == *fields
    }

    /// The reading of the strings, before they are judged. They are shared, not copied. None where a number below k has none,
    /// or memory is refused.
    pub fn read_ahead(&self, alloc: Global) -> Option<ReadAhead> {
        let found = shared(alloc, &self.found).ok()?;
        ReadAhead::new(alloc, &self.fields, found)
    }
}

/// The same strings once more. They are shared, not copied.
fn shared(
    alloc: Global,
    found: &[(usize, u16, RcSlice<u8>)],
) -> Result<Vec<(usize, u16, RcSlice<u8>)>, AllocError> {
    let mut all = Vec::with_capacity(alloc, found.len())?;
    for (server, number, bytes) in found {
        all.push((*server, *number, bytes.clone()?))?;
    }
    Ok(all)
}
