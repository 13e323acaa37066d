//! Files that are prepared.
ghost use Rattle.std.specs.Prelude.{◌≡◌, map, true, IfSome, IsTrue};
ghost use Rattle.std.specs.Rc.{rc_slice_items};
ghost use Rattle.file_shares.specs.Gathered.{found_string};
ghost use Rattle.file_shares.specs.Fit.{crypttext_from, are_shares_of};
ghost use Rattle.file_shares.specs.Ahead.{AreVerified, file_params};

use crate::picked::Picked;
use aes_ctr::laws::{keystream_by_place, parts_agree, twice_is_unchanged};
use caps::ReadFields;
use share_codec::Share;
use std::rc::RcSlice;

/// K good shares that give a file, and the strings among which they were found.
#[derive(Drop)]
pub struct Ready {
    /// The fields of the file.
    pub fields: ReadFields,
    found: Vec<(usize, u16, RcSlice<u8>)>,
    shares: Vec<Share>,
    ghost verified: { AreVerified fields (map (found_string rc_slice_items) found.items) shares.items },
}

impl Ready {
    /// Shares of whose crypttext the root is theirs.
    pub(crate) fn new(picked: Picked) -> Ready
        requires { let p = file_params picked.fields in
            let shares = picked.shares.items in
            are_shares_of p (crypttext_from p shares) shares ≡ true }
    {
        share_codec::laws::good_shares_are_read();
        share_codec::laws::segments_are_joined_again();
        erasure::laws::decoded_blocks_are_the_given();
        keystream_by_place();
        twice_is_unchanged();
        parts_agree();
        let Picked {
            fields,
            found,
            shares,
        } = picked;
        Ready {
            fields,
            found,
            shares,
        }
    }

    /// The fields of the file.
    pub(crate) fn fields(&self) -> &ReadFields
        ensures { result.now ≡ self.now.fields }
    {
        &self.fields
    }

    /// The shares, where the strings that were gathered are those among which they were found.
    pub fn give(self, gathered: &[(usize, u16, RcSlice<u8>)]) -> Option<Vec<Share>>
        ensures { IfSome result (λ shares.
            AreVerified self.fields (map (found_string rc_slice_items) gathered.now) shares.items) }
    {
        let Ready {
            fields: _,
            found,
            shares,
        } = self;
        if are_same(&found, gathered) {
            Some(shares)
        } else {
            None
        }
    }
}

/// Whether these are the same strings, of the same numbers, at the same servers.
fn are_same(some: &[(usize, u16, RcSlice<u8>)], others: &[(usize, u16, RcSlice<u8>)]) -> bool
    ensures { IsTrue result → map (found_string rc_slice_items) some.now
        ≡ map (found_string rc_slice_items) others.now }
{
    if some.len() != others.len() {
        return false;
    }
    for at in 0..some.len() {
        if !is_same(&some[at], &others[at]) {
            return false;
        }
    }
    true
}

/// Whether these are the same string, of the same number, at the same server.
fn is_same(one: &(usize, u16, RcSlice<u8>), other: &(usize, u16, RcSlice<u8>)) -> bool
    ensures { IsTrue result → found_string rc_slice_items one.now
        ≡ found_string rc_slice_items other.now }
{
    let (server, number, bytes) = one;
    let (other_server, other_number, others) = other;
    server == other_server && number == other_number && bytes.as_slice() == others.as_slice()
}
