//! Blocks that are known, and the primary blocks that are made of them.
ghost use Rattle.std.specs.Prelude.{◌≡◌, ◌<◌, ◌≤◌, ◌++◌, length, map, take, slice_index, IfSome, IfOk, OnOk, OnErr, IsOkUnless};
ghost use Rattle.std.specs.List.{concat};
ghost use Rattle.erasure.specs.Code.{place_of};
ghost use Rattle.erasure.specs.Blocks.{block_through, primary_from};
ghost use Rattle.erasure.specs.Given.{numbered_of, numbers_of, blocks_of, AreNumbers, HaveOneLength};

use crate::fault::CodeFault;
use crate::interpolation::{inverses_at, place, push_block_at, push_copy};
use std::alloc::{AllocError, Global};
use std::marker::Model;

/// As many blocks as there are primary ones, of one length and with different numbers, and what it takes to make others
/// of them.
#[derive(Drop)]
pub(crate) struct Known<'a> {
    given: &'a [(u16, &'a [u8])],
    places: Vec<u8>,
    inverses: [u8; 256],
    contents: Vec<&'a [u8]>,
}

impl<'a> Model for Known<'a> {
    ghost use Rattle.std.specs.Prelude.{◌≡◌, ◌<◌, ◌≤◌, ℕ, List, length, map};
    ghost use Rattle.erasure.specs.Code.{place_of};
    ghost use Rattle.erasure.specs.Blocks.{AreInverses};
    ghost use Rattle.erasure.specs.Given.{contents_of, numbered_of, numbers_of, blocks_of, AreNumbers, HaveOneLength};

    ghost Value = { List (ℕ × List ℕ) };

    ghost view = { λ k. numbered_of k.given.now };

    ghost invariant = { λ k. (0 < length k.given.now) × (length k.given.now ≤ 256)
        × AreNumbers (numbers_of (numbered_of k.given.now))
        × HaveOneLength (blocks_of (numbered_of k.given.now))
        × (k.places.items ≡ map (λ g. place_of g.0) (numbered_of k.given.now))
        × (contents_of k.contents.items ≡ blocks_of (numbered_of k.given.now))
        × AreInverses k.places.items k.inverses };
}

impl<'a> Known<'a> {
    /// These blocks, of which there are 1 to 256.
    pub(crate) fn new(alloc: Global, given: &'a [(u16, &'a [u8])]) -> Result<Self, CodeFault>
        requires some { 0 < length given.now }
        requires few { length given.now ≤ 256 }
        requires numbers { AreNumbers (numbers_of (numbered_of given.now)) }
        requires one_length { HaveOneLength (blocks_of (numbered_of given.now)) }
        ensures known { IfOk result (λ known. known ≡ numbered_of given.now) }
        ensures only_memory { IsOkUnless result CodeFault.NoMemory }
    {
        let mut places = Vec::with_capacity(alloc, given.len())?;
        let mut contents = Vec::with_capacity(alloc, given.len())?;
        for (number, block) in given {
            places.push(place(*number))?;
            contents.push(*block)?;
        }
        let inverses = inverses_at(&places);
        Ok(Known {
            given,
            places,
            inverses,
            contents,
        })
    }

    /// The primary blocks.
    pub(crate) fn primary(&self, alloc: Global) -> Result<Vec<Vec<u8>>, CodeFault>
        ensures primary { IfOk result (λ v. map (λ b. b.items) v.items
            ≡ primary_from (length self.now) self.now) }
        ensures only_memory { IsOkUnless result CodeFault.NoMemory }
    {
        let mut primary = Vec::with_capacity(alloc, self.given.len())?;
        for j in 0..self.given.len() {
            let mut block = Vec::new(alloc);
            self.push_block(j as u16, &mut block)?;
            primary.push(block)?;
        }
        Ok(primary)
    }

    /// Appends the primary blocks in a row. Where memory is refused, nothing is appended.
    pub(crate) fn push_primary(&self, bytes: &mut Vec<u8>) -> Result<(), CodeFault>
        ensures primary { OnOk result (bytes.new.items
            ≡ bytes.old.items ++ concat (primary_from (length self.now) self.now)) }
        ensures refused { OnErr result (bytes.new.items ≡ bytes.old.items) }
        ensures only_memory { IsOkUnless result CodeFault.NoMemory }
    {
        let start = bytes.len();
        match self.push_each(bytes) {
            Ok(()) => Ok(()),
            Err(_) => {
                bytes.truncate(start);
                Err(CodeFault::NoMemory)
            }
        }
    }

    /// Appends the primary blocks in a row, as many as there is memory for.
    fn push_each(&self, bytes: &mut Vec<u8>) -> Result<(), AllocError>
        ensures primary { OnOk result (bytes.new.items
            ≡ bytes.old.items ++ concat (primary_from (length self.now) self.now)) }
        ensures kept { take (length bytes.old.items) bytes.new.items ≡ bytes.old.items }
    {
        for j in 0..self.given.len() {
            self.push_block(j as u16, bytes)?;
        }
        Ok(())
    }

    /// Appends primary block `j`: as it was given, or else made of the others. Where memory is refused, nothing is
    /// appended.
    fn push_block(&self, j: u16, bytes: &mut Vec<u8>) -> Result<(), AllocError>
        requires { j < 256 }
        ensures block { OnOk result (bytes.new.items
            ≡ bytes.old.items
            ++ block_through (map (λ g. place_of g.0) self.now) (blocks_of self.now) (place_of j)) }
        ensures refused { OnErr result (bytes.new.items ≡ bytes.old.items) }
    {
        match index_of(self.given, j) {
            Some(at) => push_copy(self.contents[at], bytes),
            None => push_block_at(
                &self.places,
                &self.inverses,
                &self.contents,
                place(j),
                bytes,
            ),
        }
    }
}

/// Where the block of this number stands, if it is given.
fn index_of(given: &[(u16, &[u8])], number: u16) -> Option<usize>
    ensures { IfSome result (λ at. (at < length given.now)
        × (slice_index (numbers_of (numbered_of given.now)) at ≡ number)) }
{
    for (at, (other, _)) in given.iter().enumerate() {
        if *other == number {
            return Some(at);
        }
    }
    None
}
