//! The code: encoding a block, and decoding.
ghost use Rattle.std.specs.Prelude.{◌≡◌, ◌≢◌, ◌↔◌, ◌<◌, ◌≤◌, ◌++◌, length, map, take, drop, All, IfOk, OnOk, IfErr, OnErr, IsOk, IsErrOf, IsOkUnless};
ghost use Rattle.std.specs.List.{concat};
ghost use Rattle.octets.specs.Sharing.{IsSharing};
ghost use Rattle.erasure.specs.Code.{AreBytes, AreBlocks, IsBlock};
ghost use Rattle.erasure.specs.Blocks.{size_of, block_of, primary_from};
ghost use Rattle.erasure.specs.Given.{contents_of, numbered_of, numbers_of, blocks_of, AreDistinct, AreNumbers, Repeats, HaveOneLength, HasAnotherLength};

use crate::fault::CodeFault;
use crate::given::{has_another_length, repeats};
use crate::interpolation::{inverses_at, place, places_of_first, push_block_at, push_copy};
use crate::known::Known;
use octets::is_sharing;
use std::alloc::{AllocError, Global};
use std::marker::Model;

/// A code of n blocks, of which any k give the k primary ones.
#[derive(Drop)]
pub struct Code {
    k: u16,
    n: u16,
    places: [u8; 256],
    inverses: [u8; 256],
}

impl Model for Code {
    ghost use Rattle.std.specs.Prelude.{◌≡◌, take};
    ghost use Rattle.octets.specs.Sharing.{IsSharing};
    ghost use Rattle.erasure.specs.Size.{CodeSize};
    ghost use Rattle.erasure.specs.Blocks.{first_places, AreInverses};

    ghost Value = { CodeSize };

    ghost view = { λ c. record { k = c.k; n = c.n } };

    ghost invariant = { λ c. IsSharing c.k c.n × (take c.k c.places ≡ first_places c.k)
        × AreInverses (first_places c.k) c.inverses };
}

impl Code {
    /// A code of `n` blocks, `k` of them primary: `BadParameters` unless 1 <= k <= n <= 256.
    pub fn new(k: u16, n: u16) -> Result<Self, CodeFault>
        ensures code { IfOk result (λ c. (c.k ≡ k) × (c.n ≡ n)) }
        ensures taken { IsOk result ↔ IsSharing k n }
        ensures refused { IsOkUnless result CodeFault.BadParameters }
    {
        if is_sharing(k, n) {
            let places = places_of_first(k);
            let inverses = inverses_at(&places[..k as usize]);
            Ok(Code {
                k,
                n,
                places,
                inverses,
            })
        } else {
            Err(CodeFault::BadParameters)
        }
    }

    /// Block `i` of the code of the k primary blocks, which are of one length.
    pub fn encode_block(
        &self,
        alloc: Global,
        primary: &[&[u8]],
        i: u16,
    ) -> Result<Vec<u8>, CodeFault>
        requires count { length primary.now ≡ self.now.k }
        requires one_length { HaveOneLength (contents_of primary.now) }
        requires number { i < self.now.n }
        ensures block { IfOk result (λ b. b.items ≡ block_of (contents_of primary.now) i) }
        ensures code { let blocks = contents_of primary.now in
            AreBlocks (size_of blocks) blocks
            → IfOk result (λ b. IsBlock blocks (size_of blocks) i b.items) }
        ensures only_memory { IsOkUnless result CodeFault.NoMemory }
    {
        let mut block = Vec::new(alloc);
        self.encode_block_into(primary, i, &mut block)?;
        Ok(block)
    }

    /// Appends block `i` of the code of the k primary blocks, which are of one length. Where memory is refused, nothing is
    /// appended.
    pub fn encode_block_into(
        &self,
        primary: &[&[u8]],
        i: u16,
        bytes: &mut Vec<u8>,
    ) -> Result<(), AllocError>
        requires count { length primary.now ≡ self.now.k }
        requires one_length { HaveOneLength (contents_of primary.now) }
        requires number { i < self.now.n }
        ensures block { OnOk result (bytes.new.items
            ≡ bytes.old.items ++ block_of (contents_of primary.now) i) }
        ensures code { let blocks = contents_of primary.now in
            AreBlocks (size_of blocks) blocks → OnOk result
            (IsBlock blocks (size_of blocks) i (drop (length bytes.old.items) bytes.new.items)) }
        ensures refused { OnErr result (bytes.new.items ≡ bytes.old.items) }
    {
        if i < self.k {
            return push_copy(primary[i as usize], bytes);
        }
        let places = &self.places[..self.k as usize];
        push_block_at(places, &self.inverses, primary, place(i), bytes)
    }

    /// The k primary blocks, from the first k of the numbered blocks, which alone are looked at.
    ///
    /// Refused in this order: `TooFew` where fewer than k blocks are given, `Repeated` where a number stands twice
    /// among the first k, `UnequalLength` where these are not of one length.
    pub fn decode(&self, alloc: Global, blocks: &[(u16, &[u8])]) -> Result<Vec<Vec<u8>>, CodeFault>
        requires { All (λ b. b.0 < self.now.n) (take self.now.k blocks.now) }

        ensures primary { let given = numbered_of (take self.now.k blocks.now) in
            IfOk result (λ v. map (λ b. b.items) v.items ≡ primary_from self.now.k given) }
        ensures code { let given = numbered_of (take self.now.k blocks.now) in
            let size = size_of (blocks_of given) in All AreBytes (blocks_of given)
            → IfOk result (λ v.
            All (λ g. IsBlock (map (λ b. b.items) v.items) size g.0 g.1) given) }

        ensures too_few { IsErrOf result CodeFault.TooFew ↔ (length blocks.now < self.now.k) }
        ensures repeated { let given = numbered_of (take self.now.k blocks.now) in
            IsErrOf result CodeFault.Repeated
            ↔ ((self.now.k ≤ length blocks.now) × Repeats (numbers_of given)) }
        ensures unequal { let given = numbered_of (take self.now.k blocks.now) in
            IsErrOf result CodeFault.UnequalLength
            ↔ ((self.now.k ≤ length blocks.now) × AreDistinct (numbers_of given)
            × HasAnotherLength (blocks_of given)) }
        ensures no_other { IfErr result (λ e. e ≢ CodeFault.BadParameters) }
        ensures taken { let given = numbered_of (take self.now.k blocks.now) in
            OnOk result ((self.now.k ≤ length blocks.now) × AreDistinct (numbers_of given)
            × HaveOneLength (blocks_of given)) }
    {
        let given = self.decodable(blocks)?;
        Known::new(alloc, given)?.primary(alloc)
    }

    /// Appends the k primary blocks in a row, from the first k of the numbered blocks, which alone are looked at. Those of
    /// them that are given are copied once, and the others are made where they stay.
    ///
    /// Refused as by `decode`. On each fault nothing is appended. The vector grows block by block: it is best made with room
    /// for all of them.
    pub fn decode_into(
        &self,
        alloc: Global,
        blocks: &[(u16, &[u8])],
        bytes: &mut Vec<u8>,
    ) -> Result<(), CodeFault>
        requires { All (λ b. b.0 < self.now.n) (take self.now.k blocks.now) }

        ensures primary { let given = numbered_of (take self.now.k blocks.now) in
            OnOk result (bytes.new.items ≡ bytes.old.items ++ concat (primary_from self.now.k given)) }
        ensures refused { OnErr result (bytes.new.items ≡ bytes.old.items) }

        ensures too_few { IsErrOf result CodeFault.TooFew ↔ (length blocks.now < self.now.k) }
        ensures repeated { let given = numbered_of (take self.now.k blocks.now) in
            IsErrOf result CodeFault.Repeated
            ↔ ((self.now.k ≤ length blocks.now) × Repeats (numbers_of given)) }
        ensures unequal { let given = numbered_of (take self.now.k blocks.now) in
            IsErrOf result CodeFault.UnequalLength
            ↔ ((self.now.k ≤ length blocks.now) × AreDistinct (numbers_of given)
            × HasAnotherLength (blocks_of given)) }
        ensures no_other { IfErr result (λ e. e ≢ CodeFault.BadParameters) }
        ensures taken { let given = numbered_of (take self.now.k blocks.now) in
            OnOk result ((self.now.k ≤ length blocks.now) × AreDistinct (numbers_of given)
            × HaveOneLength (blocks_of given)) }
    {
        let given = self.decodable(blocks)?;
        Known::new(alloc, given)?.push_primary(bytes)
    }

    /// The first k blocks, if the primary ones can be made of them.
    fn decodable<'a>(
        &self,
        blocks: &'a [(u16, &'a [u8])],
    ) -> Result<&'a [(u16, &'a [u8])], CodeFault>
        requires { All (λ b. b.0 < self.now.n) (take self.now.k blocks.now) }
        ensures given { IfOk result (λ given. given.now ≡ take self.now.k blocks.now) }
        ensures too_few { IsErrOf result CodeFault.TooFew ↔ (length blocks.now < self.now.k) }
        ensures repeated { let given = numbered_of (take self.now.k blocks.now) in
            IsErrOf result CodeFault.Repeated
            ↔ ((self.now.k ≤ length blocks.now) × Repeats (numbers_of given)) }
        ensures unequal { let given = numbered_of (take self.now.k blocks.now) in
            IsErrOf result CodeFault.UnequalLength
            ↔ ((self.now.k ≤ length blocks.now) × AreDistinct (numbers_of given)
            × HasAnotherLength (blocks_of given)) }
        ensures no_other { IfErr result (λ e. (e ≢ CodeFault.BadParameters)
            × (e ≢ CodeFault.NoMemory)) }
        ensures taken { let given = numbered_of (take self.now.k blocks.now) in
            OnOk result ((0 < self.now.k) × (self.now.k ≤ 256) × (self.now.k ≤ length blocks.now)
            × AreNumbers (numbers_of given) × HaveOneLength (blocks_of given)) }
    {
        let k = self.k as usize;
        if blocks.len() < k {
            return Err(CodeFault::TooFew);
        }
        let given = &blocks[..k];
        if repeats(given) {
            return Err(CodeFault::Repeated);
        }
        if has_another_length(given) {
            return Err(CodeFault::UnequalLength);
        }
        Ok(given)
    }
}
