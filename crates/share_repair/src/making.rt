//! The shares of a file, made again of k of them.
ghost use Rattle.std.specs.Prelude.{◌≡◌, ◌≢◌, ◌↔◌, ◌<◌, ℕ, List, Some, length, map, All, IfOk, IfErr, IsTrue, IsFalse};
ghost use Rattle.std.specs.Rc.{rc_slice_items};
ghost use Rattle.erasure.specs.Given.{AreDistinct};
ghost use Rattle.share_codec.specs.GoodShare.{IsCutInBlocks, good_share};
ghost use Rattle.share_codec.specs.Meets.{Meets};
ghost use Rattle.share_repair.specs.Files.{FileLabel, AreGivenOf, IsShareOf};
ghost use Rattle.share_repair.specs.Repaired.{AreRepaired, IsOne, strings_of};
ghost use Rattle.share_repair.specs.Decoded.{AreRead};

use crate::decoding::decoded;
use crate::fault::RepairFault;
use crate::label::{Label, is_out_of_memory};
use share_codec::{Params, Share, ShareFault, make_shares, read_share};
use std::alloc::Global;
use std::rc::RcSlice;

/// All shares of a file, by their numbers, made of k good ones, of which each is given with its number.
///
/// What is given is decoded to the file's crypttext, and that is coded again: no key is needed, and nothing is decrypted.
/// Each share that was given is among the shares that are made, byte for byte. It takes memory for the crypttext and all
/// shares.
///
/// # Errors
/// `Unlike` exactly where what is given isn't k shares of one crypttext of that file, of different numbers, each as it is
/// made of it. `NoMemory` where memory is refused.
pub fn repaired(
    alloc: Global,
    label: &Label,
    given: &[(u16, RcSlice<u8>)],
) -> Result<Vec<Vec<u8>>, RepairFault>
    ensures made { IfOk result (λ made. AreRepaired label.now (strings_of rc_slice_items given.now)
        (map (λ share. share.items) made.items)) }
    ensures some { IfOk result (λ made. All (λ share. 0 < length share.items) made.items) }
    ensures unlike { IfErr result (λ fault. fault ≢ RepairFault.NoMemory →
        (crypttext : List ℕ) → AreGivenOf label.now crypttext (strings_of rc_slice_items given.now) → ⊥) }
{
    share_codec::laws::made_shares_meet_their_fields();
    match read_each(alloc, &label.params, &label.ueb, given) {
        Ok(shares) => remade(alloc, &label.params, &label.ueb, &shares, given),
        Err(fault) => Err(fault),
    }
}

/// All shares of a file, made of those that were read.
fn remade(
    alloc: Global,
    params: &Params,
    ueb: &[u8; 32],
    shares: &[Share],
    given: &[(u16, RcSlice<u8>)],
) -> Result<Vec<Vec<u8>>, RepairFault>
    requires read { let label : FileLabel = record { params = params.now; ueb = ueb.now } in
        AreRead label (strings_of rc_slice_items given.now) shares.now }
    requires cut { All (IsCutInBlocks params.now) shares.now }
    ensures made { let label : FileLabel = record { params = params.now; ueb = ueb.now } in
        IfOk result (λ made. AreRepaired label (strings_of rc_slice_items given.now)
        (map (λ share. share.items) made.items)) }
    ensures some { IfOk result (λ made. All (λ share. 0 < length share.items) made.items) }
    ensures unlike { let label : FileLabel = record { params = params.now; ueb = ueb.now } in
        IfErr result (λ fault. fault ≢ RepairFault.NoMemory → (crypttext : List ℕ) →
        AreGivenOf label crypttext (strings_of rc_slice_items given.now) → ⊥) }
{
    share_codec::laws::good_shares_are_read();
    share_codec::laws::made_shares_are_read_back();
    if params.size == 0 {
        return Err(RepairFault::Unlike);
    }
    let needed = usize::from(params.k);
    if shares.len() != needed {
        return Err(RepairFault::Unlike);
    }
    match decoded(alloc, params, shares) {
        Ok(Some(crypttext)) => coded(alloc, params, ueb, &crypttext, given),
        Ok(None) => Err(RepairFault::Unlike),
        Err(_) => Err(RepairFault::NoMemory),
    }
}

/// What is read of shares of a file: `Unlike` where one of them isn't good.
fn read_each(
    alloc: Global,
    params: &Params,
    ueb: &[u8; 32],
    given: &[(u16, RcSlice<u8>)],
) -> Result<Vec<Share>, RepairFault>
    ensures read { let label : FileLabel = record { params = params.now; ueb = ueb.now } in
        IfOk result (λ shares.
        AreRead label (strings_of rc_slice_items given.now) shares.items) }
    ensures cut { IfOk result (λ shares. All (IsCutInBlocks params.now) shares.items) }
    ensures unlike { let label : FileLabel = record { params = params.now; ueb = ueb.now } in
        IfErr result (λ fault. fault ≢ RepairFault.NoMemory →
        All (λ g. IsShareOf label g.0 g.1) (strings_of rc_slice_items given.now) → ⊥) }
{
    share_codec::laws::good_shares_are_read();
    let mut shares = Vec::with_capacity(alloc, given.len())?;
    for (number, bytes) in given {
        match read_one(alloc, params, ueb, *number, bytes) {
            Ok(share) => shares.push(share)?,
            Err(fault) => return Err(fault),
        }
    }
    Ok(shares)
}

/// What is read of a share of a file: `Unlike` where it isn't good.
fn read_one(
    alloc: Global,
    params: &Params,
    ueb: &[u8; 32],
    number: u16,
    bytes: &RcSlice<u8>,
) -> Result<Share, RepairFault>
    ensures good { let good = good_share (rc_slice_items bytes.now) number params.now ueb.now in
        IfOk result (λ share. good ≡ Some share) }
    ensures cut { IfOk result (IsCutInBlocks params.now) }
    ensures unlike { IfErr result (λ fault. fault ≢ RepairFault.NoMemory →
        ¬ (Meets (rc_slice_items bytes.now) number params.now ueb.now)) }
{
    share_codec::laws::good_shares_are_read();
    match read_share(alloc, bytes, number, params, ueb) {
        Ok(share) => Ok(share),
        Err(fault) => Err(why_unread(fault)),
    }
}

/// Why a share isn't read.
fn why_unread(fault: ShareFault) -> RepairFault
    ensures { (result ≡ RepairFault.NoMemory) ↔ (fault ≡ ShareFault.NoMemory) }
{
    if is_out_of_memory(fault) {
        RepairFault::NoMemory
    } else {
        RepairFault::Unlike
    }
}

/// The shares of a crypttext, if it is the one of a file with these numbers and this hash, and those that are given are
/// among them.
fn coded(
    alloc: Global,
    params: &Params,
    ueb: &[u8; 32],
    crypttext: &[u8],
    given: &[(u16, RcSlice<u8>)],
) -> Result<Vec<Vec<u8>>, RepairFault>
    requires some { 0 < params.now.size }
    requires many { length given.now ≡ params.now.k }
    requires apart { AreDistinct (map (λ g. g.0) given.now) }
    ensures made { let label : FileLabel = record { params = params.now; ueb = ueb.now } in
        IfOk result (λ made. AreRepaired label (strings_of rc_slice_items given.now)
        (map (λ share. share.items) made.items)) }
    ensures some { IfOk result (λ made. All (λ share. 0 < length share.items) made.items) }
    ensures unlike { let label : FileLabel = record { params = params.now; ueb = ueb.now } in
        IfErr result (λ fault. fault ≢ RepairFault.NoMemory →
        AreGivenOf label crypttext.now (strings_of rc_slice_items given.now) → ⊥) }
{
    share_codec::laws::params_are_a_sharing(params);
    if crypttext.len() as u64 != params.size {
        return Err(RepairFault::Unlike);
    }
    let (made, own) = make_shares(alloc, params, crypttext)?;
    if own != *ueb {
        return Err(RepairFault::Unlike);
    }
    if !are_among(&made, given) {
        return Err(RepairFault::Unlike);
    }
    Ok(made)
}

/// Whether each share that is given is the one of its number.
fn are_among(made: &[Vec<u8>], given: &[(u16, RcSlice<u8>)]) -> bool
    ensures yes { IsTrue result → All (λ g.
        IsOne (map (λ share. share.items) made.now) g.0 (rc_slice_items g.1)) given.now }
    ensures no { IsFalse result → ¬ (All (λ g.
        IsOne (map (λ share. share.items) made.now) g.0 (rc_slice_items g.1)) given.now) }
{
    for (number, bytes) in given {
        if !is_among(made, *number, bytes.as_slice()) {
            return false;
        }
    }
    true
}

/// Whether a string is the share of this number.
fn is_among(made: &[Vec<u8>], number: u16, bytes: &[u8]) -> bool
    ensures yes { IsTrue result →
        IsOne (map (λ share. share.items) made.now) number bytes.now }
    ensures no { IsFalse result →
        ¬ (IsOne (map (λ share. share.items) made.now) number bytes.now) }
{
    let at = usize::from(number);
    at < made.len() && made[at].as_slice() == bytes
}
