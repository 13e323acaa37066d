//! Which of the shares that were gathered are read.
ghost use Rattle.std.specs.Prelude.{◌≡◌, ◌≢◌, ◌↔◌, length, take, Some, None, IfOk, IfErr, IsTrue};
ghost use Rattle.std.specs.Rc.{rc_slice_items};
ghost use Rattle.share_codec.specs.GoodShare.{good_share};
ghost use Rattle.file_shares.specs.Row.{first_good};
ghost use Rattle.file_shares.specs.Gathered.{places_of, good_below};

use crate::readings::Readings;
use crate::rows::{Rows, ShareRef};
use share_codec::{Params, Share, ShareFault, read_share};
use std::alloc::{AllocError, Global};
use std::rc::RcSlice;

/// Of the good shares in the order of their numbers the first k, each from the first server that has one. What stands
/// after these is not looked at. Strings that were hashed before, in `readings`, aren't hashed again.
pub(crate) fn chosen(
    alloc: Global,
    rows: &Rows<'_>,
    readings: &Readings,
    params: &Params,
    ueb: &[u8; 32],
) -> Result<Vec<Share>, AllocError>
    requires rows { length rows.now ≡ params.now.n }
    requires readings { readings.now ≡ params.now }
    ensures { IfOk result (λ shares. shares.items
        ≡ take params.now.k (good_below params.now ueb.now rows.now params.now.n)) }
{
    let mut shares = Vec::new(alloc);
    for number in 0..params.n {
        if shares.len() == params.k as usize {
            return Ok(shares);
        }
        if let Some(share) = first_good(
            alloc,
            rows.places(number),
            readings,
            number,
            params,
            ueb,
        )? {
            shares.push(share)?;
        }
    }
    Ok(shares)
}

/// The good share of a number, from the first server that has one.
fn first_good(
    alloc: Global,
    places: &[(usize, ShareRef<'_>)],
    readings: &Readings,
    number: u16,
    params: &Params,
    ueb: &[u8; 32],
) -> Result<Option<Share>, AllocError>
    requires { readings.now ≡ params.now }
    ensures { IfOk result (λ share. share
        ≡ first_good params.now ueb.now number (places_of places.now)) }
{
    for (server, bytes) in places {
        if let Some(share) = good(alloc, *server, bytes.bytes(), readings, number, params, ueb)? {
            return Ok(Some(share));
        }
    }
    Ok(None)
}

/// What a string at a server is as the share of a number, if it is a good one. Where it was hashed before it isn't hashed
/// again.
pub(crate) fn good(
    alloc: Global,
    server: usize,
    bytes: &RcSlice<u8>,
    readings: &Readings,
    number: u16,
    params: &Params,
    ueb: &[u8; 32],
) -> Result<Option<Share>, AllocError>
    requires { readings.now ≡ params.now }
    ensures { let good = good_share (rc_slice_items bytes.now) number params.now ueb.now in
        IfOk result (λ share. share ≡ good) }
{
    match read_once(alloc, server, bytes, readings, number, params, ueb) {
        Ok(share) => Ok(Some(share)),
        Err(fault) => {
            if is_out_of_memory(fault) {
                Err(AllocError)
            } else {
                Ok(None)
            }
        }
    }
}

/// Reads a string at a server as the share of a number, by its hashes where it was hashed before.
fn read_once(
    alloc: Global,
    server: usize,
    bytes: &RcSlice<u8>,
    readings: &Readings,
    number: u16,
    params: &Params,
    ueb: &[u8; 32],
) -> Result<Share, ShareFault>
    requires { readings.now ≡ params.now }
    ensures good { let good = good_share (rc_slice_items bytes.now) number params.now ueb.now in
        IfOk result (λ share. good ≡ Some share) }
    ensures none { let good = good_share (rc_slice_items bytes.now) number params.now ueb.now in
        IfErr result (λ fault. fault ≢ ShareFault.NoMemory → good ≡ None) }
{
    match readings.find(server, number, bytes) {
        Some(reading) => reading.read(alloc, number, ueb),
        None => read_share(alloc, bytes, number, params, ueb),
    }
}

/// Whether there was no memory to judge a share.
fn is_out_of_memory(fault: ShareFault) -> bool
    ensures { IsTrue result ↔ (fault ≡ ShareFault.NoMemory) }
{
    matches!(fault, ShareFault::NoMemory)
}
