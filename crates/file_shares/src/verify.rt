//! Strings that were gathered, verified.
ghost use Rattle.std.specs.Prelude.{◌≡◌, map, IfOk, IsErrOf, Some, None};
ghost use Rattle.std.specs.Rc.{rc_slice_items};
ghost use Rattle.aes_ctr.specs.Crypt.{crypt};
ghost use Rattle.file_shares.specs.Gathered.{found_string, fit_of};
ghost use Rattle.file_shares.specs.Numbers.{params_of};
ghost use Rattle.file_shares.specs.Taken.{AreTaken};
ghost use Rattle.file_shares.specs.Fit.{crypttext_from};
ghost use Rattle.file_shares.specs.Bound.{Bound};
ghost use Rattle.file_shares.specs.Ahead.{AreChosen, file_params};

use crate::chosen::chosen;
use crate::crypttext::crypttext;
use crate::fault::ReadFault;
use crate::picked::file_params;
use crate::readings::Readings;
use crate::rows::Rows;
use aes_ctr::laws::{keystream_by_place, parts_agree, twice_is_unchanged};
use caps::ReadFields;
use share_codec::Share;
use std::alloc::Global;
use std::rc::RcSlice;

/// The k good shares of a file that are read of strings that were gathered, server by server, and the crypttext that they
/// are of.
///
/// # Errors
/// `NotEnoughShares` where these strings don't give the file, and `NoMemory` where memory is refused.
pub fn verify_found(
    alloc: Global,
    found: &[(usize, u16, RcSlice<u8>)],
    fields: &ReadFields,
) -> Result<(Vec<Share>, Vec<u8>), ReadFault>
    ensures taken { IfOk result (λ read.
        AreTaken (params_of fields.now.k fields.now.n fields.now.size) read.0.items) }
    ensures crypttext { IfOk result (λ read. read.1.items
        ≡ crypttext_from (params_of fields.now.k fields.now.n fields.now.size) read.0.items) }
    ensures bound { IfOk result (λ read.
        Bound fields.now (crypt fields.now.key read.1.items)) }
    ensures fit { IfOk result (λ read. fit_of (map (found_string rc_slice_items) found.now) fields.now
        ≡ Some (crypt fields.now.key read.1.items)) }
    ensures missing { IsErrOf result ReadFault.NotEnoughShares →
        fit_of (map (found_string rc_slice_items) found.now) fields.now ≡ None }
{
    share_codec::laws::good_shares_are_read();
    share_codec::laws::segments_are_joined_again();
    erasure::laws::decoded_blocks_are_the_given();
    keystream_by_place();
    twice_is_unchanged();
    parts_agree();
    let params = file_params(fields);
    let none_hashed = Readings::new(alloc, &params);
    let shares = match choose(alloc, found, &none_hashed, fields) {
        Ok(shares) => shares,
        Err(fault) => return Err(fault),
    };
    let Some(bytes) = crypttext(alloc, &params, &shares)? else {
        return Err(ReadFault::NotEnoughShares);
    };
    Ok((shares, bytes))
}

/// The good shares that are read of those that were gathered: the first k in the order of their numbers. Strings that
/// were hashed before, in `readings`, aren't hashed again.
pub(crate) fn choose(
    alloc: Global,
    found: &[(usize, u16, RcSlice<u8>)],
    readings: &Readings,
    fields: &ReadFields,
) -> Result<Vec<Share>, ReadFault>
    requires { readings.now ≡ file_params fields.now }
    ensures chosen { IfOk result (λ shares.
        AreChosen fields.now (map (found_string rc_slice_items) found.now) shares.items) }
    ensures missing { IsErrOf result ReadFault.NotEnoughShares →
        fit_of (map (found_string rc_slice_items) found.now) fields.now ≡ None }
{
    share_codec::laws::good_shares_are_read();
    let params = file_params(fields);
    let rows = Rows::new(alloc, found, fields.n)?;
    let shares = chosen(alloc, &rows, readings, &params, &fields.ueb)?;
    if shares.len() < params.k as usize {
        return Err(ReadFault::NotEnoughShares);
    }
    Ok(shares)
}
