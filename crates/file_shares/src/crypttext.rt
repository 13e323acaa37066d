//! The crypttext that good shares are of.
ghost use Rattle.std.specs.Prelude.{◌≡◌, IfOk, Some, None, if◌then◌else◌};
ghost use Rattle.std.specs.Option.{option_map};
ghost use Rattle.file_shares.specs.Taken.{AreTaken};
ghost use Rattle.file_shares.specs.Fit.{crypttext_from, has_padding, are_shares_of};

use crate::segment::add_segment;
use erasure::Code;
use share_codec::{Params, Share, crypttext_root};
use std::alloc::{AllocError, Global};

/// The crypttext that k good shares are of, if there is one.
pub(crate) fn crypttext(
    alloc: Global,
    params: &Params,
    shares: &[Share],
) -> Result<Option<Vec<u8>>, AllocError>
    requires { AreTaken params.now shares.now }
    ensures { let bytes = crypttext_from params.now shares.now in IfOk result (λ found.
        option_map (λ v. v.items) found
        ≡ (if are_shares_of params.now bytes shares.now then Some bytes else None)) }
{
    share_codec::laws::segments_are_joined_again();
    erasure::laws::decoded_blocks_are_the_given();
    let Some(bytes) = decoded(alloc, params, shares)? else {
        return Ok(None);
    };
    if crypttext_root(alloc, params, &bytes)? != shares[0].ueb().crypttext_root {
        return Ok(None);
    }
    Ok(Some(bytes))
}

/// All segments, if their padding is zeros.
fn decoded(alloc: Global, params: &Params, shares: &[Share]) -> Result<Option<Vec<u8>>, AllocError>
    requires { AreTaken params.now shares.now }
    ensures { IfOk result (λ found. option_map (λ v. v.items) found
        ≡ (if has_padding params.now shares.now
        then Some (crypttext_from params.now shares.now) else None)) }
{
    let code = Code::new(params.k, params.n).unwrap();
    let size = (params.size as usize).saturating_add(params.k as usize);
    let mut bytes = Vec::with_capacity(alloc, size)?;
    for at in 0..params.segment_count() {
        if !add_segment(alloc, params, &code, shares, at, &mut bytes)? {
            return Ok(None);
        }
    }
    Ok(Some(bytes))
}
