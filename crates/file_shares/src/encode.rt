//! How bytes are encoded.
ghost use Rattle.std.specs.Prelude.{◌≡◌, ◌<◌, ◌++◌, map, IfOk, vec_len};
ghost use Rattle.std.specs.Rc.{rc_slice_items};
ghost use Rattle.file_shares.specs.KeyTag.{key_tag, numbers_text};
ghost use Rattle.file_shares.specs.Prepared.{fields_under, shares_under};

use crate::cipher::apply_keystream;
use aes_ctr::laws::{keystream_by_place, parts_agree};
use caps::ReadFields;
use share_codec::{Params, make_shares};
use std::alloc::{AllocError, Global};
use std::rc::RcSlice;
use tag_hash::{Decimal, push_netstring, tagged16};

/// The beginning of the tag of a convergent key.
const KEY_TAG: &[u8; 26] = b"webgate_content_to_key_v1+";

/// The read fields and the shares of bytes that are uploaded under a secret.
pub fn encrypt_and_share(
    alloc: Global,
    params: &Params,
    secret: &[u8],
    bytes: Vec<u8>,
) -> Result<(ReadFields, Vec<RcSlice<u8>>), AllocError>
    requires size { vec_len bytes ≡ params.now.size }
    requires some { 0 < params.now.size }
    ensures fields { IfOk result (λ made.
        made.0 ≡ fields_under params.now secret.now bytes.items) }
    ensures shares { IfOk result (λ made.
        map rc_slice_items made.1.items ≡ shares_under params.now secret.now bytes.items) }
{
    keystream_by_place();
    parts_agree();
    let tag = tag_of(alloc, params, secret)?;
    let key = tagged16(&tag, &bytes);
    let crypttext = apply_keystream(key, bytes);
    let (shares, ueb) = make_shares(alloc, params, &crypttext)?;
    let shares = shared(alloc, shares)?;
    let fields = ReadFields {
        key,
        ueb,
        k: params.k,
        n: params.n,
        size: params.size,
    };
    Ok((fields, shares))
}

/// The tag of the convergent key.
#[tactic(auto, unfolding(crate::specs::KeyTag::key_tag))]
pub(crate) fn tag_of(alloc: Global, params: &Params, secret: &[u8]) -> Result<Vec<u8>, AllocError>
    ensures { IfOk result (λ tag. tag.items ≡ key_tag params.now secret.now) }
{
    let numbers = numbers(alloc, params)?;
    let mut tag = Vec::new(alloc);
    tag.extend_from_slice(KEY_TAG)?;
    push_netstring(&mut tag, secret)?;
    push_netstring(&mut tag, &numbers)?;
    Ok(tag)
}

/// `k,n,segment size`
#[tactic(auto, unfolding(crate::specs::KeyTag::numbers_text))]
fn numbers(alloc: Global, params: &Params) -> Result<Vec<u8>, AllocError>
    ensures { IfOk result (λ text. text.items ≡ numbers_text params.now) }
{
    let k = Decimal::new(params.k as u64);
    let n = Decimal::new(params.n as u64);
    let size = Decimal::new(params.segment_size() as u64);
    let mut text = Vec::new(alloc);
    text.extend_from_slice(k.as_bytes())?;
    text.extend_from_slice(b",")?;
    text.extend_from_slice(n.as_bytes())?;
    text.extend_from_slice(b",")?;
    text.extend_from_slice(size.as_bytes())?;
    Ok(text)
}

/// Shares that can be lent.
pub(crate) fn shared(alloc: Global, shares: Vec<Vec<u8>>) -> Result<Vec<RcSlice<u8>>, AllocError>
    ensures { IfOk result (λ lent. map rc_slice_items lent.items
        ≡ map (λ share. share.items) shares.items) }
{
    let mut lent = Vec::with_capacity(alloc, shares.len())?;
    for share in shares {
        lent.push(RcSlice::from_vec(share)?)?;
    }
    Ok(lent)
}
