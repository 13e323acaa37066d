//! What a share says of its file.
ghost use Rattle.std.specs.Prelude.{◌≡◌, ◌↔◌, ◌<◌, ◌^◌, ℕ, List, Some, IfOk, IfSome, IfNone, IsSomeAnd, IsTrue, IsFalse};
ghost use Rattle.std.specs.Rc.{rc_slice_items};
ghost use Rattle.share_codec.specs.Params.{ParamsValue};
ghost use Rattle.share_codec.specs.Texts.{ShareTexts, share_text};
ghost use Rattle.share_codec.specs.Meets.{Meets};
ghost use Rattle.share_repair.specs.Files.{FileLabel, IsShareOf};

use crate::extension::numbers_in;
use crate::netstring::split_netstring;
use share_codec::{Params, ShareFault, read_share};
use std::alloc::{AllocError, Global};
use std::marker::Model;
use std::rc::RcSlice;
use tag_hash::tagged;

/// The tag of the hash of a URI extension block.
const EXTENSION_TAG: &[u8; 24] = b"webgate_uri_extension_v1";

/// A file by its numbers and the hash of its URI extension block: what its cap has of it beside the key.
#[derive(Clone, Copy, PartialEq, Eq)]
pub struct Label {
    /// Its numbers.
    pub params: Params,
    /// The hash of its URI extension block.
    pub ueb: [u8; 32],
}

impl Model for Label {
    ghost use Rattle.share_repair.specs.Files.{FileLabel};

    ghost Value = { FileLabel };

    ghost view = { λ l. record { params = l.params; ueb = l.ueb } };

    ghost inverse = { λ v. record { params = v.params; ueb = v.ueb } };
}

/// The file of which a string is a good share of this number, by what it says itself: `None` where it is a good share of
/// none, of as many bytes as 64 bits count. All hashes in it are looked at. `Err` only where memory is refused.
pub fn label_of(
    alloc: Global,
    bytes: &RcSlice<u8>,
    number: u16,
) -> Result<Option<Label>, AllocError>
    ensures good { IfOk result (λ found. IfSome found (λ label.
        IsShareOf label number (rc_slice_items bytes.now))) }
    ensures only { IfOk result (λ found. IfSome found (λ label. (other : FileLabel) →
        other.params.size < 2 ^ 64 → IsShareOf other number (rc_slice_items bytes.now) →
        label ≡ other)) }
    ensures none { IfOk result (λ found. IfNone found ((label : FileLabel) →
        label.params.size < 2 ^ 64 → IsShareOf label number (rc_slice_items bytes.now) → ⊥)) }
{
    let Some(label) = label_in(bytes.as_slice()) else {
        return Ok(None);
    };
    if is_share_of(alloc, &label, number, bytes)? {
        Ok(Some(label))
    } else {
        Ok(None)
    }
}

/// Whether a string is a good share of this file, of this number. `Err` only where memory is refused.
fn is_share_of(
    alloc: Global,
    label: &Label,
    number: u16,
    bytes: &RcSlice<u8>,
) -> Result<bool, AllocError>
    ensures good { IfOk result (λ good. IsTrue good →
        IsShareOf label.now number (rc_slice_items bytes.now)) }
    ensures bad { IfOk result (λ good. IsFalse good →
        ¬ (IsShareOf label.now number (rc_slice_items bytes.now))) }
{
    share_codec::laws::good_shares_are_read();
    match read_share(alloc, bytes, number, &label.params, &label.ueb) {
        Ok(_) => Ok(true),
        Err(fault) => {
            if is_out_of_memory(fault) {
                Err(AllocError)
            } else {
                Ok(false)
            }
        }
    }
}

/// Whether there was no memory to judge a share.
pub(crate) fn is_out_of_memory(fault: ShareFault) -> bool
    ensures { IsTrue result ↔ (fault ≡ ShareFault.NoMemory) }
{
    matches!(fault, ShareFault::NoMemory)
}

/// What a string says of its file, where it is a good share of one. Of one that isn't it may say anything.
fn label_in(bytes: &[u8]) -> Option<Label>
    ensures { (number : ℕ) (p : ParamsValue) (ueb : List ℕ) → p.size < 2 ^ 64
        → Meets bytes.now number p ueb → result ≡ Some (record { params = p; ueb = ueb }) }
{
    let extension = extension_in(bytes)?;
    let params = numbers_in(extension)?;
    let ueb = tagged(EXTENSION_TAG, extension);
    Some(Label { params, ueb })
}

/// The URI extension block of a string that is six texts.
fn extension_in(bytes: &[u8]) -> Option<&[u8]>
    ensures { (t : ShareTexts) → bytes.now ≡ share_text t
        → IsSomeAnd result (λ extension. extension.now ≡ t.extension) }
{
    let (_, rest) = split_netstring(bytes)?;
    let (_, rest) = split_netstring(rest)?;
    let (extension, _) = split_netstring(rest)?;
    Some(extension)
}
