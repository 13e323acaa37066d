//! Bytes with a bit changed.
ghost use Rattle.std.specs.Prelude.{◌≡◌, ◌<◌, IfOk, length};
ghost use Rattle.std.specs.Rc.{rc_slice_items};
ghost use Rattle.share_store.specs.Toggle.{toggled};

use std::alloc::{AllocError, Global};
use std::rc::RcSlice;

/// A copy of the bytes with the lowest bit of the one at `place` changed. Refused where there was no memory for it.
pub fn with_bit_changed(
    alloc: Global,
    bytes: &[u8],
    place: usize,
) -> Result<RcSlice<u8>, AllocError>
    requires { place < length bytes.now }
    ensures { IfOk result (λ changed. rc_slice_items changed ≡ toggled bytes.now place) }
{
    let mut copy = bytes.to_vec(alloc)?;
    copy[place] ^= 1;
    RcSlice::from_vec(copy)
}
