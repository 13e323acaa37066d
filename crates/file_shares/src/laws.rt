//! Laws of the definitions, each on a function that does nothing.
ghost use Rattle.std.specs.Prelude.{◌≡◌, ℕ, List, length, IfSome};
ghost use Rattle.caps.specs.Fields.{ReadValue};
ghost use Rattle.file_shares.specs.Row.{ShareTable};
ghost use Rattle.file_shares.specs.Fit.{fit};
ghost use Rattle.file_shares.specs.Bound.{Bound};

use aes_ctr::laws::{keystream_by_place, parts_agree, twice_is_unchanged};
use erasure::laws::decoded_blocks_are_the_given;
use share_codec::laws::{good_shares_are_read, segments_are_joined_again};

/// Bytes that are bound to a read cap are as many as it says.
pub fn bound_bytes_have_the_size()
    ensures { (f : ReadValue) (bytes : List ℕ) → Bound f bytes → length bytes ≡ f.size }
{}

/// What is found in any row by verification alone is bound to the cap.
pub fn found_is_bound()
    ensures { (row : ShareTable) (f : ReadValue) → IfSome (fit row f) (Bound f) }
{
    good_shares_are_read();
    segments_are_joined_again();
    decoded_blocks_are_the_given();
    keystream_by_place();
    twice_is_unchanged();
    parts_agree();
}
