//! The segments of a path.
ghost use Rattle.std.specs.Prelude.{◌≡◌, ◌==◌, map, IfOk};
ghost use Rattle.std.specs.List.{slice_split};
ghost use Rattle.path_names.specs.Names.{without_end_slash, has_bad_escape, begins_with_two_digits};

use std::alloc::{AllocError, Global};

/// The path without one slash at its end.
pub fn without_end_slash(path: &[u8]) -> &[u8]
    ensures { result.now ≡ without_end_slash path.now }
{
    match path {
        [front @ .., b'/'] => front,
        _ => path,
    }
}

/// The bytes between the slashes.
pub fn segments(alloc: Global, path: &[u8]) -> Result<Vec<&[u8]>, AllocError>
    ensures { IfOk result (λ pieces.
        map (λ piece. piece.now) pieces.items ≡ slice_split (λ b. b == 47) path.now) }
{
    path.split(|byte| *byte == b'/').collect(alloc)
}

#[tactic(auto, unfolding(crate::specs::Names::has_bad_escape))]
/// Whether a `%` stands without two hexadecimal digits behind it.
pub fn has_bad_escape(path: &[u8]) -> bool
    ensures { result ≡ has_bad_escape path.now }
{
    let mut rest = path;
    while let Some((byte, after)) = rest.split_first() {
        if *byte == b'%' && !begins_with_two_digits(after) {
            return true;
        }
        rest = after;
    }
    false
}

fn begins_with_two_digits(text: &[u8]) -> bool
    ensures { result ≡ begins_with_two_digits text.now }
{
    match text {
        [high, low, ..] => high.is_ascii_hexdigit() && low.is_ascii_hexdigit(),
        _ => false,
    }
}
