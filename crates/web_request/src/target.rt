//! The path and the query of a target.
ghost use Rattle.std.specs.Prelude.{◌≡◌, drop, MatchOption};
ghost use Rattle.std.specs.Option.{option_copied};
ghost use Rattle.std.specs.List.{before_first, after_first};
ghost use Rattle.web_request.specs.Targets.{origin_of, after_authority, is_question, is_end_of_authority, path_in, resource_of};

use crate::action::is_same;
use crate::request::Resource;
use octets::split_at_byte;

/// The target from its path on, `None` where it is neither a path nor a URI with the scheme `http`.
#[tactic(auto, unfolding(crate::specs::Targets::origin_of))]
pub fn origin_of(target: &[u8]) -> Option<&[u8]>
    ensures { option_copied result ≡ origin_of target.now }
{
    if target.starts_with(b"/") {
        return Some(target);
    }
    if target.len() < 7 {
        return None;
    }
    let (scheme, rest) = target.split_at(7);
    if !is_same(scheme, b"http://") {
        return None;
    }
    Some(after_authority(rest))
}

/// What follows an authority: what begins with the first `/` or `?`.
fn after_authority(text: &[u8]) -> &[u8]
    ensures { result.now ≡ after_authority text.now }
{
    let mut rest = text;
    while let [first, more @ ..] = rest
        && !is_end_of_authority(*first)
    {
        rest = more;
    }
    rest
}

/// Whether an authority ends before this byte.
fn is_end_of_authority(byte: u8) -> bool
    ensures { result ≡ is_end_of_authority byte }
{
    byte == b'/' || byte == b'?'
}

/// The path, and the query behind the first `?`.
pub fn cut_at_question(origin: &[u8]) -> (&[u8], &[u8])
    ensures path { result.0.now ≡ before_first is_question origin.now }
    ensures query { result.1.now ≡ after_first is_question origin.now }
{
    match split_at_byte(origin, b'?') {
        Some((path, query)) => (path, query),
        None => (origin, &origin[origin.len()..]),
    }
}

/// The path of a target, up to its query, `None` where it is neither a path nor a URI with the scheme `http`.
pub fn path_in(target: &[u8]) -> Option<&[u8]>
    ensures { option_copied result ≡ path_in target.now }
{
    let Some(origin) = origin_of(target) else {
        return None;
    };
    let (path, _) = cut_at_question(origin);
    Some(path)
}

/// What a path names.
#[tactic(auto, unfolding(crate::specs::Targets::resource_of))]
pub fn resource_of(path: &[u8]) -> Option<Resource>
    ensures { result ≡ resource_of path.now }
{
    if path == b"/uri".as_slice() {
        return Some(Resource::Uploads);
    }
    if path.starts_with(b"/uri/") {
        return Some(Resource::Node);
    }
    None
}

/// What follows `/uri/`.
pub fn below_uri(path: &[u8]) -> &[u8]
    ensures { result.now ≡ drop 5 path.now }
{
    if path.len() < 5 {
        return &path[path.len()..];
    }
    &path[5..]
}
