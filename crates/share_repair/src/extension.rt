//! The numbers in a URI extension block.
ghost use Rattle.std.specs.Prelude.{◌≡◌, ◌<◌, ◌≤◌, ◌^◌, ◌++◌, ℕ, List, Some, IsSomeAnd, IfSome};
ghost use Rattle.octets.specs.Sharing.{IsSharing};
ghost use Rattle.tag_hash.specs.Decimal.{decimal_text};
ghost use Rattle.share_codec.specs.Params.{ParamsValue};
ghost use Rattle.share_codec.specs.Ueb.{entry, ueb_text};
ghost use Rattle.share_codec.specs.declared.ueb.Ueb.{Ueb};

use crate::netstring::split_netstring;
use octets::{is_sharing, read_number};
use share_codec::Params;

/// The keys, in the order in which their entries stand.
const CRYPTTEXT_ROOT: &[u8; 19] = b"crypttext_root_hash";

const NEEDED_SHARES: &[u8; 13] = b"needed_shares";

const SEGMENT_COUNT: &[u8; 12] = b"num_segments";

const SEGMENT_SIZE: &[u8; 12] = b"segment_size";

const SHARE_ROOT: &[u8; 15] = b"share_root_hash";

const SIZE: &[u8; 4] = b"size";

const TOTAL_SHARES: &[u8; 12] = b"total_shares";

/// The most shares that are made of a file.
const MOST_SHARES: u64 = 256;

/// The numbers of the file whose extension block a text is. Of a text that is none it may give any, or `None`.
pub(crate) fn numbers_in(text: &[u8]) -> Option<Params>
    ensures { (p : ParamsValue) (roots : Ueb) → IsSharing p.k p.n → p.size < 2 ^ 64
        → text.now ≡ ueb_text p roots → result ≡ Some p }
{
    let (_, rest) = split_entry(text, CRYPTTEXT_ROOT)?;
    let (needed, rest) = split_number(rest, NEEDED_SHARES, MOST_SHARES)?;
    let (_, rest) = split_entry(rest, SEGMENT_COUNT)?;
    let (_, rest) = split_entry(rest, SEGMENT_SIZE)?;
    let (_, rest) = split_entry(rest, SHARE_ROOT)?;
    let (size, rest) = split_number(rest, SIZE, u64::MAX)?;
    let (made, _) = split_number(rest, TOTAL_SHARES, MOST_SHARES)?;
    params_of(needed as u16, made as u16, size)
}

/// These numbers, where they can be those of a file.
fn params_of(needed: u16, made: u16, size: u64) -> Option<Params>
    ensures { IsSharing needed made → result ≡ Some (record { k = needed; n = made; size = size }) }
{
    if is_sharing(needed, made) {
        Some(Params::new(needed, made, size))
    } else {
        None
    }
}

/// The value of the entry of this key that a text begins with, and what follows it.
fn split_entry<'a>(text: &'a [u8], key: &[u8]) -> Option<(&'a [u8], &'a [u8])>
    ensures { (value rest : List ℕ) → text.now ≡ entry key.now value ++ rest
        → IsSomeAnd result (λ parts. (parts.0.now ≡ value) × (parts.1.now ≡ rest)) }
{
    let rest = text.strip_prefix(key)?;
    let rest = rest.strip_prefix(b":")?;
    split_netstring(rest)
}

/// The number, at most `most`, that is the value of the entry of this key that a text begins with, and what follows it.
fn split_number<'a>(text: &'a [u8], key: &[u8], most: u64) -> Option<(u64, &'a [u8])>
    ensures reads { (number : ℕ) (rest : List ℕ) → number ≤ most
        → text.now ≡ entry key.now (decimal_text number) ++ rest
        → IsSomeAnd result (λ parts. (parts.0 ≡ number) × (parts.1.now ≡ rest)) }
    ensures bound { IfSome result (λ parts. parts.0 ≤ most) }
{
    octets::laws::numbers_have_one_text();
    tag_hash::laws::decimals_are_read_back();
    let (value, rest) = split_entry(text, key)?;
    let number = read_number(value, most)?;
    Some((number, rest))
}
