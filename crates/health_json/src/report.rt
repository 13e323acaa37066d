//! Checks.
ghost use Rattle.std.specs.Prelude.{◌≡◌, ◌++◌, None, codes, decimal, map, IfOk, OnOk};
ghost use Rattle.std.specs.List.{join_with_byte};
ghost use Rattle.base32_text.specs.Base32.{spelling};
ghost use Rattle.json_view.specs.Strings.{quoted};
ghost use Rattle.health_json.specs.Checks.{truth, bad_share_text, counts_text, check_text, sharemap_text, mapped_check_text, place_text, end_text, literal_check_text};

use base32_text::push_encoded;
use file_shares::Health;
use itoa::Buffer;
use json_view::text::{put_all, put_comma, put_string};
use std::alloc::{AllocError, Global};

/// The JSON of a check of the file whose shares lie under the storage index. Refused only where memory is.
#[tactic(auto, unfolding(crate::specs::Checks::check_text))]
pub fn check_json(alloc: Global, index: &[u8; 16], health: &Health) -> Result<Vec<u8>, AllocError>
    ensures { IfOk result (λ text. text.items ≡ check_text index.now health.now) }
{
    let index = index_string(alloc, index)?;
    let mut out = Vec::new(alloc);
    put_counts(&mut out, health)?;
    put_shares(&mut out, &index, health.corrupt.as_slice())?;
    put_all(
        &mut out,
        &[
            b"],\"recoverable\":",
            truth(health.needed <= health.good),
            b"},\"storage-index\":",
            index.as_slice(),
            b"}",
        ],
    )?;
    Ok(out)
}

/// The same JSON with one more key behind `recoverable`: `sharemap`, an object from the numbers of the health's places to
/// lists of their servers, each in the order of the places. Refused only where memory is.
#[tactic(auto, unfolding(crate::specs::Checks::mapped_check_text))]
pub fn mapped_check_json(
    alloc: Global,
    index: &[u8; 16],
    health: &Health,
) -> Result<Vec<u8>, AllocError>
    ensures { IfOk result (λ text. text.items ≡ mapped_check_text index.now health.now) }
{
    let index = index_string(alloc, index)?;
    let mut out = Vec::new(alloc);
    put_counts(&mut out, health)?;
    put_shares(&mut out, &index, health.corrupt.as_slice())?;
    out.extend_from_slice(b"],\"recoverable\":")?;
    out.extend_from_slice(truth(health.needed <= health.good))?;
    out.extend_from_slice(b",\"sharemap\":")?;
    put_sharemap(&mut out, health.places.as_slice())?;
    put_all(&mut out, &[b"},\"storage-index\":", index.as_slice(), b"}"])?;
    Ok(out)
}

/// The JSON of a check of a file or directory whose bytes stand in its cap. Refused only where memory is.
#[tactic(auto, unfolding(crate::specs::Checks::literal_check_text))]
pub fn literal_check_json(alloc: Global) -> Result<Vec<u8>, AllocError>
    ensures { IfOk result (λ text. text.items ≡ literal_check_text) }
{
    Vec::from_slice(
        alloc,
        b"{\"results\":{\"healthy\":true},\"storage-index\":\"\"}",
    )
}

/// A storage index in base32, as a JSON string.
fn index_string(alloc: Global, index: &[u8; 16]) -> Result<Vec<u8>, AllocError>
    ensures { IfOk result (λ text. text.items ≡ quoted (spelling index.now)) }
{
    let mut spelled = String::new(alloc);
    push_encoded(&mut spelled, index)?;
    let mut out = Vec::new(alloc);
    put_string(alloc, &mut out, spelled.as_str())?;
    Ok(out)
}

/// Puts what stands before the shares that aren't good.
#[tactic(auto, unfolding(crate::specs::Checks::counts_text))]
fn put_counts(out: &mut Vec<u8>, health: &Health) -> Result<(), AllocError>
    ensures { OnOk result (out.new.items ≡ out.old.items ++ counts_text health.now) }
{
    let mut corrupt = Buffer::new();
    let mut expected = Buffer::new();
    let mut good = Buffer::new();
    let mut needed = Buffer::new();
    put_all(
        out,
        &[
            b"{\"results\":{\"count-corrupt-shares\":",
            corrupt.format(health.corrupt.as_slice().len()).as_bytes(),
            b",\"count-shares-expected\":",
            expected.format(health.expected).as_bytes(),
            b",\"count-shares-good\":",
            good.format(health.good).as_bytes(),
            b",\"count-shares-needed\":",
            needed.format(health.needed).as_bytes(),
            b",\"healthy\":",
            truth(health.good == health.expected),
            b",\"list-corrupt-shares\":[",
        ],
    )
}

/// Puts the shares that aren't good. The storage index comes as a JSON string.
fn put_shares(out: &mut Vec<u8>, index: &[u8], shares: &[(usize, u16)]) -> Result<(), AllocError>
    ensures { OnOk result (out.new.items
        ≡ out.old.items ++ join_with_byte 44 (map (bad_share_text index.now) shares.now)) }
{
    for (at, share) in shares.iter().enumerate() {
        put_comma(out, at > 0)?;
        put_share(out, index, share)?;
    }
    Ok(())
}

/// Puts a share: its server, the storage index and its number.
#[tactic(auto, unfolding(crate::specs::Checks::bad_share_text))]
fn put_share(out: &mut Vec<u8>, index: &[u8], share: &(usize, u16)) -> Result<(), AllocError>
    ensures { OnOk result (out.new.items ≡ out.old.items ++ bad_share_text index.now share.now) }
{
    let mut server = Buffer::new();
    let mut number = Buffer::new();
    put_all(
        out,
        &[
            b"[",
            server.format(share.0).as_bytes(),
            b",",
            index,
            b",",
            number.format(share.1).as_bytes(),
            b"]",
        ],
    )
}

/// Puts an object from the numbers of the places to lists of their servers.
fn put_sharemap(out: &mut Vec<u8>, places: &[(usize, u16)]) -> Result<(), AllocError>
    ensures { OnOk result (out.new.items ≡ out.old.items ++ sharemap_text places.now) }
{
    out.extend_from_slice(b"{")?;
    let mut before = None;
    for (server, number) in places {
        put_place(out, before, *server, *number)?;
        before = Some(*number);
    }
    put_end(out, before)
}

/// Puts a server: after the one before, where that is of the same number, else as the first one of its number.
fn put_place(
    out: &mut Vec<u8>,
    before: Option<u16>,
    server: usize,
    number: u16,
) -> Result<(), AllocError>
    ensures { OnOk result (out.new.items ≡ out.old.items ++ place_text before server number) }
{
    match before {
        None => put_first(out, b"", server, number),
        Some(last) => {
            if last == number {
                put_next(out, server)
            } else {
                put_first(out, b"],", server, number)
            }
        }
    }
}

/// Puts the first server of a number, behind the end of the list before.
fn put_first(out: &mut Vec<u8>, end: &[u8], server: usize, number: u16) -> Result<(), AllocError>
    ensures { OnOk result (out.new.items
        ≡ out.old.items ++ (end.now ++ place_text None server number)) }
{
    let mut servers = Buffer::new();
    let mut numbers = Buffer::new();
    put_all(
        out,
        &[
            end,
            b"\"",
            numbers.format(number).as_bytes(),
            b"\":[",
            servers.format(server).as_bytes(),
        ],
    )
}

/// Puts another server of the same number.
fn put_next(out: &mut Vec<u8>, server: usize) -> Result<(), AllocError>
    ensures { OnOk result (out.new.items ≡ out.old.items ++ (codes "," ++ decimal server)) }
{
    let mut servers = Buffer::new();
    put_all(out, &[b",", servers.format(server).as_bytes()])
}

/// Puts the ends of the last list, if there is one, and of the object.
fn put_end(out: &mut Vec<u8>, before: Option<u16>) -> Result<(), AllocError>
    ensures { OnOk result (out.new.items ≡ out.old.items ++ end_text before) }
{
    match before {
        None => put_all(out, &[b"}"]),
        Some(_) => put_all(out, &[b"]}"]),
    }
}

/// `true` or `false`.
fn truth<'a>(value: bool) -> &'a [u8]
    ensures { result.now ≡ truth value }
{
    if value { b"true" } else { b"false" }
}
