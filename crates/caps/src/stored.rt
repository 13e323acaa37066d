//! The fields of caps of stored bytes.
ghost use Rattle.std.specs.Prelude.{◌≡◌, ◌<◌, ◌^◌, length, decimal, MatchResult, MatchOption};
ghost use Rattle.base32_text.specs.Base32.{Spells};
ghost use Rattle.octets.specs.Sharing.{IsSharing};
ghost use Rattle.caps.specs.CapTexts.{IsFieldsText};
ghost use Rattle.caps.specs.Refusals.{AreNumberTexts};
ghost use Rattle.caps.specs.Steps.{RefusesCount, RefusesFields};

use crate::fault::CapFault;
use crate::parts::five_fields;
use base32_text::decode;
use octets::{is_sharing, read_number};
use std::alloc::Global;

/// Five fields, as read from a text.
#[derive(Drop)]
pub struct Stored {
    pub name: [u8; 16],
    pub ueb: [u8; 32],
    pub k: u16,
    pub n: u16,
    pub size: u64,
}

/// The fields whose text this is. BadField and BadNumber say why there are none.
pub fn read_stored(alloc: Global, text: &[u8]) -> Result<Stored, CapFault>
    ensures { MatchResult result (λ s. IsFieldsText s.name s.ueb s.k s.n s.size text.now)
        (λ fault. RefusesFields fault text.now) }
{
    let Some(texts) = five_fields(text) else {
        return Err(CapFault::BadField);
    };
    let name = spelled::<16>(alloc, texts.name)?;
    let ueb = spelled::<32>(alloc, texts.ueb)?;
    let Some((k, n, size)) = numbers(texts.k, texts.n, texts.size) else {
        return Err(CapFault::BadNumber);
    };
    Ok(Stored {
        name,
        ueb,
        k,
        n,
        size,
    })
}

/// The bytes that the text spells, where they are N.
fn spelled<const N: usize>(alloc: Global, text: &[u8]) -> Result<[u8; N], CapFault>
    ensures { MatchResult result (λ bytes. Spells text.now bytes × (length bytes ≡ N))
        (λ fault. RefusesCount fault N text.now) }
{
    let bytes = decode(alloc, text)?;
    if bytes.len() != N {
        return Err(CapFault::BadField);
    }
    let mut exact = [0u8; N];
    exact.copy_from_slice(&bytes);
    Ok(exact)
}

/// The numbers k, n and size of these texts, where each is decimal and `1 <= k <= n <= 256`.
fn numbers(k: &[u8], n: &[u8], size: &[u8]) -> Option<(u16, u16, u64)>
    ensures { MatchOption result (¬ (AreNumberTexts k.now n.now size.now))
        (λ t. (k.now ≡ decimal t.0) × (n.now ≡ decimal t.1) × (size.now ≡ decimal t.2)
        × IsSharing t.0 t.1 × (t.2 < 2 ^ 64)) }
{
    let k = read_number(k, u64::from(u16::MAX))? as u16;
    let n = read_number(n, u64::from(u16::MAX))? as u16;
    let size = read_number(size, u64::MAX)?;
    if is_sharing(k, n) {
        Some((k, n, size))
    } else {
        None
    }
}
