//! From a text to the cap whose text it is.
ghost use Rattle.std.specs.Prelude.{◌≡◌, ◌⊎◌, ◌++◌, IfOk, IfErr, Err, MatchResult};
ghost use Rattle.base32_text.specs.Base32.{Spells};
ghost use Rattle.caps.specs.CapTexts.{IsCapText, IsReadText, IsVerifyText};
ghost use Rattle.caps.specs.Beginnings.{beginning};
ghost use Rattle.caps.specs.Refusals.{RefusesCap};
ghost use Rattle.caps.specs.Reading.{cap_reading};
ghost use Rattle.caps.specs.Steps.{RefusesBytes, RefusesFields, RefusesRest};

use crate::beginning::{kind_and_rest, names_mutable};
use crate::cap::Cap;
use crate::fault::CapFault;
use crate::fields::{ReadFields, VerifyFields};
use crate::kind::Kind;
use crate::stored::{Stored, read_stored};
use base32_text::decode;
use octets::Bytes;
use std::alloc::Global;

/// The cap whose text this is. Each fault says why it is no cap's, and is given where no fault before it holds.
pub fn parse(alloc: Global, text: &str) -> Result<Cap, CapFault>
    ensures read { IfOk result (λ cap. IsCapText cap text.now) }
    ensures refused { IfErr result (λ fault. RefusesCap fault text.now) }
    ensures answer { (result ≡ cap_reading text.now) ⊎ (result ≡ Err CapFault.NoMemory) }
{
    parse_bytes(alloc, text.as_bytes())
}

/// The same of bytes, which need not be UTF-8: cap texts are ASCII.
pub fn parse_bytes(alloc: Global, text: &[u8]) -> Result<Cap, CapFault>
    ensures read { IfOk result (λ cap. IsCapText cap text.now) }
    ensures refused { IfErr result (λ fault. RefusesCap fault text.now) }
    ensures answer { (result ≡ cap_reading text.now) ⊎ (result ≡ Err CapFault.NoMemory) }
{
    let Some((kind, rest)) = kind_and_rest(text) else {
        if names_mutable(text) {
            return Err(CapFault::Mutable);
        }
        return Err(CapFault::UnknownKind);
    };
    parse_rest(alloc, kind, rest)
}

/// The cap of this kind, from what follows the beginning of its text.
fn parse_rest(alloc: Global, kind: Kind, rest: &[u8]) -> Result<Cap, CapFault>
    ensures { MatchResult result (λ cap. IsCapText cap (beginning kind ++ rest.now))
        (λ fault. RefusesRest fault kind rest.now) }
{
    match kind {
        Kind::ReadFile => Ok(Cap::Chk(read_fields(alloc, rest)?)),
        Kind::LiteralFile => Ok(Cap::Lit(literal(alloc, rest)?)),
        Kind::ReadDirectory => Ok(Cap::DirChk(read_fields(alloc, rest)?)),
        Kind::LiteralDirectory => Ok(Cap::DirLit(literal(alloc, rest)?)),
        Kind::VerifyFile => Ok(Cap::ChkVerify(verify_fields(alloc, rest)?)),
        Kind::VerifyDirectory => Ok(Cap::DirChkVerify(verify_fields(alloc, rest)?)),
    }
}

/// The fields of a read cap.
fn read_fields(alloc: Global, rest: &[u8]) -> Result<ReadFields, CapFault>
    ensures { MatchResult result (λ fields. IsReadText fields rest.now)
        (λ fault. RefusesFields fault rest.now) }
{
    let Stored {
        name,
        ueb,
        k,
        n,
        size,
    } = read_stored(alloc, rest)?;
    Ok(ReadFields {
        key: name,
        ueb,
        k,
        n,
        size,
    })
}

/// The fields of a verify cap.
fn verify_fields(alloc: Global, rest: &[u8]) -> Result<VerifyFields, CapFault>
    ensures { MatchResult result (λ fields. IsVerifyText fields rest.now)
        (λ fault. RefusesFields fault rest.now) }
{
    let Stored {
        name,
        ueb,
        k,
        n,
        size,
    } = read_stored(alloc, rest)?;
    Ok(VerifyFields {
        si: name,
        ueb,
        k,
        n,
        size,
    })
}

/// The bytes of a cap that holds them.
fn literal(alloc: Global, rest: &[u8]) -> Result<Bytes, CapFault>
    ensures { MatchResult result (λ bytes. Spells rest.now bytes)
        (λ fault. RefusesBytes fault rest.now) }
{
    let bytes = decode(alloc, rest)?;
    Ok(Bytes::from_vec(bytes))
}
