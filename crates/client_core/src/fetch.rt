//! Reading what caps are of.
ghost use Rattle.std.specs.Prelude.{◌≡◌, ◌≢◌, [], Result, IfOk, OnOk, IfErr, OnErr, MatchResult, Ok};
ghost use Rattle.dir_codec.specs.Reading.{directory_reading};
ghost use Rattle.cap_binding.specs.Binds.{Binds, AreFileOf, AreTextOf};
ghost use Rattle.client_core.specs.Way.{IsDirectoryOf};
ghost use Rattle.client_core.specs.Given.{IsBoundAnswer, IsUnboundAnswer, most_taken};
ghost use Rattle.client_core.specs.declared.exchange.Answer.{Answer as Answered};
ghost use Rattle.client_core.specs.declared.exchange.LinkFault.{LinkFault as Fault};

use crate::ask::Ask;
use crate::exchange::{Answer, Exchange};
use crate::fault::ClientFault;
use cap_binding::bound;
use caps::{Cap, ReadFields};
use dir_codec::{Directory, decode, is_memory};
use std::alloc::Global;

/// The status of what was carried out.
const OK: u16 = 200;

/// The most bytes that are taken of what is stored, whatever a cap says: four times as many as a gateway takes in a body,
/// since a directory's text may be longer than the JSON of which it is made.
const MOST_STORED: u64 = 67_108_864;

/// The most bytes that are taken of what is stored under these fields: as many as they say, and 67,108,864 at most.
pub(crate) fn most_of(fields: &ReadFields) -> u64
    ensures { result ≡ most_taken fields.now.size }
{
    fields.size.min(MOST_STORED)
}

/// The body of an answer that carries out what was asked for.
pub(crate) fn body_of(answer: Answer) -> Result<Vec<u8>, ClientFault>
    ensures given { IfOk result (λ bytes. bytes.items ≡ answer.body) }
    ensures carried_out { OnOk result (answer.status ≡ 200) }
    ensures refused { IfErr result (λ fault. fault ≡ ClientFault.Refused answer.status) }
    ensures other { OnErr result (answer.status ≡ 200 → ⊥) }
{
    let Answer { status, body } = answer;
    if status == OK {
        Ok(body.into_vec())
    } else {
        Err(ClientFault::Refused(status))
    }
}

/// The bytes that are stored under these fields, a file's or a directory's text.
///
/// Whatever the gateway answers, they are those that the fields bind, or the call is refused: with
/// [`ClientFault::NotBound`] where others came, and by the link where more than 67,108,864 came.
pub fn fetch_stored<E: Exchange>(
    alloc: Global,
    gateway: &mut E,
    fields: &ReadFields,
) -> Result<Vec<u8>, ClientFault>
    ensures bound { IfOk result (λ bytes. Binds fields.now bytes.items) }
    ensures exact { (r : Result Answered Fault) × (E.told gateway.old (Ask.Read fields.now) [] r gateway.new)
        × MatchResult result (λ bytes. IsBoundAnswer fields.now r bytes.items)
        (λ fault. fault ≢ ClientFault.NoMemory → IsUnboundAnswer fields.now r) }
{
    let ask = Ask::Read(*fields);
    let answer = gateway.ask(&ask, &[], most_of(fields))?;
    let bytes = body_of(answer)?;
    match bound(alloc, fields, bytes)? {
        Some(bytes) => Ok(bytes),
        None => Err(ClientFault::NotBound),
    }
}

/// The bytes of a file. `NotFile` where the cap is another one's, before the gateway is asked.
pub fn fetch_file<E: Exchange>(
    alloc: Global,
    gateway: &mut E,
    cap: &Cap,
) -> Result<Vec<u8>, ClientFault>
    ensures { IfOk result (λ bytes. AreFileOf cap.now bytes.items) }
{
    match cap {
        Cap::Chk(fields) => fetch_stored(alloc, gateway, fields),
        Cap::Lit(bytes) => Ok(Vec::from_slice(alloc, bytes.as_slice())?),
        Cap::DirChk(_) | Cap::DirLit(_) | Cap::ChkVerify(_) | Cap::DirChkVerify(_) => {
            Err(ClientFault::NotFile)
        }
    }
}

/// The text of a directory. `NotDirectory` where the cap is another one's.
pub fn fetch_text<E: Exchange>(
    alloc: Global,
    gateway: &mut E,
    cap: &Cap,
) -> Result<Vec<u8>, ClientFault>
    ensures { IfOk result (λ bytes. AreTextOf cap.now bytes.items) }
{
    match cap {
        Cap::DirChk(fields) => fetch_stored(alloc, gateway, fields),
        Cap::DirLit(bytes) => Ok(Vec::from_slice(alloc, bytes.as_slice())?),
        Cap::Chk(_) | Cap::Lit(_) | Cap::ChkVerify(_) | Cap::DirChkVerify(_) => {
            Err(ClientFault::NotDirectory)
        }
    }
}

/// A directory: the children of bytes that its cap binds. `NotDirectory` also where these are no directory's text.
pub fn fetch_directory<E: Exchange>(
    alloc: Global,
    gateway: &mut E,
    cap: &Cap,
) -> Result<Directory, ClientFault>
    ensures { IfOk result (λ directory. IsDirectoryOf cap.now directory) }
{
    let text = fetch_text(alloc, gateway, cap)?;
    match decode(alloc, &text) {
        Ok(directory) => Ok(directory),
        Err(fault) => {
            if is_memory(&fault) {
                return Err(ClientFault::NoMemory);
            }
            Err(ClientFault::NotDirectory)
        }
    }
}
