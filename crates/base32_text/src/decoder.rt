//! From a text to the bytes that it spells.
ghost use Rattle.std.specs.Prelude.{IfOk, IfErr};
ghost use Rattle.base32_text.specs.Base32.{Spells};
ghost use Rattle.base32_text.specs.Refusals.{Refuses};

use crate::alphabet::value;
use crate::fault::B32Fault;
use crate::waiting::Waiting;
use std::alloc::Global;

/// The bytes that the text spells, 5 for 8 letters. Each fault says why there are none, and is given where no fault
/// before it holds.
pub fn decode(alloc: Global, text: &[u8]) -> Result<Vec<u8>, B32Fault>
    ensures spelled { IfOk result (λ bytes. Spells text.now bytes.items) }
    ensures refused { IfErr result (λ fault. Refuses fault text.now) }
{
    let mut bytes = Vec::with_capacity(alloc, text.len() / 8 * 5 + 5)?;
    let mut waiting = Waiting::new();
    for (place, byte) in text.iter().enumerate() {
        let Some(group) = value(*byte) else {
            return Err(B32Fault::BadCharacter(place));
        };
        waiting.put(5, group);
        if waiting.len() >= 8 {
            let octet = waiting.take(8);
            bytes.push(octet as u8)?;
        }
    }
    if waiting.len() >= 5 {
        return Err(B32Fault::BadLength);
    }
    if !waiting.is_zero() {
        return Err(B32Fault::LooseBits);
    }
    Ok(bytes)
}
