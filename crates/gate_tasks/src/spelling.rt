//! Base32 in arguments and scripts.
ghost use Rattle.std.specs.Prelude.{◌≡◌, IfOk};
ghost use Rattle.base32_text.specs.Reading.{reading};
ghost use Rattle.gate_tasks.specs.Command.{spelled};

use base32_text::laws::reading_is_decided;
use base32_text::{B32Fault, decode};
use octets::Bytes;
use std::alloc::{AllocError, Global};

/// The bytes that a text spells in base32, or `None` where it spells none.
pub fn read_spelled(alloc: Global, text: &[u8]) -> Result<Option<Bytes>, AllocError>
    ensures { IfOk result (λ bytes. bytes ≡ spelled (reading text.now)) }
{
    // What `decode` says of spelling is said of `reading` by this law.
    reading_is_decided();
    match decode(alloc, text) {
        Ok(bytes) => Ok(Some(Bytes::from_vec(bytes))),
        Err(B32Fault::NoMemory) => Err(AllocError),
        Err(_) => Ok(None),
    }
}
