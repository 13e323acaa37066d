//! Long messages.
ghost use Rattle.std.specs.Prelude.{◌≡◌, ◌++◌, IfOk};
ghost use Rattle.octets.specs.Counted.{counted};

use octets::fakes::counted_bytes;
use std::alloc::{AllocError, Global};

/// A head, and behind it a body of so many bytes, byte i being i modulo 251. Refused only where memory is.
pub fn with_counted(alloc: Global, head: &[u8], size: usize) -> Result<Vec<u8>, AllocError>
    ensures { IfOk result (λ bytes. bytes.items ≡ head.now ++ counted size) }
{
    let body = counted_bytes(alloc, size)?;
    let mut bytes = Vec::from_slice(alloc, head)?;
    bytes.extend_from_slice(&body)?;
    Ok(bytes)
}
