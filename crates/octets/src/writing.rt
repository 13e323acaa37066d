//! Bytes that are written whole.
ghost use Rattle.std.specs.Prelude.{◌≤◌, OnOk, OnErr};
ghost use Rattle.std.specs.Io.KnownBytes.{Appends};
ghost use Rattle.octets.specs.Written.{WritesBeginning};

use crate::fault::WriteFault;
use std::io::{ErrorKind, Write};

/// Writes all the bytes, with at most so many calls of the writer, and takes the calls off their number. A call that
/// is interrupted is repeated.
///
/// Refused where the writer fails or takes no byte, or no call is left. A beginning of the bytes was written then.
pub fn write_whole<W: Write>(
    writer: &mut W,
    bytes: &[u8],
    calls: &mut u64,
) -> Result<(), WriteFault>
    ensures ok { OnOk result (Appends (W.contents writer.old) (W.contents writer.new) bytes.now) }
    ensures err { OnErr result
        (WritesBeginning bytes.now (W.contents writer.old) (W.contents writer.new)) }
    ensures calls { calls.new ≤ calls.old }
{
    let mut written = 0;
    while written < bytes.len() {
        if *calls == 0 {
            return Err(WriteFault);
        }
        *calls -= 1;
        match writer.write(&bytes[written..]) {
            Ok(0) => return Err(WriteFault),
            Ok(count) => written += count,
            Err(error) => {
                if error.kind() != ErrorKind::Interrupted {
                    return Err(WriteFault);
                }
            }
        }
    }
    Ok(())
}
