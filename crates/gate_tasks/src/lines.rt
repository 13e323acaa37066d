//! The lines of a script, read one at a time.
ghost use Rattle.std.specs.Prelude.{◌≡◌, ◌+◌, ◌≤◌, length, true, false};
ghost use Rattle.gate_tasks.specs.Lines.{fits, script_limit};
ghost use Rattle.gate_tasks.specs.Reading.{LineReads, PartReads, IsLinePart};

use crate::fault::ScriptFault;
use octets::split_at_byte;
use std::io::{BufRead, ErrorKind};

/// How many bytes a line may have, without the LF that ends it.
pub const LINE_LIMIT: usize = 16_777_216;

/// How many bytes a script may have.
pub const SCRIPT_LIMIT: usize = 268_435_456;

/// How far one look at the reader's bytes led.
#[derive(Drop)]
pub enum Part {
    /// The line goes on.
    More,
    /// An LF ended it.
    Ended,
    /// The reader has no more bytes.
    AtEnd,
}

/// Reads the next line, without the LF that ends it, and says whether one does: none ends the last line. Before it
/// so many bytes of the script were read. `TooLong` where the line or the script is over its limit; `ReadFailed` and
/// `NoMemory` come on the way.
pub fn read_line<R: BufRead>(
    reader: &mut R,
    read: usize,
    line: &mut Vec<u8>,
) -> Result<bool, ScriptFault>
    requires { read ≤ script_limit }
    ensures { LineReads read (R.remaining reader.old) (R.remaining reader.new) result
        line.new.items }
{
    line.clear();
    for _ in 0..u64::MAX {
        match read_part(reader, read, line)? {
            Part::More => {}
            Part::Ended => return Ok(true),
            Part::AtEnd => return Ok(false),
        }
    }
    Err(ScriptFault::ReadFailed)
}

/// Reads what the reader shows of a line.
fn read_part<R: BufRead>(
    reader: &mut R,
    read: usize,
    line: &mut Vec<u8>,
) -> Result<Part, ScriptFault>
    requires { fits read (length line.old.items) false ≡ true }
    ensures { PartReads read (R.remaining reader.old) (R.remaining reader.new) result
        line.old.items line.new.items }
{
    let shown = match reader.fill_buf() {
        Ok(shown) => shown,
        Err(error) if error.kind() == ErrorKind::Interrupted => return Ok(Part::More),
        Err(_) => return Err(ScriptFault::ReadFailed),
    };
    if shown.is_empty() {
        return Ok(Part::AtEnd);
    }
    let (part, ended) = first_part(shown);
    if !is_within_limits(read, line.len(), part.len(), ended) {
        return Err(ScriptFault::TooLong);
    }
    line.extend_from_slice(part)?;
    let taken = part.len() + usize::from(ended);
    reader.consume(taken);
    if ended {
        return Ok(Part::Ended);
    }
    Ok(Part::More)
}

/// Whether a line that goes on with such a part stays within its limit, and the script within its own.
fn is_within_limits(read: usize, before: usize, part: usize, ended: bool) -> bool
    requires { fits read before false ≡ true }
    ensures { result ≡ fits read (before + part) ended }
{
    part <= LINE_LIMIT - before && part + usize::from(ended) <= SCRIPT_LIMIT - read - before
}

/// The bytes before the first LF and whether one stands there.
fn first_part(bytes: &[u8]) -> (&[u8], bool)
    ensures { IsLinePart bytes.now (record { bytes = result.0.now; ended = result.1 }) }
{
    match split_at_byte(bytes, b'\n') {
        Some((line, _)) => (line, true),
        None => (bytes, false),
    }
}
