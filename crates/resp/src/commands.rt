//! Commands.
ghost use Rattle.std.specs.Prelude.{◌≡◌, ◌++◌, ℕ, List, [], ◌∷◌, map, length, decimal, IfOk, OnOk};
ghost use Rattle.std.specs.List.{flat_map};
ghost use Rattle.resp.specs.Command.{line_end, line, bulk, command};

use itoa::Buffer;
use std::alloc::{AllocError, Global};

/// How many bytes a line with a number has at most: its mark, the 20 digits of a number of 64 bits, and CR and LF.
const LINE: usize = 23;

/// Puts a line that has a number at the end.
fn put_line(out: &mut Vec<u8>, mark: u8, number: usize) -> Result<(), AllocError>
    ensures { OnOk result (out.new.items ≡ out.old.items ++ line mark (decimal number)) }
{
    let mut buffer = Buffer::new();
    out.push(mark)?;
    out.extend_from_slice(buffer.format(number).as_bytes())?;
    out.extend_from_slice(b"\r\n")
}

/// Puts a bulk string at the end.
fn put_bulk(out: &mut Vec<u8>, content: &[u8]) -> Result<(), AllocError>
    ensures { OnOk result (out.new.items ≡ out.old.items ++ bulk content.now) }
{
    put_line(out, b'$', content.len())?;
    out.extend_from_slice(content)?;
    out.extend_from_slice(b"\r\n")
}

/// Puts words at the end, each as a bulk string.
fn put_bulks(out: &mut Vec<u8>, words: &[&[u8]]) -> Result<(), AllocError>
    ensures { OnOk result (out.new.items
        ≡ out.old.items ++ flat_map bulk (map (λ word. word.now) words.now)) }
{
    for word in words {
        put_bulk(out, word)?;
    }
    Ok(())
}

/// How many bytes are enough for a command of these words and the line with the length of another.
fn enough_for(words: &[&[u8]]) -> usize {
    let mut enough = LINE + LINE;
    for word in words {
        enough = enough.saturating_add(LINE + 2).saturating_add(word.len());
    }
    enough
}

/// The bytes of a command: an array of its words, each a bulk string (RESP2). `Err` only where memory is refused.
pub fn command(alloc: Global, words: &[&[u8]]) -> Result<Vec<u8>, AllocError>
    ensures { IfOk result (λ bytes. bytes.items ≡ command (map (λ word. word.now) words.now)) }
{
    let mut bytes = Vec::with_capacity(alloc, enough_for(words))?;
    put_line(&mut bytes, b'*', words.len())?;
    put_bulks(&mut bytes, words)?;
    Ok(bytes)
}

/// The bytes of a command as far as those of its last word, which has `len` bytes: with that word and CR and LF behind
/// them they are the command, so that a long word needn't be copied. `Err` only where memory is refused.
pub fn command_head(alloc: Global, words: &[&[u8]], len: usize) -> Result<Vec<u8>, AllocError>
    ensures { IfOk result (λ bytes. (last : List ℕ) → length last ≡ len
        → bytes.items ++ last ++ line_end
        ≡ command (map (λ word. word.now) words.now ++ last ∷ [])) }
{
    let mut bytes = Vec::with_capacity(alloc, enough_for(words))?;
    put_line(&mut bytes, b'*', words.len() + 1)?;
    put_bulks(&mut bytes, words)?;
    put_line(&mut bytes, b'$', len)?;
    Ok(bytes)
}
