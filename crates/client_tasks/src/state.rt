//! What a put tells the next put of the same folder, as text: a line for each file that stands.
ghost use Rattle.std.specs.Prelude.{◌≡◌, ◌≢◌, ◌↔◌, ◌∷◌, ◌++◌, [], ℕ, List, false, decimal, IfOk, IfSome, IfNone, IsTrue, MatchOption, OnOk};
ghost use Rattle.caps.specs.CapTexts.{IsCapText};
ghost use Rattle.caps.specs.Kinds.{is_verify_cap};
ghost use Rattle.caps.specs.declared.cap.Cap.{Cap};
ghost use Rattle.client_tasks.specs.State.{AreFields, IsRecordable, state_line};
ghost use Rattle.client_tasks.specs.declared.state.Stamp.{Stamp};

use caps::laws::{caps_have_one_text, reading_is_decided, texts_have_one_cap};
use caps::{Cap, CapFault, is_verify_cap, parse_bytes, print};
use octets::laws::numbers_have_one_text;
use octets::{read_number, split_at_byte};
use percent_encoding::{AsciiSet, CONTROLS, ascii_set, percent_decode, percent_encode};
use std::alloc::{AllocError, Global};
use std::collections::BTreeMap;
use tag_hash::Decimal;
use tag_hash::laws::decimals_are_read_back;

/// The line with which a state begins: its format, and the version of it.
pub const FIRST_LINE: &[u8] = b"woz state 1\n";

/// What of a path is escaped, beside all that isn't ASCII.
const ESCAPED: AsciiSet = ascii_set!(CONTROLS.add(b' ').add(b'%'));

/// By what a file is taken for unchanged.
#[derive(Clone, Copy, PartialEq, Eq)]
pub struct Stamp {
    /// How many bytes it has.
    pub size: u64,
    /// When it was last changed, in nanoseconds since 1970.
    pub time: u64,
}

/// What is known of a file that was stored.
#[derive(Drop)]
pub struct Known {
    /// As it was when it was read.
    pub stamp: Stamp,
    /// The cap of its bytes.
    pub cap: Cap,
}

/// The fields of a line.
#[derive(Clone, Copy)]
struct Fields<'a> {
    size: u64,
    time: u64,
    /// Escaped.
    path: &'a [u8],
    cap: &'a [u8],
}

/// Appends the line of a file, and its end.
pub fn push_line(
    alloc: Global,
    text: &mut Vec<u8>,
    path: &[u8],
    stamp: &Stamp,
    cap: &Cap,
) -> Result<(), AllocError>
    ensures { OnOk result (text.new.items
        ≡ text.old.items ++ state_line path.now stamp.now cap.now ++ 10 ∷ []) }
{
    let line = line_of(alloc, path, stamp, cap)?;
    text.extend_from_slice(&line)?;
    text.push(b'\n')?;
    Ok(())
}

/// The line of a file, without its end.
fn line_of(alloc: Global, path: &[u8], stamp: &Stamp, cap: &Cap) -> Result<Vec<u8>, AllocError>
    ensures { IfOk result (λ line. line.items ≡ state_line path.now stamp.now cap.now) }
{
    caps_have_one_text();
    let mut place = String::new(alloc);
    percent_encode(path, ESCAPED).append_to(&mut place)?;
    let cap = print(alloc, cap)?;
    let mut line = Vec::new(alloc);
    push_number(&mut line, stamp.size)?;
    line.extend_from_slice(b" ")?;
    push_number(&mut line, stamp.time)?;
    line.extend_from_slice(b" ")?;
    line.extend_from_slice(place.as_bytes())?;
    line.extend_from_slice(b" ")?;
    line.extend_from_slice(cap.as_bytes())?;
    Ok(line)
}

/// Appends a number in decimal.
fn push_number(text: &mut Vec<u8>, number: u64) -> Result<(), AllocError>
    ensures { OnOk result (text.new.items ≡ text.old.items ++ decimal number) }
{
    decimals_are_read_back();
    let digits = Decimal::new(number);
    text.extend_from_slice(digits.as_bytes())?;
    Ok(())
}

/// The path of a file and what is known of it, where the line is one's: what is written of a file is read again, and
/// nothing else is.
fn read_line(alloc: Global, line: &[u8]) -> Result<Option<(Vec<u8>, Known)>, AllocError>
    ensures some { IfOk result (λ found. IfSome found (λ read.
        line.now ≡ state_line read.0.items read.1.stamp read.1.cap)) }
    ensures same { IfOk result (λ found. IfSome found (λ read.
        (path : List ℕ) (stamp : Stamp) (cap : Cap) → IsRecordable path stamp cap
        → line.now ≡ state_line path stamp cap
        → (read.0.items ≡ path) × ((read.1.stamp ≡ stamp) × (read.1.cap ≡ cap)))) }
    ensures none { IfOk result (λ found. IfNone found ((path : List ℕ) (stamp : Stamp) (cap : Cap)
        → IsRecordable path stamp cap → ¬ (line.now ≡ state_line path stamp cap))) }
{
    caps_have_one_text();
    texts_have_one_cap();
    let Some(fields) = fields_of(line) else {
        return Ok(None);
    };
    let Some(cap) = read_cap_text(alloc, fields.cap)? else {
        return Ok(None);
    };
    let stamp = Stamp {
        size: fields.size,
        time: fields.time,
    };
    let mut path = Vec::new(alloc);
    percent_decode(fields.path).append_to(&mut path)?;
    let again = line_of(alloc, &path, &stamp, &cap)?;
    if !are_same_bytes(&again, line) {
        return Ok(None);
    }
    Ok(Some((path, Known { stamp, cap })))
}

/// Whether they are the same bytes.
fn are_same_bytes(one: &[u8], other: &[u8]) -> bool
    ensures { IsTrue result ↔ (one.now ≡ other.now) }
{
    one == other
}

/// The fields of a line, which single spaces part.
fn fields_of(line: &[u8]) -> Option<Fields<'_>>
    ensures { MatchOption result
        ((size time : ℕ) (path cap : List ℕ) → ¬ (AreFields line.now size time path cap))
        (λ f. AreFields line.now f.size f.time f.path.now f.cap.now) }
{
    numbers_have_one_text();
    let Some((size, rest)) = split_at_byte(line, b' ') else {
        return None;
    };
    let Some((time, rest)) = split_at_byte(rest, b' ') else {
        return None;
    };
    let Some((path, cap)) = split_at_byte(rest, b' ') else {
        return None;
    };
    let Some(size) = read_number(size, u64::MAX) else {
        return None;
    };
    let Some(time) = read_number(time, u64::MAX) else {
        return None;
    };
    Some(Fields {
        size,
        time,
        path,
        cap,
    })
}

/// The cap of a text, if it is one's that reads.
fn read_cap_text(alloc: Global, text: &[u8]) -> Result<Option<Cap>, AllocError>
    ensures { IfOk result (λ found. MatchOption found
        ((cap : Cap) → IsCapText cap text.now → is_verify_cap cap ≢ false)
        (λ cap. IsCapText cap text.now × (is_verify_cap cap ≡ false))) }
{
    reading_is_decided();
    texts_have_one_cap();
    match parse_bytes(alloc, text) {
        Ok(cap) => {
            if is_verify_cap(&cap) {
                return Ok(None);
            }
            Ok(Some(cap))
        }
        Err(CapFault::NoMemory) => Err(AllocError),
        Err(_) => Ok(None),
    }
}

/// What a state knows of files, by their paths; `None` where the text is no state: it begins with another line, its
/// last line has no end, a line is no file's, or two are of one path.
pub fn read_state(
    alloc: Global,
    text: &[u8],
) -> Result<Option<BTreeMap<Vec<u8>, Known>>, AllocError> {
    let mut files = BTreeMap::new(alloc);
    let Some(lines) = text.strip_prefix(FIRST_LINE) else {
        return Ok(None);
    };
    if lines.is_empty() {
        return Ok(Some(files));
    }
    let Some(lines) = lines.strip_suffix(b"\n".as_slice()) else {
        return Ok(None);
    };
    for line in lines.split(|byte| *byte == b'\n') {
        let Some((path, known)) = read_line(alloc, line)? else {
            return Ok(None);
        };
        if files.insert(path, known)?.is_some() {
            return Ok(None);
        }
    }
    Ok(Some(files))
}
