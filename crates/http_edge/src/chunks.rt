//! Reading a chunked body as its bytes come (RFC 9112, section 7.1).
ghost use Rattle.std.specs.Prelude.{◌≡◌, ◌<◌, ◌≤◌, ◌+◌, ◌++◌, ℕ, List, length, drop, if◌then◌else◌, Some, None, IfOk};
ghost use Rattle.std.specs.Char.{is_digit, digit_value};
ghost use Rattle.httparse.specs.Grammar.{is_ows};
ghost use Rattle.http_edge.specs.Judge.{most_body_bytes};
ghost use Rattle.http_edge.specs.Places.{size_with_digit, place_within, must_be, after_size, in_size, in_extension, sized, in_trailer, step, after_data, read, resume, IsFramingPlace, IsFramingStep, IsTakenByStep};

use crate::item::FramingFault;
use crate::judge::MOST_BODY_BYTES;
use crate::place::{Place, Step};
use httparse::is_space_or_tab;
use std::alloc::AllocError;

/// How many bytes a chunk line has at most, with its CRLF.
const MOST_CHUNK_LINE_BYTES: usize = 1024;

/// How many bytes the trailers have at most, with the empty line.
const MOST_TRAILER_BYTES: usize = 16384;

/// The step of a byte with which the bytes begin no chunked body.
const BAD: Step = Step::Broken(FramingFault::BadChunk);

/// The value of a hexadecimal digit.
fn hex_value(b: u8) -> Option<usize>
    ensures { result ≡ (if is_digit b 16 then Some (digit_value b) else None) }
{
    match (b as char).to_digit(16) {
        Some(value) => Some(value as usize),
        None => None,
    }
}

/// A place, where its line has room for so many bytes that have to follow.
fn within(most: usize, needed: usize, place: Place) -> Step
    ensures { result ≡ place_within most needed place }
{
    if needed <= most {
        Step::Next(place)
    } else {
        BAD
    }
}

/// A step, where the byte is the one that has to stand here.
fn must_be(wanted: u8, b: u8, step: Step) -> Step
    ensures { result ≡ must_be wanted b step }
{
    if b == wanted { step } else { BAD }
}

/// A byte after the digits of a size.
#[tactic(auto, unfolding(crate::specs::Places::after_size))]
fn after_size(size: usize, taken: usize, b: u8) -> Step
    requires { taken ≤ 1024 }
    ensures { result ≡ after_size size taken b }
{
    if b == b'\r' {
        return Step::Next(Place::LineFeed { size });
    }
    let next = taken + 1;
    if is_space_or_tab(b) {
        return within(
            MOST_CHUNK_LINE_BYTES,
            taken + 3,
            Place::AfterSize { size, taken: next },
        );
    }
    if b == b';' {
        return within(
            MOST_CHUNK_LINE_BYTES,
            taken + 3,
            Place::Extension { size, taken: next },
        );
    }
    BAD
}

/// A byte at or after the first digits of a size.
#[tactic(auto, unfolding(crate::specs::Places::in_size))]
fn in_size(size: usize, digits: usize, b: u8) -> Step
    requires small { size ≤ most_body_bytes + 1 }
    requires few { digits ≤ 16 }
    ensures { result ≡ in_size size digits b }
{
    match hex_value(b) {
        Some(value) => {
            if digits < 16 {
                let size = (size * 16 + value).min(MOST_BODY_BYTES + 1);
                return Step::Next(Place::Size {
                    size,
                    digits: digits + 1,
                });
            }
            after_size(size, digits, b)
        }
        None => {
            if digits == 0 {
                return BAD;
            }
            after_size(size, digits, b)
        }
    }
}

/// A byte of a chunk line's extension.
#[tactic(auto, unfolding(crate::specs::Places::in_extension))]
fn in_extension(size: usize, taken: usize, b: u8) -> Step
    requires { taken ≤ 1024 }
    ensures { result ≡ in_extension size taken b }
{
    if b == b'\r' {
        return Step::Next(Place::LineFeed { size });
    }
    if b == b'\n' {
        return BAD;
    }
    within(
        MOST_CHUNK_LINE_BYTES,
        taken + 3,
        Place::Extension {
            size,
            taken: taken + 1,
        },
    )
}

/// What follows a whole chunk line, where the content has so many bytes: with a size that takes it over the limit the
/// body is too long, before a byte of the chunk comes.
fn sized(count: usize, size: usize) -> Step
    requires count { count ≤ most_body_bytes }
    requires size { size ≤ most_body_bytes + 1 }
    ensures { result ≡ sized count size }
{
    if size == 0 {
        return Step::Next(Place::Trailers { taken: 0 });
    }
    if count + size <= MOST_BODY_BYTES {
        Step::Next(Place::Data { missing: size })
    } else {
        Step::Broken(FramingFault::TooLong)
    }
}

/// A byte of a trailer line, or of the empty line; the place is the one after its CR.
#[tactic(auto, unfolding(crate::specs::Places::in_trailer))]
fn in_trailer(place: Place, taken: usize, b: u8) -> Step
    requires { taken ≤ 16384 }
    ensures { result ≡ in_trailer place taken b }
{
    if b == b'\r' {
        return Step::Next(place);
    }
    if b == b'\n' {
        return BAD;
    }
    within(
        MOST_TRAILER_BYTES,
        taken + 5,
        Place::Trailer { taken: taken + 1 },
    )
}

/// What a byte comes to at a place that is in no chunk's bytes, where the content has so many bytes.
#[tactic(auto, unfolding(crate::specs::Places::step))]
fn step(count: usize, place: Place, b: u8) -> Step
    requires { IsFramingPlace count place }
    ensures { result ≡ step count place b }
{
    match place {
        Place::Size { size, digits } => in_size(size, digits, b),
        Place::AfterSize { size, taken } => after_size(size, taken, b),
        Place::Extension { size, taken } => in_extension(size, taken, b),
        Place::LineFeed { size } => must_be(b'\n', b, sized(count, size)),
        Place::Data { missing } => Step::Next(after_data(missing, 1)),
        Place::DataReturn => must_be(b'\r', b, Step::Next(Place::DataLineFeed)),
        Place::DataLineFeed => must_be(b'\n', b, Step::Next(Place::Size { size: 0, digits: 0 })),
        Place::Trailers { taken } => in_trailer(Place::LastLineFeed, taken, b),
        Place::Trailer { taken } => {
            in_trailer(Place::TrailerLineFeed { taken: taken + 1 }, taken, b)
        }
        Place::TrailerLineFeed { taken } => {
            must_be(b'\n', b, Step::Next(Place::Trailers { taken: taken + 1 }))
        }
        Place::LastLineFeed => must_be(b'\n', b, Step::Ended),
    }
}

/// The place after so many of a chunk's missing bytes.
fn after_data(missing: usize, taken: usize) -> Place
    requires { taken ≤ missing }
    ensures { result ≡ after_data missing taken }
{
    if taken < missing {
        Place::Data {
            missing: missing - taken,
        }
    } else {
        Place::DataReturn
    }
}

/// Takes the bytes of a chunk that stand, or one byte of what is round them: what it comes to, and how many were taken.
/// So many bytes of the content stand before those in the vector.
pub fn read_some(
    before: usize,
    content: &mut Vec<u8>,
    place: Place,
    bytes: &[u8],
) -> Result<(Step, usize), AllocError>
    requires place { IsFramingPlace (before + length content.old.items) place }
    requires some { 0 < length bytes.now }
    ensures read { IfOk result (λ done. (n : ℕ) (front : List ℕ) → length front ≡ before
        → read n (front ++ content.old.items) place bytes.now
        ≡ resume (n + done.1) done.0 (front ++ content.new.items) (drop done.1 bytes.now)) }
    ensures place { IfOk result (λ done. IsFramingStep (before + length content.new.items) done.0) }
    ensures some { IfOk result (λ done. (0 < done.1) × (done.1 ≤ length bytes.now)) }
{
    if let Place::Data { missing } = place {
        let taken = missing.min(bytes.len());
        let (data, _) = bytes.split_at(taken);
        content.extend_from_slice(data)?;
        return Ok((Step::Next(after_data(missing, taken)), taken));
    }
    Ok((step(before + content.len(), place, bytes[0]), 1))
}

/// Takes bytes up to the end of the body, a fault, or the last of them: what they come to, and how many were taken. So
/// many bytes of the content stand before those in the vector.
pub fn read_chunks(
    before: usize,
    content: &mut Vec<u8>,
    place: Place,
    bytes: &[u8],
) -> Result<(Step, usize), AllocError>
    requires place { IsFramingPlace (before + length content.old.items) place }
    ensures read { IfOk result (λ done. (front : List ℕ) → length front ≡ before
        → read 0 (front ++ content.old.items) place bytes.now
        ≡ resume done.1 done.0 (front ++ content.new.items) (drop done.1 bytes.now)) }
    ensures place { IfOk result (λ done. IsFramingStep (before + length content.new.items) done.0) }
    ensures taken { IfOk result (λ done. IsTakenByStep done.0 done.1 (length bytes.now)) }
{
    let mut place = place;
    let mut at = 0;
    while at < bytes.len() {
        let (_, rest) = bytes.split_at(at);
        let (step, taken) = read_some(before, content, place, rest)?;
        at += taken;
        match step {
            Step::Next(next) => place = next,
            Step::Ended => return Ok((Step::Ended, at)),
            Step::Broken(fault) => return Ok((Step::Broken(fault), at)),
        }
    }
    Ok((Step::Next(place), at))
}
