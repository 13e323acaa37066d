//! Which part of a file is asked for.
ghost use Rattle.std.specs.Prelude.{◌≡◌, Some};
ghost use Rattle.range_view.specs.Asked.{asked_by, asked_of_set, FromTo, From, Last};
ghost use Rattle.range_view.specs.Resolved.{resolved_range, resolved};

use crate::number::{Number, number_of};
use crate::value::{cut_at_dash, set_of};
use octets::without_blanks;

/// What a Range field's value comes to for a file.
#[derive(Clone, Copy, PartialEq, Eq)]
pub enum Resolved {
    /// The value is ignored: the whole file is served.
    Whole,
    /// The bytes from the first place to the last, which is one of them. The first is not past the last, and the last
    /// is below the file's size.
    Part(u64, u64),
    /// No byte of the file is in the range.
    Unsatisfiable,
}

/// What the value of a Range field comes to for a file of `size` bytes.
///
/// The value is `bytes=`, in any case, and one of `first-last`, `first-` and `-count`, in digits; spaces and tabs
/// around it don't count. Several ranges, a last place below the first and any other text are ignored. A first place at
/// or past the size, or a count of 0, is not satisfiable. A last place past the end is the end, and a count greater
/// than the size is the whole file as a part. For an empty file a count other than 0 is ignored. Numbers of 2^64 and
/// more count as one number, which is greater than every size. Takes no memory.
#[tactic(auto, unfolding(crate::specs::Asked::asked))]
pub fn resolve(text: &[u8], size: u64) -> Resolved
    ensures { result ≡ resolved text.now size }
{
    match set_of(without_blanks(text)) {
        Some(set) => resolve_set(set, size),
        None => Resolved::Whole,
    }
}

/// What follows the unit, for a file of `size` bytes.
fn resolve_set(set: &[u8], size: u64) -> Resolved
    ensures { result ≡ resolved_range (asked_of_set set.now) size }
{
    match cut_at_dash(set) {
        Some((first, last)) => resolve_texts(first, last, size),
        None => Resolved::Whole,
    }
}

/// What stands before and after the dash, for a file of `size` bytes.
fn resolve_texts(first: &[u8], last: &[u8], size: u64) -> Resolved
    ensures { result ≡ resolved_range (asked_by first.now last.now) size }
{
    if first.is_empty() {
        return match number_of(last) {
            Some(count) => last_bytes(count, size),
            None => Resolved::Whole,
        };
    }
    if last.is_empty() {
        return match number_of(first) {
            Some(first) => bytes_from(first, size),
            None => Resolved::Whole,
        };
    }
    match (number_of(first), number_of(last)) {
        (Some(first), Some(last)) => bytes_between(first, last, size),
        _ => Resolved::Whole,
    }
}

/// The bytes from one place to another.
fn bytes_between(first: Number, last: Number, size: u64) -> Resolved
    ensures { result ≡ resolved_range (Some (FromTo first last)) size }
{
    if last.is_below(&first) {
        return Resolved::Whole;
    }
    let Some(from) = first.below(size) else {
        return Resolved::Unsatisfiable;
    };
    match last.below(size) {
        Some(to) => Resolved::Part(from, to),
        None => Resolved::Part(from, size - 1),
    }
}

/// The bytes from a place on.
fn bytes_from(first: Number, size: u64) -> Resolved
    ensures { result ≡ resolved_range (Some (From first)) size }
{
    match first.below(size) {
        Some(from) => Resolved::Part(from, size - 1),
        None => Resolved::Unsatisfiable,
    }
}

/// The last so many bytes.
fn last_bytes(count: Number, size: u64) -> Resolved
    ensures { result ≡ resolved_range (Some (Last count)) size }
{
    if count.is_zero() {
        return Resolved::Unsatisfiable;
    }
    if size == 0 {
        return Resolved::Whole;
    }
    match count.below(size) {
        Some(count) => Resolved::Part(size - count, size - 1),
        None => Resolved::Part(0, size - 1),
    }
}
