//! The one range that is asked for.
ghost use Rattle.std.specs.Prelude.{◌≡◌, count_by, IfOk};
ghost use Rattle.std.specs.List.{list_any, find};
ghost use Rattle.std.specs.Option.{option_copied};
ghost use Rattle.web_request.specs.Ranges.{is_range, is_if_range, one_range, range_of};

use crate::action::is_same;
use crate::head::Field;
use octets::Bytes;
use std::alloc::{AllocError, Global};

/// A copy of the value of the one Range field, where no If-Range field stands.
pub fn range_of(alloc: Global, fields: &[Field]) -> Result<Option<Bytes>, AllocError>
    ensures { IfOk result (λ range. range ≡ range_of fields.now) }
{
    if any_if_range(fields) {
        return Ok(None);
    }
    match one_range(fields) {
        Some(field) => Ok(Some(Bytes::from_slice(alloc, field.value.as_slice())?)),
        None => Ok(None),
    }
}

/// The one Range field, `None` where there is none and where there are several.
pub fn one_range(fields: &[Field]) -> Option<&Field>
    ensures { option_copied result ≡ one_range fields.now }
{
    if count_ranges(fields) != 1 {
        return None;
    }
    first_range(fields)
}

/// How many Range fields there are.
fn count_ranges(fields: &[Field]) -> usize
    ensures { result ≡ count_by is_range fields.now }
{
    fields.iter().filter(|field| is_range(field)).count()
}

/// The first Range field.
fn first_range(fields: &[Field]) -> Option<&Field>
    ensures { option_copied result ≡ find is_range fields.now }
{
    fields.iter().find(|field| is_range(field))
}

/// Whether an If-Range field stands.
fn any_if_range(fields: &[Field]) -> bool
    ensures { result ≡ list_any is_if_range fields.now }
{
    fields.iter().any(|field| is_if_range(field))
}

/// Whether it is a Range field.
#[tactic(auto, unfolding(crate::specs::Ranges::is_range))]
fn is_range(field: &Field) -> bool
    ensures { result ≡ is_range field.now }
{
    is_same(field.name.as_slice(), b"range")
}

/// Whether it is an If-Range field.
#[tactic(auto, unfolding(crate::specs::Ranges::is_if_range))]
pub fn is_if_range(field: &Field) -> bool
    ensures { result ≡ is_if_range field.now }
{
    is_same(field.name.as_slice(), b"if-range")
}
