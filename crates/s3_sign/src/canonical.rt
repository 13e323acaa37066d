//! The canonical request.
ghost use Rattle.std.specs.Prelude.{◌≡◌, [], ◌∷◌, ◌++◌, OnOk, IfOk};
ghost use Rattle.s3_sign.specs.CanonicalRequest.{canonical_request, condition_fields, length_fields, signed_field, signed_fields, signed_lines, signed_names};
ghost use Rattle.s3_sign.specs.Spelling.{IsPlainRequest};
ghost use Rattle.s3_sign.specs.declared.utc_time.UtcTime.{UtcTime as Time};

use crate::request::ObjectRequest;
use crate::utc_time::UtcTime;
use itoa::Buffer;
use std::alloc::{AllocError, Global};

/// The names of the fields that are signed.
pub(crate) fn signed_names(request: &ObjectRequest<'_>) -> &'static [u8]
    ensures { (time : Time) → result.now ≡ signed_names (signed_fields request.now time) }
{
    match (request.content_length.is_some(), request.once) {
        (false, false) => b"host;x-amz-content-sha256;x-amz-date",
        (false, true) => b"host;if-none-match;x-amz-content-sha256;x-amz-date",
        (true, false) => b"content-length;host;x-amz-content-sha256;x-amz-date",
        (true, true) => b"content-length;host;if-none-match;x-amz-content-sha256;x-amz-date",
    }
}

/// Puts a field: its name, what stands between, its value and what ends it.
pub(crate) fn put_field(
    out: &mut Vec<u8>,
    between: &[u8],
    end: &[u8],
    name: &[u8],
    value: &[u8],
) -> Result<(), AllocError>
    ensures { OnOk result (out.new.items ≡ out.old.items
        ++ signed_lines between.now end.now (signed_field name.now value.now ∷ [])) }
{
    out.extend_from_slice(name)?;
    out.extend_from_slice(between)?;
    out.extend_from_slice(value)?;
    out.extend_from_slice(end)
}

/// Puts the field of the body's length, where there is a body.
fn put_length(
    out: &mut Vec<u8>,
    between: &[u8],
    end: &[u8],
    content_length: Option<u64>,
) -> Result<(), AllocError>
    ensures { OnOk result (out.new.items ≡ out.old.items
        ++ signed_lines between.now end.now (length_fields content_length)) }
{
    let Some(bytes) = content_length else {
        return Ok(());
    };
    let mut digits = Buffer::new();
    put_field(
        out,
        between,
        end,
        b"content-length",
        digits.format(bytes).as_bytes(),
    )
}

/// Puts the field of the condition, where there is one.
fn put_condition(
    out: &mut Vec<u8>,
    between: &[u8],
    end: &[u8],
    once: bool,
) -> Result<(), AllocError>
    ensures { OnOk result (out.new.items ≡ out.old.items
        ++ signed_lines between.now end.now (condition_fields once)) }
{
    if !once {
        return Ok(());
    }
    put_field(out, between, end, b"if-none-match", b"*")
}

/// Puts the fields that are signed.
pub(crate) fn put_fields(
    out: &mut Vec<u8>,
    between: &[u8],
    end: &[u8],
    request: &ObjectRequest<'_>,
    time: &UtcTime,
) -> Result<(), AllocError>
    ensures { OnOk result (out.new.items ≡ out.old.items
        ++ signed_lines between.now end.now (signed_fields request.now time.now)) }
{
    put_length(out, between, end, request.content_length)?;
    put_field(out, between, end, b"host", request.host)?;
    put_condition(out, between, end, request.once)?;
    put_field(
        out,
        between,
        end,
        b"x-amz-content-sha256",
        b"UNSIGNED-PAYLOAD",
    )?;
    put_field(out, between, end, b"x-amz-date", &time.text())?;
    Ok(())
}

/// The canonical request: method, path, an empty query, the signed fields, their names, and that the body isn't signed.
pub fn canonical_request(
    alloc: Global,
    request: &ObjectRequest<'_>,
    time: &UtcTime,
) -> Result<Vec<u8>, AllocError>
    requires { IsPlainRequest request.now }
    ensures { IfOk result (λ text. text.items ≡ canonical_request request.now time.now) }
{
    let mut text = Vec::from_slice(alloc, request.method.name())?;
    text.extend_from_slice(b"\n")?;
    text.extend_from_slice(request.path)?;
    text.extend_from_slice(b"\n\n")?;
    put_fields(&mut text, b":", b"\n", request, time)?;
    text.extend_from_slice(b"\n")?;
    text.extend_from_slice(signed_names(request))?;
    text.extend_from_slice(b"\nUNSIGNED-PAYLOAD")?;
    Ok(text)
}
