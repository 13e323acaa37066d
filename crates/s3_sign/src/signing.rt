//! The string to sign, and the key of a day.
ghost use Rattle.std.specs.Prelude.{◌≡◌, IfOk, string_bytes};
ghost use Rattle.hex.specs.Hex.{encode_lower};
ghost use Rattle.sha2.specs.Sha256.{sha256};
ghost use Rattle.s3_sign.specs.StringToSign.{signing_scope, string_to_sign};
ghost use Rattle.s3_sign.specs.SigningKey.{signing_key};
ghost use Rattle.s3_sign.specs.Spelling.{IsPlainRequest};

use crate::canonical::canonical_request;
use crate::request::ObjectRequest;
use crate::utc_time::UtcTime;
use hmac_sha256::hmac;
use sha2::{Digest, Sha256};
use std::alloc::{AllocError, Global};

/// What a signature is good for: a day, a region and S3.
pub(crate) fn signing_scope(
    alloc: Global,
    region: &[u8],
    time: &UtcTime,
) -> Result<Vec<u8>, AllocError>
    ensures { IfOk result (λ text. text.items ≡ signing_scope region.now time.now) }
{
    let mut text = Vec::from_slice(alloc, &time.day_text())?;
    text.extend_from_slice(b"/")?;
    text.extend_from_slice(region)?;
    text.extend_from_slice(b"/s3/aws4_request")?;
    Ok(text)
}

/// The hash of a text, in hexadecimal.
fn hash_text(alloc: Global, text: &[u8]) -> Result<String, AllocError>
    ensures { IfOk result (λ digest. string_bytes digest ≡ encode_lower (sha256 text.now)) }
{
    hex::encode(alloc, Sha256::digest(text))
}

/// The string to sign: the algorithm, the time, what the signature is good for, and the hash of the canonical request.
pub fn string_to_sign(
    alloc: Global,
    region: &[u8],
    request: &ObjectRequest<'_>,
    time: &UtcTime,
) -> Result<Vec<u8>, AllocError>
    requires { IsPlainRequest request.now }
    ensures { IfOk result (λ text. text.items ≡ string_to_sign region.now request.now time.now) }
{
    let canonical = canonical_request(alloc, request, time)?;
    let digest = hash_text(alloc, canonical.as_slice())?;
    let scope = signing_scope(alloc, region, time)?;
    let mut text = Vec::from_slice(alloc, b"AWS4-HMAC-SHA256\n")?;
    text.extend_from_slice(&time.text())?;
    text.extend_from_slice(b"\n")?;
    text.extend_from_slice(scope.as_slice())?;
    text.extend_from_slice(b"\n")?;
    text.extend_from_slice(digest.as_bytes())?;
    Ok(text)
}

/// The key by which requests of a day are signed, where the day is written as `YYYYMMDD`.
pub fn signing_key(
    alloc: Global,
    secret: &[u8],
    day: &[u8; 8],
    region: &[u8],
) -> Result<[u8; 32], AllocError>
    ensures { IfOk result (λ key. key ≡ signing_key secret.now day.now region.now) }
{
    let mut first = Vec::from_slice(alloc, b"AWS4")?;
    first.extend_from_slice(secret)?;
    let of_day = hmac(first.as_slice(), day);
    let of_region = hmac(&of_day, region);
    let of_service = hmac(&of_region, b"s3");
    Ok(hmac(&of_service, b"aws4_request"))
}
