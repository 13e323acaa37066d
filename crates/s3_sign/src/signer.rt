//! Who signs.
ghost use Rattle.std.specs.Prelude.{◌≡◌, IfOk, string_bytes};
ghost use Rattle.s3_sign.specs.SignedHead.{authorization, signed_head, signature};
ghost use Rattle.s3_sign.specs.SigningKey.{signing_key};
ghost use Rattle.s3_sign.specs.Spelling.{IsPlainRequest, IsVisible};

use crate::canonical::{put_field, put_fields, signed_names};
use crate::request::ObjectRequest;
use crate::signing::{signing_key, signing_scope, string_to_sign};
use crate::utc_time::UtcTime;
use hmac_sha256::hmac;
use octets::Bytes;
use std::alloc::{AllocError, Global};
use std::marker::Model;

/// The key of one day.
#[derive(Clone, Copy)]
struct DayKey {
    day: [u8; 8],
    key: [u8; 32],
}

/// Who signs: the id and the secret of a key, and the region of the buckets. It keeps the key of the last day for which
/// it signed.
#[derive(Drop)]
pub struct Signer {
    id: Bytes,
    secret: Bytes,
    region: Bytes,
    kept: Option<DayKey>,
}

impl Model for Signer {
    ghost use Rattle.std.specs.Prelude.{◌≡◌};
    ghost use Rattle.s3_sign.specs.SignedHead.{Account};
    ghost use Rattle.s3_sign.specs.SigningKey.{signing_key};
    ghost use Rattle.std.specs.Option.{ForSome};

    ghost Value = { Account };

    ghost view = { λ s. record { id = s.id; secret = s.secret; region = s.region } };

    ghost invariant = { λ s. ForSome s.kept (λ k. k.key ≡ signing_key s.secret k.day s.region) };
}

impl Signer {
    /// Who has this key, where the buckets are in this region.
    pub fn new(id: Bytes, secret: Bytes, region: Bytes) -> Self
        requires id_is { IsVisible id }
        requires region_is { IsVisible region }
        ensures id { result.id ≡ id }
        ensures secret { result.secret ≡ secret }
        ensures region { result.region ≡ region }
    {
        Signer {
            id,
            secret,
            region,
            kept: None,
        }
    }

    /// The key of a day.
    fn day_key(&mut self, alloc: Global, day: [u8; 8]) -> Result<[u8; 32], AllocError>
        ensures key { IfOk result (λ key. key ≡ signing_key self.old.secret day self.old.region) }
        ensures same { self.new ≡ self.old }
    {
        if let Some(kept) = self.kept {
            if kept.day == day {
                return Ok(kept.key);
            }
        }
        let key = signing_key(alloc, self.secret.as_slice(), &day, self.region.as_slice())?;
        self.kept = Some(DayKey { day, key });
        Ok(key)
    }

    /// The signature of a request, 64 hexadecimal digits.
    #[tactic(auto, unfolding(crate::specs::SignedHead::signature))]
    fn signature(
        &mut self,
        alloc: Global,
        request: &ObjectRequest<'_>,
        time: &UtcTime,
    ) -> Result<String, AllocError>
        requires { IsPlainRequest request.now }
        ensures text { IfOk result (λ text.
            string_bytes text ≡ signature self.old request.now time.now) }
        ensures same { self.new ≡ self.old }
    {
        let text = string_to_sign(alloc, self.region.as_slice(), request, time)?;
        let key = self.day_key(alloc, time.day_text())?;
        let digits = hex::encode(alloc, hmac(&key, text.as_slice()))?;
        Ok(digits)
    }

    /// The value of the request's field `authorization`.
    pub fn authorization(
        &mut self,
        alloc: Global,
        request: &ObjectRequest<'_>,
        time: &UtcTime,
    ) -> Result<Vec<u8>, AllocError>
        requires { IsPlainRequest request.now }
        ensures value { IfOk result (λ value.
            value.items ≡ authorization self.old request.now time.now) }
        ensures same { self.new ≡ self.old }
    {
        let scope = signing_scope(alloc, self.region.as_slice(), time)?;
        let mut value = Vec::from_slice(alloc, b"AWS4-HMAC-SHA256 Credential=")?;
        value.extend_from_slice(self.id.as_slice())?;
        value.extend_from_slice(b"/")?;
        value.extend_from_slice(scope.as_slice())?;
        value.extend_from_slice(b", SignedHeaders=")?;
        value.extend_from_slice(signed_names(request))?;
        value.extend_from_slice(b", Signature=")?;
        let signature = self.signature(alloc, request, time)?;
        value.extend_from_slice(signature.as_bytes())?;
        Ok(value)
    }

    /// The request's head, as it is sent: it has the fields that are signed, and the signature.
    pub fn signed_head(
        &mut self,
        alloc: Global,
        request: &ObjectRequest<'_>,
        time: &UtcTime,
    ) -> Result<Vec<u8>, AllocError>
        requires { IsPlainRequest request.now }
        ensures head { IfOk result (λ head.
            head.items ≡ signed_head self.old request.now time.now) }
        ensures same { self.new ≡ self.old }
    {
        let authorization = self.authorization(alloc, request, time)?;
        let mut head = Vec::from_slice(alloc, request.method.name())?;
        head.extend_from_slice(b" ")?;
        head.extend_from_slice(request.path)?;
        head.extend_from_slice(b" HTTP/1.1\r\n")?;
        put_fields(&mut head, b": ", b"\r\n", request, time)?;
        put_field(
            &mut head,
            b": ",
            b"\r\n",
            b"authorization",
            authorization.as_slice(),
        )?;
        head.extend_from_slice(b"\r\n")?;
        Ok(head)
    }
}
