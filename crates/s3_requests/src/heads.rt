//! Heads of requests.
ghost use Rattle.std.specs.Prelude.{◌≡◌, ◌++◌, ◌∷◌, [], OnOk, OnErr, IfOk, codes};
ghost use Rattle.std.specs.List.{AllPass};
ghost use Rattle.s3_sign.specs.Spelling.{is_path_byte};
ghost use Rattle.s3_requests.specs.ObjectSites.{IsObjectSite};
ghost use Rattle.s3_requests.specs.RequestHeads.{object_path, request_head};

use crate::asks::ObjectAsk;
use crate::sites::ObjectSite;
use s3_sign::{ObjectRequest, Signer, UtcTime};
use std::alloc::{AllocError, Global};

/// `/`, the bucket, `/` and a name.
fn path_of(alloc: Global, site: &ObjectSite, name: &[u8]) -> Result<Vec<u8>, AllocError>
    ensures path { IfOk result (λ path. path.items ≡ object_path site.now name.now) }
{
    let mut path = Vec::from_slice(alloc, b"/")?;
    path.extend_from_slice(site.bucket.as_slice())?;
    path.extend_from_slice(b"/")?;
    path.extend_from_slice(name)?;
    Ok(path)
}

/// Puts the head of a request behind what `out` has: the request line in path style, the fields `content-length` (of a
/// PUT), `host`, `if-none-match` (of a PUT that is to be refused where something stands), `x-amz-content-sha256` and
/// `x-amz-date`, all of them signed, the signature, and an empty line. Where memory is refused `out` is as it was.
pub fn put_head(
    alloc: Global,
    out: &mut Vec<u8>,
    signer: &mut Signer,
    site: &ObjectSite,
    name: &[u8],
    asked: ObjectAsk,
    time: &UtcTime,
) -> Result<(), AllocError>
    requires site_is { IsObjectSite site.now }
    requires name_is { AllPass is_path_byte name.now }
    ensures head { OnOk result (out.new.items ≡ out.old.items
        ++ request_head signer.old site.now name.now asked time.now) }
    ensures refused { OnErr result (out.new.items ≡ out.old.items) }
    ensures same { signer.new ≡ signer.old }
{
    let path = path_of(alloc, site, name)?;
    let request = ObjectRequest {
        method: asked.method(),
        host: site.host.as_slice(),
        path: path.as_slice(),
        content_length: asked.content_length(),
        once: asked.is_conditional(),
    };
    let head = signer.signed_head(alloc, &request, time)?;
    out.extend_from_slice(head.as_slice())
}
