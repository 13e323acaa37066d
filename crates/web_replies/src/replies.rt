//! The replies that are given.
ghost use Rattle.std.specs.Prelude.{◌≡◌, ◌∷◌, [], ◌++◌, ◌≤◌, ◌<◌, length, IfOk, Some, None};
ghost use Rattle.caps.specs.CapTexts.{cap_text};
ghost use Rattle.web_replies.specs.Replies.{reply_with, of_file, cap_reply, json_reply, file_reply, part_reply, not_modified, unsatisfiable, bytes_reply};

use crate::body::Body;
use crate::part::Part;
use crate::reply::{Field, Fields, MediaType, Reply, Status};
use caps::{Cap, VerifyFields};
use file_shares::Download;
use json_view::Listing;
use octets::Bytes;
use range_view::{Resolved, resolve};
use std::alloc::{AllocError, Global};

/// A reply with these parts.
pub fn reply_with(status: Status, content_type: MediaType, more: Option<Field>, body: Body) -> Reply
    ensures { result ≡ reply_with status content_type more body }
{
    Reply {
        status,
        fields: Fields {
            content_type,
            more,
            file: None,
        },
        body,
    }
}

/// The same reply, of bytes of this stored file, if there is one.
fn of_file(file: Option<VerifyFields>, reply: Reply) -> Reply
    ensures { result ≡ of_file file reply }
{
    let Reply {
        status,
        fields,
        body,
    } = reply;
    Reply {
        status,
        fields: Fields {
            content_type: fields.content_type,
            more: fields.more,
            file,
        },
        body,
    }
}

/// A fault: this line, with its line feed.
pub fn fault_with(
    alloc: Global,
    status: Status,
    more: Option<Field>,
    line: &[u8],
) -> Result<Reply, AllocError>
    ensures { IfOk result (λ reply. reply ≡ reply_with status MediaType.PlainText more line.now) }
{
    let body = Body::from_bytes(Bytes::from_slice(alloc, line)?);
    Ok(reply_with(status, MediaType::PlainText, more, body))
}

/// The text of a cap.
pub fn cap_reply(alloc: Global, cap: &Cap) -> Result<Reply, AllocError>
    ensures { IfOk result (λ reply. reply ≡ cap_reply cap.now) }
{
    caps::laws::caps_have_one_text();
    let text = caps::print(alloc, cap)?;
    let body = Body::from_bytes(Bytes::from_vec(text.into_bytes()));
    Ok(reply_with(Status::Ok, MediaType::PlainText, None, body))
}

/// A JSON text, which is moved.
pub fn json_reply(text: Vec<u8>) -> Reply
    ensures { result ≡ json_reply text.items }
{
    let body = Body::from_bytes(Bytes::from_vec(text));
    reply_with(Status::Ok, MediaType::Json, None, body)
}

/// The JSON of a directory, which is made as it is taken.
pub fn listing_reply(listing: Listing) -> Reply
    ensures { result ≡ json_reply listing }
{
    reply_with(
        Status::Ok,
        MediaType::Json,
        None,
        Body::from_listing(listing),
    )
}

/// The bytes that stand in a cap, which are moved, or a copy of as many of them as a range asks for.
pub fn bytes_reply(alloc: Global, range: Option<Bytes>, bytes: Bytes) -> Result<Reply, AllocError>
    ensures { IfOk result (λ reply. reply ≡ bytes_reply None range bytes) }
{
    narrowed_by(alloc, range, None, Body::from_bytes(bytes))
}

/// The bytes of a reply, or as many of them as this range asks for: a reply with bytes of the same file.
pub fn narrowed(alloc: Global, range: Bytes, reply: Reply) -> Result<Reply, AllocError>
    ensures { IfOk result (λ part. part ≡ bytes_reply reply.fields.file (Some range) reply.body) }
{
    narrowed_by(alloc, Some(range), reply.fields.file, reply.body)
}

/// The reply to a request that has the bytes of a reply already.
pub fn not_modified(alloc: Global, reply: Reply) -> Reply
    ensures { result ≡ not_modified reply.fields.file }
{
    let body = Body::from_bytes(Bytes::new(alloc));
    let bare = reply_with(Status::NotModified, MediaType::OctetStream, None, body);
    of_file(reply.fields.file, bare)
}

/// These bytes, or as many of them as a range asks for.
fn narrowed_by(
    alloc: Global,
    range: Option<Bytes>,
    file: Option<VerifyFields>,
    body: Body,
) -> Result<Reply, AllocError>
    ensures { IfOk result (λ reply. reply ≡ bytes_reply file range body) }
{
    let Some(range) = range else {
        return Ok(file_reply(file, body));
    };
    let size = body.len() as u64;
    match resolve(range.as_slice(), size) {
        Resolved::Whole => Ok(file_reply(file, body)),
        Resolved::Part(from, to) => part_reply(alloc, file, from, to, body),
        Resolved::Unsatisfiable => Ok(of_file(file, unsatisfiable(alloc, size)?)),
    }
}

/// The bytes of a file of this size that are decoded as they are taken, or as many of them as a range asks for.
pub fn download_reply(
    alloc: Global,
    range: Option<Bytes>,
    file: Option<VerifyFields>,
    size: u64,
    download: Download,
) -> Result<Reply, AllocError>
    requires { length download.left ≡ size }
    ensures { IfOk result (λ reply. reply ≡ bytes_reply file range download.left) }
{
    let part = Part::new(download, 0, size as usize);
    narrowed_by(alloc, range, file, Body::from_part(part))
}

/// A file's bytes.
fn file_reply(file: Option<VerifyFields>, body: Body) -> Reply
    ensures { result ≡ file_reply file body }
{
    let reply = reply_with(Status::Ok, MediaType::OctetStream, None, body);
    of_file(file, reply)
}

/// A file's bytes from one place to another, both of them too.
fn part_reply(
    alloc: Global,
    file: Option<VerifyFields>,
    from: u64,
    to: u64,
    body: Body,
) -> Result<Reply, AllocError>
    requires order { from ≤ to }
    requires inside { to < length body }
    ensures { IfOk result (λ reply. reply ≡ part_reply file from to body) }
{
    let range = Field::ContentRange(from, to, body.len() as u64);
    let (first, count) = (from as usize, to as usize + 1 - from as usize);
    let part = body.narrow(alloc, first, count)?;
    let reply = reply_with(
        Status::PartialContent,
        MediaType::OctetStream,
        Some(range),
        part,
    );
    Ok(of_file(file, reply))
}

/// No byte of a file of this size is in the range.
fn unsatisfiable(alloc: Global, size: u64) -> Result<Reply, AllocError>
    ensures { IfOk result (λ reply. reply ≡ unsatisfiable size) }
{
    let range = Field::UnsatisfiedRange(size);
    let line = b"range not satisfiable\n";
    fault_with(alloc, Status::RangeNotSatisfiable, Some(range), line)
}
