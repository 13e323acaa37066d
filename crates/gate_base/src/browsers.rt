//! Replies as browsers make use of them.
ghost use Rattle.std.specs.Prelude.{◌≡◌, ◌∷◌, [], ◌++◌, IfOk, OnOk, IfSome, IsTrue};
ghost use Rattle.std.specs.List.{list_all};
ghost use Rattle.http_edge.specs.Plain.{is_line_byte};
ghost use Rattle.reply_fields.specs.Names.{naming_of};
ghost use Rattle.gate_base.specs.Browsers.{range_on, cut_to, conditioned, is_unchanged, is_refusal_status, is_of_file, sandbox_line, with_file_lines, tag_lines, disposition_lines, type_line, type_by, file_lines, refusal_lines, other_lines, browser_lines, browser_reply, sent_by};

use crate::wire::{Sent, content_type, put_further, status_line, wire_reply};
use caps::VerifyFields;
use http_edge::{ReplyField, ReplyFields};
use octets::Bytes;
use reply_fields::{Guess, disposition_of, entity_tag, guess_of, is_had, naming_of, range_if};
use std::alloc::{AllocError, Global};
use web_replies::{Fields, MediaType, Reply, Status, narrowed, not_modified};
use web_request::Head;

/// A reply to a request with this head, as it is sent to browsers or to others. Its body is moved.
pub fn sent_reply(
    alloc: Global,
    for_browsers: bool,
    head: &Head,
    reply: Reply,
) -> Result<Sent, AllocError>
    ensures { IfOk result (λ sent. sent ≡ sent_by for_browsers head.now reply) }
{
    if for_browsers {
        browser_reply(alloc, head, reply)
    } else {
        wire_reply(alloc, reply)
    }
}

/// A reply for browsers.
#[tactic(auto, unfolding(crate::specs::Browsers::browser_reply))]
fn browser_reply(alloc: Global, head: &Head, reply: Reply) -> Result<Sent, AllocError>
    ensures { IfOk result (λ sent. sent ≡ browser_reply head.now reply) }
{
    let reply = conditioned(alloc, head, reply)?;
    let Reply {
        status,
        fields: given,
        body,
    } = reply;
    let fields = browser_lines(alloc, head.target.as_slice(), status, &given)?;
    Ok(Sent {
        status: status_line(status),
        fields,
        body,
    })
}

/// The reply, or as much of it as the conditions on its file's tag leave.
#[tactic(auto, unfolding(crate::specs::Browsers::conditioned))]
fn conditioned(alloc: Global, head: &Head, reply: Reply) -> Result<Reply, AllocError>
    ensures { IfOk result (λ left. left ≡ conditioned head.now reply) }
{
    let Some(file) = reply.fields.file else {
        return Ok(reply);
    };
    let tag = entity_tag(alloc, &file)?;
    if is_had(tag.as_slice(), head.fields.as_slice()) {
        return Ok(not_modified(alloc, reply));
    }
    let range = range_on(alloc, tag.as_slice(), head)?;
    cut_to(alloc, range, reply)
}

/// The range that is asked for on condition of this tag, of a request that isn't for the head.
fn range_on(alloc: Global, tag: &[u8], head: &Head) -> Result<Option<Bytes>, AllocError>
    ensures { IfOk result (λ range. range ≡ range_on tag.now head.now) }
{
    if head.method.as_slice() == b"HEAD".as_slice() {
        return Ok(None);
    }
    range_if(alloc, tag, head.fields.as_slice())
}

/// The reply, or as much of it as a range asks for.
fn cut_to(alloc: Global, range: Option<Bytes>, reply: Reply) -> Result<Reply, AllocError>
    ensures { IfOk result (λ left. left ≡ cut_to range reply) }
{
    match range {
        Some(range) => narrowed(alloc, range, reply),
        None => Ok(reply),
    }
}

/// The lines of a reply for browsers to a request of this target.
#[tactic(auto, unfolding(crate::specs::Browsers::browser_lines))]
fn browser_lines(
    alloc: Global,
    target: &[u8],
    status: Status,
    given: &Fields,
) -> Result<ReplyFields, AllocError>
    ensures { IfOk result (λ fields. fields ≡ browser_lines target.now status given.now) }
{
    if is_unchanged(status) {
        return tag_alone(alloc, &given.file);
    }
    if is_of_file(given.content_type) {
        return file_lines(alloc, target, given);
    }
    other_lines(alloc, status, given)
}

/// A file's tag alone.
fn tag_alone(alloc: Global, file: &Option<VerifyFields>) -> Result<ReplyFields, AllocError>
    ensures { IfOk result (λ fields. fields ≡ tag_lines file.now) }
{
    let mut fields = ReplyFields::new(alloc);
    put_tag(alloc, &mut fields, file)?;
    Ok(fields)
}

/// The lines of bytes of a file.
fn file_lines(alloc: Global, target: &[u8], given: &Fields) -> Result<ReplyFields, AllocError>
    ensures { IfOk result (λ fields. fields ≡ file_lines (naming_of target.now) given.now) }
{
    let naming = naming_of(alloc, target)?;
    let mut fields = ReplyFields::new(alloc);
    let guess = guess_of(&naming.name);
    fields.push(type_field(guess))?;
    put_further(alloc, &mut fields, given.more)?;
    put_guards(&mut fields, guess)?;
    put_tag(alloc, &mut fields, &given.file)?;
    put_disposition(&mut fields, disposition_of(alloc, &naming)?)?;
    Ok(fields)
}

/// The lines of any other reply.
fn other_lines(alloc: Global, status: Status, given: &Fields) -> Result<ReplyFields, AllocError>
    ensures { IfOk result (λ fields. fields ≡ other_lines status given.now) }
{
    let mut fields = ReplyFields::new(alloc);
    fields.push(content_type(given.content_type))?;
    put_further(alloc, &mut fields, given.more)?;
    if is_refusal_status(status) {
        fields.push(ReplyField::constant(b"Cache-Control", b"no-store"))?;
    }
    Ok(fields)
}

/// Puts what each reply with bytes of a file says: that ranges may be asked for, and that nothing in it runs.
fn put_guards(fields: &mut ReplyFields, guess: Option<Guess>) -> Result<(), AllocError>
    ensures { OnOk result (fields.new ≡ with_file_lines guess fields.old) }
{
    fields.push(ReplyField::constant(b"Accept-Ranges", b"bytes"))?;
    fields.push(ReplyField::constant(b"X-Content-Type-Options", b"nosniff"))?;
    fields.push(sandbox_field(guess))
}

/// What nothing runs in. Film and sound have the gateway's origin, from which browsers ask for more of their bytes.
fn sandbox_field(guess: Option<Guess>) -> ReplyField
    ensures { result ≡ sandbox_line guess }
{
    let Some(guess) = guess else {
        return ReplyField::constant(b"Content-Security-Policy", b"sandbox");
    };
    match guess {
        Guess::PlainText | Guess::Png | Guess::Jpeg | Guess::Gif | Guess::WebP | Guess::Avif =>
            ReplyField::constant(b"Content-Security-Policy", b"sandbox"),
        Guess::Mp4 | Guess::WebM | Guess::Mp3 | Guess::Ogg | Guess::Wav | Guess::Flac => {
            ReplyField::constant(b"Content-Security-Policy", b"sandbox allow-same-origin")
        }
    }
}

/// Puts the tag of a file, if there is one.
fn put_tag(
    alloc: Global,
    fields: &mut ReplyFields,
    file: &Option<VerifyFields>,
) -> Result<(), AllocError>
    ensures { OnOk result (fields.new ≡ fields.old ++ tag_lines file.now) }
{
    match file {
        Some(file) => fields.push(ReplyField::made(b"ETag", entity_tag(alloc, file)?)),
        None => Ok(()),
    }
}

/// Puts the name of a file, if it was asked for.
fn put_disposition(fields: &mut ReplyFields, value: Option<Bytes>) -> Result<(), AllocError>
    requires plain { IfSome value (λ v. IsTrue (list_all is_line_byte v)) }
    ensures { OnOk result (fields.new ≡ fields.old ++ disposition_lines value) }
{
    match value {
        Some(value) => fields.push(ReplyField::made(b"Content-Disposition", value)),
        None => Ok(()),
    }
}

/// The type that a file's name says, or none.
fn type_field(guess: Option<Guess>) -> ReplyField
    ensures { result ≡ type_line (type_by guess) }
{
    let Some(guess) = guess else {
        return content_type(MediaType::OctetStream);
    };
    match guess {
        Guess::PlainText => content_type(MediaType::PlainText),
        Guess::Png => content_type(MediaType::Png),
        Guess::Jpeg => ReplyField::constant(b"Content-Type", b"image/jpeg"),
        Guess::Gif => ReplyField::constant(b"Content-Type", b"image/gif"),
        Guess::WebP => ReplyField::constant(b"Content-Type", b"image/webp"),
        Guess::Avif => ReplyField::constant(b"Content-Type", b"image/avif"),
        Guess::Mp4 => ReplyField::constant(b"Content-Type", b"video/mp4"),
        Guess::WebM => ReplyField::constant(b"Content-Type", b"video/webm"),
        Guess::Mp3 => ReplyField::constant(b"Content-Type", b"audio/mpeg"),
        Guess::Ogg => ReplyField::constant(b"Content-Type", b"audio/ogg"),
        Guess::Wav => ReplyField::constant(b"Content-Type", b"audio/wav"),
        Guess::Flac => ReplyField::constant(b"Content-Type", b"audio/flac"),
    }
}

/// Whether a status says that the file is as it was.
fn is_unchanged(status: Status) -> bool
    ensures { result ≡ is_unchanged status }
{
    match status {
        Status::NotModified => true,
        Status::Ok
        | Status::PartialContent
        | Status::BadRequest
        | Status::NotFound
        | Status::MethodNotAllowed
        | Status::Gone
        | Status::RangeNotSatisfiable
        | Status::ServiceUnavailable => false,
    }
}

/// Whether a status refuses.
fn is_refusal_status(status: Status) -> bool
    ensures { result ≡ is_refusal_status status }
{
    match status {
        Status::Ok | Status::PartialContent | Status::NotModified => false,
        Status::BadRequest
        | Status::NotFound
        | Status::MethodNotAllowed
        | Status::Gone
        | Status::RangeNotSatisfiable
        | Status::ServiceUnavailable => true,
    }
}

/// Whether a body is bytes of a file.
fn is_of_file(kind: MediaType) -> bool
    ensures { result ≡ is_of_file kind }
{
    match kind {
        MediaType::OctetStream => true,
        MediaType::PlainText
        | MediaType::Json
        | MediaType::Html
        | MediaType::Css
        | MediaType::JavaScript
        | MediaType::Svg
        | MediaType::Png => false,
    }
}
