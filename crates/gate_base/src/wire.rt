//! Replies as they are sent.
ghost use Rattle.std.specs.Prelude.{◌≡◌, ◌∷◌, [], ◌++◌, codes, decimal, IfOk, OnOk, IsTrue};
ghost use Rattle.std.specs.List.{list_all};
ghost use Rattle.http_edge.specs.Plain.{is_line_byte};
ghost use Rattle.gate_base.specs.Wire.{status_line, media_type, methods, web_field_line, more_lines, further_lines, with_page_lines, wire_reply, framing_reply};

use http_edge::{FramingFault, ReplyField, ReplyFields, Status};
use itoa::Buffer;
use octets::Bytes;
use std::alloc::{AllocError, Global};
use std::marker::Model;
use web_replies::{Body, Field, MediaType};
use web_request::Resource;

/// A reply as it is sent, whose body may wait to be decoded. Contracts see it as a reply of `http_edge`.
#[derive(Drop)]
pub struct Sent {
    pub status: Status,
    pub fields: ReplyFields,
    pub body: Body,
}

impl Model for Sent {
    ghost use Rattle.http_edge.specs.declared.reply.Reply.{Reply};

    ghost Value = { Reply };

    ghost view = { λ s. record { status = s.status; fields = s.fields; body = s.body } };
}

/// A reply of the web API, whose body is moved.
pub fn wire_reply(alloc: Global, reply: web_replies::Reply) -> Result<Sent, AllocError>
    ensures { IfOk result (λ sent. sent ≡ wire_reply reply) }
{
    let web_replies::Reply {
        status,
        fields: given,
        body,
    } = reply;
    let mut fields = ReplyFields::new(alloc);
    fields.push(content_type(given.content_type))?;
    put_further(alloc, &mut fields, given.more)?;
    Ok(Sent {
        status: status_line(status),
        fields,
        body,
    })
}

/// Puts the lines of a further field, if there is one.
pub fn put_further(
    alloc: Global,
    fields: &mut ReplyFields,
    more: Option<Field>,
) -> Result<(), AllocError>
    ensures { OnOk result (fields.new ≡ fields.old ++ further_lines more) }
{
    let Some(field) = more else {
        return Ok(());
    };
    fields.push(field_line(alloc, field)?)?;
    match field {
        Field::Page => put_page_lines(fields),
        Field::ContentRange(_, _, _) | Field::UnsatisfiedRange(_) | Field::Allow(_) => Ok(()),
    }
}

/// The status of a reply of the web API.
pub fn status_line(status: web_replies::Status) -> Status
    ensures { result ≡ status_line status }
{
    match status {
        web_replies::Status::Ok => Status::Ok,
        web_replies::Status::PartialContent => Status::PartialContent,
        web_replies::Status::NotModified => Status::NotModified,
        web_replies::Status::BadRequest => Status::BadRequest,
        web_replies::Status::NotFound => Status::NotFound,
        web_replies::Status::MethodNotAllowed => Status::MethodNotAllowed,
        web_replies::Status::Gone => Status::Gone,
        web_replies::Status::RangeNotSatisfiable => Status::RangeNotSatisfiable,
        web_replies::Status::ServiceUnavailable => Status::ServiceUnavailable,
    }
}

/// The field that says what a body is.
pub fn content_type(kind: MediaType) -> ReplyField
    ensures { result ≡ record { name = codes "Content-Type"; value = media_type kind } }
{
    match kind {
        MediaType::OctetStream => ReplyField::constant(
            b"Content-Type",
            b"application/octet-stream",
        ),
        MediaType::PlainText => ReplyField::constant(b"Content-Type", b"text/plain; charset=utf-8"),
        MediaType::Json => ReplyField::constant(b"Content-Type", b"application/json"),
        MediaType::Html => ReplyField::constant(b"Content-Type", b"text/html; charset=utf-8"),
        MediaType::Css => ReplyField::constant(b"Content-Type", b"text/css; charset=utf-8"),
        MediaType::JavaScript => ReplyField::constant(
            b"Content-Type",
            b"text/javascript; charset=utf-8",
        ),
        MediaType::Svg => ReplyField::constant(b"Content-Type", b"image/svg+xml"),
        MediaType::Png => ReplyField::constant(b"Content-Type", b"image/png"),
    }
}

/// The first line of a further field.
fn field_line(alloc: Global, field: Field) -> Result<ReplyField, AllocError>
    ensures { IfOk result (λ line. line ≡ web_field_line field) }
{
    match field {
        Field::ContentRange(from, to, size) => {
            let value = part_of(alloc, from, to, size)?;
            Ok(ReplyField::made(b"Content-Range", value))
        }
        Field::UnsatisfiedRange(size) => {
            let value = none_of(alloc, size)?;
            Ok(ReplyField::made(b"Content-Range", value))
        }
        Field::Allow(Resource::Uploads) => Ok(ReplyField::constant(b"Allow", b"POST, PUT")),
        Field::Allow(Resource::Node) => Ok(ReplyField::constant(b"Allow", b"GET, HEAD, POST")),
        Field::Page => Ok(ReplyField::constant(b"Content-Security-Policy", PAGE_POLICY)),
    }
}

/// What a page's scripts, styles and requests may be.
const PAGE_POLICY: &[u8] =
    b"default-src 'none'; script-src 'self'; style-src 'self'; connect-src 'self'; worker-src 'self'; img-src blob: data:; media-src blob:; base-uri 'none'; form-action 'none'; frame-ancestors 'none'";

/// Puts a page's lines after its first.
fn put_page_lines(fields: &mut ReplyFields) -> Result<(), AllocError>
    ensures { OnOk result (fields.new ≡ with_page_lines fields.old) }
{
    fields.push(ReplyField::constant(b"X-Content-Type-Options", b"nosniff"))?;
    fields.push(ReplyField::constant(b"Referrer-Policy", b"no-referrer"))?;
    fields.push(ReplyField::constant(b"Cache-Control", b"no-cache"))
}

/// The places of the first byte and the last of a part of a file, and the file's size.
fn part_of(alloc: Global, from: u64, to: u64, size: u64) -> Result<Bytes, AllocError>
    ensures value { IfOk result (λ value. value
        ≡ codes "bytes " ++ (decimal from ++ (codes "-" ++ (decimal to
        ++ (codes "/" ++ decimal size))))) }
    ensures plain { IfOk result (λ value. IsTrue (list_all is_line_byte value)) }
{
    http_edge::laws::numbers_are_plain();
    let mut value = Vec::from_slice(alloc, b"bytes ")?;
    put_number(&mut value, from)?;
    value.extend_from_slice(b"-")?;
    put_number(&mut value, to)?;
    value.extend_from_slice(b"/")?;
    put_number(&mut value, size)?;
    Ok(Bytes::from_vec(value))
}

/// No part of a file of this size.
fn none_of(alloc: Global, size: u64) -> Result<Bytes, AllocError>
    ensures value { IfOk result (λ value. value ≡ codes "bytes */" ++ decimal size) }
    ensures plain { IfOk result (λ value. IsTrue (list_all is_line_byte value)) }
{
    http_edge::laws::numbers_are_plain();
    let mut value = Vec::from_slice(alloc, b"bytes */")?;
    put_number(&mut value, size)?;
    Ok(Bytes::from_vec(value))
}

/// Puts a number, in decimal.
fn put_number(out: &mut Vec<u8>, number: u64) -> Result<(), AllocError>
    ensures { OnOk result (out.new.items ≡ out.old.items ++ decimal number) }
{
    let mut digits = Buffer::new();
    out.extend_from_slice(digits.format(number).as_bytes())
}

/// The reply to a framing fault.
pub fn framing_reply(alloc: Global, fault: FramingFault) -> Result<Sent, AllocError>
    ensures { IfOk result (λ reply. reply ≡ framing_reply fault) }
{
    let (status, line): (Status, &[u8]) = match fault {
        FramingFault::BadHead => (Status::BadRequest, b"bad request\n"),
        FramingFault::BadHost => (Status::BadRequest, b"bad request\n"),
        FramingFault::TransferCoding => {
            (Status::NotImplemented, b"transfer coding not supported\n")
        }
        FramingFault::BadLength => (Status::BadRequest, b"bad request\n"),
        FramingFault::TooLong => (Status::ContentTooLarge, b"body too long\n"),
        FramingFault::BadChunk => (Status::BadRequest, b"bad request\n"),
    };
    let mut fields = ReplyFields::new(alloc);
    fields.push(content_type(MediaType::PlainText))?;
    let body = Body::from_bytes(Bytes::from_slice(alloc, line)?);
    Ok(Sent {
        status,
        fields,
        body,
    })
}
