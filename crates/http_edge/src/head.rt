//! Reading a head block.
ghost use Rattle.std.specs.Prelude.{◌≡◌, length, map, All, IfOk};
ghost use Rattle.httparse.specs.Spans.{IsHeaderWithin, header_bytes};
ghost use Rattle.http_edge.specs.Block.{head_of};
ghost use Rattle.http_edge.specs.Judge.{field_from, within_limit};

use crate::field::{Field, Fields};
use crate::item::Head;
use httparse::Status;
use httparse::spans::{EMPTY_HEADER_SPAN, HeaderSpan, RequestSpans, parse_request};
use octets::Bytes;
use std::alloc::{AllocError, Global};

/// How many fields a head may have.
const MOST_FIELDS: usize = 64;

fn field_at(alloc: Global, block: &[u8], span: &HeaderSpan) -> Result<Field, AllocError>
    requires { IsHeaderWithin (length block.now) span.now }
    ensures { IfOk result (λ field. field ≡ field_from (header_bytes block.now span.now)) }
{
    Field::from_slices(alloc, span.name.of(block), span.value.of(block))
}

fn fields_at(alloc: Global, block: &[u8], spans: &[HeaderSpan]) -> Result<Vec<Field>, AllocError>
    requires { All (IsHeaderWithin (length block.now)) spans.now }
    ensures { IfOk result (λ fields. fields.items
        ≡ map field_from (map (header_bytes block.now) spans.now)) }
{
    let mut fields = Vec::with_capacity(alloc, spans.len())?;
    for span in spans {
        fields.push(field_at(alloc, block, span)?)?;
    }
    Ok(fields)
}

/// The head that the whole block is, with the minor version, if it is one with at most 64 fields.
pub fn read_head(alloc: Global, block: &[u8]) -> Result<Option<(Head, u8)>, AllocError>
    ensures { IfOk result (λ found. found ≡ within_limit (head_of block.now)) }
{
    let mut headers = [EMPTY_HEADER_SPAN; MOST_FIELDS];
    match parse_request(block, &mut headers) {
        Ok(Status::Complete(spans)) => {
            if spans.len != block.len() {
                return Ok(None);
            }
            let method = Bytes::from_slice(alloc, spans.method.of(block))?;
            let target = Bytes::from_slice(alloc, spans.path.of(block))?;
            let fields = fields_at(alloc, block, &headers[..spans.headers])?;
            let head = Head {
                method,
                target,
                fields: Fields::from_vec(fields),
            };
            Ok(Some((head, spans.version)))
        }
        Ok(Status::Partial) => Ok(None),
        Err(_) => Ok(None),
    }
}
