//! Writing requests.
ghost use Rattle.std.specs.Prelude.{OnOk};
ghost use Rattle.std.specs.Io.KnownBytes.{Appends};
ghost use Rattle.client_link.specs.Sent.{request_bytes};

use client_core::{Ask, LinkFault, WireFault, request_head};
use octets::write_whole;
use std::alloc::Global;
use std::io::Write;

/// Writes a request to a host, with its body, and nothing else. `NoConnection` where no gateway would take its head, before
/// a byte is written; `Broken` where the stream takes no more.
pub fn send_request<W: Write>(
    alloc: Global,
    stream: &mut W,
    host: &str,
    ask: &Ask,
    body: &[u8],
) -> Result<(), LinkFault>
    ensures { OnOk result (Appends (W.contents stream.old) (W.contents stream.new)
        (request_bytes host.now ask.now body.now)) }
{
    let head = match request_head(alloc, host, ask, body.len()) {
        Ok(head) => head,
        Err(WireFault::TooLong) => return Err(LinkFault::NoConnection),
        Err(WireFault::NoMemory) => return Err(LinkFault::NoMemory),
    };
    write_bytes(stream, &head)?;
    write_bytes(stream, body)
}

/// Writes these bytes.
fn write_bytes<W: Write>(stream: &mut W, bytes: &[u8]) -> Result<(), LinkFault>
    ensures { OnOk result (Appends (W.contents stream.old) (W.contents stream.new) bytes.now) }
{
    let mut calls = u64::MAX;
    match write_whole(stream, bytes, &mut calls) {
        Ok(()) => Ok(()),
        Err(_) => Err(LinkFault::Broken),
    }
}
