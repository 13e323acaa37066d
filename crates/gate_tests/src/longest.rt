//! A body of the longest length.

use super::counted::with_counted;
use super::rows::{are_told, holds, steps_left, waits, with_room};
use gate_core::Gateway;
use share_store::{FailAt, MemStore};
use std::alloc::{AllocError, Global};
use std::test::Fail;

/// The longest length of a body.
const LONGEST: usize = 16_777_216;

/// The request that puts so many bytes, up to its body, and the one that gets them by their cap.
const PUT: &[u8] = b"PUT /uri HTTP/1.1\r\nHost: g\r\nContent-Length: 16777216\r\n\r\n";

const GET: &[u8] =
    b"GET /uri/URI:CHK:fvgi73cmksn74kqnzhwwxvi2qe:fneiwbdgii64e5vjqzro3d54mf7lxiz7pz47hcuper3ojjzpw2zq:3:10:16777216 HTTP/1.1\r\nHost: g\r\n\r\n";

/// The same with its body in chunks.
const PUT_IN_CHUNKS: &[u8] = b"PUT /uri HTTP/1.1\r\nHost: g\r\nTransfer-Encoding: chunked\r\n\r\n";

/// The cap as it is told, and the head of the file's reply.
const STORED: &[u8] =
    b"HTTP/1.1 200 OK\r\nContent-Type: text/plain; charset=utf-8\r\nContent-Length: 101\r\n\r\nURI:CHK:fvgi73cmksn74kqnzhwwxvi2qe:fneiwbdgii64e5vjqzro3d54mf7lxiz7pz47hcuper3ojjzpw2zq:3:10:16777216";

const FOUND: &[u8] =
    b"HTTP/1.1 200 OK\r\nContent-Type: application/octet-stream\r\nContent-Length: 16777216\r\n\r\n";

/// The request that puts a byte more, and its reply.
const PUT_MORE: &[u8] = b"PUT /uri HTTP/1.1\r\nHost: g\r\nContent-Length: 16777217\r\n\r\n";

const TOO_LONG: &[u8] =
    b"HTTP/1.1 413 Content Too Large\r\nContent-Type: text/plain; charset=utf-8\r\nContent-Length: 14\r\nConnection: close\r\n\r\nbody too long\n";

/// How many bytes of shares the store may hold: those of one such file.
const ROOM: u64 = 60_000_000;

/// What is tried with a request for such an upload.
#[derive(Clone, Copy)]
enum Trial {
    /// It comes in pieces.
    Kept,
    /// It is prepared.
    Prepared,
    /// The reading of what it stored is.
    ReadAhead,
}

#[test]
fn a_body_of_the_limit_is_stored(rt: HostRuntime) -> Result<(), Fail> {
    let alloc = rt.alloc();
    is_tried(alloc, &with_counted(alloc, PUT, LONGEST)?, Trial::Kept)
}

#[test]
fn an_upload_that_is_prepared_is_stored(rt: HostRuntime) -> Result<(), Fail> {
    let alloc = rt.alloc();
    is_tried(alloc, &with_counted(alloc, PUT, LONGEST)?, Trial::Prepared)
}

#[test]
fn an_upload_in_chunks_that_is_prepared_is_stored(rt: HostRuntime) -> Result<(), Fail> {
    let alloc = rt.alloc();
    is_tried(alloc, &put_in_chunks(alloc)?, Trial::Prepared)
}

#[test]
fn a_read_that_is_prepared_is_given(rt: HostRuntime) -> Result<(), Fail> {
    let alloc = rt.alloc();
    is_tried(alloc, &with_counted(alloc, PUT, LONGEST)?, Trial::ReadAhead)
}

/// The trial holds.
fn is_tried(alloc: Global, request: &[u8], trial: Trial) -> Result<(), Fail> {
    match with_room(alloc, ROOM) {
        Ok(mut gateway) => is_tried_over(alloc, &mut gateway, request, trial),
        Err(fault) => Err(fault),
    }
}

fn is_tried_over(
    alloc: Global,
    gateway: &mut Gateway<MemStore>,
    request: &[u8],
    trial: Trial,
) -> Result<(), Fail> {
    let found = with_counted(alloc, FOUND, LONGEST)?;
    match trial {
        Trial::Kept => is_kept(gateway, request, &found),
        Trial::Prepared => is_prepared(gateway, request, &found),
        Trial::ReadAhead => is_read_ahead(gateway, request, &found),
    }
}

/// A body of the longest length comes in pieces of 65,536 bytes, and its file is found; one byte more is refused.
fn is_kept(gateway: &mut Gateway<MemStore>, request: &[u8], found: &[u8]) -> Result<(), Fail> {
    gateway.open(1, None)?;
    for piece in request.chunks(65_536) {
        gateway.bytes(1, piece)?;
    }
    are_told(
        gateway,
        &[(1, b"", STORED), (1, GET, found), (1, PUT_MORE, TOO_LONG)],
    )
}

/// The request that puts the same bytes in chunks of 65,536.
fn put_in_chunks(alloc: Global) -> Result<Vec<u8>, AllocError> {
    let body = with_counted(alloc, b"", LONGEST)?;
    let mut request = Vec::from_slice(alloc, PUT_IN_CHUNKS)?;
    for chunk in body.chunks(65_536) {
        request.extend_from_slice(b"10000\r\n")?;
        request.extend_from_slice(chunk)?;
        request.extend_from_slice(b"\r\n")?;
    }
    request.extend_from_slice(b"0\r\n\r\n")?;
    Ok(request)
}

/// An upload is prepared in steps once its last bytes are there, while the same one on another connection waits, and is stored
/// then.
fn is_prepared(gateway: &mut Gateway<MemStore>, request: &[u8], found: &[u8]) -> Result<(), Fail> {
    let (first, last) = request.split_at(request.len().saturating_sub(65_536));
    are_brought(gateway, first)?;
    // Neither what was never opened nor bytes that don't complete the upload make a step.
    let (but_one, _) = last.split_at(last.len().saturating_sub(1));
    let is_early = waits(gateway, 3, last) || waits(gateway, 1, but_one);
    let both_wait = waits(gateway, 1, last) && waits(gateway, 2, last);
    // Each 65,536 bytes are a step, and there are others.
    let steps = steps_left(gateway, 1, last);
    gateway.bytes(1, last)?;
    gateway.let_go_of(1);
    let is_next = waits(gateway, 2, last);
    are_told(gateway, &[(1, b"", STORED), (1, GET, found)])?;
    holds(
        !is_early && both_wait && steps > 256 && is_next,
        "not prepared so",
    )
}

/// Two connections are opened, and each is brought these bytes.
fn are_brought(gateway: &mut Gateway<MemStore>, bytes: &[u8]) -> Result<(), Fail> {
    gateway.open(1, None)?;
    gateway.open(2, None)?;
    for piece in bytes.chunks(65_536) {
        gateway.bytes(1, piece)?;
        gateway.bytes(2, piece)?;
    }
    Ok(())
}

/// A GET of the file is prepared in steps, while one on another connection waits, and needs none once another one was answered.
/// Both are given the file.
fn is_read_ahead(
    gateway: &mut Gateway<MemStore>,
    request: &[u8],
    found: &[u8],
) -> Result<(), Fail> {
    are_brought(gateway, request)?;
    are_told(gateway, &[(1, b"", STORED), (2, b"", STORED)])?;
    let both_wait = waits(gateway, 1, GET) && waits(gateway, 2, GET);
    let steps = steps_left(gateway, 1, GET);
    are_told(gateway, &[(1, GET, found)])?;
    gateway.let_go_of(1);
    let is_next = waits(gateway, 2, GET);
    are_told(gateway, &[(2, GET, found)])?;
    holds(both_wait && steps > 50 && !is_next, "not prepared so")
}

#[test]
fn a_store_that_lends_nothing_is_asked_once(rt: HostRuntime) -> Result<(), Fail> {
    let alloc = rt.alloc();
    is_asked_once(alloc, &with_counted(alloc, PUT, LONGEST)?)
}

/// The file is put by ten calls of a store that has nothing in memory to lend, and asked for by four, one for the numbers of its
/// shares and three for their bytes. All calls behind these fail.
fn is_asked_once(alloc: Global, request: &[u8]) -> Result<(), Fail> {
    let mut stores = Vec::new(alloc);
    stores.push(FailAt::new(alloc, MemStore::new(alloc, ROOM), 15, true))?;
    match Gateway::new(alloc, 3, 10, stores, b"") {
        Ok(mut gateway) => is_given_though_calls_fail(alloc, &mut gateway, request),
        Err(fault) => Err(Fail::from(fault)),
    }
}

/// The file is put, its reading is prepared in steps, and it is given.
fn is_given_though_calls_fail(
    alloc: Global,
    gateway: &mut Gateway<FailAt>,
    request: &[u8],
) -> Result<(), Fail> {
    let found = with_counted(alloc, FOUND, LONGEST)?;
    gateway.open(1, None)?;
    for piece in request.chunks(65_536) {
        gateway.bytes(1, piece)?;
    }
    are_told(gateway, &[(1, b"", STORED)])?;
    holds(steps_left(gateway, 1, GET) > 50, "not prepared in steps")?;
    are_told(gateway, &[(1, GET, &found)])
}
