//! A walk into a long directory, and its listing.

use super::rows::{Row, are_told, holds, steps_left, waits, with_room};
use gate_core::Gateway;
use share_store::MemStore;
use std::alloc::{AllocError, Global};
use std::test::Fail;

/// How many children the directory has. They are named by their numbers in six digits, from 1 on, and each is the file of
/// three bytes `foo` in its cap, but for the seventh, which is `bar`.
const CHILDREN: u32 = 60_000;

/// The request that puts the directory's text as a file, up to its body, and its reply. The cap is that of
/// `models/uploads.py`.
const PUT: &[u8] = b"PUT /uri HTTP/1.1\r\nHost: g\r\nContent-Length: 2280000\r\n\r\n";

const STORED: &[u8] =
    b"HTTP/1.1 200 OK\r\nContent-Type: text/plain; charset=utf-8\r\nContent-Length: 100\r\n\r\nURI:CHK:2rppwskhdj5yipr535xfka2oqm:oc6pmbuavga2k2qy63beodsfn5lqyxgqgsmukengatd7opa3fjla:3:10:2280000";

/// The request for the seventh child, and its reply.
const GET: &[u8] =
    b"GET /uri/URI:DIR2-CHK:2rppwskhdj5yipr535xfka2oqm:oc6pmbuavga2k2qy63beodsfn5lqyxgqgsmukengatd7opa3fjla:3:10:2280000/000007 HTTP/1.1\r\nHost: g\r\n\r\n";

const FOUND: &[u8] =
    b"HTTP/1.1 200 OK\r\nContent-Type: application/octet-stream\r\nContent-Length: 3\r\n\r\nbar";

/// The request for a child that is missing, and its reply.
const GET_MISSING: &[u8] =
    b"GET /uri/URI:DIR2-CHK:2rppwskhdj5yipr535xfka2oqm:oc6pmbuavga2k2qy63beodsfn5lqyxgqgsmukengatd7opa3fjla:3:10:2280000/0000070 HTTP/1.1\r\nHost: g\r\n\r\n";

const NOT_FOUND: &[u8] =
    b"HTTP/1.1 404 Not Found\r\nContent-Type: text/plain; charset=utf-8\r\nContent-Length: 14\r\n\r\nno such child\n";

/// The request for the JSON of the directory.
const LIST: &[u8] =
    b"GET /uri/URI:DIR2-CHK:2rppwskhdj5yipr535xfka2oqm:oc6pmbuavga2k2qy63beodsfn5lqyxgqgsmukengatd7opa3fjla:3:10:2280000?t=json HTTP/1.1\r\nHost: g\r\n\r\n";

/// What is tried in a gateway that stored the directory.
#[derive(Clone, Copy)]
enum Trial {
    /// A request is prepared, and told this.
    Prepared(&'static [u8], &'static [u8]),
    /// Each row is told, without being prepared.
    Told(&'static [Row<'static>]),
    /// A request is prepared while the directory is stored again.
    StoredAgain(&'static [u8]),
    /// Requests of each form are prepared.
    Forms,
}

#[test]
fn a_walk_that_is_prepared_is_given(rt: HostRuntime) -> Result<(), Fail> {
    is_tried(rt.alloc(), Trial::Prepared(GET, FOUND))
}

#[test]
fn a_child_that_is_missing_is_so_where_the_walk_is_prepared(rt: HostRuntime) -> Result<(), Fail> {
    is_tried(rt.alloc(), Trial::Prepared(GET_MISSING, NOT_FOUND))
}

#[test]
fn a_child_that_is_missing_is_so_where_nothing_is_prepared(rt: HostRuntime) -> Result<(), Fail> {
    is_tried(rt.alloc(), Trial::Told(ROWS))
}

#[test]
fn a_walk_goes_on_where_its_directory_is_stored_again(rt: HostRuntime) -> Result<(), Fail> {
    is_tried(rt.alloc(), Trial::StoredAgain(GET))
}

#[test]
fn a_listing_goes_on_where_its_directory_is_stored_again(rt: HostRuntime) -> Result<(), Fail> {
    is_tried(rt.alloc(), Trial::StoredAgain(LIST))
}

#[test]
fn a_request_is_prepared_in_each_form_and_however_it_is_cut(rt: HostRuntime) -> Result<(), Fail> {
    is_tried(rt.alloc(), Trial::Forms)
}

/// What is told where nothing is prepared.
const ROWS: &[Row<'static>] = &[(1, GET_MISSING, NOT_FOUND), (2, GET, FOUND)];

/// The trial holds.
fn is_tried(alloc: Global, trial: Trial) -> Result<(), Fail> {
    match with_room(alloc, ROOM) {
        Ok(mut gateway) => is_tried_over(alloc, &mut gateway, trial),
        Err(fault) => Err(fault),
    }
}

fn is_tried_over(alloc: Global, gateway: &mut Gateway<MemStore>, trial: Trial) -> Result<(), Fail> {
    is_stored(alloc, gateway)?;
    match trial {
        Trial::Prepared(request, told) => is_walked_ahead(gateway, request, told),
        Trial::Told(rows) => are_told(gateway, rows),
        Trial::StoredAgain(request) => is_begun_anew(alloc, gateway, request),
        Trial::Forms => are_foreseen(alloc, gateway),
    }
}

#[test]
fn a_listing_is_the_same_where_it_is_prepared(rt: HostRuntime) -> Result<(), Fail> {
    let alloc = rt.alloc();
    let prepared = listed(alloc, true)?;
    let unprepared = listed(alloc, false)?;
    holds(prepared.starts_with(b"HTTP/1.1 200 OK\r\n"), "no listing")?;
    holds(prepared == unprepared, "another listing")
}

/// What the request for the JSON is told, where it is prepared before or isn't.
fn listed(alloc: Global, is_prepared: bool) -> Result<Vec<u8>, Fail> {
    match with_room(alloc, ROOM) {
        Ok(mut gateway) => listed_by(alloc, &mut gateway, is_prepared),
        Err(fault) => Err(fault),
    }
}

/// The same. What was made for it isn't there for another.
fn listed_by(
    alloc: Global,
    gateway: &mut Gateway<MemStore>,
    is_prepared: bool,
) -> Result<Vec<u8>, Fail> {
    is_stored(alloc, gateway)?;
    if is_prepared {
        holds(steps_left(gateway, 1, LIST) > 10, "nothing prepared")?;
    }
    gateway.bytes(1, LIST)?;
    gateway.let_go_of(1);
    holds(waits(gateway, 2, LIST), "nothing to prepare for another")?;
    Ok(gateway.take(1, 20_000_000)?)
}

/// The cap of the directory.
const CAP: &str =
    "URI:DIR2-CHK:2rppwskhdj5yipr535xfka2oqm:oc6pmbuavga2k2qy63beodsfn5lqyxgqgsmukengatd7opa3fjla:3:10:2280000";

/// What stands before the cap and behind it in other forms of such requests, up to the end of the head, and what comes behind.
const FORMS: &[(&str, &str, &[u8])] = &[
    ("HEAD /uri/", "/000007 HTTP/1.1\r\nHost: g\r\n\r\n", b""),
    (
        "\r\n\r\nGET /uri/",
        "/000007 HTTP/1.1\r\nHost: g\r\n\r\n",
        b"",
    ),
    (
        "GET http://g/uri/",
        "/%300%3000%307 HTTP/1.1\r\nHost: g\r\n\r\n",
        b"",
    ),
    ("GET /uri/", "?%74=js%6fn HTTP/1.1\r\nHost: g\r\n\r\n", b""),
    (
        "GET /uri/",
        "/000007 HTTP/1.1\r\nHost: g\r\nContent-Length: 1\r\n\r\n",
        b"x",
    ),
    (
        "POST /uri/",
        "?t=check&output=JSON&verify=ON HTTP/1.1\r\nHost: g\r\nTransfer-Encoding: chunked\r\n\r\n",
        b"1\r\nx\r\n0\r\n\r\n",
    ),
];

/// Requests of each form are prepared, however they are cut, each on a connection of its own.
fn are_foreseen(alloc: Global, gateway: &mut Gateway<MemStore>) -> Result<(), Fail> {
    let mut id: u64 = 10;
    for (before, behind, body) in FORMS {
        let head = format!(in alloc; "{before}{CAP}{behind}")?;
        for cut in [0, 1, 60] {
            id = id.saturating_add(1);
            is_foreseen(alloc, gateway, id, head.as_bytes(), cut, body)?;
        }
        id = id.saturating_add(1);
        is_foreseen_behind_its_head(gateway, id, head.as_bytes(), body)?;
    }
    Ok(())
}

/// A request is prepared of whose head so many bytes were brought before. A body comes with the rest of the head.
fn is_foreseen(
    alloc: Global,
    gateway: &mut Gateway<MemStore>,
    id: u64,
    head: &[u8],
    cut: usize,
    body: &[u8],
) -> Result<(), Fail> {
    let (first, rest) = head.split_at(cut.min(head.len()));
    let mut next = Vec::from_slice(alloc, rest)?;
    next.extend_from_slice(body)?;
    waits_behind(gateway, id, first, &next)
}

/// A request with a body is prepared of which only the body is awaited.
fn is_foreseen_behind_its_head(
    gateway: &mut Gateway<MemStore>,
    id: u64,
    head: &[u8],
    body: &[u8],
) -> Result<(), Fail> {
    if body.is_empty() {
        return Ok(());
    }
    waits_behind(gateway, id, head, body)
}

/// On a new connection on which the first bytes were brought the request is prepared that the next ones complete.
fn waits_behind(
    gateway: &mut Gateway<MemStore>,
    id: u64,
    first: &[u8],
    next: &[u8],
) -> Result<(), Fail> {
    gateway.open(id, None)?;
    gateway.bytes(id, first)?;
    let waits = waits(gateway, id, next);
    gateway.let_go_of(id);
    holds(waits, "nothing prepared")
}

/// How many bytes of shares the store may hold.
const ROOM: u64 = 10_000_000;

/// The request that puts the directory's text.
fn put_of_directory(alloc: Global) -> Result<Vec<u8>, AllocError> {
    let mut request = Vec::from_slice(alloc, PUT)?;
    for number in 1..=CHILDREN {
        let child = if number == 7 {
            "URI:LIT:mjqxe"
        } else {
            "URI:LIT:mzxw6"
        };
        let entry = format!(in alloc; "34:6:{number:06},13:{child},0:,2:{{}},,")?;
        request.extend_from_slice(entry.as_bytes())?;
    }
    Ok(request)
}

/// Two connections are opened, and the first one puts the directory's text.
fn is_stored(alloc: Global, gateway: &mut Gateway<MemStore>) -> Result<(), Fail> {
    gateway.open(1, None)?;
    gateway.open(2, None)?;
    is_put(alloc, gateway)
}

/// The first connection puts the directory's text.
fn is_put(alloc: Global, gateway: &mut Gateway<MemStore>) -> Result<(), Fail> {
    let request = put_of_directory(alloc)?;
    for piece in request.chunks(65_536) {
        gateway.bytes(1, piece)?;
    }
    are_told(gateway, &[(1, b"", STORED)])
}

/// What was prepared of a request on one connection is begun anew where the directory was stored again on another: steps are
/// left then, as many as at the beginning.
fn is_begun_anew(
    alloc: Global,
    gateway: &mut Gateway<MemStore>,
    request: &[u8],
) -> Result<(), Fail> {
    let whole = steps_left(gateway, 2, request);
    gateway.let_go_of(2);
    is_put(alloc, gateway)?;
    for _ in 0..whole / 2 {
        holds(waits(gateway, 2, request), "no step left in the middle")?;
    }
    is_put(alloc, gateway)?;
    holds(
        whole > 20 && steps_left(gateway, 2, request) >= whole,
        "not begun anew",
    )
}

/// A request is prepared in steps, while the same one on another connection waits, and needs none once that was answered.
/// Both are told so.
fn is_walked_ahead(
    gateway: &mut Gateway<MemStore>,
    request: &[u8],
    told: &[u8],
) -> Result<(), Fail> {
    let both_wait = waits(gateway, 1, request) && waits(gateway, 2, request);
    let steps = steps_left(gateway, 1, request);
    are_told(gateway, &[(1, request, told)])?;
    gateway.let_go_of(1);
    let is_next = waits(gateway, 2, request);
    are_told(gateway, &[(2, request, told)])?;
    holds(both_wait && steps > 20 && !is_next, "not prepared so")
}
