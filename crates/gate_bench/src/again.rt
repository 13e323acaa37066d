//! Calls that were refused memory, made again: each kind of call of a gateway that takes memory, and a download of the
//! file below it. A call that is refused memory is made once more and has to give what it would have given; only a piece
//! that is refused memory cuts its connection. Run with each allocation refused in turn (`bench/checks/refused_again.py`).

use crate::files::{gateway, stores};
use crate::refusal::Outcome;
use caps::{Cap, ReadFields, parse_bytes, print, storage_index};
use chk_file::{Cache, Download, begin, upload};
use gate_core::{Gateway, GatewayFault, RestoreFault};
use grid::{Grid, GridFault};
use octets::fakes::counted_bytes;
use share_store::MemStore;
use std::alloc::{AllocError, Global};

/// A file of 200,000 bytes, byte i being i modulo 251, is of two segments. Another program made its cap.
const SIZE: usize = 200_000;

const CAP: &[u8] =
    b"URI:CHK:cpgmyfu7y4nqyhvkcqfcsmnqvq:cvffjve3vt7bw5r2bn4fpzm22wnb5vsv7pduk635eeclhal7bo5q:3:10:200000";

const PUT: &[u8] = b"PUT /uri HTTP/1.1\r\nHost: g\r\nContent-Length: 200000\r\n\r\n";

const STORED: &[u8] =
    b"HTTP/1.1 200 OK\r\nContent-Type: text/plain; charset=utf-8\r\nContent-Length: 99\r\n\r\n";

const GIVEN: &[u8] =
    b"HTTP/1.1 200 OK\r\nContent-Type: application/octet-stream\r\nContent-Length: 200000\r\n\r\n";

/// How many bytes are taken at a time.
const PORTION: usize = 65_536;

/// The memory of the run itself, which is had before anything is called.
struct Room {
    /// The bytes of the file.
    file: Vec<u8>,
    /// What puts them, and what gets them.
    put: Vec<u8>,
    get: Vec<u8>,
    /// What is answered to each.
    stored: Vec<u8>,
    given: Vec<u8>,
    /// What a connection is answered.
    reply: Vec<u8>,
    /// An image, and a beginning of one.
    image: Vec<u8>,
    begun: Vec<u8>,
}

// Its own, so that what owns one calls it: a derived drop is spelled out wherever a value may be dropped.
impl Drop for Room {
    fn drop(self) {
        let Room {
            file: _,
            put: _,
            get: _,
            stored: _,
            given: _,
            reply: _,
            image: _,
            begun: _,
        } = self;
    }
}

/// Why a run ended early.
#[derive(Clone, Copy, PartialEq)]
enum Ended {
    /// The run's own memory was refused.
    Early,
    /// Something that must not be.
    Wrong(&'static str),
}

/// Makes each kind of call. `Served` where none was refused memory, `Refused` where one was and gave what it would have
/// given when it was made again, or where the run's own memory was refused, `Cut` where a piece was refused memory.
pub(crate) fn make_each(alloc: Global) -> Outcome {
    let Ok(mut room) = reserved(alloc) else {
        return Outcome::Refused;
    };
    let made = match through_the_gateway(alloc, &mut room) {
        Ok(outcome) => through_the_file(alloc, &room, outcome),
        Err(ended) => Err(ended),
    };
    match made {
        Ok(outcome) => outcome,
        Err(Ended::Early) => Outcome::Refused,
        Err(Ended::Wrong(words)) => Outcome::Wrong(words),
    }
}

fn reserved(alloc: Global) -> Result<Room, AllocError> {
    let file = counted_bytes(alloc, SIZE)?;
    Ok(Room {
        put: join(alloc, &[PUT, &file])?,
        get: join(alloc, &[b"GET /uri/", CAP, b" HTTP/1.1\r\nHost: g\r\n\r\n"])?,
        stored: join(alloc, &[STORED, CAP])?,
        given: join(alloc, &[GIVEN, &file])?,
        reply: Vec::with_capacity(alloc, 2 * SIZE)?,
        image: Vec::with_capacity(alloc, 8 * SIZE)?,
        begun: Vec::with_capacity(alloc, 8 * SIZE)?,
        file,
    })
}

fn join(alloc: Global, parts: &[&[u8]]) -> Result<Vec<u8>, AllocError> {
    let mut bytes = Vec::new(alloc);
    for part in parts {
        bytes.extend_from_slice(*part)?;
    }
    Ok(bytes)
}

/// What two parts of a run came to.
fn both(one: Outcome, other: Outcome) -> Outcome {
    if one == Outcome::Served { other } else { one }
}

/// Whether a call was refused memory.
fn said(was_refused: bool) -> Outcome {
    if was_refused {
        Outcome::Refused
    } else {
        Outcome::Served
    }
}

/// A put, a get, an image, losses, a restore, and a get from what was restored.
fn through_the_gateway(alloc: Global, room: &mut Room) -> Result<Outcome, Ended> {
    let (mut first, was_refused) = match gateway(alloc) {
        Ok(gateway) => (gateway, false),
        Err(_) => match gateway(alloc) {
            Ok(gateway) => (gateway, true),
            Err(_) => return Err(Ended::Wrong("no gateway is made again")),
        },
    };
    match stored(alloc, &mut first, room) {
        Ok(outcome) => through_the_image(alloc, room, both(said(was_refused), outcome)),
        Err(ended) => Err(ended),
    }
}

/// What is called on the first gateway.
fn stored(
    alloc: Global,
    gateway: &mut Gateway<MemStore>,
    room: &mut Room,
) -> Result<Outcome, Ended> {
    let put = asked(gateway, [1, 101], &room.put, &room.stored, &mut room.reply)?;
    let got = asked(gateway, [2, 102], &room.get, &room.given, &mut room.reply)?;
    let written = imaged(gateway, &mut room.image, &mut room.begun)?;
    let altered = altered(alloc, gateway)?;
    Ok(both(both(put, got), both(written, altered)))
}

/// A gateway of the image, and what is got from it. It is owned here alone, where no more is done: that is dear to prove.
fn through_the_image(alloc: Global, room: &mut Room, outcome: Outcome) -> Result<Outcome, Ended> {
    match restored(alloc, &room.image) {
        Ok((mut second, was_refused)) => {
            got_from(&mut second, room, both(outcome, said(was_refused)))
        }
        Err(ended) => Err(ended),
    }
}

/// What is got from such a gateway, beside what came of it so far.
fn got_from(
    gateway: &mut Gateway<MemStore>,
    room: &mut Room,
    outcome: Outcome,
) -> Result<Outcome, Ended> {
    let got = asked(gateway, [1, 101], &room.get, &room.given, &mut room.reply)?;
    Ok(both(outcome, got))
}

/// One request on a connection with a secret of its own, and what it is answered; on a spare connection where memory for
/// the piece was refused.
fn asked(
    gateway: &mut Gateway<MemStore>,
    [id, spare]: [u64; 2],
    request: &[u8],
    wanted: &[u8],
    reply: &mut Vec<u8>,
) -> Result<Outcome, Ended> {
    let mut outcome = said(opened(gateway, id)?);
    let mut at = id;
    match gateway.bytes(id, request) {
        Ok(()) => {}
        Err(GatewayFault::NoMemory) => {
            if !is_cut(gateway, id) {
                return Err(Ended::Wrong("the connection is not cut"));
            }
            at = spare;
            outcome = Outcome::Cut;
            let _refused = opened(gateway, at)?;
            if gateway.bytes(at, request).is_err() {
                return Err(Ended::Wrong("a piece is refused again"));
            }
        }
        Err(_) => return Err(Ended::Wrong("a piece is refused for another cause")),
    }
    outcome = both(outcome, said(taken(gateway, at, reply)?));
    if reply.as_slice() != wanted {
        return Err(Ended::Wrong("another answer is given"));
    }
    Ok(outcome)
}

/// Opens a connection with the empty secret, which is a copy all the same, and says whether memory was refused once.
fn opened(gateway: &mut Gateway<MemStore>, id: u64) -> Result<bool, Ended> {
    match gateway.open(id, Some(b"")) {
        Ok(()) => Ok(false),
        Err(GatewayFault::NoMemory) => match gateway.open(id, Some(b"")) {
            Ok(()) => Ok(true),
            Err(_) => Err(Ended::Wrong("a connection is not opened again")),
        },
        Err(_) => Err(Ended::Wrong("open is refused for another cause")),
    }
}

/// Whether a connection is cut in each way that a caller can tell.
fn is_cut(gateway: &mut Gateway<MemStore>, id: u64) -> bool {
    matches!(gateway.bytes(id, b"x"), Err(GatewayFault::Cut))
        && matches!(gateway.take(id, 1), Err(GatewayFault::Cut))
        && matches!(gateway.end(id), Err(GatewayFault::Cut))
        && !gateway.waiting(id)
        && gateway.closed(id)
}

/// Takes all that waits on a connection, and says whether memory was refused once.
fn taken(gateway: &mut Gateway<MemStore>, id: u64, reply: &mut Vec<u8>) -> Result<bool, Ended> {
    reply.clear();
    let mut was_refused = false;
    for _take in 0..SIZE {
        if !gateway.waiting(id) {
            break;
        }
        let portion = match gateway.take(id, PORTION) {
            Err(GatewayFault::NoMemory) if gateway.waiting(id) => {
                was_refused = true;
                gateway.take(id, PORTION)
            }
            other => other,
        };
        match portion {
            Ok(portion) => {
                if reply.extend_from_slice(&portion).is_err() {
                    return Err(Ended::Early);
                }
            }
            Err(_) => return Err(Ended::Wrong("a take is refused again")),
        }
    }
    Ok(was_refused)
}

/// Writes the image, and says whether memory was refused once: what was written then is a beginning of the image.
fn imaged(
    gateway: &mut Gateway<MemStore>,
    image: &mut Vec<u8>,
    begun: &mut Vec<u8>,
) -> Result<Outcome, Ended> {
    begun.clear();
    image.clear();
    match gateway.image(begun) {
        Ok(()) => match image.extend_from_slice(begun) {
            Ok(()) => Ok(Outcome::Served),
            Err(_) => Err(Ended::Early),
        },
        Err(GridFault::NoMemory) => match gateway.image(image) {
            Ok(()) if image.starts_with(begun) => Ok(Outcome::Refused),
            Ok(()) => Err(Ended::Wrong("another image is written")),
            Err(_) => Err(Ended::Wrong("an image is refused again")),
        },
        Err(_) => Err(Ended::Wrong("an image is refused for another cause")),
    }
}

/// Loses a share and spoils another, on each server where they may stand.
fn altered(alloc: Global, gateway: &mut Gateway<MemStore>) -> Result<Outcome, Ended> {
    let Ok(cap) = parse_bytes(alloc, CAP) else {
        return Err(Ended::Early);
    };
    let Cap::Chk(fields) = cap else {
        return Err(Ended::Wrong("the cap is of another kind"));
    };
    let index = storage_index(&fields.key);
    let (mut is_lost, mut is_spoiled, mut was_refused) = (false, false, false);
    for server in 0..5 {
        let mut answer = gateway.lose(server, index, 4);
        if answer == Err(GridFault::NoMemory) {
            was_refused = true;
            answer = gateway.lose(server, index, 4);
        }
        is_lost = is_lost || answer == Ok(true);
        answer = gateway.spoil(server, index, 5, 0);
        if answer == Err(GridFault::NoMemory) {
            was_refused = true;
            answer = gateway.spoil(server, index, 5, 0);
        }
        is_spoiled = is_spoiled || answer == Ok(true);
    }
    match is_lost && is_spoiled {
        true => Ok(said(was_refused)),
        false => Err(Ended::Wrong("no share is lost or spoiled")),
    }
}

/// A gateway of the image, and whether memory was refused once.
fn restored(alloc: Global, image: &[u8]) -> Result<(Gateway<MemStore>, bool), Ended> {
    match restore(alloc, image) {
        Ok(gateway) => Ok((gateway, false)),
        Err(RestoreFault::Grid(GridFault::NoMemory)) => match restore(alloc, image) {
            Ok(gateway) => Ok((gateway, true)),
            Err(_) => Err(Ended::Wrong("an image is not restored again")),
        },
        Err(_) => Err(Ended::Wrong("a restore is refused for another cause")),
    }
}

fn restore(alloc: Global, image: &[u8]) -> Result<Gateway<MemStore>, RestoreFault> {
    let Ok(stores) = stores(alloc) else {
        return Err(RestoreFault::Grid(GridFault::NoMemory));
    };
    let mut reader = image;
    Gateway::restore(alloc, 3, 10, stores, b"", &mut reader)
}

/// An upload below the gateway, and a download of it a segment at a time.
fn through_the_file(alloc: Global, room: &Room, outcome: Outcome) -> Result<Outcome, Ended> {
    let Ok(stores) = stores(alloc) else {
        return Err(Ended::Early);
    };
    if stores.is_empty() || stores.len() > 256 {
        return Err(Ended::Wrong("there are other stores"));
    }
    let mut grid = Grid::new(stores);
    match Cache::new(alloc) {
        Ok(mut cache) => through_the_grid(alloc, &mut grid, &mut cache, room, outcome),
        Err(_) => Err(Ended::Early),
    }
}

/// The same over a grid.
fn through_the_grid(
    alloc: Global,
    grid: &mut Grid<MemStore>,
    cache: &mut Cache,
    room: &Room,
    outcome: Outcome,
) -> Result<Outcome, Ended> {
    let was_refused = uploaded(alloc, grid, cache, &room.file)?;
    let was_refused_too = given(alloc, grid, cache, &room.file)?;
    Ok(both(outcome, said(was_refused || was_refused_too)))
}

/// The file of the cap, from first to last.
fn given(
    alloc: Global,
    grid: &mut Grid<MemStore>,
    cache: &mut Cache,
    file: &[u8],
) -> Result<bool, Ended> {
    let Ok(cap) = parse_bytes(alloc, CAP) else {
        return Err(Ended::Early);
    };
    let Cap::Chk(fields) = cap else {
        return Err(Ended::Wrong("the cap is of another kind"));
    };
    let (mut download, was_refused) = match begun(alloc, grid, cache, &fields) {
        Ok(begun) => begun,
        Err(ended) => return Err(ended),
    };
    match downloaded(&mut download, file) {
        Ok(was_refused_too) => Ok(was_refused || was_refused_too),
        Err(ended) => Err(ended),
    }
}

/// Uploads the file, and says whether memory was refused once.
fn uploaded(
    alloc: Global,
    grid: &mut Grid<MemStore>,
    cache: &mut Cache,
    file: &[u8],
) -> Result<bool, Ended> {
    let (Ok(first), Ok(second)) = (file.to_vec(alloc), file.to_vec(alloc)) else {
        return Err(Ended::Early);
    };
    let (cap, was_refused) = match upload(alloc, grid, cache, 3, 10, b"", first) {
        Ok(cap) => (cap, false),
        Err(GridFault::NoMemory) => match upload(alloc, grid, cache, 3, 10, b"", second) {
            Ok(cap) => (cap, true),
            Err(_) => return Err(Ended::Wrong("an upload is refused again")),
        },
        Err(_) => return Err(Ended::Wrong("an upload is refused for another cause")),
    };
    let Ok(text) = print(alloc, &cap) else {
        return Err(Ended::Early);
    };
    match text.as_bytes() == CAP {
        true => Ok(was_refused),
        false => Err(Ended::Wrong("another cap is answered")),
    }
}

fn begun(
    alloc: Global,
    grid: &mut Grid<MemStore>,
    cache: &mut Cache,
    fields: &ReadFields,
) -> Result<(Download, bool), Ended> {
    match begin(alloc, grid, cache, fields) {
        Ok(download) => Ok((download, false)),
        Err(chk_file::ReadFault::NoMemory) => match begin(alloc, grid, cache, fields) {
            Ok(download) => Ok((download, true)),
            Err(_) => Err(Ended::Wrong("a download does not begin again")),
        },
        Err(_) => Err(Ended::Wrong("a download is refused for another cause")),
    }
}

/// Takes each segment, and says whether memory was refused once.
fn downloaded(download: &mut Download, file: &[u8]) -> Result<bool, Ended> {
    let (mut rest, mut was_refused) = (file, false);
    for _segment in 0..file.len() {
        let segment = match download.next() {
            Err(_) => {
                was_refused = true;
                download.next()
            }
            other => other,
        };
        match segment {
            Ok(Some(bytes)) => match rest.strip_prefix(bytes.as_slice()) {
                Some(more) => rest = more,
                None => return Err(Ended::Wrong("another segment is given")),
            },
            Ok(None) => break,
            Err(_) => return Err(Ended::Wrong("a segment is refused again")),
        }
    }
    match rest.is_empty() {
        true => Ok(was_refused),
        false => Err(Ended::Wrong("a segment is left out")),
    }
}
