//! A directory that is made of long children JSON.

use super::rows::{are_told, holds, steps_left, with_room};
use gate_core::Gateway;
use share_store::MemStore;
use std::alloc::{AllocError, Global};
use std::test::Fail;

/// How many children the directory has. They are named by their numbers in six digits, from 1 on, and each is the file of
/// three bytes `foo` in its cap, but for the seventh, which is `bar`.
const CHILDREN: u32 = 60_000;

/// What is told where it is made. The fields of the cap are those that `models/uploads.py` has of the directory's text.
const MADE: &[u8] =
    b"HTTP/1.1 200 OK\r\nContent-Type: text/plain; charset=utf-8\r\nContent-Length: 105\r\n\r\nURI:DIR2-CHK:2rppwskhdj5yipr535xfka2oqm:oc6pmbuavga2k2qy63beodsfn5lqyxgqgsmukengatd7opa3fjla:3:10:2280000";

/// What is told where the JSON names no directory.
const REFUSED: &[u8] =
    b"HTTP/1.1 400 Bad Request\r\nContent-Type: text/plain; charset=utf-8\r\nContent-Length: 13\r\n\r\nbad children\n";

/// How many bytes of shares the store may hold.
const ROOM: u64 = 10_000_000;

/// What stands behind the last child in the JSON, what is told then, and how many steps the request is prepared in at least.
#[derive(Clone, Copy)]
struct Ending {
    json: &'static str,
    told: &'static [u8],
    steps: usize,
}

/// The seventh child once more, so that this one counts. The JSON is copied in 45 steps and read in as many, its children are
/// named in 59 and written in as many, and the upload of the text takes the rest.
const WHOLE: Ending = Ending {
    json: ",\n\"000007\" : [\"filenode\",{\"ro_uri\":\"URI:LIT:mjqxe\"}]}",
    told: MADE,
    steps: 240,
};

/// A child of a name that another has, which is refused though its key comes first, once all others are named.
const NAMED_TWICE: Ending = Ending {
    json: ",\"\\u00e9\":[\"filenode\",{\"ro_uri\":\"URI:LIT:mjqxe\"}],\"e\\u0301\":[\"filenode\",{\"ro_uri\":\"URI:LIT:mjqxe\"}]}",
    told: REFUSED,
    steps: 140,
};

/// A comma behind the last child, which is found once all is read.
const TORN: Ending = Ending {
    json: ",}",
    told: REFUSED,
    steps: 85,
};

#[test]
fn a_directory_that_is_prepared_is_made(rt: HostRuntime) -> Result<(), Fail> {
    is_tried(rt.alloc(), WHOLE, true)
}

#[test]
fn a_directory_that_is_not_prepared_is_made(rt: HostRuntime) -> Result<(), Fail> {
    is_tried(rt.alloc(), WHOLE, false)
}

#[test]
fn children_that_are_prepared_are_refused(rt: HostRuntime) -> Result<(), Fail> {
    is_tried(rt.alloc(), NAMED_TWICE, true)?;
    is_tried(rt.alloc(), TORN, true)
}

/// The directory is made, or refused, where the request is prepared before or isn't.
fn is_tried(alloc: Global, ending: Ending, is_prepared: bool) -> Result<(), Fail> {
    match with_room(alloc, ROOM) {
        Ok(mut gateway) => is_tried_over(alloc, &mut gateway, ending, is_prepared),
        Err(fault) => Err(fault),
    }
}

fn is_tried_over(
    alloc: Global,
    gateway: &mut Gateway<MemStore>,
    ending: Ending,
    is_prepared: bool,
) -> Result<(), Fail> {
    let request = request_of(alloc, ending)?;
    let (first, last) = request.split_at(request.len().saturating_sub(65_536));
    gateway.open(1, None)?;
    for piece in first.chunks(65_536) {
        gateway.bytes(1, piece)?;
    }
    if is_prepared {
        let steps = steps_left(gateway, 1, last);
        holds(steps >= ending.steps, "not prepared in steps")?;
    }
    are_told(gateway, &[(1, last, ending.told)])
}

/// The request that makes the directory, its children in falling order.
fn request_of(alloc: Global, ending: Ending) -> Result<Vec<u8>, AllocError> {
    let mut json = Vec::new(alloc);
    json.extend_from_slice(b" {")?;
    for number in 0..CHILDREN {
        let comma = if number == 0 { "" } else { "," };
        let name = CHILDREN - number;
        let child = format!(in alloc;
            "{comma}\"{name:06}\":[\"filenode\",{{\"ro_uri\":\"URI:LIT:mzxw6\"}}]"
        )?;
        json.extend_from_slice(child.as_bytes())?;
    }
    json.extend_from_slice(ending.json.as_bytes())?;
    let head = format!(in alloc;
        "POST /uri?t=mkdir-immutable HTTP/1.1\r\nHost: g\r\nContent-Length: {}\r\n\r\n",
        json.len()
    )?;
    let mut request = Vec::from_slice(alloc, head.as_bytes())?;
    request.extend_from_slice(&json)?;
    Ok(request)
}
