//! Directories whose one child has long metadata.

use super::rows::{are_told, holds, steps_left, with_room};
use gate_core::Gateway;
use share_store::MemStore;
use std::alloc::{AllocError, Global};
use std::test::Fail;

/// How many members the metadata have. They are named by their numbers in six hexadecimal digits, from 0 on, and each is an
/// empty object.
const MEMBERS: u32 = 80_000;

/// How many bytes of shares the store may hold.
const ROOM: u64 = 10_000_000;

/// In which order the members come.
#[derive(Clone, Copy)]
enum Order {
    /// Each name is above the one before it.
    Rising,
    /// Each name is below the one before it.
    Falling,
}

/// A directory's text with such metadata, in this order, which end so; what is told where it is put, a request of it, and what
/// that is told.
#[derive(Clone, Copy)]
struct Long {
    order: Order,
    ending: &'static str,
    put: &'static [u8],
    stored: &'static [u8],
    get: &'static [u8],
    told: &'static [u8],
}

/// A directory, in which a name is missing. The caps here are those of `models/uploads.py`.
const WHOLE: Long = Long {
    order: Order::Rising,
    ending: "}",
    put: b"PUT /uri HTTP/1.1\r\nHost: g\r\nContent-Length: 960041\r\n\r\n",
    stored: b"HTTP/1.1 200 OK\r\nContent-Type: text/plain; charset=utf-8\r\nContent-Length: 99\r\n\r\nURI:CHK:ehoxr24lezcmu57copo5tvo5eu:bu3toq3zmhlbo6q6pzneu65fhvkhelbj4iftxpyvs5rtraldhf3q:3:10:960041",
    get: b"GET /uri/URI:DIR2-CHK:ehoxr24lezcmu57copo5tvo5eu:bu3toq3zmhlbo6q6pzneu65fhvkhelbj4iftxpyvs5rtraldhf3q:3:10:960041/d HTTP/1.1\r\nHost: g\r\n\r\n",
    told: b"HTTP/1.1 404 Not Found\r\nContent-Type: text/plain; charset=utf-8\r\nContent-Length: 14\r\n\r\nno such child\n",
};

/// What is no directory, since the last number in the metadata isn't a whole one.
const FRACTION: Long = Long {
    order: Order::Rising,
    ending: ",\"~\":1.5}",
    put: b"PUT /uri HTTP/1.1\r\nHost: g\r\nContent-Length: 960049\r\n\r\n",
    stored: b"HTTP/1.1 200 OK\r\nContent-Type: text/plain; charset=utf-8\r\nContent-Length: 99\r\n\r\nURI:CHK:azdfk7cqbgpi36nhhcqqxijtge:6uoa4d2fhmp5vhcyhzx3fo6fosmupqpit5ovmjc4okgftzvzisba:3:10:960049",
    get: b"GET /uri/URI:DIR2-CHK:azdfk7cqbgpi36nhhcqqxijtge:6uoa4d2fhmp5vhcyhzx3fo6fosmupqpit5ovmjc4okgftzvzisba:3:10:960049/c HTTP/1.1\r\nHost: g\r\n\r\n",
    told: b"HTTP/1.1 400 Bad Request\r\nContent-Type: text/plain; charset=utf-8\r\nContent-Length: 16\r\n\r\nnot a directory\n",
};

/// A directory with the first one's metadata in the other order, which is listed; what is told up to its metadata and behind
/// them. `models/uploads.py` has its caps, and Python's `json` prints these bytes.
const FALLING: Long = Long {
    order: Order::Falling,
    ending: "}",
    put: b"PUT /uri HTTP/1.1\r\nHost: g\r\nContent-Length: 960041\r\n\r\n",
    stored: b"HTTP/1.1 200 OK\r\nContent-Type: text/plain; charset=utf-8\r\nContent-Length: 99\r\n\r\nURI:CHK:6ljj2hw4h3up2zuct2bjiypxrq:jbdguyvhfm7peppuzhtemvlpcud4mrfdzdyahrfhqctfj5lawfva:3:10:960041",
    get: b"GET /uri/URI:DIR2-CHK:6ljj2hw4h3up2zuct2bjiypxrq:jbdguyvhfm7peppuzhtemvlpcud4mrfdzdyahrfhqctfj5lawfva:3:10:960041?t=json HTTP/1.1\r\nHost: g\r\n\r\n",
    told: b"HTTP/1.1 200 OK\r\nContent-Type: application/json\r\nContent-Length: 960369\r\n\r\n[\"dirnode\",{\"children\":{\"c\":[\"filenode\",{\"metadata\":",
};

const BEHIND_METADATA: &[u8] =
    b",\"mutable\":false,\"ro_uri\":\"URI:LIT:mzxw6\",\"size\":3}]},\"mutable\":false,\"ro_uri\":\"URI:DIR2-CHK:6ljj2hw4h3up2zuct2bjiypxrq:jbdguyvhfm7peppuzhtemvlpcud4mrfdzdyahrfhqctfj5lawfva:3:10:960041\",\"verify_uri\":\"URI:DIR2-CHK-Verifier:n36bi7u3v354yv6ox2ewvt7nqu:jbdguyvhfm7peppuzhtemvlpcud4mrfdzdyahrfhqctfj5lawfva:3:10:960041\"}]";

/// What is told where the first directory is made of children JSON, and where the second one would be.
const MADE: &[u8] =
    b"HTTP/1.1 200 OK\r\nContent-Type: text/plain; charset=utf-8\r\nContent-Length: 104\r\n\r\nURI:DIR2-CHK:ehoxr24lezcmu57copo5tvo5eu:bu3toq3zmhlbo6q6pzneu65fhvkhelbj4iftxpyvs5rtraldhf3q:3:10:960041";

const REFUSED: &[u8] =
    b"HTTP/1.1 400 Bad Request\r\nContent-Type: text/plain; charset=utf-8\r\nContent-Length: 13\r\n\r\nbad children\n";

/// What is tried with these texts.
#[derive(Clone, Copy)]
enum Trial {
    /// They are walked through.
    Walked,
    /// They are made of children JSON.
    Made,
    /// What falls is listed.
    Listed,
}

#[test]
fn long_metadata_are_judged_in_steps(rt: HostRuntime) -> Result<(), Fail> {
    is_tried(rt.alloc(), Trial::Walked)
}

#[test]
fn a_directory_is_made_with_long_metadata(rt: HostRuntime) -> Result<(), Fail> {
    is_tried(rt.alloc(), Trial::Made)
}

#[test]
fn long_metadata_are_listed_in_order(rt: HostRuntime) -> Result<(), Fail> {
    is_tried(rt.alloc(), Trial::Listed)
}

/// The trial holds over a new gateway.
fn is_tried(alloc: Global, trial: Trial) -> Result<(), Fail> {
    match with_room(alloc, ROOM) {
        Ok(mut gateway) => is_tried_over(alloc, &mut gateway, trial),
        Err(fault) => Err(fault),
    }
}

fn is_tried_over(alloc: Global, gateway: &mut Gateway<MemStore>, trial: Trial) -> Result<(), Fail> {
    gateway.open(1, None)?;
    match trial {
        Trial::Walked => {
            is_judged(alloc, gateway, WHOLE)?;
            is_judged(alloc, gateway, FRACTION)
        }
        Trial::Made => {
            is_made(alloc, gateway, WHOLE, MADE)?;
            is_made(alloc, gateway, FALLING, MADE)?;
            is_made(alloc, gateway, FRACTION, REFUSED)
        }
        Trial::Listed => is_listed(alloc, gateway),
    }
}

/// The text is put.
fn is_stored(alloc: Global, gateway: &mut Gateway<MemStore>, long: Long) -> Result<(), Fail> {
    let text = text_of(alloc, long)?;
    gateway.bytes(1, long.put)?;
    for piece in text.chunks(65_536) {
        gateway.bytes(1, piece)?;
    }
    are_told(gateway, &[(1, b"", long.stored)])
}

/// The text is put, and walked through in steps.
fn is_judged(alloc: Global, gateway: &mut Gateway<MemStore>, long: Long) -> Result<(), Fail> {
    is_stored(alloc, gateway, long)?;
    // Eight segments are gathered, and each 65,536 bytes of the metadata are a step.
    let steps = steps_left(gateway, 1, long.get);
    holds(steps > 20, "not judged in steps")?;
    are_told(gateway, &[(1, long.get, long.told)])
}

/// The text whose metadata fall is put, and listed in steps.
fn is_listed(alloc: Global, gateway: &mut Gateway<MemStore>) -> Result<(), Fail> {
    is_stored(alloc, gateway, FALLING)?;
    // Eight segments are gathered; the metadata are judged, read into a tree and written.
    let steps = steps_left(gateway, 1, FALLING.get);
    holds(steps > 100, "not spelled in steps")?;
    let mut told = Vec::from_slice(alloc, FALLING.told)?;
    told.extend_from_slice(&metadata_of(alloc, WHOLE)?)?;
    told.extend_from_slice(BEHIND_METADATA)?;
    are_told(gateway, &[(1, FALLING.get, &told)])
}

/// Children JSON with these metadata is prepared in steps, and told this.
fn is_made(
    alloc: Global,
    gateway: &mut Gateway<MemStore>,
    long: Long,
    told: &[u8],
) -> Result<(), Fail> {
    let json = json_of(alloc, long)?;
    let head = format!(in alloc;
        "POST /uri?t=mkdir-immutable HTTP/1.1\r\nHost: g\r\nContent-Length: {}\r\n\r\n",
        json.len()
    )?;
    gateway.bytes(1, head.as_bytes())?;
    let (first, last) = json.split_at(json.len().saturating_sub(65_536));
    for piece in first.chunks(65_536) {
        gateway.bytes(1, piece)?;
    }
    // Each 65,536 bytes are copied, and read.
    holds(steps_left(gateway, 1, last) > 28, "not prepared in steps")?;
    are_told(gateway, &[(1, last, told)])
}

/// The metadata.
fn metadata_of(alloc: Global, long: Long) -> Result<Vec<u8>, AllocError> {
    let mut text = Vec::from_slice(alloc, b"{")?;
    for place in 0..MEMBERS {
        let comma = if place == 0 { "" } else { "," };
        let number = match long.order {
            Order::Rising => place,
            Order::Falling => MEMBERS.saturating_sub(place).saturating_sub(1),
        };
        let member = format!(in alloc; "{comma}\"{number:06x}\":{{}}")?;
        text.extend_from_slice(member.as_bytes())?;
    }
    text.extend_from_slice(long.ending.as_bytes())?;
    Ok(text)
}

/// The directory's text.
fn text_of(alloc: Global, long: Long) -> Result<Vec<u8>, AllocError> {
    let metadata = metadata_of(alloc, long)?;
    let count = metadata.len();
    let before = format!(in alloc; "1:c,13:URI:LIT:mzxw6,0:,{count}:")?;
    let size = before.len().saturating_add(count).saturating_add(1);
    let mut text = Vec::from_slice(alloc, format!(in alloc; "{size}:")?.as_bytes())?;
    text.extend_from_slice(before.as_bytes())?;
    text.extend_from_slice(&metadata)?;
    text.extend_from_slice(b",,")?;
    Ok(text)
}

/// The JSON that names the same child.
fn json_of(alloc: Global, long: Long) -> Result<Vec<u8>, AllocError> {
    let mut json = Vec::from_slice(
        alloc,
        b"{\"c\":[\"filenode\",{\"ro_uri\":\"URI:LIT:mzxw6\",\"metadata\":",
    )?;
    json.extend_from_slice(&metadata_of(alloc, long)?)?;
    json.extend_from_slice(b"}]}")?;
    Ok(json)
}
