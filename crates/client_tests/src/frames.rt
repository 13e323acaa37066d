//! Lies in how replies are framed: heads, lengths, ends, and what is no reply.

use crate::bodies::BITS;
use crate::calls::{CALLS, Call, Outcome, is_refused, lying, over_again, over_one, over_three};
use crate::facts::ROWS;
use crate::gateway::{Lie, honest_reply};
use std::alloc::{AllocError, Global};
use std::process::Abort;
use std::test::Fail;

/// How many bytes the honest reply of a row has before its body, and in all.
fn sizes(alloc: Global, at: usize) -> Result<(usize, usize), AllocError> {
    let body = ROWS.get(at).map_or(b"".as_slice(), |row| row.body);
    let reply = honest_reply(alloc, 200, body, body.len())?;
    Ok((reply.len().saturating_sub(body.len()), reply.len()))
}

/// Whether a lie was noticed. Where it wasn't, all is right.
fn is_noticed(alloc: Global, call: Call, at: usize, lie: Lie<'_>) -> Result<bool, Fail> {
    match over_one(alloc, lying(at, lie), call)? {
        Outcome::Right => Ok(false),
        Outcome::Refused(_) => Ok(true),
        Outcome::Wrong => Err(Fail::from("a lie went through")),
    }
}

/// Whether a place of a head of so many bytes is one that a client has to read: of the version up to its point, of the status,
/// or of the length, of which the last two digits are looked at.
fn is_read(place: usize, head: usize) -> bool {
    let end = head.saturating_sub(4);
    place < 7 || (9..12).contains(&place) || (end.saturating_sub(2)..end).contains(&place)
}

/// Each bit of a row's head is another. Tells how many of these lies were noticed.
fn heads_are_read(rt: &(impl Abort + AllocGlobal), call: Call, at: usize) -> Result<usize, Fail> {
    let (head, _) = sizes(rt.alloc(), at)?;
    let mut count = 0usize;
    for place in 0..head {
        for bits in BITS {
            let is_so = is_noticed(rt.alloc(), call, at, Lie::Head(place, bits))?;
            assert!(rt;
                is_so || !is_read(place, head),
                "{call:?} at {at}, {place}, {bits}"
            );
            count = count.saturating_add(usize::from(is_so));
        }
    }
    Ok(count)
}

#[test]
fn a_bit_of_a_head_is_noticed_or_harmless(rt: HostRuntime) -> Result<(), Fail> {
    for (call, rows) in CALLS {
        for at in rows.iter() {
            let count = heads_are_read(&rt, *call, *at)?;
            assert!(rt; count >= 96, "{call:?} at {at}: {count}");
        }
    }
    Ok(())
}

#[test]
fn a_reply_that_is_cut_is_noticed(rt: HostRuntime) -> Result<(), Fail> {
    for (call, rows) in CALLS {
        for at in rows.iter() {
            let (_, size) = sizes(rt.alloc(), *at)?;
            for count in 0..size {
                let lie = Lie::Cut(count);
                let one = over_one(rt.alloc(), lying(*at, lie), *call)?;
                let three = over_three(rt.alloc(), lying(*at, lie), *call)?;
                let is_so = is_refused(&one, "Link(Broken") && is_refused(&three, "Link(Broken");
                assert!(rt; is_so, "{call:?} at {at}, {count}: {one:?}, {three:?}");
            }
        }
    }
    Ok(())
}

#[test]
fn half_a_reply_is_not_asked_for_again(rt: HostRuntime) -> Result<(), Fail> {
    // the directory at the top is asked for on a new connection, and the one below on the same
    for (at, is_kept) in [(3, false), (2, true)] {
        let (_, size) = sizes(rt.alloc(), at)?;
        for count in 0..size {
            let found = over_again(rt.alloc(), lying(at, Lie::Cut(count)), Call::Walk)?;
            let is_so = if is_kept && count == 0 {
                matches!(found, Outcome::Right)
            } else {
                is_refused(&found, "Link(Broken")
            };
            assert!(rt; is_so, "{at}, {count}: {found:?}");
        }
    }
    Ok(())
}

#[test]
fn a_length_that_is_another_is_noticed(rt: HostRuntime) -> Result<(), Fail> {
    for (call, rows) in CALLS {
        for at in rows.iter() {
            let size = ROWS.get(*at).map_or(0, |row| row.body.len());
            for length in 0..400usize {
                let is_so = is_noticed(rt.alloc(), *call, *at, Lie::Length(length))?;
                assert!(rt; is_so != (length == size), "{call:?} at {at}, {length}");
            }
        }
    }
    Ok(())
}

/// What comes behind a reply that nobody asked for: rubbish, and a reply.
const BEHIND: &[&[u8]] = &[
    b"x",
    b"\0\0\0\0\r\n\r\n",
    b"HTTP/1.1 200 OK\r\nContent-Length: 1\r\n\r\nx",
];

#[test]
fn what_comes_behind_a_reply_is_noticed_or_harmless(rt: HostRuntime) -> Result<(), Fail> {
    for (call, rows) in CALLS {
        for at in rows.iter() {
            for behind in BEHIND {
                // the first of several replies is read, and what comes behind it in place of the next
                let is_first = rows.len() > 1 && rows.first() == Some(at);
                let is_so = is_noticed(rt.alloc(), *call, *at, Lie::Behind(*behind))?;
                assert!(rt; is_so || !is_first, "{call:?} at {at}, {behind:?}");
                assert!(rt; !is_so || rows.len() > 1, "{call:?} at {at}, {behind:?}");
            }
        }
    }
    Ok(())
}

/// What comes in place of the reply with the file of 56 bytes, and how it is refused; none where it is the file.
const INSTEAD: &[(&[u8], Option<&str>)] = &[
    // pages of others, redirects, refusals, and what has no body (RFC 9110, section 15; RFC 9112, section 6.3)
    (
        b"HTTP/1.1 200 OK\r\nContent-Type: text/html\r\nContent-Length: 26\r\n\r\n<html>Please log in</html>",
        Some("NotBound"),
    ),
    (
        b"HTTP/1.1 302 Found\r\nLocation: http://g/uri\r\nContent-Length: 0\r\n\r\n",
        Some("Refused(302"),
    ),
    (
        b"HTTP/1.1 404 Not Found\r\nContent-Length: 14\r\n\r\nno such child\n",
        Some("Refused(404"),
    ),
    (
        b"HTTP/1.1 410 Gone\r\nContent-Length: 0\r\n\r\n",
        Some("Refused(410"),
    ),
    (
        b"HTTP/1.1 500 Internal Server Error\r\n\r\nSQL error",
        Some("Refused(500"),
    ),
    (
        b"HTTP/1.1 206 Partial Content\r\nContent-Range: bytes 0-55/56\r\nContent-Length: 56\r\n\r\n\
            aaaaaaaaaaaaaaaaaaaaaaaaaaaaaaaaaaaaaaaaaaaaaaaaaaaaaaaa",
        Some("Refused(206"),
    ),
    (b"HTTP/1.1 204 No Content\r\n\r\n", Some("Refused(204")),
    (b"HTTP/1.1 304 Not Modified\r\n\r\n", Some("Refused(304")),
    (
        b"HTTP/1.1 200 OK\r\nContent-Length: 0\r\n\r\n",
        Some("NotBound"),
    ),
    // no reply of HTTP/1.1
    (b"", Some("Link(Broken")),
    (b"\r\n\r\n", Some("Link(Broken")),
    (b"HTTP/1.1 200 OK\r\n", Some("Link(Broken")),
    (b"<html>Please log in</html>", Some("Link(NotHttp")),
    (b"\0\0\0\x04\0\0\0\0\0", Some("Link(NotHttp")),
    (b"HTTP/2.0 200 OK\r\n\r\n", Some("Link(NotHttp")),
    (b"HTTP/1.1 2000 OK\r\n\r\n", Some("Link(NotHttp")),
    (b"ICY 200 OK\r\n\r\n", Some("Link(NotHttp")),
    // lengths that are none, or two
    (
        b"HTTP/1.1 200 OK\r\nContent-Length: -1\r\n\r\naaaaaaaaaaaaaaaaaaaaaaaaaaaaaaaaaaaaaaaaaaaaaaaaaaaaaaaa",
        Some("Link(NotHttp"),
    ),
    (
        b"HTTP/1.1 200 OK\r\nContent-Length: 0x38\r\n\r\naaaaaaaaaaaaaaaaaaaaaaaaaaaaaaaaaaaaaaaaaaaaaaaaaaaaaaaa",
        Some("Link(NotHttp"),
    ),
    (
        b"HTTP/1.1 200 OK\r\nContent-Length: 18446744073709551672\r\n\r\n\
            aaaaaaaaaaaaaaaaaaaaaaaaaaaaaaaaaaaaaaaaaaaaaaaaaaaaaaaa",
        Some("Link(NotHttp"),
    ),
    (
        b"HTTP/1.1 200 OK\r\nContent-Length: 56\r\nContent-Length: 55\r\n\r\n\
            aaaaaaaaaaaaaaaaaaaaaaaaaaaaaaaaaaaaaaaaaaaaaaaaaaaaaaaa",
        Some("Link(NotHttp"),
    ),
    (
        b"HTTP/1.1 200 OK\r\nContent-Length: 57\r\n\r\naaaaaaaaaaaaaaaaaaaaaaaaaaaaaaaaaaaaaaaaaaaaaaaaaaaaaaaaa",
        Some("Link(TooLong"),
    ),
    // chunks
    (
        b"HTTP/1.1 200 OK\r\nTransfer-Encoding: chunked\r\n\r\n\
            37\r\naaaaaaaaaaaaaaaaaaaaaaaaaaaaaaaaaaaaaaaaaaaaaaaaaaaaaaa\r\n1\r\na\r\n0\r\n\r\n",
        None,
    ),
    (
        b"HTTP/1.1 200 OK\r\nTransfer-Encoding: chunked\r\n\r\n\
            37\r\naaaaaaaaaaaaaaaaaaaaaaaaaaaaaaaaaaaaaaaaaaaaaaaaaaaaaaa\r\n1\r\na\r\n",
        Some("Link(Broken"),
    ),
    (
        b"HTTP/1.1 200 OK\r\nTransfer-Encoding: chunked\r\n\r\n\
            38\r\naaaaaaaaaaaaaaaaaaaaaaaaaaaaaaaaaaaaaaaaaaaaaaaaaaaaaaaa1\r\na\r\n0\r\n\r\n",
        Some("Link(NotHttp"),
    ),
    (
        b"HTTP/1.1 200 OK\r\nTransfer-Encoding: chunked\r\n\r\n\
            x\r\naaaaaaaaaaaaaaaaaaaaaaaaaaaaaaaaaaaaaaaaaaaaaaaaaaaaaaaa\r\n0\r\n\r\n",
        Some("Link(NotHttp"),
    ),
    (
        b"HTTP/1.1 200 OK\r\nTransfer-Encoding: chunked\r\n\r\n\
            10000000000000038\r\naaaaaaaaaaaaaaaaaaaaaaaaaaaaaaaaaaaaaaaaaaaaaaaaaaaaaaaa\r\n0\r\n\r\n",
        Some("Link(NotHttp"),
    ),
    (
        b"HTTP/1.1 200 OK\r\nTransfer-Encoding: chunked\r\n\r\n\
            39\r\naaaaaaaaaaaaaaaaaaaaaaaaaaaaaaaaaaaaaaaaaaaaaaaaaaaaaaaaa\r\n0\r\n\r\n",
        Some("Link(TooLong"),
    ),
    // up to the end of the connection
    (
        b"HTTP/1.1 200 OK\r\n\r\naaaaaaaaaaaaaaaaaaaaaaaaaaaaaaaaaaaaaaaaaaaaaaaaaaaaaaaa",
        None,
    ),
    (
        b"HTTP/1.0 200 OK\r\n\r\naaaaaaaaaaaaaaaaaaaaaaaaaaaaaaaaaaaaaaaaaaaaaaaaaaaaaaa",
        Some("NotBound"),
    ),
    (
        b"HTTP/1.1 200 OK\r\n\r\naaaaaaaaaaaaaaaaaaaaaaaaaaaaaaaaaaaaaaaaaaaaaaaaaaaaaaaaa",
        Some("Link(TooLong"),
    ),
    // interim replies
    (
        b"HTTP/1.1 100 Continue\r\n\r\nHTTP/1.1 103 Early Hints\r\nLink: </>\r\n\r\n\
            HTTP/1.1 200 OK\r\nContent-Length: 56\r\n\r\naaaaaaaaaaaaaaaaaaaaaaaaaaaaaaaaaaaaaaaaaaaaaaaaaaaaaaaa",
        None,
    ),
    (b"HTTP/1.1 100 Continue\r\n\r\n", Some("Link(Broken")),
];

#[test]
fn what_is_no_right_reply_is_noticed(rt: HostRuntime) -> Result<(), Fail> {
    for (place, (bytes, fault)) in INSTEAD.iter().enumerate() {
        let mut gateway = lying(0, Lie::Instead(*bytes));
        let at_once = over_one(rt.alloc(), gateway, Call::Stored)?;
        gateway.at_a_time = 1;
        let dripped = over_three(rt.alloc(), gateway, Call::Stored)?;
        for found in [at_once, dripped] {
            let is_so = match fault {
                Some(fault) => is_refused(&found, *fault),
                None => matches!(found, Outcome::Right),
            };
            assert!(rt; is_so, "{place}: {found:?}");
        }
    }
    Ok(())
}

/// What a reply begins with that has no end, and what is sent again and again then.
const ENDLESS: &[(&[u8], &[u8])] = &[
    (b"HTTP/1.1 200 OK\r\n", b"X: y\r\n"),
    (b"HTTP/1.1 200 OK\r\nX: ", b"yyyyyyyy"),
    (b"", b"HTTP/1.1 100 Continue\r\n\r\n"),
];

#[test]
fn a_reply_without_an_end_is_given_up(rt: HostRuntime) -> Result<(), Fail> {
    for (call, rows) in CALLS {
        for at in rows.iter() {
            for (begins, again) in ENDLESS {
                let mut bytes = Vec::from_slice(rt.alloc(), *begins)?;
                for _ in 0..20_000u32 {
                    bytes.extend_from_slice(*again)?;
                }
                let found = over_one(rt.alloc(), lying(*at, Lie::Instead(&bytes)), *call)?;
                assert!(rt;
                    is_refused(&found, "Link(NotHttp"),
                    "{call:?} at {at}: {found:?}"
                );
            }
        }
    }
    Ok(())
}
