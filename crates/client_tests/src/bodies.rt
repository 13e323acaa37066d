//! Lies in what replies have in their bodies. Over one connection and over three at once: the call has a fault that is named,
//! and nothing stands in a folder that isn't right.

use crate::calls::{
    CALLS, Call, Outcome, all_files, is_refused, lying, over_none, over_one, over_three, right_cap,
    texts,
};
use crate::facts::{LETTERS_ALONE, ROWS};
use crate::folder::Kept;
use crate::gateway::{Gateway, Lie, Row, Stream};
use caps::parse;
use client_link::Link;
use client_tree::{TreeFault, get_tree, put_whole};
use std::alloc::Global;
use std::process::Abort;
use std::test::Fail;

/// Each bit of a byte.
pub const BITS: [u8; 8] = [1, 2, 4, 8, 16, 32, 64, 128];

/// Whether a lie at a row is noticed as this fault, over one connection and over three.
fn is_noticed(
    alloc: Global,
    call: Call,
    at: usize,
    lie: Lie<'_>,
    fault: &str,
) -> Result<bool, Fail> {
    let one = over_one(alloc, lying(at, lie), call)?;
    let three = over_three(alloc, lying(at, lie), call)?;
    Ok(is_refused(&one, fault) && is_refused(&three, fault))
}

#[test]
fn an_honest_gateway_is_taken_at_its_word(rt: HostRuntime) -> Result<(), Fail> {
    for at_a_time in [1, 1_000_000] {
        for (call, _) in CALLS {
            let mut gateway = lying(0, Lie::Honest);
            gateway.at_a_time = at_a_time;
            let one = over_one(rt.alloc(), gateway, *call)?;
            let three = over_three(rt.alloc(), gateway, *call)?;
            assert!(rt; matches!(one, Outcome::Right), "{call:?}: {one:?}");
            assert!(rt; matches!(three, Outcome::Right), "{call:?}: {three:?}");
        }
    }
    Ok(())
}

/// Each byte of a row's body is changed in each of these bits. Tells how many lies there were.
fn bits_are_noticed(
    rt: &(impl Abort + AllocGlobal),
    call: Call,
    at: usize,
    bits: &[u8],
) -> Result<usize, Fail> {
    let size = ROWS.get(at).map_or(0, |row| row.body.len());
    let mut count = 0usize;
    for place in 0..size {
        for bits in bits {
            let lie = Lie::Body(place, *bits);
            let found = over_one(rt.alloc(), lying(at, lie), call)?;
            assert!(rt;
                is_refused(&found, "NotBound"),
                "{call:?} at {at}, {lie:?}: {found:?}"
            );
            count = count.saturating_add(1);
        }
    }
    Ok(count)
}

#[test]
fn no_bit_of_a_body_can_be_another(rt: HostRuntime) -> Result<(), Fail> {
    let mut count = 0usize;
    for (call, rows) in CALLS {
        for at in rows.iter() {
            count = count.saturating_add(bits_are_noticed(&rt, *call, *at, &BITS)?);
        }
    }
    // 8 bits of each of 2,737 bytes
    assert_eq!(rt; count, 21_896);
    Ok(())
}

/// Bodies in place of the honest one.
const OTHERS: &[&[u8]] = &[
    b"",
    b"\0",
    b"<!DOCTYPE html><html><body>Sign in to the network</body></html>",
    b"URI:LIT:",
    b"URI:LIT:mzxw6ytboi\n",
    b"URI:DIR2-LIT:",
    b"URI:CHK-Verifier:eszhlbsqc5emluwbawwnl5adnu:aaaqeayeaudaocajbifqydiob4ibceqtcqkrmfyydenbwha5dypq:3:10:0",
];

/// How a body of so many bytes is refused in place of a row's: as too long, where it has more than were asked for, which is
/// the size that stands in the cap, or 256 where a cap is to come.
fn fault_of(at: usize, size: usize) -> &'static str {
    let own = ROWS.get(at).map_or(0, |row| row.body.len());
    let most = if at < 4 { own } else { 256 };
    if size > most {
        "Link(TooLong"
    } else {
        "NotBound"
    }
}

/// A body in place of a row's is noticed. Tells how many lies that is: none where it is the honest body.
fn other_is_noticed(
    rt: &(impl Abort + AllocGlobal),
    call: Call,
    at: usize,
    other: &[u8],
) -> Result<usize, Fail> {
    if ROWS.get(at).map_or(false, |row| row.body == other) {
        return Ok(0);
    }
    let is_so = is_noticed(
        rt.alloc(),
        call,
        at,
        Lie::Other(other),
        fault_of(at, other.len()),
    )?;
    let size = other.len();
    assert!(rt; is_so, "{call:?} at {at}, {size} bytes");
    Ok(1)
}

/// The honest body without its last byte, and with one more, is noticed.
fn ends_are_noticed(rt: &(impl Abort + AllocGlobal), call: Call, at: usize) -> Result<usize, Fail> {
    let body = ROWS.get(at).map_or(b"".as_slice(), |row| row.body);
    let shorter = body.get(..body.len().saturating_sub(1)).unwrap_or(b"");
    let mut longer = Vec::from_slice(rt.alloc(), body)?;
    longer.push(b'5')?;
    let short = other_is_noticed(rt, call, at, shorter)?;
    let long = other_is_noticed(rt, call, at, &longer)?;
    Ok(short.saturating_add(long))
}

#[test]
fn no_other_body_passes(rt: HostRuntime) -> Result<(), Fail> {
    let mut count = 0usize;
    for (call, rows) in CALLS {
        for at in rows.iter() {
            for other in OTHERS {
                count = count.saturating_add(other_is_noticed(&rt, *call, *at, *other)?);
            }
            for row in ROWS {
                count = count.saturating_add(other_is_noticed(&rt, *call, *at, row.body)?);
            }
            count = count.saturating_add(ends_are_noticed(&rt, *call, *at)?);
        }
    }
    // 7, 8 and 2 at each of 18 rows
    assert_eq!(rt; count, 306);
    Ok(())
}

#[test]
fn no_status_but_one_passes(rt: HostRuntime) -> Result<(), Fail> {
    let mut count = 0usize;
    for (call, rows) in CALLS {
        for at in rows.iter() {
            for status in 200..600u16 {
                let wanted = format!(in rt.alloc(); "Refused({status}")?;
                let found = over_one(rt.alloc(), lying(*at, Lie::Status(status)), *call)?;
                let is_so = is_refused(&found, wanted.as_str());
                assert!(rt;
                    is_so != (status == 200),
                    "{call:?} at {at}, {status}: {found:?}"
                );
                count = count.saturating_add(usize::from(is_so));
            }
        }
    }
    // 399 at each of 18 rows
    assert_eq!(rt; count, 7_182);
    Ok(())
}

#[test]
fn another_cap_of_the_same_bytes_is_one_of_theirs(rt: HostRuntime) -> Result<(), Fail> {
    let lie = Lie::Other(LETTERS_ALONE.as_bytes());
    let path = texts(rt.alloc(), &["a"])?;
    let mut gateway = Link::new(rt.alloc(), "g", Stream::new(rt.alloc(), lying(4, lie)));
    let cap = put_whole(rt.alloc(), &mut gateway, &mut all_files(rt.alloc()), &path)?;
    assert!(rt; matches!(right_cap(rt.alloc(), &cap, LETTERS_ALONE)?, Outcome::Right));
    Ok(())
}

#[test]
fn a_gateway_that_is_not_there_is_told(rt: HostRuntime) -> Result<(), Fail> {
    for (call, _) in CALLS {
        let found = over_none(rt.alloc(), *call)?;
        assert!(rt;
            is_refused(&found, "Link(NoConnection"),
            "{call:?}: {found:?}"
        );
    }
    Ok(())
}

/// Directories with names that no file can have, their caps, and the name that is told.
const BAD_NAMES: &[(&str, &[u8], &str)] = &[
    (
        "URI:DIR2-CHK:xy27difrut4xke4rxzaolgp2ii:ofmqp7qsydtrxczhvlc3kiwfvqev7az6ej6wvqbm7cnjzbq3utuq:3:10:117",
        b"112:2:..,95:\
            URI:CHK:xciehu7wkhrkdhseyznarsl6n4:ro65en3n4zxwl3gfinnekkeqado3jxpde7tfaj3sr7als57h4qoa:3:10:56,0:,2:{},,",
        "..",
    ),
    (
        "URI:DIR2-CHK:3jcp4de6j2kigz46ls2mmoi4wu:x6yc4s52wnu5kaz32xmzyus35hcqnq7kztn57tgji2leja75r6fq:3:10:237",
        b"29:1:B,13:URI:DIR2-LIT:,0:,2:{},,83:3:b/c,8:\
            URI:LIT:,0:,59:{\"a\":18446744073709551615,\"z\":[1,-2,{\"y\":\"\\u0001\\\"\\\\/\xc3\xa9\"}]},,\
            112:3:\xe6\x97\xa5,94:\
            URI:CHK:aaaqeayeaudaocajbifqydiob4:aaaqeayeaudaocajbifqydiob4ireeyuculbogazdinryhi6d4pq:3:10:0,0:,2:{},,",
        "b/c",
    ),
];

#[test]
fn no_file_is_written_beside_the_folder(rt: HostRuntime) -> Result<(), Fail> {
    for (cap, text, name) in BAD_NAMES {
        let row = Row {
            begins: b"GET /uri/URI:CHK:",
            has: b"",
            body: *text,
        };
        let mut folder = Kept::new(rt.alloc());
        let told = told_name(rt.alloc(), &[row], *cap, &mut folder)?;
        assert_eq!(rt; told.as_str(), *name);
        assert!(rt; folder.files.is_empty());
    }
    Ok(())
}

/// The name for which a tree isn't written, or nothing.
fn told_name(
    alloc: Global,
    rows: &[Row<'_>],
    cap: &str,
    folder: &mut Kept,
) -> Result<String, Fail> {
    let gateway = Gateway {
        rows,
        at: 0,
        lie: Lie::Honest,
        at_a_time: usize::MAX,
    };
    let mut link = Link::new(alloc, "g", Stream::new(alloc, gateway));
    let cap = parse(alloc, cap)?;
    match get_tree(alloc, &mut link, folder, &cap, 8, 100) {
        Err(TreeFault::BadName(name)) => Ok(String::from_str(alloc, name.as_str())?),
        _ => Ok(String::new(alloc)),
    }
}
