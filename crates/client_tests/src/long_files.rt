//! Files of more than one segment, and files in parts.

use crate::calls::{Outcome, is_refused, refused, right, right_cap};
use crate::folder::{Held, Kept};
use crate::gateway::{Gateway, Lie, Row, Stream};
use caps::parse;
use client_link::Link;
use client_tree::{get_file, put_whole};
use octets::fakes::counted_bytes;
use std::alloc::Global;
use std::test::Fail;

/// How many bytes a file of two segments has, byte i being i modulo 251, and its cap.
const LONG_SIZE: usize = 200_000;

const LONG_CAP: &str =
    "URI:CHK:cpgmyfu7y4nqyhvkcqfcsmnqvq:cvffjve3vt7bw5r2bn4fpzm22wnb5vsv7pduk635eeclhal7bo5q:3:10:200000";

/// The same of a file of two parts, the caps of these, and the text of their directory.
const PARTS_SIZE: usize = 16_777_272;

const PART: usize = 16_777_216;

const PARTS_CAP: &str =
    "URI:DIR2-CHK:mi2fstjizcncculsqiusnmk5mm:n2vahfkqchums7z3siohwxygbd6b7gtpux336za5vxs5bp3b3rjq:3:10:351";

const FIRST_CAP: &str =
    "URI:CHK:fvgi73cmksn74kqnzhwwxvi2qe:fneiwbdgii64e5vjqzro3d54mf7lxiz7pz47hcuper3ojjzpw2zq:3:10:16777216";

const SECOND_CAP: &str =
    "URI:CHK:lysddxxavhvq4pqxgtwcojwrry:ik372noereh4lzdm3grkau5h2yx53xot7yiqfom3hebbwucc2jfa:3:10:56";

const PARTS: &[u8] = b"174:10:0000000000,101:\
    URI:CHK:fvgi73cmksn74kqnzhwwxvi2qe:fneiwbdgii64e5vjqzro3d54mf7lxiz7pz47hcuper3ojjzpw2zq:3:10:16777216,0:,47:\
    {\"wozhinnam-parts\":{\"count\":2,\"size\":16777272}},,\
    167:10:0000000001,95:\
    URI:CHK:lysddxxavhvq4pqxgtwcojwrry:ik372noereh4lzdm3grkau5h2yx53xot7yiqfom3hebbwucc2jfa:3:10:56,0:,47:\
    {\"wozhinnam-parts\":{\"count\":2,\"size\":16777272}},,";

/// What an honest gateway answers of the first, whose bytes these are.
fn rows_of_long(bytes: &[u8]) -> [Row<'_>; 2] {
    [
        Row {
            begins: b"GET /uri/URI:CHK:cpgmyfu7y4nqyhvkcqfcsmnqvq:",
            has: b"",
            body: bytes,
        },
        Row {
            begins: b"PUT /uri HTTP/1.1\r\n",
            has: b"",
            body: LONG_CAP.as_bytes(),
        },
    ]
}

/// What an honest gateway answers of the second.
fn rows_of_parts(bytes: &[u8]) -> [Row<'_>; 6] {
    [
        Row {
            begins: b"GET /uri/URI:CHK:mi2fstjizcncculsqiusnmk5mm:",
            has: b"",
            body: PARTS,
        },
        Row {
            begins: b"GET /uri/URI:CHK:fvgi73cmksn74kqnzhwwxvi2qe:",
            has: b"",
            body: bytes.get(..PART).unwrap_or(b""),
        },
        Row {
            begins: b"GET /uri/URI:CHK:lysddxxavhvq4pqxgtwcojwrry:",
            has: b"",
            body: bytes.get(PART..).unwrap_or(b""),
        },
        Row {
            begins: b"PUT /uri HTTP/1.1\r\nHost: g\r\nContent-Length: 16777216\r\n",
            has: b"",
            body: FIRST_CAP.as_bytes(),
        },
        Row {
            begins: b"PUT /uri HTTP/1.1\r\nHost: g\r\nContent-Length: 56\r\n",
            has: b"",
            body: SECOND_CAP.as_bytes(),
        },
        Row {
            begins: b"POST /uri?t=mkdir-immutable HTTP/1.1\r\n",
            has: b"URI:CHK:lysddxxavhvq4pqxgtwcojwrry:",
            body: PARTS_CAP.as_bytes(),
        },
    ]
}

/// A gateway that answers by these rows, and lies at one of them.
fn by<'a>(rows: &'a [Row<'a>], at: usize, lie: Lie<'a>) -> Gateway<'a> {
    Gateway {
        rows,
        at,
        lie,
        at_a_time: usize::MAX,
    }
}

/// What becomes of a file that is got. Where it is refused, so many of its bytes stand: none but in parts.
fn got(
    alloc: Global,
    gateway: Gateway<'_>,
    cap: &str,
    bytes: &[u8],
    stands: usize,
) -> Result<Outcome, Fail> {
    let cap = parse(alloc, cap)?;
    let mut link = Link::new(alloc, "g", Stream::new(alloc, gateway));
    let mut folder = Kept::new(alloc);
    match get_file(alloc, &mut link, &mut folder, &cap, &[], &[]) {
        Ok(()) => right(folder.files.len() == 1 && folder.is_of(&[("", bytes)])),
        Err(_) if stands == 0 && !folder.files.is_empty() => Ok(Outcome::Wrong),
        Err(_) if !folder.is_of(&[("", bytes.get(..stands).unwrap_or(b""))]) => Ok(Outcome::Wrong),
        Err(fault) => refused(alloc, &fault),
    }
}

/// What becomes of a file that is put.
fn put(alloc: Global, gateway: Gateway<'_>, cap: &str, bytes: &[u8]) -> Result<Outcome, Fail> {
    let mut link = Link::new(alloc, "g", Stream::new(alloc, gateway));
    let mut source = Held {
        alloc,
        files: &[("", bytes)],
        left: b"",
    };
    match put_whole(alloc, &mut link, &mut source, &[]) {
        Ok(found) => right_cap(alloc, &found, cap),
        Err(fault) => refused(alloc, &fault),
    }
}

/// Places: at the ends, of blocks, of segments, and of what is read at a time.
const PLACES: &[usize] = &[
    0, 1, 15, 16, 43_690, 43_691, 65_535, 65_536, 87_382, 131_072, 131_073, 154_049, 177_025,
    199_998, 199_999,
];

#[test]
fn a_long_file_is_whole(rt: HostRuntime) -> Result<(), Fail> {
    let bytes = counted_bytes(rt.alloc(), LONG_SIZE)?;
    let rows = rows_of_long(&bytes);
    for place in PLACES {
        let other = by(&rows, 0, Lie::Body(*place, 1));
        let found = got(rt.alloc(), other, LONG_CAP, &bytes, 0)?;
        assert!(rt; is_refused(&found, "NotBound"), "{place}: {found:?}");
        let cut = by(&rows, 0, Lie::Cut(*place));
        let found = got(rt.alloc(), cut, LONG_CAP, &bytes, 0)?;
        assert!(rt; is_refused(&found, "Link(Broken"), "{place}: {found:?}");
        // all of it, or its end
        let part = by(&rows, 0, Lie::Other(bytes.get(*place..).unwrap_or(b"")));
        let found = got(rt.alloc(), part, LONG_CAP, &bytes, 0)?;
        let is_so = match *place {
            0 => matches!(found, Outcome::Right),
            _ => is_refused(&found, "NotBound"),
        };
        assert!(rt; is_so, "{place}: {found:?}");
    }
    Ok(())
}

#[test]
fn a_long_file_that_is_put_has_its_own_cap(rt: HostRuntime) -> Result<(), Fail> {
    let bytes = counted_bytes(rt.alloc(), LONG_SIZE)?;
    let rows = rows_of_long(&bytes);
    let honest = put(rt.alloc(), by(&rows, 1, Lie::Honest), LONG_CAP, &bytes)?;
    assert!(rt; matches!(honest, Outcome::Right), "{honest:?}");
    for place in 0..LONG_CAP.len() {
        let lie = by(&rows, 1, Lie::Body(place, 1));
        let found = put(rt.alloc(), lie, LONG_CAP, &bytes)?;
        assert!(rt; is_refused(&found, "NotBound"), "{place}: {found:?}");
    }
    Ok(())
}

/// Lies of the second file: a row, a place in its body, and how many bytes of the file stand then.
const LIES_OF_PARTS: &[(usize, usize, usize)] = &[
    (0, 0, 0),
    (0, 174, 0),
    (0, 350, 0),
    (1, 0, 0),
    (1, 16_777_215, 0),
    (2, 0, PART),
    (2, 55, PART),
];

#[test]
fn parts_that_are_others_are_not_written(rt: HostRuntime) -> Result<(), Fail> {
    let bytes = counted_bytes(rt.alloc(), PARTS_SIZE)?;
    let rows = rows_of_parts(&bytes);
    let honest = got(rt.alloc(), by(&rows, 0, Lie::Honest), PARTS_CAP, &bytes, 0)?;
    assert!(rt; matches!(honest, Outcome::Right), "{honest:?}");
    for (at, place, stands) in LIES_OF_PARTS {
        let lie = by(&rows, *at, Lie::Body(*place, 1));
        let found = got(rt.alloc(), lie, PARTS_CAP, &bytes, *stands)?;
        assert!(rt; is_refused(&found, "NotBound"), "{at}, {place}: {found:?}");
    }
    Ok(())
}

#[test]
fn parts_that_are_put_have_their_own_caps(rt: HostRuntime) -> Result<(), Fail> {
    let bytes = counted_bytes(rt.alloc(), PARTS_SIZE)?;
    let rows = rows_of_parts(&bytes);
    let honest = put(rt.alloc(), by(&rows, 0, Lie::Honest), PARTS_CAP, &bytes)?;
    assert!(rt; matches!(honest, Outcome::Right), "{honest:?}");
    for at in 3..6usize {
        let lie = by(&rows, at, Lie::Body(20, 1));
        let found = put(rt.alloc(), lie, PARTS_CAP, &bytes)?;
        assert!(rt; is_refused(&found, "NotBound"), "{at}: {found:?}");
    }
    Ok(())
}
