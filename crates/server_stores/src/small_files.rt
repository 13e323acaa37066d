//! Files of a few bytes.
use std::io::Read;
use std::rt::Files;
use std::{fs, io};

/// The bytes of a file as far as one past so many: no more is read, whatever it has, as a device has bytes without end.
pub fn read_at_most<R: Files + AllocGlobal>(
    rt: &R,
    path: &str,
    most: usize,
) -> io::Result<Vec<u8>> {
    let file = fs::open(rt, path)?;
    let mut bytes = Vec::new(rt.alloc());
    file.take((most as u64).saturating_add(1))
        .read_to_end(&mut bytes)?;
    Ok(bytes)
}
