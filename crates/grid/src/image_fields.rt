//! The fields of an image.
ghost use Rattle.std.specs.Prelude.{◌≡◌, ◌<◌, ◌≤◌, length, take, drop, true, IfOk, IfErr};
ghost use Rattle.std.specs.Option.{option_map};
ghost use Rattle.grid.specs.ImageHeads.{head_key, shares_said, head_said};
ghost use Rattle.grid.specs.RowOrder.{comes_after as is_after};

use crate::image_layout::{Layout, number_at};

/// What stands before a share's bytes.
#[derive(Clone, Copy)]
pub struct RowHead {
    /// The server.
    pub server: u32,
    /// The storage index.
    pub index: [u8; 16],
    /// The share's number.
    pub number: u16,
    /// How many bytes the share has.
    pub length: u64,
}

/// How many shares an image says that it has, or the place of its first fault, where these are the bytes between its
/// name and its shares or all that there are.
pub fn shares_in(layout: Layout, bytes: &[u8], servers: usize) -> Result<u64, u64>
    ensures { result ≡ shares_said layout servers bytes.now }
{
    if bytes.len() < 4 || number_at(bytes, 0) as usize != servers {
        return Err(8);
    }
    if bytes.len() < 4 + layout.wide() {
        return Err(12);
    }
    Ok(layout.count_at(bytes, 4))
}

/// What stands before a share's bytes, or the place there of the first fault, where these are the bytes before its own
/// or all that there are, after the row that is given.
pub fn head_in(
    layout: Layout,
    bytes: &[u8],
    servers: usize,
    last: &Option<RowHead>,
) -> Result<RowHead, u64>
    ensures said { result ≡ head_said layout servers (option_map head_key last.now) bytes.now }
    ensures offset { IfErr result (λ offset. offset ≤ 24) }
    ensures server { IfOk result (λ head. head.server < servers) }
    ensures after { IfOk result (λ head.
        is_after (option_map head_key last.now) (head_key head) ≡ true) }
    ensures some { IfOk result (λ head. 0 < head.length) }
{
    if bytes.len() < 4 {
        return Err(0);
    }
    let server = number_at(bytes, 0);
    if server as usize >= servers {
        return Err(0);
    }
    if bytes.len() < 20 {
        return Err(4);
    }
    if bytes.len() < 24 {
        return Err(20);
    }
    let index = index_in(bytes);
    let number = number_at(bytes, 20);
    if !comes_after(last, server, &index, number) {
        return Err(0);
    }
    if number > 255 {
        return Err(20);
    }
    if bytes.len() < 24 + layout.wide() {
        return Err(24);
    }
    let length = layout.count_at(bytes, 24);
    if length == 0 {
        return Err(24);
    }
    let number = number as u16;
    Ok(RowHead {
        server,
        index,
        number,
        length,
    })
}

/// Whether a share comes after the one before it.
fn comes_after(last: &Option<RowHead>, server: u32, index: &[u8; 16], number: u32) -> bool
    ensures { result ≡ is_after (option_map head_key last.now) (server, (index.now, number)) }
{
    match last {
        None => true,
        Some(last) => {
            let before = (last.server, (last.index, u32::from(last.number)));
            before.cmp(&(server, (*index, number))).is_lt()
        }
    }
}

/// The storage index before a share's bytes.
fn index_in(bytes: &[u8]) -> [u8; 16]
    requires { 20 ≤ length bytes.now }
    ensures { result ≡ take 16 (drop 4 bytes.now) }
{
    let mut index = [0; 16];
    index.copy_from_slice(&bytes[4..20]);
    index
}
