//! A line of a script: its verb is looked up, and the reader of that verb takes what stands behind it.
//!
//! A new line has its verb and the word for it in `verb.rt`; here its case in `Command` or `Call` and its reader, with a
//! definition in specs/Command.antt; and where it is a call, its reply and event in specs/Replies.antt, and what carries
//! it out in `calls.rt`.
ghost use Rattle.std.specs.Prelude.{◌≡◌, [], ◌∷◌, None, IfOk};
ghost use Rattle.std.specs.Option.{option_map};
ghost use Rattle.gate_tasks.specs.Command.{words, server_count, secret_word, index_word, share_words, grid_of, restore_of, open_of, bytes_command, end_of, take_of, lose_of, spoil_of, command_of, command_of_words, asked_with, short_number, long_number};

use crate::spelling::read_spelled;
use crate::text::unescape;
use crate::verb::{Verb, read_verb};
use octets::{Bytes, read_number, split_at_byte};
use std::alloc::{AllocError, Global};

/// The parameters of a gateway.
#[derive(Drop)]
pub struct Grid {
    /// How many shares give a file back.
    pub k: u16,
    /// How many shares a file has.
    pub n: u16,
    /// How many servers there are, 1 to 256.
    pub servers: u16,
    /// How many bytes each server has room for.
    pub room: u64,
    /// The secret that makes keys.
    pub secret: Bytes,
}

/// A share by where it is.
#[derive(Clone, Copy)]
pub struct Share {
    /// The server's number, from 0 on.
    pub server: u32,
    /// The storage index.
    pub index: [u8; 16],
    /// The share's number.
    pub number: u16,
}

/// A call of the gateway that there is.
#[derive(Drop)]
pub enum Call {
    /// A connection with this id begins, with a secret of its own or none.
    Open(u64, Option<Bytes>),
    /// The next bytes of a connection.
    Bytes(u64, Bytes),
    /// No more bytes come on a connection.
    End(u64),
    /// At most so many of the bytes that wait for a connection.
    Take(u64, u32),
    /// A share is to be lost.
    Lose(Share),
    /// The lowest bit of the byte at this place of a share is to be changed.
    Spoil(Share, u64),
    /// The image of the shares.
    Image,
}

/// What a line asks.
#[derive(Drop)]
pub enum Command {
    /// A gateway with these parameters.
    Grid(Grid),
    /// That gateway, with the shares of this image.
    Restore(Bytes),
    /// A call of it.
    Call(Call),
}

/// What a line asks, or `None` where it is a bad line.
pub fn read_command(alloc: Global, line: &[u8]) -> Result<Option<Command>, AllocError>
    ensures { IfOk result (λ command. command ≡ command_of line.now) }
{
    let Some((word, arguments)) = split_at_byte(line, b' ') else {
        return Ok(read_word(line));
    };
    let Some(verb) = read_verb(word) else {
        return Ok(None);
    };
    let command = read_with(alloc, verb, arguments)?;
    Ok(command)
}

/// What a line of one word asks.
fn read_word(word: &[u8]) -> Option<Command>
    ensures { result ≡ command_of_words (word.now ∷ []) }
{
    match read_verb(word)? {
        Verb::Image => Some(Command::Call(Call::Image)),
        _ => None,
    }
}

/// What a verb asks with the arguments that stand behind it.
fn read_with(alloc: Global, verb: Verb, arguments: &[u8]) -> Result<Option<Command>, AllocError>
    ensures { IfOk result (λ command. command ≡ asked_with verb (words arguments.now)) }
{
    match verb {
        Verb::Grid => read_grid(alloc, arguments),
        Verb::Restore => read_restore(alloc, arguments),
        Verb::Open => read_open(alloc, arguments),
        Verb::Bytes => read_bytes(alloc, arguments),
        Verb::End => Ok(read_end(arguments)),
        Verb::Take => Ok(read_take(arguments)),
        Verb::Lose => read_lose(alloc, arguments),
        Verb::Spoil => read_spoil(alloc, arguments),
        Verb::Image => Ok(None),
    }
}

/// The arguments of `grid`: K, N, S, ROOM and SECRET.
fn read_grid(alloc: Global, arguments: &[u8]) -> Result<Option<Command>, AllocError>
    ensures { IfOk result (λ command. command ≡ grid_of (words arguments.now)) }
{
    let Some((k, rest)) = split_at_byte(arguments, b' ') else {
        return Ok(None);
    };
    let Some((n, rest)) = split_at_byte(rest, b' ') else {
        return Ok(None);
    };
    let Some((servers, rest)) = split_at_byte(rest, b' ') else {
        return Ok(None);
    };
    let Some((room, secret)) = split_at_byte(rest, b' ') else {
        return Ok(None);
    };
    let None = split_at_byte(secret, b' ') else {
        return Ok(None);
    };
    let command = read_parameters(alloc, k, n, servers, room, secret)?;
    Ok(command)
}

/// The five arguments of `grid`, one by one.
fn read_parameters(
    alloc: Global,
    k: &[u8],
    n: &[u8],
    servers: &[u8],
    room: &[u8],
    secret: &[u8],
) -> Result<Option<Command>, AllocError>
    ensures { IfOk result (λ command. command
        ≡ grid_of (k.now ∷ n.now ∷ servers.now ∷ room.now ∷ secret.now ∷ [])) }
{
    let Some(k) = read_short(k) else {
        return Ok(None);
    };
    let Some(n) = read_short(n) else {
        return Ok(None);
    };
    let Some(servers) = read_servers(servers) else {
        return Ok(None);
    };
    let Some(room) = read_number(room, u64::MAX) else {
        return Ok(None);
    };
    let Some(secret) = read_secret(alloc, secret)? else {
        return Ok(None);
    };
    let grid = Grid {
        k,
        n,
        servers,
        room,
        secret,
    };
    Ok(Some(Command::Grid(grid)))
}

/// A number that fits 16 bits.
fn read_short(word: &[u8]) -> Option<u16>
    ensures { result ≡ short_number word.now }
{
    let number = read_number(word, u64::from(u16::MAX))?;
    Some(number as u16)
}

/// The number of servers, 1 to 256.
fn read_servers(word: &[u8]) -> Option<u16>
    ensures { result ≡ server_count word.now }
{
    let number = read_number(word, 256)?;
    if number == 0 {
        return None;
    }
    Some(number as u16)
}

/// A secret: `-` is the empty one, another is base32.
fn read_secret(alloc: Global, word: &[u8]) -> Result<Option<Bytes>, AllocError>
    ensures { IfOk result (λ secret. secret ≡ secret_word word.now) }
{
    if word == b"-".as_slice() {
        return Ok(Some(Bytes::new(alloc)));
    }
    if word.is_empty() {
        return Ok(None);
    }
    let secret = read_spelled(alloc, word)?;
    Ok(secret)
}

/// The arguments of `open`: ID, or ID and SECRET.
fn read_open(alloc: Global, arguments: &[u8]) -> Result<Option<Command>, AllocError>
    ensures { IfOk result (λ command. command ≡ open_of (words arguments.now)) }
{
    let Some((id, secret)) = split_at_byte(arguments, b' ') else {
        return Ok(read_bare_open(arguments));
    };
    let None = split_at_byte(secret, b' ') else {
        return Ok(None);
    };
    let Some(id) = read_number(id, u64::MAX) else {
        return Ok(None);
    };
    let Some(secret) = read_secret(alloc, secret)? else {
        return Ok(None);
    };
    Ok(Some(Command::Call(Call::Open(id, Some(secret)))))
}

/// The argument of `open` without a secret: ID.
fn read_bare_open(word: &[u8]) -> Option<Command>
    ensures { result ≡ option_map (λ id. Command.Call (Call.Open id None)) (long_number word.now) }
{
    let id = read_number(word, u64::MAX)?;
    Some(Command::Call(Call::Open(id, None)))
}

/// The arguments of `bytes`: ID and TEXT, which may hold spaces.
fn read_bytes(alloc: Global, arguments: &[u8]) -> Result<Option<Command>, AllocError>
    ensures { IfOk result (λ command. command ≡ bytes_command (words arguments.now)) }
{
    let Some((id, text)) = split_at_byte(arguments, b' ') else {
        return Ok(None);
    };
    let Some(id) = read_number(id, u64::MAX) else {
        return Ok(None);
    };
    let Some(piece) = unescape(alloc, text)? else {
        return Ok(None);
    };
    Ok(Some(Command::Call(Call::Bytes(id, piece))))
}

/// The argument of `end`: ID.
fn read_end(arguments: &[u8]) -> Option<Command>
    ensures { result ≡ end_of (words arguments.now) }
{
    let id = read_number(arguments, u64::MAX)?;
    Some(Command::Call(Call::End(id)))
}

/// The arguments of `take`: ID and MAX.
fn read_take(arguments: &[u8]) -> Option<Command>
    ensures { result ≡ take_of (words arguments.now) }
{
    let (id, most) = split_at_byte(arguments, b' ')?;
    let id = read_number(id, u64::MAX)?;
    let most = read_number(most, u32::MAX as u64)?;
    Some(Command::Call(Call::Take(id, most as u32)))
}

/// The argument of `restore`: TEXT, which may hold spaces.
fn read_restore(alloc: Global, arguments: &[u8]) -> Result<Option<Command>, AllocError>
    ensures { IfOk result (λ command. command ≡ restore_of (words arguments.now)) }
{
    let Some(image) = unescape(alloc, arguments)? else {
        return Ok(None);
    };
    Ok(Some(Command::Restore(image)))
}

/// The arguments of `lose`: SERVER, SI and NUMBER.
fn read_lose(alloc: Global, arguments: &[u8]) -> Result<Option<Command>, AllocError>
    ensures { IfOk result (λ command. command ≡ lose_of (words arguments.now)) }
{
    let Some((server, rest)) = split_at_byte(arguments, b' ') else {
        return Ok(None);
    };
    let Some((index, number)) = split_at_byte(rest, b' ') else {
        return Ok(None);
    };
    let Some(share) = read_share(alloc, server, index, number)? else {
        return Ok(None);
    };
    Ok(Some(Command::Call(Call::Lose(share))))
}

/// The arguments of `spoil`: SERVER, SI, NUMBER and PLACE.
fn read_spoil(alloc: Global, arguments: &[u8]) -> Result<Option<Command>, AllocError>
    ensures { IfOk result (λ command. command ≡ spoil_of (words arguments.now)) }
{
    let Some((server, rest)) = split_at_byte(arguments, b' ') else {
        return Ok(None);
    };
    let Some((index, rest)) = split_at_byte(rest, b' ') else {
        return Ok(None);
    };
    let Some((number, place)) = split_at_byte(rest, b' ') else {
        return Ok(None);
    };
    let Some(share) = read_share(alloc, server, index, number)? else {
        return Ok(None);
    };
    let Some(place) = read_number(place, u64::MAX) else {
        return Ok(None);
    };
    Ok(Some(Command::Call(Call::Spoil(share, place))))
}

/// The share that SERVER, SI and NUMBER name.
fn read_share(
    alloc: Global,
    server: &[u8],
    index: &[u8],
    number: &[u8],
) -> Result<Option<Share>, AllocError>
    ensures { IfOk result (λ share. share ≡ share_words server.now index.now number.now) }
{
    let Some(server) = read_number(server, u64::from(u32::MAX)) else {
        return Ok(None);
    };
    let Some(index) = read_index(alloc, index)? else {
        return Ok(None);
    };
    let Some(number) = read_short(number) else {
        return Ok(None);
    };
    Ok(Some(Share {
        server: server as u32,
        index,
        number,
    }))
}

/// A storage index: base32 of 16 bytes.
fn read_index(alloc: Global, word: &[u8]) -> Result<Option<[u8; 16]>, AllocError>
    ensures { IfOk result (λ index. index ≡ index_word word.now) }
{
    let Some(bytes) = read_spelled(alloc, word)? else {
        return Ok(None);
    };
    if bytes.len() != 16 {
        return Ok(None);
    }
    let mut index = [0u8; 16];
    index.copy_from_slice(bytes.as_slice());
    Ok(Some(index))
}
