//! Commands, and their replies.
ghost use Rattle.std.specs.Prelude.{◌≡◌, ◌<◌, ◌≤◌, ◌+◌, ◌++◌, ℕ, List, [], length, take, drop, vec_len, IfOk, IfErr, IsErrOf, OnOk};
ghost use Rattle.std.specs.List.{flat_map};
ghost use Rattle.redis_store.specs.AfterExchange.{IsOfLink};
ghost use Rattle.redis_store.specs.Exchanges.{IsToldInPart, with_heard, with_exchange};
ghost use Rattle.resp.specs.Command.{line_end};
ghost use Rattle.resp.specs.Spelled.{SpellsReply, SpellsAll};

use crate::ServerFault;
use crate::link::Link;
use octets::Bytes;
use resp::{Item, Limits, Reply, read_bulk_line, read_reply};
use std::alloc::Global;

/// How many bytes are read at a time, at most.
const ROOM: usize = 65536;

/// How often is read for one reply, at most: the link's time is up long before.
const READS: u32 = 1 << 24;

/// Writes a command and reads its reply, which is all that comes.
pub(crate) fn talk<L: Link>(
    alloc: Global,
    link: &mut L,
    limits: Limits,
    command: &[u8],
) -> Result<Reply, ServerFault>
    requires { 0 < limits.line }
    ensures exchanged { IfOk result (λ reply. (came : List ℕ) × SpellsReply limits reply came
        × (L.talk link.new ≡ with_exchange (L.talk link.old) command.now came)) }
    ensures of_link { IfErr result (λ fault. IsOfLink fault) }
{
    talk_parts(alloc, link, limits, &[command])
}

/// Writes the parts of a command, one behind the other, and reads its reply, which is all that comes.
pub(crate) fn talk_parts<L: Link>(
    alloc: Global,
    link: &mut L,
    limits: Limits,
    parts: &[&[u8]],
) -> Result<Reply, ServerFault>
    requires { 0 < limits.line }
    ensures exchanged { IfOk result (λ reply. (came : List ℕ) × SpellsReply limits reply came
        × (L.talk link.new ≡ with_exchange (L.talk link.old)
        (flat_map (λ part. part.now) parts.now) came)) }
    ensures closed { IsErrOf result ServerFault.Closed → IsToldInPart (L.talk link.old)
        (flat_map (λ part. part.now) parts.now) (L.talk link.new) }
    ensures of_link { IfErr result (λ fault. IsOfLink fault) }
{
    let mut came = Vec::new(alloc);
    tell(link, parts, &mut came)?;
    for _ in 0..READS {
        if let Some((len, start)) = read_bulk_line(limits, &came) {
            let content = hear_bulk(alloc, link, &came[start..], len)?;
            return Ok(Reply::One(Item::Bulk(content)));
        }
        if let Some((reply, len)) = read_reply(alloc, limits, &came)? {
            if len != came.len() {
                return Err(ServerFault::OtherReply);
            }
            return Ok(reply);
        }
        hear(link, &mut came)?;
    }
    Err(ServerFault::Link)
}

/// Writes the parts of commands, one behind the other, and reads once.
fn tell<L: Link>(link: &mut L, parts: &[&[u8]], came: &mut Vec<u8>) -> Result<(), ServerFault>
    requires { came.old.items ≡ [] }
    ensures told { OnOk result (L.talk link.new ≡ with_exchange (L.talk link.old)
        (flat_map (λ part. part.now) parts.now) came.new.items) }
    ensures closed { IsErrOf result ServerFault.Closed → IsToldInPart (L.talk link.old)
        (flat_map (λ part. part.now) parts.now) (L.talk link.new) }
    ensures of_link { IfErr result (λ fault. IsOfLink fault) }
{
    match link.write_all(parts) {
        Ok(()) => hear_first(link, came),
        Err(fault) => Err(fault.unheard()),
    }
}

/// Writes commands in one exchange, and reads a reply to each of them, which are all that comes.
pub(crate) fn talk_each<L: Link>(
    alloc: Global,
    link: &mut L,
    limits: Limits,
    commands: &[u8],
    count: u16,
) -> Result<Vec<Reply>, ServerFault>
    requires { 0 < limits.line }
    ensures exchanged { IfOk result (λ replies. (came : List ℕ)
        × SpellsAll (SpellsReply limits) replies.items came
        × (L.talk link.new ≡ with_exchange (L.talk link.old) commands.now came)) }
    ensures count { IfOk result (λ replies. vec_len replies ≡ count) }
    ensures closed { IsErrOf result ServerFault.Closed → IsToldInPart (L.talk link.old)
        commands.now (L.talk link.new) }
    ensures of_link { IfErr result (λ fault. IsOfLink fault) }
{
    match link.write_all(&[commands]) {
        Ok(()) => hear_all(alloc, link, limits, count),
        Err(fault) => Err(fault.unheard()),
    }
}

/// Reads so many replies, which are all that comes.
pub(crate) fn hear_all<L: Link>(
    alloc: Global,
    link: &mut L,
    limits: Limits,
    count: u16,
) -> Result<Vec<Reply>, ServerFault>
    requires { 0 < limits.line }
    ensures heard { IfOk result (λ replies. (came : List ℕ)
        × SpellsAll (SpellsReply limits) replies.items came
        × (L.talk link.new ≡ with_heard (L.talk link.old) came)) }
    ensures count { IfOk result (λ replies. vec_len replies ≡ count) }
    ensures closed { IsErrOf result ServerFault.Closed
        → L.talk link.new ≡ L.talk link.old }
    ensures of_link { IfErr result (λ fault. IsOfLink fault) }
{
    let mut came = Vec::new(alloc);
    if count > 0 {
        hear_first(link, &mut came)?;
    }
    hear_each(alloc, link, limits, &mut came, count)
}

/// Reads so many replies, of which some bytes may have come, which are all that comes.
fn hear_each<L: Link>(
    alloc: Global,
    link: &mut L,
    limits: Limits,
    came: &mut Vec<u8>,
    count: u16,
) -> Result<Vec<Reply>, ServerFault>
    requires line { 0 < limits.line }
    ensures heard { IfOk result (λ replies. (part : List ℕ)
        × (came.new.items ≡ came.old.items ++ part)
        × SpellsAll (SpellsReply limits) replies.items came.new.items
        × (L.talk link.new ≡ with_heard (L.talk link.old) part)) }
    ensures count { IfOk result (λ replies. vec_len replies ≡ count) }
    ensures not_closed { IsErrOf result ServerFault.Closed → ⊥ }
    ensures of_link { IfErr result (λ fault. IsOfLink fault) }
{
    let mut replies = Vec::new(alloc);
    let mut start = 0;
    for _ in 0..count {
        let next = next_reply(alloc, link, limits, came, start)?;
        start += next.1;
        replies.push(next.0)?;
    }
    if start != came.len() {
        return Err(ServerFault::OtherReply);
    }
    Ok(replies)
}

/// Reads the reply that begins at a place of what came, and says how long it is. What comes is put behind.
fn next_reply<L: Link>(
    alloc: Global,
    link: &mut L,
    limits: Limits,
    came: &mut Vec<u8>,
    start: usize,
) -> Result<(Reply, usize), ServerFault>
    requires line { 0 < limits.line }
    requires start { start ≤ length came.old.items }
    ensures heard { OnOk result ((part : List ℕ) × (came.new.items ≡ came.old.items ++ part)
        × (L.talk link.new ≡ with_heard (L.talk link.old) part)) }
    ensures within { IfOk result (λ next. start + next.1 ≤ length came.new.items) }
    ensures spelled { IfOk result (λ next.
        SpellsReply limits next.0 (take next.1 (drop start came.new.items))) }
    ensures not_closed { IsErrOf result ServerFault.Closed → ⊥ }
    ensures of_link { IfErr result (λ fault. IsOfLink fault) }
{
    for _ in 0..READS {
        if let Some((reply, len)) = read_reply(alloc, limits, &came[start..])? {
            return Ok((reply, len));
        }
        hear(link, came)?;
    }
    Err(ServerFault::Link)
}

/// Reads the content of a bulk string, of which so much came, to where it stays, and the end of its line, which is all
/// that comes. Memory is asked for as bytes come.
fn hear_bulk<L: Link>(
    alloc: Global,
    link: &mut L,
    begun: &[u8],
    len: usize,
) -> Result<Bytes, ServerFault>
    ensures heard { IfOk result (λ content. (length content ≡ len) × ((part : List ℕ)
        × (content ++ line_end ≡ begun.now ++ part)
        × (L.talk link.new ≡ with_heard (L.talk link.old) part))) }
    ensures not_closed { IsErrOf result ServerFault.Closed → ⊥ }
    ensures of_link { IfErr result (λ fault. IsOfLink fault) }
{
    let mut content = Vec::new(alloc);
    content.extend_from_slice(begun)?;
    for _ in 0..READS {
        if content.len() >= 2 && content.len() - 2 >= len {
            check_end(&content[len..])?;
            content.truncate(len);
            return Ok(Bytes::from_vec(content));
        }
        hear(link, &mut content)?;
    }
    Err(ServerFault::Link)
}

/// Refuses what stands behind a bulk string's content where it isn't the end of the line and no more.
fn check_end(end: &[u8]) -> Result<(), ServerFault>
    ensures end { OnOk result (end.now ≡ line_end) }
    ensures not_closed { IsErrOf result ServerFault.Closed → ⊥ }
    ensures of_link { IfErr result (λ fault. IsOfLink fault) }
{
    if end == b"\r\n".as_slice() {
        return Ok(());
    }
    if end.starts_with(b"\r\n") {
        return Err(ServerFault::OtherReply);
    }
    Err(ServerFault::NoReply)
}

/// Reads once, behind what came before of a reply.
fn hear<L: Link>(link: &mut L, came: &mut Vec<u8>) -> Result<(), ServerFault>
    ensures heard { OnOk result ((part : List ℕ) × (came.new.items ≡ came.old.items ++ part)
        × (L.talk link.new ≡ with_heard (L.talk link.old) part)) }
    ensures not_closed { IsErrOf result ServerFault.Closed → ⊥ }
    ensures of_link { IfErr result (λ fault. IsOfLink fault) }
{
    match hear_first(link, came) {
        Err(ServerFault::Closed) => Err(ServerFault::Link),
        heard => heard,
    }
}

/// Reads once, behind what came before. An end is told as one at which no byte of a reply came.
fn hear_first<L: Link>(link: &mut L, came: &mut Vec<u8>) -> Result<(), ServerFault>
    ensures heard { OnOk result ((part : List ℕ) × (came.new.items ≡ came.old.items ++ part)
        × (L.talk link.new ≡ with_heard (L.talk link.old) part)) }
    ensures closed { IsErrOf result ServerFault.Closed → L.talk link.new ≡ L.talk link.old }
    ensures of_link { IfErr result (λ fault. IsOfLink fault) }
{
    let start = came.len();
    came.resize(start + ROOM, 0)?;
    let count = match link.read(&mut came.as_mut_slice()[start..]) {
        Ok(count) => count,
        Err(fault) => return Err(fault.unheard()),
    };
    if count == 0 {
        return Err(ServerFault::Closed);
    }
    came.truncate(start + count);
    Ok(())
}
