//! A desk.
ghost use Rattle.std.specs.Prelude.{◌≡◌, ◌<◌, ◌++◌, ◌&&◌, ◌↔◌, ℕ, [], length, map, true, if◌then◌else◌, is_some, is_ok, MatchResult, IfOk, IfErr, IfSome, OnOk, OnErr, IsFalse, IsTrue};
ghost use Rattle.std.specs.Option.{option_copied, option_map};
ghost use Rattle.ask_desk.specs.Asks.{ask_for, disowned, is_nobodys, next_due, due_of, answer_for, command_in};
ghost use Rattle.ask_desk.specs.Dialogue.{unanswered};
ghost use Rattle.ask_desk.specs.Past.{Past, no_past, past_asked, past_again, past_written, past_over, past_forsaken, past_ended, next_bytes, answers_in, IsReplyTo};
ghost use Rattle.ask_desk.specs.Kept.{kept_for, reply_of_ticket};
ghost use Rattle.ask_desk.specs.After.{IsAfter, IsHearing, IsHeard};
ghost use Rattle.ask_desk.specs.declared.fault.DeskFault.TheVariants.{NoMemory};

use crate::DeskFault;
use crate::ask::{Ask, Heard};
use crate::kept::{Answer, Kept};
use crate::reader::{Read, Reader, Step};
use octets::Bytes;
use resp::Reply;
use std::alloc::{AllocError, AllocFailed, Global};
use std::collections::VecDeque;
use std::mem;

/// What is asked of one server, over one connection at a time: the asks that wait, those that were told and await their
/// replies, and the replies that came. A new one has a connection over which nothing was told yet.
pub struct Desk {
    alloc: Global,
    /// How many asks there were.
    asked: u64,
    /// Those of which nothing is written.
    waiting: VecDeque<Ask>,
    /// Those that were told and aren't answered.
    awaited: VecDeque<Ask>,
    /// How many bytes of the last one of these aren't written yet.
    left: usize,
    /// What came of the next reply.
    reader: Reader,
    /// The replies that came.
    kept: Kept,
    /// Whether no more is heard over the connection.
    is_over: bool,
}

// Its own, so that what owns one calls it: a derived drop is spelled out wherever a value may be dropped.
impl Drop for Desk {
    fn drop(self) {
        let Desk {
            alloc: _,
            asked: _,
            waiting: _,
            awaited: _,
            left: _,
            reader: _,
            kept: _,
            is_over: _,
        } = self;
    }
}

/// Of the ask whose reply comes next.
#[derive(Clone, Copy)]
struct Due {
    owner: Option<u64>,
    ticket: u64,
    most: u32,
}

impl Desk {
    /// Nothing was asked. Takes no memory.
    pub fn new(alloc: Global) -> Self
        ensures { IsAfter no_past result }
    {
        Desk {
            alloc,
            asked: 0,
            waiting: VecDeque::new(alloc),
            awaited: VecDeque::new(alloc),
            left: 0,
            reader: Reader::new(alloc),
            kept: Kept::new(alloc),
            is_over: false,
        }
    }

    /// Asks for an owner, behind the others, and gives the ticket. A bulk string in the reply may have `most` bytes.
    /// Refused memory changes nothing.
    pub fn ask(&mut self, owner: u64, command: Bytes, most: u32) -> Result<u64, AllocError>
        ensures ticket { (past : Past) → IsAfter past self.old →
            IfOk result (λ ticket. ticket ≡ past.asked) }
        ensures after { (past : Past) → IsAfter past self.old → MatchResult result
            (λ ticket. IsAfter (past_asked (ask_for owner ticket command most) past) self.new)
            (λ _. IsAfter past self.new) }
    {
        let ticket = self.asked;
        let Some(asked) = ticket.checked_add(1) else {
            return Err(AllocError);
        };
        let ask = Ask {
            owner: Some(owner),
            ticket,
            command,
            most,
        };
        if self.waiting.push_back(ask).is_err() {
            return Err(AllocError);
        }
        self.asked = asked;
        Ok(ticket)
    }

    /// Asks again what [`Desk::end`] handed back, behind the others. What is nobody's isn't asked. Refused memory changes
    /// nothing, and hands it back.
    pub fn again(&mut self, ask: Ask) -> Result<(), AllocFailed<Ask>>
        ensures after { (past : Past) → IsAfter past self.old → IsAfter
            (if is_some ask.owner && is_ok result then past_again ask past else past) self.new }
        ensures handed_back { IfErr result (λ failed. failed.value ≡ ask) }
    {
        if ask.owner.is_none() {
            return Ok(());
        }
        self.waiting.push_back(ask)
    }

    /// What is to be written next: the rest of the ask that is begun, or else the oldest that isn't. Nothing where none
    /// waits.
    pub fn unwritten(&self) -> &[u8]
        ensures { (past : Past) → IsAfter past self.now → result.now ≡ next_bytes past }
    {
        if self.left == 0 {
            return command_of(self.waiting.front());
        }
        let command = command_of(self.awaited.back());
        &command[command.len().saturating_sub(self.left)..]
    }

    /// So many of these bytes were written. An ask is told as soon as its first byte is. Where memory is refused no more is
    /// heard.
    pub fn wrote(&mut self, count: usize) -> Result<(), DeskFault>
        requires { IsHearing self.old }
        ensures after { (past : Past) → IsAfter past self.old → MatchResult result
            (λ _. IsAfter (past_written count past) self.new)
            (λ fault. IsAfter (past_over [] fault past) self.new) }
        ensures no_memory { IfErr result (λ fault. fault ≡ NoMemory) }
    {
        if self.left > 0 {
            self.left = self.left.saturating_sub(count);
            return Ok(());
        }
        if count == 0 {
            return Ok(());
        }
        if self.awaited.reserve(1).is_err() {
            self.is_over = true;
            return Err(DeskFault::NoMemory);
        }
        if let Some(ask) = self.waiting.pop_front() {
            self.left = ask.command.len().saturating_sub(count);
            self.awaited.push_back_reserved(ask);
        }
        Ok(())
    }

    /// Hears bytes that came over the connection, one at least: takes some of them, at most as far as the next reply is
    /// whole. What is left of them is to be heard next. After a fault no more is heard until the connection is ended.
    pub fn hear(&mut self, bytes: &[u8]) -> Result<Heard, DeskFault>
        requires hearing { IsHearing self.old }
        requires some { 0 < length bytes.now }
        ensures { (past : Past) → IsAfter past self.old → MatchResult result
            (λ heard. IsHeard past bytes.now heard self.new)
            (λ fault. IsAfter (past_over bytes.now fault past) self.new) }
    {
        match self.hear_next(bytes) {
            Ok(heard) => Ok(heard),
            Err(fault) => {
                self.is_over = true;
                Err(fault)
            }
        }
    }

    /// The same, but for the note that no more is heard.
    fn hear_next(&mut self, bytes: &[u8]) -> Result<Heard, DeskFault>
        requires hearing { IsHearing self.old }
        requires some { 0 < length bytes.now }
        ensures { (past : Past) → IsAfter past self.old → MatchResult result
            (λ heard. IsHeard past bytes.now heard self.new)
            (λ fault. IsAfter (past_over bytes.now fault past)
            (record self.new { is_over = true })) }
    {
        let Some(due) = next_due(&self.awaited, self.left) else {
            return Err(DeskFault::Unasked);
        };
        let Step { count, read } = match self.reader.hear(bytes, due.most, due.owner.is_some()) {
            Ok(step) => step,
            Err(fault) => return Err(fault),
        };
        match read {
            Read::More => Ok(Heard { count, owner: None }),
            Read::Whole(reply) => {
                if keep(&mut self.kept, due, reply).is_err() {
                    return Err(DeskFault::NoMemory);
                }
                drop(self.awaited.pop_front());
                Ok(Heard {
                    count,
                    owner: due.owner,
                })
            }
            Read::Skipped => {
                drop(self.awaited.pop_front());
                Ok(Heard {
                    count,
                    owner: due.owner,
                })
            }
        }
    }

    /// The reply that came to an owner's ask with this ticket, which stays there. `None` where it didn't come yet, where
    /// its connection ended before, or where the owner forsook it.
    pub fn reply(&self, owner: u64, ticket: u64) -> Option<&Reply>
        ensures exact { (past : Past) → IsAfter past self.now →
            option_copied result ≡ reply_of_ticket ticket (answers_in owner past) }
        ensures in_order { (past : Past) → IsAfter past self.now →
            IfSome result (λ answer. IsReplyTo owner ticket past answer.now) }
    {
        self.kept.reply(owner, ticket)
    }

    /// An owner forsakes what it asked: of it nothing more is told, a reply to what was told is read into nothing, and those
    /// that came are let go.
    pub fn forsake(&mut self, owner: u64)
        ensures { (past : Past) → IsAfter past self.old →
            IsAfter (past_forsaken owner past) self.new }
    {
        disown(&mut self.awaited, owner);
        self.waiting.retain(|ask| !ask.is_of(owner));
        self.kept.drop_all_of(owner);
        self.reader.forget(is_nobodys(self.awaited.front()));
    }

    /// The connection ended. Hands back what was told and isn't answered, and begins anew: what isn't asked again is never
    /// answered.
    pub fn end(&mut self) -> VecDeque<Ask>
        ensures handed_back { (past : Past) → IsAfter past self.old →
            result.items ≡ unanswered past.now }
        ensures after { (past : Past) → IsAfter past self.old →
            IsAfter (past_ended past) self.new }
    {
        self.left = 0;
        self.is_over = false;
        self.reader.clear();
        mem::replace(&mut self.awaited, VecDeque::new(self.alloc))
    }

    /// Whether no more is heard over the connection, so that it has to be ended.
    pub fn is_over(&self) -> bool
        ensures { IsFalse result ↔ IsHearing self.now }
    {
        self.is_over
    }
}

/// The command of an ask, or nothing.
fn command_of(ask: Option<&Ask>) -> &[u8]
    ensures { result.now ≡ command_in (option_copied ask.entry) }
{
    match ask {
        Some(ask) => ask.command.as_slice(),
        None => &[],
    }
}

/// Whether an ask is nobody's.
fn is_nobodys(ask: Option<&Ask>) -> bool
    ensures { result ≡ is_nobodys (option_copied ask.entry) }
{
    match ask {
        Some(ask) => ask.owner.is_none(),
        None => false,
    }
}

/// Of the ask whose reply comes next: of those that were told and aren't answered the first one, once all of it was written.
fn next_due(awaited: &VecDeque<Ask>, left: usize) -> Option<Due>
    ensures { result ≡ option_map due_of (next_due left awaited.now.items) }
{
    if left > 0 && awaited.len() == 1 {
        return None;
    }
    let ask = awaited.front()?;
    Some(Due {
        owner: ask.owner,
        ticket: ask.ticket,
        most: ask.most,
    })
}

/// Keeps a reply for the owner of its ask, if it has one.
fn keep(kept: &mut Kept, due: Due, reply: Reply) -> Result<(), AllocError>
    ensures ok { OnOk result ((owner : ℕ) → kept_for kept.new.of_owners.entries owner
        ≡ kept_for kept.old.of_owners.entries owner ++ answer_for owner due reply) }
    ensures err { OnErr result ((owner : ℕ) → kept_for kept.new.of_owners.entries owner
        ≡ kept_for kept.old.of_owners.entries owner) }
{
    match due.owner {
        Some(owner) => kept.keep(
            owner,
            Answer {
                ticket: due.ticket,
                reply,
            },
        ),
        None => Ok(()),
    }
}

/// Makes all asks of an owner nobody's.
fn disown(asks: &mut VecDeque<Ask>, owner: u64)
    ensures { asks.new.items ≡ map (disowned owner) asks.old.items }
{
    for place in 0..asks.len() {
        if let Some(ask) = asks.get_mut(place) {
            ask.disown(owner);
        }
    }
}
