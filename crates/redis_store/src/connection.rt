//! A connection that is made anew where it is needed.
ghost use Rattle.std.specs.Prelude.{◌≡◌, ◌<◌, ◌⊎◌, ◌↔◌, ℕ, List, Bool, None, Some, true, false, vec_len, IsTrue, IfSome, IfOk, IfErr, IsErrOf, OnOk};
ghost use Rattle.std.specs.List.{flat_map};
ghost use Rattle.std.specs.Option.{ForSome};
ghost use Rattle.resp.specs.Spelled.{SpellsReply, SpellsAll};
ghost use Rattle.resp.specs.declared.reply.Reply.{Reply};
ghost use Rattle.redis_store.specs.Replies.{IsOkReply, IsError, IsValue};
ghost use Rattle.redis_store.specs.Exchanges.{short_limits, with_command, with_heard, with_exchange, IsGreeted};
ghost use Rattle.redis_store.specs.Ahead.{ahead, before_last, IsToldLast};
ghost use Rattle.redis_store.specs.Answers.{SaysWhether};
ghost use Rattle.redis_store.specs.Commands.{auth_command, get_command, put_command};
ghost use Rattle.redis_store.specs.GridText.{grid_text};
ghost use Rattle.redis_store.specs.AfterExchange.{IsRestBegun, IsWell, IsBreak, IsErrorReply, IsLeftAfter, IsOfLink, IsOfReply};
ghost use Rattle.redis_store.specs.Told.{found_reply, IsAtHand, IsOpened, IsToldIn, IsToldOf};

use crate::ServerFault;
use crate::answers::{bytes_in, fault_of, is_done, said_in};
use crate::commands::{PUT, auth, get, put};
use crate::link::Link;
use crate::settings_key::{check_grid, grid_text};
use crate::talk::{hear_all, talk, talk_each, talk_parts};
use folder_shelf::StoreSettings;
use octets::Bytes;
use resp::{Limits, Reply};
use std::alloc::Global;

/// How large a reply without a share in it may be.
pub(crate) const SHORT: Limits = Limits {
    line: 512,
    bulk: 512,
    elements: 16,
};

/// For how many seconds a server is left alone the first time.
const FIRST_REST: u64 = 1;

/// For how many seconds it is left alone at most.
const LONGEST_REST: u64 = 60;

/// What a new connection says and asks before anything else.
#[derive(Drop)]
pub(crate) struct Greeting {
    /// What the server wants to be told first.
    pub(crate) password: Option<Bytes>,
    /// The name under which it stands whose the server is.
    pub(crate) name: Bytes,
    /// Whose it has to be.
    pub(crate) settings: StoreSettings,
}

/// How long a server is left alone.
#[derive(Clone, Copy, PartialEq, Eq)]
pub(crate) struct Rest {
    /// For so many seconds, the next time.
    pub(crate) seconds: u64,
    /// Until then, in the link's seconds.
    pub(crate) until: u64,
}

/// Commands that were told ahead: their replies are awaited.
#[derive(Drop)]
pub(crate) struct Awaited {
    /// The commands, one behind the other.
    pub(crate) commands: Bytes,
    /// How many they are.
    pub(crate) count: u16,
}

/// A connection to a server, or the way to one.
pub(crate) struct Connection<L: Link + Drop> {
    pub(crate) alloc: Global,
    pub(crate) link: L,
    pub(crate) first: Greeting,
    pub(crate) rest: Rest,
    /// Whether one is open, of which all that it was told is answered.
    pub(crate) is_open: bool,
    /// What was told last over one that isn't answered yet.
    pub(crate) awaited: Option<Awaited>,
    ghost told: { ForSome awaited (λ told. IsToldLast (L.talk link) told.commands) },
    ghost busy: { ForSome awaited (λ _. is_open ≡ false) },
}

// Its own, so that what owns one calls it: a derived drop is spelled out wherever a value may be dropped.
impl<L: Link + Drop> Drop for Connection<L> {
    fn drop(self) {
        let Connection {
            alloc: _,
            link: _,
            first: _,
            rest: _,
            is_open: _,
            awaited: _,
        } = self;
    }
}

impl<L: Link + Drop> Connection<L> {
    /// The way to a server. It is not gone yet.
    pub(crate) fn new(alloc: Global, link: L, first: Greeting) -> Self
        ensures link { result.link ≡ link }
        ensures first { result.first ≡ first }
        ensures rest { result.rest ≡ record { seconds = 1; until = 0 } }
        ensures closed { (result.is_open ≡ false) × (result.awaited ≡ None) }
    {
        Connection {
            alloc,
            link,
            first,
            rest: Rest {
                seconds: FIRST_REST,
                until: 0,
            },
            is_open: false,
            awaited: None,
        }
    }

    /// Tells a command, whose parts are written one behind the other, and gives its reply. Where no connection is open one
    /// is opened first. Where one was open and ended before a byte of the reply came, the command is told once more, over
    /// a new one.
    pub(crate) fn ask(&mut self, limits: Limits, parts: &[&[u8]]) -> Result<Reply, ServerFault>
        requires { 0 < limits.line }
        ensures open { OnOk result (self.new.is_open ≡ true) }
        ensures told { IfOk result (λ reply. (came : List ℕ) × SpellsReply limits reply came
            × IsToldIn self.old.is_open self.old.first (L.talk self.old.link)
            (L.talk self.new.link) (flat_map (λ part. part.now) parts.now) came) }
        ensures rest { OnOk result (self.new.rest ≡ self.old.rest) }
        ensures left { IfErr result (λ fault.
            IsLeftAfter fault self.old.rest self.new.is_open self.new.rest) }
        ensures not_refused { IfErr result (λ fault. IsErrorReply fault → ⊥) }
        ensures first { self.new.first ≡ self.old.first }
    {
        if self.is_open {
            match talk_parts(self.alloc, &mut self.link, limits, parts) {
                Err(ServerFault::Closed) => self.close(),
                answer => return self.keep(answer),
            }
        }
        self.ask_anew(limits, parts)
    }

    /// Tells a command over a new connection, and gives its reply.
    fn ask_anew(&mut self, limits: Limits, parts: &[&[u8]]) -> Result<Reply, ServerFault>
        requires line { 0 < limits.line }
        requires none_open { self.old.is_open ≡ false }
        ensures open { OnOk result (self.new.is_open ≡ true) }
        ensures told { IfOk result (λ reply. (came : List ℕ) × SpellsReply limits reply came
            × IsToldIn false self.old.first (L.talk self.old.link)
            (L.talk self.new.link) (flat_map (λ part. part.now) parts.now) came) }
        ensures rest { OnOk result (self.new.rest ≡ self.old.rest) }
        ensures left { IfErr result (λ fault.
            IsLeftAfter fault self.old.rest self.new.is_open self.new.rest) }
        ensures not_refused { IfErr result (λ fault. IsErrorReply fault → ⊥) }
        ensures first { self.new.first ≡ self.old.first }
    {
        self.ready()?;
        let answer = talk_parts(self.alloc, &mut self.link, limits, parts);
        self.keep(answer)
    }

    /// Tells several commands in one exchange, and gives a reply to each. The connection is that of [`Self::ask`].
    pub(crate) fn ask_each(
        &mut self,
        limits: Limits,
        commands: &[u8],
        count: u16,
    ) -> Result<Vec<Reply>, ServerFault>
        requires { 0 < limits.line }
        ensures open { OnOk result (self.new.is_open ≡ true) }
        ensures told { IfOk result (λ replies. (came : List ℕ)
            × SpellsAll (SpellsReply limits) replies.items came
            × IsToldIn self.old.is_open self.old.first
            (L.talk self.old.link) (L.talk self.new.link) commands.now came) }
        ensures count { IfOk result (λ replies. vec_len replies ≡ count) }
        ensures rest { OnOk result (self.new.rest ≡ self.old.rest) }
        ensures left { IfErr result (λ fault.
            IsLeftAfter fault self.old.rest self.new.is_open self.new.rest) }
        ensures not_refused { IfErr result (λ fault. IsErrorReply fault → ⊥) }
        ensures first { self.new.first ≡ self.old.first }
    {
        if self.is_open {
            match talk_each(self.alloc, &mut self.link, limits, commands, count) {
                Err(ServerFault::Closed) => self.close(),
                answer => return self.keep(answer),
            }
        }
        self.ask_each_anew(limits, commands, count)
    }

    /// Tells several commands in one exchange over a new connection, and gives a reply to each.
    fn ask_each_anew(
        &mut self,
        limits: Limits,
        commands: &[u8],
        count: u16,
    ) -> Result<Vec<Reply>, ServerFault>
        requires line { 0 < limits.line }
        requires none_open { self.old.is_open ≡ false }
        ensures open { OnOk result (self.new.is_open ≡ true) }
        ensures told { IfOk result (λ replies. (came : List ℕ)
            × SpellsAll (SpellsReply limits) replies.items came
            × IsToldIn false self.old.first
            (L.talk self.old.link) (L.talk self.new.link) commands.now came) }
        ensures count { IfOk result (λ replies. vec_len replies ≡ count) }
        ensures rest { OnOk result (self.new.rest ≡ self.old.rest) }
        ensures left { IfErr result (λ fault.
            IsLeftAfter fault self.old.rest self.new.is_open self.new.rest) }
        ensures not_refused { IfErr result (λ fault. IsErrorReply fault → ⊥) }
        ensures first { self.new.first ≡ self.old.first }
    {
        self.ready()?;
        let answer = talk_each(self.alloc, &mut self.link, limits, commands, count);
        self.keep(answer)
    }

    /// Hands an answer on. Where it is a fault the connection is let go, and the server left alone for a while.
    fn keep<T>(&mut self, answer: Result<T, ServerFault>) -> Result<T, ServerFault>
        requires { IfErr answer (λ fault. IsOfLink fault) }
        ensures answer { result ≡ answer }
        ensures kept { OnOk answer (self.new ≡ self.old) }
        ensures left { IfErr answer (λ fault.
            IsLeftAfter fault self.old.rest self.new.is_open self.new.rest) }
        ensures first { self.new.first ≡ self.old.first }
    {
        match answer {
            Ok(value) => Ok(value),
            Err(fault) => {
                self.let_go(fault);
                Err(fault)
            }
        }
    }

    /// Tells several commands ahead, and waits for nothing. Until their replies are taken the connection is open for
    /// nothing else. Where they can't be told it is let go, as if it had been lost: the next call makes another.
    pub(crate) fn tell_ahead(&mut self, commands: Bytes, count: u16)
        requires { self.old.is_open ≡ true }
        ensures closed { self.new.is_open ≡ false }
        ensures ahead { IfSome self.new.awaited (λ told.
            (Some told ≡ ahead commands count)
            × (L.talk self.new.link ≡ with_command (L.talk self.old.link) commands)) }
        ensures rest { self.new.rest ≡ self.old.rest }
        ensures first { self.new.first ≡ self.old.first }
    {
        self.awaited = None;
        self.is_open = false;
        match self.link.write_all(&[commands.as_slice()]) {
            Ok(()) => {
                self.awaited = Some(Awaited { commands, count });
            }
            Err(_fault) => self.link.close(),
        }
    }

    /// Whether it is just these commands whose replies are awaited.
    fn awaits(&self, commands: &[u8], count: u16) -> bool
        ensures { IsTrue result ↔ (self.now.awaited ≡ ahead commands.now count) }
    {
        match &self.awaited {
            None => false,
            Some(ahead) => ahead.commands.as_slice() == commands && ahead.count == count,
        }
    }

    /// The replies to several commands that were told ahead, just these and nothing behind them. Else they are told now,
    /// in one exchange, and so they are where the connection ended before a byte of the replies came.
    pub(crate) fn take_each(
        &mut self,
        limits: Limits,
        commands: &[u8],
        count: u16,
    ) -> Result<Vec<Reply>, ServerFault>
        requires { 0 < limits.line }
        ensures open { OnOk result (self.new.is_open ≡ true) }
        ensures told { (self.old.awaited ≡ ahead commands.now count → ⊥) →
            IfOk result (λ replies. (came : List ℕ)
            × SpellsAll (SpellsReply limits) replies.items came
            × IsToldIn self.old.is_open self.old.first
            (L.talk self.old.link) (L.talk self.new.link) commands.now came) }
        ensures told_ahead { self.old.awaited ≡ ahead commands.now count →
            IfOk result (λ replies. (came : List ℕ)
            × SpellsAll (SpellsReply limits) replies.items came
            × IsToldIn true self.old.first
            (before_last (L.talk self.old.link)) (L.talk self.new.link) commands.now came) }
        ensures count { IfOk result (λ replies. vec_len replies ≡ count) }
        ensures rest { OnOk result (self.new.rest ≡ self.old.rest) }
        ensures left { IfErr result (λ fault.
            IsLeftAfter fault self.old.rest self.new.is_open self.new.rest) }
        ensures not_refused { IfErr result (λ fault. IsErrorReply fault → ⊥) }
        ensures first { self.new.first ≡ self.old.first }
    {
        if self.awaits(commands, count) {
            self.take_ahead(limits, commands, count)
        } else {
            self.ask_each(limits, commands, count)
        }
    }

    /// The replies to just these commands, which are awaited. Where the connection ended before a byte of them came, the
    /// commands are told once more, over a new one.
    fn take_ahead(
        &mut self,
        limits: Limits,
        commands: &[u8],
        count: u16,
    ) -> Result<Vec<Reply>, ServerFault>
        requires line { 0 < limits.line }
        requires awaited { self.old.awaited ≡ ahead commands.now count }
        ensures open { OnOk result (self.new.is_open ≡ true) }
        ensures told { IfOk result (λ replies. (came : List ℕ)
            × SpellsAll (SpellsReply limits) replies.items came
            × IsToldIn true self.old.first
            (before_last (L.talk self.old.link)) (L.talk self.new.link) commands.now came) }
        ensures count { IfOk result (λ replies. vec_len replies ≡ count) }
        ensures rest { OnOk result (self.new.rest ≡ self.old.rest) }
        ensures left { IfErr result (λ fault.
            IsLeftAfter fault self.old.rest self.new.is_open self.new.rest) }
        ensures not_refused { IfErr result (λ fault. IsErrorReply fault → ⊥) }
        ensures first { self.new.first ≡ self.old.first }
    {
        let answer = self.hear_ahead(limits, count);
        if !is_closed(&answer) {
            return self.keep(answer);
        }
        self.close();
        self.ask_each_anew(limits, commands, count)
    }

    /// The replies to what was told ahead. After a fault nothing is awaited, and no connection is open.
    fn hear_ahead(&mut self, limits: Limits, count: u16) -> Result<Vec<Reply>, ServerFault>
        requires line { 0 < limits.line }
        requires none_open { self.old.is_open ≡ false }
        ensures open { OnOk result (self.new.is_open ≡ true) }
        ensures heard { IfOk result (λ replies. (came : List ℕ)
            × SpellsAll (SpellsReply limits) replies.items came
            × (L.talk self.new.link ≡ with_heard (L.talk self.old.link) came)) }
        ensures count { IfOk result (λ replies. vec_len replies ≡ count) }
        ensures closed { IsErrOf result ServerFault.Closed
            → L.talk self.new.link ≡ L.talk self.old.link }
        ensures of_link { IfErr result (λ fault. IsOfLink fault) }
        ensures rest { self.new.rest ≡ self.old.rest }
        ensures first { self.new.first ≡ self.old.first }
    {
        self.awaited = None;
        self.link.give_time();
        let replies = hear_all(self.alloc, &mut self.link, limits, count)?;
        self.is_open = true;
        Ok(replies)
    }

    /// Opens a connection where none is open. Nothing is done where the server is left alone. Replies that were awaited
    /// aren't any more.
    pub(crate) fn ready(&mut self) -> Result<(), ServerFault>
        ensures none_awaited { self.new.awaited ≡ None }
        ensures open { OnOk result (self.new.is_open ≡ true) }
        ensures at_hand { OnOk result (IsAtHand self.old.is_open self.old.first
            (L.talk self.old.link) (L.talk self.new.link)) }
        ensures rest { OnOk result (self.new.rest ≡ self.old.rest) }
        ensures left { IfErr result (λ fault.
            IsLeftAfter fault self.old.rest self.new.is_open self.new.rest) }
        ensures not_refused { IfErr result (λ fault. IsErrorReply fault → ⊥) }
        ensures first { self.new.first ≡ self.old.first }
    {
        if self.is_open {
            return Ok(());
        }
        self.awaited = None;
        if self.link.seconds() < self.rest.until {
            return Err(ServerFault::Resting);
        }
        match greet(self.alloc, &mut self.link, &self.first) {
            Ok(()) => {
                self.is_open = true;
                Ok(())
            }
            Err(fault) => {
                self.let_go(fault);
                Err(fault)
            }
        }
    }

    /// An answer came to what was told: no rest is begun, and the next one is of a second.
    pub(crate) fn well(&mut self)
        ensures well { IsWell self.old.rest self.new.rest }
        ensures link { self.new.link ≡ self.old.link }
        ensures open { self.new.is_open ≡ self.old.is_open }
        ensures first { self.new.first ≡ self.old.first }
    {
        self.rest.seconds = FIRST_REST;
    }

    /// A reply came that is none of those that were wanted. After an error reply the connection stays, since it is
    /// healthy, unless a replica answered: then it is let go, so that the next one is made to where the primary is by
    /// then. For another reply it is let go and the server left alone.
    pub(crate) fn reject(&mut self, fault: ServerFault)
        requires open { self.old.is_open ≡ true }
        requires of_reply { IsOfReply fault }
        ensures left { IsLeftAfter fault self.old.rest self.new.is_open self.new.rest }
        ensures healthy { IsErrorReply fault → L.talk self.new.link ≡ L.talk self.old.link }
        ensures first { self.new.first ≡ self.old.first }
    {
        match fault {
            ServerFault::Refused | ServerFault::Full => self.well(),
            ServerFault::Replica => {
                self.close();
                self.well();
            }
            ServerFault::OtherReply => self.let_go(fault),
            _ => {}
        }
    }

    /// Lets the connection go for this fault, and the server alone for a while, where it isn't for want of memory
    /// here. Each time in a row that is for twice as long.
    fn let_go(&mut self, fault: ServerFault)
        requires { IsBreak fault }
        ensures left { IsLeftAfter fault self.old.rest self.new.is_open self.new.rest }
        ensures none_awaited { self.new.awaited ≡ None }
        ensures first { self.new.first ≡ self.old.first }
    {
        self.close();
        if fault != ServerFault::NoMemory {
            self.begin_rest();
        }
    }

    /// Lets the connection go, and what was awaited over it.
    fn close(&mut self)
        ensures closed { (self.new.is_open ≡ false) × (self.new.awaited ≡ None) }
        ensures talk { L.talk self.new.link ≡ L.talk self.old.link }
        ensures rest { self.new.rest ≡ self.old.rest }
        ensures first { self.new.first ≡ self.old.first }
    {
        self.awaited = None;
        self.is_open = false;
        self.link.close();
    }

    /// Leaves the server alone for a while.
    fn begin_rest(&mut self)
        ensures begun { IsRestBegun self.old.rest self.new.rest }
        ensures open { self.new.is_open ≡ self.old.is_open }
        ensures awaited { self.new.awaited ≡ self.old.awaited }
        ensures first { self.new.first ≡ self.old.first }
    {
        self.rest.until = self.link.seconds().saturating_add(self.rest.seconds);
        self.rest.seconds = self.rest.seconds.saturating_mul(2).min(LONGEST_REST);
    }

    /// The link.
    pub(crate) fn into_link(self) -> L
        ensures { result ≡ self.link }
    {
        let Connection {
            alloc: _,
            link,
            first: _,
            rest: _,
            is_open: _,
            awaited: _,
        } = self;
        link
    }
}

/// Whether the connection ended before a byte of the answer came.
fn is_closed<T>(answer: &Result<T, ServerFault>) -> bool
    ensures { IsTrue result ↔ IsErrOf answer.now ServerFault.Closed }
{
    matches!(answer, Err(ServerFault::Closed))
}

/// Opens a connection, says who asks, and looks whose the server is. Where nothing says so yet it is put there, and
/// looked at again: another may have come first.
fn greet<L: Link>(alloc: Global, link: &mut L, first: &Greeting) -> Result<(), ServerFault>
    ensures opened { OnOk result (IsOpened first.now (L.talk link.old) (L.talk link.new)) }
    ensures wrong { IfErr result (λ fault. IsToldOf fault first.now (L.talk link.new)) }
{
    connect_as(alloc, link, &first.password)?;
    if compare(alloc, link, first)? {
        return Ok(());
    }
    claim(alloc, link, first)?;
    if compare(alloc, link, first)? {
        Ok(())
    } else {
        Err(ServerFault::OtherReply)
    }
}

/// Opens a connection, and says who asks.
fn connect_as<L: Link>(
    alloc: Global,
    link: &mut L,
    password: &Option<Bytes>,
) -> Result<(), ServerFault>
    ensures greeted { OnOk result (IsGreeted password.now (L.talk link.old) (L.talk link.new)) }
    ensures of_link { IfErr result (λ fault. IsOfLink fault) }
{
    link.connect()?;
    match password {
        None => Ok(()),
        Some(password) => log_in(alloc, link, password.as_slice()),
    }
}

/// Says who asks.
fn log_in<L: Link>(alloc: Global, link: &mut L, password: &[u8]) -> Result<(), ServerFault>
    ensures taken { OnOk result ((reply : Reply) × (came : List ℕ) × IsOkReply reply
        × SpellsReply short_limits reply came × (L.talk link.new
        ≡ with_exchange (L.talk link.old) (auth_command password.now) came)) }
    ensures of_link { IfErr result (λ fault. IsOfLink fault) }
{
    let command = auth(alloc, password)?;
    let reply = talk(alloc, link, SHORT, &command)?;
    if is_done(&reply) {
        return Ok(());
    }
    match fault_of(&reply) {
        ServerFault::OtherReply => Err(ServerFault::OtherReply),
        _ => Err(ServerFault::NotAdmitted),
    }
}

/// Whether the server is the one that is wanted. `false` where nothing says whose it is.
fn compare<L: Link>(alloc: Global, link: &mut L, first: &Greeting) -> Result<bool, ServerFault>
    ensures asked { IfOk result (λ ours. (came : List ℕ)
        × SpellsReply short_limits (found_reply ours (grid_text first.now.settings)) came
        × (L.talk link.new
        ≡ with_exchange (L.talk link.old) (get_command first.now.name) came)) }
    ensures wrong { IfErr result (λ fault. IsToldOf fault first.now (L.talk link.new)) }
{
    let command = get(alloc, first.name.as_slice())?;
    let reply = talk(alloc, link, SHORT, &command)?;
    let Some(text) = text_in(reply)? else {
        return Ok(false);
    };
    check_grid(alloc, text.as_slice(), &first.settings)?;
    Ok(true)
}

/// The text that stands under a name, or that none does.
fn text_in(reply: Reply) -> Result<Option<Bytes>, ServerFault>
    ensures found { IfOk result (λ text. IsValue reply text) }
    ensures of_link { IfErr result (λ fault. IsOfLink fault) }
{
    let fault = not_opened(&reply);
    match bytes_in(reply) {
        Some(text) => Ok(text),
        None => Err(fault),
    }
}

/// Says whose the server is, where nothing does yet.
fn claim<L: Link>(alloc: Global, link: &mut L, first: &Greeting) -> Result<(), ServerFault>
    ensures told { OnOk result ((said : Bool) × (answer : Reply) × (came : List ℕ)
        × SaysWhether said answer × SpellsReply short_limits answer came
        × (L.talk link.new ≡ with_exchange (L.talk link.old)
        (put_command first.now.name (grid_text first.now.settings)) came)) }
    ensures of_link { IfErr result (λ fault. IsOfLink fault) }
{
    let text = grid_text(alloc, &first.settings)?;
    let command = put(alloc, PUT, first.name.as_slice(), &text)?;
    let reply = talk(alloc, link, SHORT, &command)?;
    match said_in(&reply) {
        Ok(_put) => Ok(()),
        Err(_fault) => Err(not_opened(&reply)),
    }
}

/// What is wrong with a reply to what a new connection asks.
fn not_opened(reply: &Reply) -> ServerFault
    ensures { ((result ≡ ServerFault.NotOpened) × IsError reply.now)
        ⊎ ((result ≡ ServerFault.OtherReply) × (IsError reply.now → ⊥)) }
{
    match fault_of(reply) {
        ServerFault::OtherReply => ServerFault::OtherReply,
        _ => ServerFault::NotOpened,
    }
}
