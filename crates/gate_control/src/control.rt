//! The connections of a control listener.
ghost use Rattle.std.specs.Prelude.{◌≡◌, ◌<◌, ◌≤◌, ℕ, List, Option, false, None, IfOk, IfSome, IsTrue, option_map};
ghost use Rattle.std.specs.List.{list_any};
ghost use Rattle.http_edge.specs.FramingState.{frame_from};
ghost use Rattle.http_edge.specs.Judge.{is_head_request};
ghost use Rattle.gate_limits.specs.Bearer.{challenge, is_authorized};
ghost use Rattle.gate_limits.specs.Foreign.{foreign_in, refusal};
ghost use Rattle.gate_control.specs.Admitted.{is_admitted, is_admitted_item};
ghost use Rattle.gate_control.specs.declared.control.Goes.TheVariants as goes;

use gate_core::Gateway;
use gate_limits::{Counts, Here, challenge, foreign_by, is_authorized, refusal};
use http_edge::{Conn, Head, Item, Reply, ReplyField, ReplyFields, Status, continue_text, render};
use mio::net::TcpStream;
use octets::Bytes;
use share_store::Store;
use std::alloc::{AllocError, Global};
use std::collections::BTreeMap;
use std::io::{Error, ErrorKind, Read, Write};
use std::net::Shutdown;
use std::time::{Duration, Instant};

/// How many control connections may be open.
const MOST: usize = 16;

/// How many bytes one may send.
const REQUEST: usize = 16_384;

/// For how many seconds one may be open.
const SECONDS: u64 = 10;

/// How many bytes are read at a time.
const SCRATCH: usize = 4096;

/// How often a socket is called in one turn: one that sends more than it may is closed before.
const CALLS: u32 = 32;

/// What a control request is answered, and whether serving is to stop.
#[derive(Drop)]
pub struct Answer {
    pub reply: Reply,
    pub stops: bool,
}

/// What answers the requests of a control listener. Those that come from elsewhere are refused before, and so are those
/// that don't bring the token that is wanted.
pub trait Control<S: Store> {
    /// The token that is wanted.
    ghost wanted: { Self → Option (List ℕ) };

    /// The token that each request has to bring. `None` where none is wanted.
    fn token(&self) -> Option<&[u8]>
        ensures { option_map (λ token. token.now) result ≡ wanted self.now };

    /// Answers a request. Its connection is closed after that.
    fn answer(
        &mut self,
        alloc: Global,
        head: &Head,
        counts: &Counts,
        gateway: &Gateway<S>,
    ) -> Result<Answer, AllocError>;
}

/// Answers each request that there is nothing, for a loop without a control listener.
#[derive(Clone, Copy, PartialEq, Eq)]
pub struct NoControl;

impl<S: Store> Control<S> for NoControl {
    ghost wanted = { λ _. None };

    fn token(&self) -> Option<&[u8]> {
        None
    }

    fn answer(
        &mut self,
        alloc: Global,
        _head: &Head,
        _counts: &Counts,
        _gateway: &Gateway<S>,
    ) -> Result<Answer, AllocError> {
        Ok(Answer {
            reply: text_reply(alloc, Status::NotFound, b"not found\n")?,
            stops: false,
        })
    }
}

/// A reply with a line of text.
pub fn text_reply(alloc: Global, status: Status, words: &[u8]) -> Result<Reply, AllocError> {
    let mut fields = ReplyFields::new(alloc);
    fields.push(ReplyField::constant(b"Content-Type", b"text/plain; charset=utf-8"))?;
    Ok(Reply {
        status,
        fields,
        body: Bytes::from_slice(alloc, words)?,
    })
}

/// What a control connection does.
#[derive(Clone, Copy, PartialEq, Eq)]
enum Phase {
    /// It sends its request.
    Asks,
    /// It takes its reply.
    Told,
    /// It has its reply, and what it still sends is dropped.
    Leaves,
}

/// Whether a control connection goes on.
#[derive(Clone, Copy, PartialEq, Eq)]
enum Goes {
    /// It has more to do at once.
    On,
    /// It waits for its socket.
    Waits,
    /// It is over.
    Over,
}

/// A control connection.
struct ControlConnection {
    alloc: Global,
    stream: TcpStream,
    /// The address that it came to.
    here: Here,
    conn: Conn,
    phase: Phase,
    /// How many bytes it sent.
    taken: usize,
    /// What is said to it, and how much of that was written.
    said: Vec<u8>,
    written: usize,
    opened: Instant,
    /// Whether its socket was reported ready since its last turn.
    is_ready: bool,
}

// Its own, so that what owns one calls it: a derived drop is spelled out wherever a value may be dropped.
impl Drop for ControlConnection {
    fn drop(self) {
        let ControlConnection {
            alloc: _,
            stream: _,
            here: _,
            conn: _,
            phase: _,
            taken: _,
            said: _,
            written: _,
            opened: _,
            is_ready: _,
        } = self;
    }
}

/// What a request is told, and whether serving is to stop.
#[derive(Drop)]
struct Told {
    bytes: Vec<u8>,
    stops: bool,
}

/// The control connections by their ids.
#[derive(Drop)]
pub struct ControlTable {
    alloc: Global,
    callers: BTreeMap<u64, ControlConnection>,
    scratch: Vec<u8>,
    /// Whether a request asked that serving stop.
    pub stops: bool,
}

impl ControlConnection {
    /// One that was just accepted. `None` where the system doesn't say to which address it came, or memory is refused.
    fn new(alloc: Global, stream: TcpStream, now: Instant) -> Option<ControlConnection> {
        let address = stream.local_addr().ok()?;
        let here = Here::of(alloc, address.ip().to_canonical(), address.port()).ok()?;
        Some(ControlConnection {
            alloc,
            stream,
            here,
            conn: Conn::new(alloc),
            phase: Phase::Asks,
            taken: 0,
            said: Vec::new(alloc),
            written: 0,
            opened: now,
            is_ready: true,
        })
    }

    /// Goes on as far as its socket lets it.
    fn turn<S: Store, C: Control<S>>(
        &mut self,
        scratch: &mut [u8],
        control: &mut C,
        counts: &Counts,
        gateway: &Gateway<S>,
        stops: &mut bool,
    ) -> Goes {
        for _ in 0..CALLS {
            let goes = match self.phase {
                Phase::Asks => self.ask(scratch, control, counts, gateway, stops),
                Phase::Told => self.tell(),
                Phase::Leaves => self.drop_rest(scratch),
            };
            if goes != Goes::On {
                return goes;
            }
        }
        Goes::Over
    }

    /// Reads once, and answers the request that stands complete.
    fn ask<S: Store, C: Control<S>>(
        &mut self,
        scratch: &mut [u8],
        control: &mut C,
        counts: &Counts,
        gateway: &Gateway<S>,
        stops: &mut bool,
    ) -> Goes
        ensures limit { self.old.taken ≤ 16384 → 16384 < self.new.taken → result ≡ goes.Over }
    {
        let count = match (&self.stream).read(scratch) {
            Ok(0) => return Goes::Over,
            Ok(count) => count,
            Err(error) => return after(&error),
        };
        self.taken = self.taken.saturating_add(count);
        if self.taken > REQUEST {
            return Goes::Over;
        }
        match self.hear(&scratch[..count], control, counts, gateway) {
            Ok(asked) => {
                *stops = *stops || asked;
                Goes::On
            }
            Err(_) => Goes::Over,
        }
    }

    /// Takes bytes of a request, and says whether it asked that serving stop.
    fn hear<S: Store, C: Control<S>>(
        &mut self,
        piece: &[u8],
        control: &mut C,
        counts: &Counts,
        gateway: &Gateway<S>,
    ) -> Result<bool, AllocError>
        ensures taken { self.new.taken ≡ self.old.taken }
        ensures stop { IfOk result (λ stops. IsTrue stops →
            IsTrue (list_any (is_admitted_item self.old.here.address self.old.here.localhost
            (C.wanted control.old)) (frame_from self.old.conn piece.now))) }
    {
        let items = self.conn.feed(piece)?;
        self.answer_first(items, control, counts, gateway)
    }

    /// Answers the first of these items that is a request or a fault, and says whether it asked that serving stop.
    fn answer_first<S: Store, C: Control<S>>(
        &mut self,
        items: Vec<Item>,
        control: &mut C,
        counts: &Counts,
        gateway: &Gateway<S>,
    ) -> Result<bool, AllocError>
        ensures taken { self.new.taken ≡ self.old.taken }
        ensures stop { IfOk result (λ stops. IsTrue stops →
            IsTrue (list_any (is_admitted_item self.old.here.address self.old.here.localhost
            (C.wanted control.old)) items.items)) }
    {
        for item in items {
            match item {
                Item::Request { head, .. } => {
                    let told = answer_to(self.alloc, &self.here, &head, control, counts, gateway)?;
                    self.say(&told.bytes)?;
                    return Ok(told.stops);
                }
                Item::Continue => self.said.extend_from_slice(continue_text())?,
                Item::Fault { head_only, .. } => {
                    let reply = text_reply(self.alloc, Status::BadRequest, b"bad request\n")?;
                    let bytes = render(self.alloc, &reply, head_only, true)?;
                    self.say(&bytes)?;
                    return Ok(false);
                }
            }
        }
        Ok(false)
    }

    /// Says a reply, and nothing after it.
    fn say(&mut self, reply: &[u8]) -> Result<(), AllocError>
        ensures { self.new.taken ≡ self.old.taken }
    {
        self.said.extend_from_slice(reply)?;
        self.phase = Phase::Told;
        Ok(())
    }

    /// Writes once.
    fn tell(&mut self) -> Goes {
        let rest = self.said.get(self.written..).unwrap_or(&[]);
        if rest.is_empty() {
            self.phase = Phase::Leaves;
            return match self.stream.shutdown(Shutdown::Write) {
                Ok(()) => Goes::On,
                Err(_) => Goes::Over,
            };
        }
        match (&self.stream).write(rest) {
            Ok(0) => Goes::Over,
            Ok(count) => {
                self.written = self.written.saturating_add(count);
                Goes::On
            }
            Err(error) => after(&error),
        }
    }

    /// Reads once, and drops what came.
    fn drop_rest(&mut self, scratch: &mut [u8]) -> Goes {
        match (&self.stream).read(scratch) {
            Ok(0) => Goes::Over,
            Ok(_) => Goes::On,
            Err(error) => after(&error),
        }
    }
}

/// What a request is told that came to this address. One that comes from elsewhere is refused, whatever it asks, and so is
/// one that doesn't bring the token that is wanted: of both `control` is not asked. A reply to HEAD has no body (RFC 9110,
/// section 9.3.2).
fn answer_to<S: Store, C: Control<S>>(
    alloc: Global,
    here: &Here,
    head: &Head,
    control: &mut C,
    counts: &Counts,
    gateway: &Gateway<S>,
) -> Result<Told, AllocError>
    ensures foreign { IfSome (foreign_in here.now.address here.now.localhost head.now.fields)
        (λ why. (control.new ≡ control.old) × IfOk result (λ told. (told.stops ≡ false)
        × (told.bytes.items ≡ refusal why (is_head_request head.now)))) }
    ensures unauthorized { foreign_in here.now.address here.now.localhost head.now.fields ≡ None →
        is_authorized (C.wanted control.old) head.now.fields ≡ false →
        (control.new ≡ control.old) × IfOk result (λ told. (told.stops ≡ false)
        × (told.bytes.items ≡ challenge (is_head_request head.now))) }
    ensures admitted { IfOk result (λ told. IsTrue told.stops →
        IsTrue (is_admitted here.now.address here.now.localhost (C.wanted control.old) head.now.fields)) }
{
    let head_only = head.is_head_request();
    if let Some(why) = foreign_by(here, head.fields.as_slice()) {
        return Ok(Told {
            bytes: refusal(alloc, why, head_only)?,
            stops: false,
        });
    }
    if !is_authorized(control.token(), head.fields.as_slice()) {
        return Ok(Told {
            bytes: challenge(alloc, head_only)?,
            stops: false,
        });
    }
    let answer = control.answer(alloc, head, counts, gateway)?;
    Ok(Told {
        bytes: render(alloc, &answer.reply, head_only, true)?,
        stops: answer.stops,
    })
}

/// What an error of a socket means.
fn after(error: &Error) -> Goes {
    match error.kind() {
        ErrorKind::WouldBlock => Goes::Waits,
        ErrorKind::Interrupted => Goes::On,
        _ => Goes::Over,
    }
}

impl ControlTable {
    /// No control connections.
    pub fn new(alloc: Global) -> Result<ControlTable, AllocError> {
        Ok(ControlTable {
            alloc,
            callers: BTreeMap::new(alloc),
            scratch: vec![in alloc; 0u8; SCRATCH]?,
            stops: false,
        })
    }

    /// Takes a socket in, under an id that is above those of the others. Where as many are open as may be, the one that
    /// was opened first makes room: so one that sends no request keeps no other out. Without memory it is dropped.
    pub fn take_in(&mut self, id: u64, stream: TcpStream, now: Instant) {
        let Some(caller) = ControlConnection::new(self.alloc, stream, now) else {
            return;
        };
        if self.callers.len() >= MOST {
            drop(self.callers.pop_first());
        }
        let _ = self.callers.insert(id, caller);
    }

    /// A socket was reported ready.
    pub fn is_ready(&mut self, id: u64) {
        if let Some(caller) = self.callers.get_mut(&id) {
            caller.is_ready = true;
        }
    }

    /// Those that are ready go on.
    pub fn round<S: Store, C: Control<S>>(
        &mut self,
        control: &mut C,
        counts: &Counts,
        gateway: &Gateway<S>,
    ) {
        for _ in 0..MOST {
            let Some(id) = self.ready_one() else {
                return;
            };
            self.turn(id, control, counts, gateway);
        }
    }

    /// One that is ready.
    fn ready_one(&self) -> Option<u64> {
        for (id, caller) in self.callers.iter() {
            if caller.is_ready {
                return Some(*id);
            }
        }
        None
    }

    /// One goes on, and is ready no more until its socket is reported again.
    fn turn<S: Store, C: Control<S>>(
        &mut self,
        id: u64,
        control: &mut C,
        counts: &Counts,
        gateway: &Gateway<S>,
    ) {
        let Some(caller) = self.callers.get_mut(&id) else {
            return;
        };
        caller.is_ready = false;
        let scratch = &mut self.scratch;
        if caller.turn(scratch, control, counts, gateway, &mut self.stops) == Goes::Over {
            let _ = self.callers.remove(&id);
        }
    }

    /// Closes those whose time is over.
    pub fn sweep(&mut self, now: Instant) {
        for _ in 0..MOST {
            let Some(id) = self.late_one(now) else {
                return;
            };
            let _ = self.callers.remove(&id);
        }
    }

    /// One whose time is over.
    fn late_one(&self, now: Instant) -> Option<u64> {
        let time = Duration::from_secs(SECONDS);
        for (id, caller) in self.callers.iter() {
            if now.duration_since(caller.opened) > time {
                return Some(*id);
            }
        }
        None
    }
}
