//! A connection's bytes, as they come in pieces.
ghost use Rattle.std.specs.Prelude.{◌≡◌, ◌≢◌, ◌<◌, ◌≤◌, ◌⊎◌, ℕ, List, not, [], ◌++◌, length, Ok, None, IfOk, IfSome, IfNone, IsTrue, IsFalse, MatchOption, OnOk, OnErr, IsOk};
ghost use Rattle.std.specs.List.{list_any};
ghost use Rattle.http_edge.specs.Judge.{closes};
ghost use Rattle.http_edge.specs.Frame.{frame};
ghost use Rattle.http_edge.specs.Kept.{kept_bytes, bytes_of_body};
ghost use Rattle.http_edge.specs.FirstHead.{HasHeadFirst, HasNoHeadFirst};
ghost use Rattle.http_edge.specs.BodyEnd.{IsBodyEnd};
ghost use Rattle.http_edge.specs.FramingState.{part_of, body_of, chunks_of, closed, is_closed, rest, frame_from, rest_from};
ghost use Rattle.http_edge.specs.Places.{IsFramingPlace};
ghost use Rattle.http_edge.specs.State.{IsSettled, IsWaiting, Takes, item_list, left_of};
ghost use Rattle.http_edge.specs.declared.place.Place.{Place};
ghost use Rattle.http_edge.specs.declared.verdict.Awaited.{Awaited};
ghost use Rattle.http_edge.specs.declared.verdict.Chunked.{Chunked};

use crate::chunks::read_chunks;
use crate::item::{Head, Item};
use crate::line::split_line;
use crate::place::{Place, Step};
use crate::state::{State, after_body, after_chunks, after_line};
use crate::verdict::{Awaited, Chunked};
use std::alloc::{AllocError, Global};
use std::marker::Model;
use std::mem;

/// What a connection goes on with: the head block or the body that isn't whole yet, or nothing once it is closed.
#[derive(Drop)]
pub struct Conn {
    alloc: Global,
    state: State,
}

/// A request whose chunked body a piece would end. Its body is the content that is kept, and then what the piece adds.
#[derive(Drop)]
pub struct LastChunks<'a> {
    pub request: &'a Chunked,
    /// The content that is kept.
    pub content: &'a [u8],
    /// What the piece adds to it.
    pub added: Vec<u8>,
}

impl Model for Conn {
    ghost use Rattle.http_edge.specs.FramingState.{FramingState};
    ghost use Rattle.http_edge.specs.State.{IsWaiting, left_of};

    ghost Value = { FramingState };

    ghost view = { λ c. left_of c.state };

    ghost invariant = { λ c. IsWaiting (left_of c.state) };
}

impl Conn {
    /// A connection of which no byte has come. Takes no memory.
    pub fn new(alloc: Global) -> Self
        ensures empty { result ≡ part_of [] }
        ensures joined { result ≡ rest [] }
    {
        Conn {
            alloc,
            state: State::Head(Vec::new(alloc)),
        }
    }

    /// Takes the next piece, and gives the items that it completes, in order: with those before it they are the items
    /// of all pieces joined, however these were cut. A head block or a body that isn't whole is kept; `Continue` comes
    /// as the head block ends that asks for it. After an item that closes all bytes are ignored.
    ///
    /// Without memory the connection is closed, and items that the piece had completed before are dropped. An empty
    /// piece, and any piece on a closed connection, takes none.
    pub fn feed(&mut self, piece: &[u8]) -> Result<Vec<Item>, AllocError>
        ensures items { IfOk result (λ items. items.items ≡ frame_from self.old piece.now) }
        ensures left { OnOk result (self.new ≡ rest_from self.old piece.now) }
        ensures joined { IfOk result (λ items. (before : List ℕ) → self.old ≡ rest before
            → frame (before ++ piece.now) ≡ frame before ++ items.items) }
        ensures kept { OnOk result ((before : List ℕ) → self.old ≡ rest before
            → self.new ≡ rest (before ++ piece.now)) }
        ensures refused { OnErr result (self.new ≡ closed) }
        ensures takes_no_memory { (piece.now ≡ []) ⊎ (self.old ≡ closed) → IsOk result }
        ensures quiet { piece.now ≡ [] → IfOk result (λ items. items.items ≡ []) }
    {
        let mut items = Vec::new(self.alloc);
        if self.closed() || piece.is_empty() {
            return Ok(items);
        }
        match self.add_all(piece, &mut items) {
            Ok(()) => Ok(items),
            Err(error) => {
                self.state = State::Closed;
                Err(error)
            }
        }
    }

    /// Whether no item can come any more: an item that closes was completed, or memory was refused. Takes no memory.
    pub fn closed(&self) -> bool
        ensures value { result ≡ is_closed self.now }
        ensures joined { (before : List ℕ) → self.now ≡ rest before
            → result ≡ list_any closes (frame before) }
    {
        !self.is_open()
    }

    /// How many bytes are kept of what isn't whole yet: of a head block, or of a body. Takes no memory.
    pub fn kept(&self) -> usize
        ensures { result ≡ kept_bytes self.now }
    {
        match &self.state {
            State::Head(part) => part.len(),
            State::Body(_, body) => body.len(),
            State::Chunks(_, content, _) => content.len(),
            State::Closed => 0,
        }
    }

    /// A request whose body isn't whole yet and has the length that its head tells, and the first bytes of that body.
    /// None where none is under way. Takes no memory.
    pub fn under_way(&self) -> Option<(&Awaited, &[u8])>
        ensures some { IfSome result (λ request. self.now ≡ body_of request.0.now request.1.now) }
        ensures none { IfNone result ((awaited : Awaited) (body : List ℕ) → self.now ≢ body_of awaited body) }
    {
        match &self.state {
            State::Body(awaited, body) => Some((awaited, body)),
            State::Head(_) => None,
            State::Chunks(_, _, _) => None,
            State::Closed => None,
        }
    }

    /// How many of these bytes belong to the body under way: all, or those up to its end or to the first fault in it. 0 where
    /// no body is under way.
    ///
    /// # Errors
    /// Only where memory is refused. For a body in chunks it takes as much as there are bytes, else none.
    pub fn of_body(&self, piece: &[u8]) -> Result<usize, AllocError>
        ensures count { IfOk result (λ count. count ≡ bytes_of_body self.now piece.now) }
        ensures within { IfOk result (λ count. count ≤ length piece.now) }
        ensures takes_no_memory { ((request : Chunked) (content : List ℕ) (place : Place) →
            self.now ≢ chunks_of request content place) → IsOk result }
    {
        match &self.state {
            State::Head(_) | State::Closed => Ok(0),
            State::Body(awaited, body) => {
                let missing = awaited.length.saturating_sub(body.len());
                Ok(missing.min(piece.len()))
            }
            State::Chunks(_, content, place) => {
                let mut added = Vec::with_capacity(self.alloc, piece.len())?;
                let (_, count) = read_chunks(content.len(), &mut added, *place, piece)?;
                Ok(count)
            }
        }
    }

    /// The head of the request that the piece would complete before all other items, where a head block is awaited. The
    /// connection stays as it is; what is kept of the block is copied, and of its body nothing is. None where a body is under
    /// way, or where the first item is another.
    ///
    /// # Errors
    /// Only where memory is refused. Where no head block is awaited it takes none.
    pub fn first_head(&self, piece: &[u8]) -> Result<Option<Head>, AllocError>
        ensures first { IfOk result (λ found. IfSome found (λ head.
            HasHeadFirst (frame_from self.now piece.now) head)) }
        ensures none { IfOk result (λ found. IfNone found ((part : List ℕ) →
            self.now ≡ part_of part → HasNoHeadFirst (frame_from self.now piece.now))) }
        ensures takes_no_memory { ((part : List ℕ) → self.now ≢ part_of part) → result ≡ Ok None }
    {
        let State::Head(part) = &self.state else {
            return Ok(None);
        };
        let block = Vec::from_slice(self.alloc, part)?;
        let mut twin = Conn {
            alloc: self.alloc,
            state: State::Head(block),
        };
        twin.next_head(piece)
    }

    /// The same, of a connection that isn't needed afterwards, whatever is awaited.
    fn next_head(&mut self, piece: &[u8]) -> Result<Option<Head>, AllocError>
        ensures { IfOk result (λ found. MatchOption found
            (HasNoHeadFirst (frame_from self.old piece.now))
            (λ head. HasHeadFirst (frame_from self.old piece.now) head)) }
    {
        let mut bytes = piece;
        while self.is_in_head() && !bytes.is_empty() {
            let (item, more) = self.add(bytes)?;
            match item {
                Some(Item::Request { head, .. }) => return Ok(Some(head)),
                Some(Item::Continue) | Some(Item::Fault { .. }) => return Ok(None),
                None => bytes = more,
            }
        }
        let state = mem::replace(&mut self.state, State::Closed);
        ended_head(self.alloc, state, bytes)
    }

    /// Whether a head block is awaited.
    fn is_in_head(&self) -> bool
        ensures { IsFalse result → (part : List ℕ) → self.now ≢ part_of part }
    {
        matches!(&self.state, State::Head(_))
    }

    /// The request under way whose chunked body the piece would end: the content that is kept, and what the piece would
    /// add to it. The connection stays as it is, and what is kept isn't copied. None where no body in chunks is under
    /// way, where the piece doesn't end it or has a fault, and where memory is refused. It asks for memory once, for as
    /// many bytes as the piece has.
    pub fn last_chunks(&self, piece: &[u8]) -> Option<LastChunks<'_>>
        ensures some { IfSome result (λ last.
            IsBodyEnd self.now last.request.now last.content.now piece.now last.added.items) }
    {
        let State::Chunks(request, content, place) = &self.state else {
            return None;
        };
        let mut added = Vec::with_capacity(self.alloc, piece.len()).ok()?;
        match read_chunks(content.len(), &mut added, *place, piece) {
            Ok((Step::Ended, _)) => Some(LastChunks {
                request,
                content,
                added,
            }),
            _ => None,
        }
    }

    /// Whether items can come; in what is kept none stands complete.
    fn is_open(&self) -> bool
        ensures open { is_closed self.now ≡ not result }
        ensures settled { IsSettled self.now }
    {
        match &self.state {
            State::Head(_) => true,
            State::Body(_, _) => true,
            State::Chunks(_, _, _) => true,
            State::Closed => false,
        }
    }

    /// Takes the next bytes, and puts the items that they complete after the others.
    fn add_all(&mut self, piece: &[u8], items: &mut Vec<Item>) -> Result<(), AllocError>
        ensures items { OnOk result (items.new.items
            ≡ items.old.items ++ frame_from self.old piece.now) }
        ensures left { OnOk result (self.new ≡ rest_from self.old piece.now) }
    {
        let mut bytes = piece;
        while self.is_open() && !bytes.is_empty() {
            let (item, more) = self.add(bytes)?;
            if let Some(item) = item {
                items.push(item)?;
            }
            bytes = more;
        }
        Ok(())
    }

    /// Takes the bytes up to the end of the next line or of the body, and gives the item that they complete, and the
    /// bytes after them.
    fn add<'a>(&mut self, bytes: &'a [u8]) -> Result<(Option<Item>, &'a [u8]), AllocError>
        requires some { 0 < length bytes.now }
        ensures { IfOk result (λ step.
            Takes self.old bytes.now (item_list step.0) self.new step.1.now) }
    {
        let state = mem::replace(&mut self.state, State::Closed);
        let (state, item, more) = after_bytes(self.alloc, state, bytes)?;
        self.state = state;
        Ok((item, more))
    }
}

/// The state after the bytes up to the end of the next line or of the body, the item that they complete, and the bytes
/// after them. Each arm hands on what it owns: so no arm spells out how the others' parts are let go of.
fn after_bytes<'a>(
    alloc: Global,
    state: State,
    bytes: &'a [u8],
) -> Result<(State, Option<Item>, &'a [u8]), AllocError>
    requires waits { IsWaiting (left_of state) }
    requires some { 0 < length bytes.now }
    ensures takes { IfOk result (λ step. Takes (left_of state) bytes.now (item_list step.1) (left_of step.0) step.2.now) }
    ensures waits { IfOk result (λ step. IsWaiting (left_of step.0)) }
{
    match state {
        State::Head(part) => after_head_bytes(alloc, part, bytes),
        State::Body(awaited, body) => after_body_bytes(alloc, awaited, body, bytes),
        State::Chunks(awaited, content, place) => {
            after_chunk_bytes(alloc, awaited, content, place, bytes)
        }
        State::Closed => Ok((State::Closed, None, &[])),
    }
}

/// What [`after_bytes`] gives where a head block is under way.
fn after_head_bytes<'a>(
    alloc: Global,
    part: Vec<u8>,
    bytes: &'a [u8],
) -> Result<(State, Option<Item>, &'a [u8]), AllocError>
    requires waits { IsWaiting (part_of part.items) }
    requires some { 0 < length bytes.now }
    ensures takes { IfOk result (λ step. Takes (part_of part.items) bytes.now (item_list step.1) (left_of step.0) step.2.now) }
    ensures waits { IfOk result (λ step. IsWaiting (left_of step.0)) }
{
    let (line, more) = split_line(bytes);
    let (state, item) = after_line(alloc, part, line)?;
    Ok((state, item, more))
}

/// What [`after_bytes`] gives where a body is under way whose length is known.
fn after_body_bytes<'a>(
    alloc: Global,
    awaited: Awaited,
    body: Vec<u8>,
    bytes: &'a [u8],
) -> Result<(State, Option<Item>, &'a [u8]), AllocError>
    requires waits { IsWaiting (body_of awaited body.items) }
    requires some { 0 < length bytes.now }
    ensures takes { IfOk result (λ step. Takes (body_of awaited body.items) bytes.now (item_list step.1) (left_of step.0) step.2.now) }
    ensures waits { IfOk result (λ step. IsWaiting (left_of step.0)) }
{
    let missing = awaited.length - body.len();
    let (next, more) = bytes.split_at(missing.min(bytes.len()));
    let (state, item) = after_body(alloc, awaited, body, next)?;
    Ok((state, item, more))
}

/// What [`after_bytes`] gives where a body in chunks is under way.
fn after_chunk_bytes<'a>(
    alloc: Global,
    awaited: Chunked,
    content: Vec<u8>,
    place: Place,
    bytes: &'a [u8],
) -> Result<(State, Option<Item>, &'a [u8]), AllocError>
    requires waits { IsWaiting (chunks_of awaited content.items place) }
    requires some { 0 < length bytes.now }
    ensures takes { IfOk result (λ step. Takes (chunks_of awaited content.items place) bytes.now (item_list step.1) (left_of step.0) step.2.now) }
    ensures waits { IfOk result (λ step. IsWaiting (left_of step.0)) }
{
    let (state, item, taken) = after_chunks(alloc, awaited, content, place, bytes)?;
    let (_, more) = bytes.split_at(taken);
    Ok((state, item, more))
}

/// The head of the request whose body the bytes end, if one is under way and they do.
fn ended_head(alloc: Global, state: State, bytes: &[u8]) -> Result<Option<Head>, AllocError>
    requires waits { IsWaiting (left_of state) }
    requires read { (part : List ℕ) → left_of state ≡ part_of part → bytes.now ≡ [] }
    ensures { IfOk result (λ found. MatchOption found
        (HasNoHeadFirst (frame_from (left_of state) bytes.now))
        (λ head. HasHeadFirst (frame_from (left_of state) bytes.now) head)) }
{
    match state {
        State::Body(awaited, body) => head_of_body(awaited, body, bytes),
        State::Chunks(request, content, place) => {
            head_of_chunks(alloc, request, content, place, bytes)
        }
        State::Head(_) => Ok(None),
        State::Closed => Ok(None),
    }
}

/// What [`ended_head`] gives where a body is under way whose length is known.
fn head_of_body(awaited: Awaited, body: Vec<u8>, bytes: &[u8]) -> Result<Option<Head>, AllocError>
    requires waits { length body.items < awaited.length }
    ensures { IfOk result (λ found. MatchOption found
        (HasNoHeadFirst (frame_from (body_of awaited body.items) bytes.now))
        (λ head. HasHeadFirst (frame_from (body_of awaited body.items) bytes.now) head)) }
{
    if awaited.length - body.len() > bytes.len() {
        return Ok(None);
    }
    Ok(Some(awaited.head))
}

/// What [`ended_head`] gives where a body in chunks is under way.
fn head_of_chunks(
    alloc: Global,
    request: Chunked,
    content: Vec<u8>,
    place: Place,
    bytes: &[u8],
) -> Result<Option<Head>, AllocError>
    requires place { IsFramingPlace (length content.items) place }
    ensures { IfOk result (λ found. MatchOption found
        (HasNoHeadFirst (frame_from (chunks_of request content.items place) bytes.now))
        (λ head. HasHeadFirst (frame_from (chunks_of request content.items place) bytes.now) head)) }
{
    if is_last(alloc, &request, &content, place, bytes)? {
        Ok(Some(request.head))
    } else {
        Ok(None)
    }
}

/// Whether the bytes end the chunked body of that request, which the contract alone names.
fn is_last(
    alloc: Global,
    request: &Chunked,
    content: &[u8],
    place: Place,
    bytes: &[u8],
) -> Result<bool, AllocError>
    requires place { IsFramingPlace (length content.now) place }
    ensures last { IfOk result (λ last. IsTrue last
        → HasHeadFirst (frame_from (chunks_of request.now content.now place) bytes.now) request.now.head) }
    ensures not { IfOk result (λ last. IsFalse last
        → HasNoHeadFirst (frame_from (chunks_of request.now content.now place) bytes.now)) }
{
    let _ = request;
    let mut added = Vec::with_capacity(alloc, bytes.len())?;
    let (step, _) = read_chunks(content.len(), &mut added, place, bytes)?;
    match step {
        Step::Ended => Ok(true),
        Step::Next(_) => Ok(false),
        Step::Broken(_) => Ok(false),
    }
}
