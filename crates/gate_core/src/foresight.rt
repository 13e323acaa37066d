//! What is done of a long request before the call that completes it.
ghost use Rattle.std.specs.Prelude.{◌≡◌, if◌then◌else◌};
ghost use Rattle.gate_core.specs.Holds.{content_shares, content_text, listing_text, wanted_shares, wanted_text};
ghost use Rattle.grid.specs.GridState.{IsHonest};
ghost use Rattle.grid.specs.Leaves.{Leaves, IsUnchanged};
ghost use Rattle.grid.specs.Views.{TellOn};
ghost use Rattle.chk_file.specs.Cached.{IsCacheCurrent, IsWithin};

use caps::{Cap, VerifyCap, weaken};
use chk_file::{Cache, lends};
use gate_base::{Holds, Parameters, Prospect};
use grid::Grid;
use http_edge::{Conn, Head, LastChunks};
use octets::Bytes;
use path_walk::{Ahead, Names, walk_ahead};
use share_store::Store;
use std::alloc::{AllocError, Global};
use web_request::{Fields, Request, interpret};

/// How many bytes an upload has at least that is prepared: a shorter one takes a few milliseconds in all.
const LEAST: usize = 262_144;

/// How many steps are taken of one connection's read: who puts the same directories again and again can't hold it up for
/// longer. A walk through 64 directories of 16 MiB takes some 60,000.
const MOST_STEPS: u32 = 100_000;

/// The connections for which something is prepared: an upload for one, and a read for one, with its steps so far.
#[derive(Clone, Copy)]
pub struct PreparedFor {
    upload: Option<u64>,
    read: Option<(u64, u32)>,
}

impl PreparedFor {
    /// None.
    pub fn nobody() -> PreparedFor {
        PreparedFor {
            upload: None,
            read: None,
        }
    }

    /// Whether an upload is prepared for another connection. If not, it is this one's turn.
    pub fn awaits_upload(&mut self, id: u64) -> bool {
        if let Some(other) = self.upload
            && other != id
        {
            return true;
        }
        self.upload = Some(id);
        false
    }

    /// Whether a read is prepared for this connection, or for none.
    pub fn is_turn_to_read(&self, id: u64) -> bool {
        match self.read {
            Some((other, _)) => other == id,
            None => true,
        }
    }

    /// Counts a step of this connection's read, and says whether more may be taken.
    pub fn may_go_on(&mut self, id: u64) -> bool {
        let steps = match self.read {
            Some((_, steps)) => steps.saturating_add(1),
            None => 0,
        };
        self.read = Some((id, steps));
        steps < MOST_STEPS
    }

    /// Nothing is prepared for this connection any more. What was is let go.
    pub fn leaves(&mut self, id: u64, cache: &mut Cache)
        ensures { IsWithin cache.old cache.new }
    {
        self.leaves_upload(id, cache);
        self.leaves_read(id, cache);
    }

    /// The same of an upload.
    fn leaves_upload(&mut self, id: u64, cache: &mut Cache)
        ensures { cache.new ≡ cache.old }
    {
        if self.upload == Some(id) {
            cache.let_go();
            self.upload = None;
        }
    }

    /// The same of a read.
    fn leaves_read(&mut self, id: u64, cache: &mut Cache)
        ensures { IsWithin cache.old cache.new }
    {
        if let Some((other, _)) = self.read
            && other == id
        {
            let_go_of_read(cache);
            self.read = None;
        }
    }
}

/// Lets go of what was prepared of a read: of a file, of a check, or of a walk.
fn let_go_of_read(cache: &mut Cache)
    ensures { IsWithin cache.old cache.new }
{
    cache.let_go_of_read();
    cache.let_go_of_check();
    cache.let_go_of_look();
    cache.let_go_of_listing();
}

/// An upload whose body is whole with the bytes that come next: what is kept of it, and what they add.
#[derive(Drop)]
pub struct WholeUpload<'a> {
    kept: &'a [u8],
    rest: Rest<'a>,
    stored: Stored,
}

/// What is stored.
#[derive(Drop)]
enum Stored {
    /// The body, as a file.
    File,
    /// The text of the directory whose children the body names, as JSON.
    Directory,
}

/// The rest of a body.
#[derive(Drop)]
enum Rest<'a> {
    /// It stands among the bytes that come next.
    Lent(&'a [u8]),
    /// It was read out of their chunks.
    Read(Vec<u8>),
}

impl Rest<'_> {
    /// Its bytes.
    fn as_slice(&self) -> &[u8] {
        match self {
            Rest::Lent(bytes) => bytes,
            Rest::Read(bytes) => bytes.as_slice(),
        }
    }
}

/// The request that a connection's next bytes complete first, where it is one that is prepared.
#[derive(Drop)]
pub enum Foreseen<'a> {
    /// A file is uploaded, or a directory made, with a body of 262,144 bytes at least.
    Upload(WholeUpload<'a>),
    /// It is looked at what is stored.
    Read(Asked),
}

/// The request that these bytes complete first: the one whose body is under way, or one whose head they complete. However its
/// bytes were cut, this is the request that the gateway will carry out next. None where none is complete, where it isn't
/// prepared, or where memory is refused.
pub fn foresee<'a>(alloc: Global, conn: &'a Conn, next: &'a [u8]) -> Option<Foreseen<'a>> {
    if let Some((awaited, kept)) = conn.under_way() {
        let rest = next.get(..awaited.length.saturating_sub(kept.len()))?;
        return foreseen_of(alloc, &awaited.head, kept, Rest::Lent(rest));
    }
    if let Some(last) = conn.last_chunks(next) {
        let LastChunks {
            request,
            content,
            added,
        } = last;
        return foreseen_of(alloc, &request.head, content, Rest::Read(added));
    }
    let head = conn.first_head(next).ok()??;
    // Of a body that comes whole with its head nothing is prepared: it is short, where pieces are.
    foreseen_of(alloc, &head, &[], Rest::Lent(&[]))
}

/// The same of a request with this head and this body.
fn foreseen_of<'a>(
    alloc: Global,
    head: &Head,
    kept: &'a [u8],
    rest: Rest<'a>,
) -> Option<Foreseen<'a>> {
    match asked_by(alloc, head)? {
        Request::Put(_) => whole_upload(kept, rest, Stored::File),
        Request::Mkdir(_) => whole_upload(kept, rest, Stored::Directory),
        Request::Get {
            cap,
            names,
            json,
            head_only,
            range: _,
        } => Some(Foreseen::Read(Asked {
            cap,
            names,
            wanted: if json {
                Wanted::Listing
            } else {
                Wanted::Content
            },
            head_only,
        })),
        Request::Check { cap, names, verify } => Some(Foreseen::Read(Asked {
            cap,
            names,
            wanted: if verify {
                Wanted::Verification
            } else {
                Wanted::Nothing
            },
            head_only: false,
        })),
    }
}

/// An upload with this body, where it is one that is prepared.
fn whole_upload<'a>(kept: &'a [u8], rest: Rest<'a>, stored: Stored) -> Option<Foreseen<'a>> {
    if kept.len().saturating_add(rest.as_slice().len()) < LEAST {
        return None;
    }
    Some(Foreseen::Upload(WholeUpload { kept, rest, stored }))
}

/// What a request with this head asks for, by the very reading that carries it out. Its fields and its body, which decide
/// nothing here, are left out. None where it is refused, or memory is.
fn asked_by(alloc: Global, head: &Head) -> Option<Request> {
    let bare = bare_head(alloc, head).ok()?;
    interpret(alloc, &bare, Bytes::new(alloc)).ok()
}

/// The method and the target of a head.
fn bare_head(alloc: Global, head: &Head) -> Result<web_request::Head, AllocError> {
    Ok(web_request::Head {
        method: Bytes::from_slice(alloc, head.method.as_slice())?,
        target: Bytes::from_slice(alloc, head.target.as_slice())?,
        fields: Fields::from_vec(Vec::new(alloc)),
    })
}

/// Takes a step of the work that such an upload needs, and says whether steps are left.
pub fn prepare_upload(
    alloc: Global,
    parameters: &Parameters,
    secret: &[u8],
    upload: &WholeUpload<'_>,
    cache: &mut Cache,
) -> bool
    ensures { cache.new ≡ cache.old }
{
    let (k, n) = (parameters.k(), parameters.n());
    let rest = upload.rest.as_slice();
    match upload.stored {
        Stored::File => cache.prepare(alloc, k, n, secret, upload.kept, rest),
        Stored::Directory => cache.prepare_directory(alloc, k, n, secret, upload.kept, rest),
    }
}

/// What a request looks at: what names lead to from a cap, and what is done with that.
#[derive(Drop)]
pub struct Asked {
    cap: Cap,
    names: Names,
    wanted: Wanted,
    /// Whether the head of the reply is asked for alone.
    head_only: bool,
}

/// What is wanted of what a path leads to.
#[derive(Clone, Copy, PartialEq, Eq)]
enum Wanted {
    /// Its bytes.
    Content,
    /// Its JSON, with the children of a directory.
    Listing,
    /// A check of its shares, all of which are verified.
    Verification,
    /// A check that looks at no share.
    Nothing,
}

/// Takes a step of the work that such a request needs, and says how far it is: names are looked up in directories, and then
/// what they lead to is read, if it is a long file or a long directory that is listed, or its shares are verified. It waits
/// too where the steps of another connection's read come first.
pub fn prepare_read<S: Store>(
    alloc: Global,
    id: u64,
    asked: Asked,
    may_hold: bool,
    grid: &mut Grid<S>,
    cache: &mut Cache,
    prepared_for: &mut PreparedFor,
) -> Prospect
    ensures leaves { Leaves grid.old grid.new }
    ensures unchanged { IsHonest grid.old → IsUnchanged grid.old grid.new }
    ensures told { TellOn grid.old grid.new }
    ensures fresh { IsCacheCurrent cache.old grid.old → IsCacheCurrent cache.new grid.new }
{
    let is_its_turn = prepared_for.is_turn_to_read(id);
    let (holds, waits) = step(alloc, &asked, may_hold, is_its_turn, grid, cache);
    if waits && (!is_its_turn || prepared_for.may_go_on(id)) {
        return Prospect::Waits;
    }
    Prospect::Ready(holds)
}

/// Takes the step: what the reply will hold, as far as is known, and whether steps are left. None is taken of a reply that will
/// hold much and may not.
fn step<S: Store>(
    alloc: Global,
    asked: &Asked,
    may_hold: bool,
    is_its_turn: bool,
    grid: &mut Grid<S>,
    cache: &mut Cache,
) -> (Holds, bool)
    ensures leaves { Leaves grid.old grid.new }
    ensures unchanged { IsHonest grid.old → IsUnchanged grid.old grid.new }
    ensures told { TellOn grid.old grid.new }
    ensures fresh { IsCacheCurrent cache.old grid.old → IsCacheCurrent cache.new grid.new }
{
    match walk_ahead(alloc, grid, cache, &asked.cap, &asked.names, is_its_turn) {
        Ahead::Waits => (Holds::nothing(), true),
        Ahead::At(end) => {
            let holds = held_by(asked, &end, grid);
            if !may_hold && holds.is_much() {
                return (holds, false);
            }
            (
                holds,
                prepare_end(alloc, &end, asked.wanted, is_its_turn, grid, cache),
            )
        }
        Ahead::Over => (Holds::nothing(), false),
    }
}

/// What the reply to such a request will hold, where names lead to this cap. A reply that is its head alone holds nothing.
fn held_by<S: Store>(asked: &Asked, end: &Cap, grid: &Grid<S>) -> Holds {
    if asked.head_only {
        return Holds::nothing();
    }
    held_for(asked.wanted, end, is_lent(grid, end))
}

/// What the reply will hold where this is wanted of what a cap names, of which stores lend the shares or don't.
fn held_for(wanted: Wanted, end: &Cap, lent: bool) -> Holds
    ensures shares { result.shares ≡ wanted_shares wanted end.now lent }
    ensures text { result.text ≡ wanted_text wanted end.now lent }
{
    match wanted {
        Wanted::Content => content_held(end, lent),
        Wanted::Listing => listing_held(end),
        Wanted::Verification | Wanted::Nothing => Holds::nothing(),
    }
}

/// The same where its bytes are wanted: a literal file, or one that is kept whole, or the shares of a longer one; or the
/// segment that is made, where stores have the shares in memory anyway.
fn content_held(end: &Cap, lent: bool) -> Holds
    ensures shares { result.shares ≡ content_shares end.now lent }
    ensures text { result.text ≡ content_text end.now lent }
{
    match end {
        Cap::Chk(fields) => {
            if lent {
                Holds::segment(fields.size)
            } else {
                Holds::shares(fields.size)
            }
        }
        Cap::Lit(bytes) => Holds::shares(bytes.len() as u64),
        Cap::DirChk(_) | Cap::DirLit(_) | Cap::ChkVerify(_) | Cap::DirChkVerify(_) =>
            Holds::nothing(),
    }
}

/// The same where its children are listed: its text.
fn listing_held(end: &Cap) -> Holds
    ensures shares { result.shares ≡ 0 }
    ensures text { result.text ≡ listing_text end.now }
{
    match end {
        Cap::DirChk(fields) => Holds::text(fields.size),
        Cap::DirLit(bytes) => Holds::text(bytes.len() as u64),
        Cap::Chk(_) | Cap::Lit(_) | Cap::ChkVerify(_) | Cap::DirChkVerify(_) => Holds::nothing(),
    }
}

/// Whether a cap names a file of which stores lend the shares.
fn is_lent<S: Store>(grid: &Grid<S>, end: &Cap) -> bool {
    match end {
        Cap::Chk(fields) => lends(grid, fields),
        _ => false,
    }
}

/// The same of what the names lead to: whether steps are left, of its own or of another's that come first.
fn prepare_end<S: Store>(
    alloc: Global,
    end: &Cap,
    wanted: Wanted,
    is_its_turn: bool,
    grid: &mut Grid<S>,
    cache: &mut Cache,
) -> bool
    ensures leaves { Leaves grid.old grid.new }
    ensures unchanged { IsHonest grid.old → IsUnchanged grid.old grid.new }
    ensures told { TellOn grid.old grid.new }
    ensures fresh { IsCacheCurrent cache.old grid.old → IsCacheCurrent cache.new grid.new }
{
    match (wanted, end) {
        (Wanted::Verification, _) => match weaken(end) {
            Some(VerifyCap { fields, .. }) => {
                cache.can_check_ahead(&fields)
                    && (!is_its_turn || cache.check_ahead(alloc, grid, &fields))
            }
            None => false,
        },
        (Wanted::Content, Cap::Chk(fields)) => {
            cache.can_read_ahead(grid, fields)
                && (!is_its_turn || cache.read_ahead(alloc, grid, fields))
        }
        (Wanted::Listing, Cap::DirChk(fields)) => {
            cache.can_list_ahead(grid, fields)
                && (!is_its_turn || cache.list_ahead(alloc, grid, fields))
        }
        _ => false,
    }
}
