//! The bytes and the JSON of what a path leads to.
ghost use Rattle.std.specs.Prelude.{◌≡◌, ◌≢◌, ◌↔◌, IfOk, IsTrue, Some, true, false, ℕ, List, Option};
ghost use Rattle.chk_file.specs.Cached.{IsCacheCurrent};
ghost use Rattle.path_walk.specs.declared.fault.WalkFault.TheVariants.{NoMemory};
ghost use Rattle.caps.specs.Kinds.{is_verify_cap};
ghost use Rattle.caps.specs.Weakening.{verify_fields};
ghost use Rattle.web_ops.specs.Answers.{walk_reply, content_reply, listing_reply, node_json_reply, node_reply, get_reply};
ghost use Rattle.web_ops.specs.Replied.{IsContent, IsNodeJson, IsNode, IsAnsweredFrom};
ghost use Rattle.path_walk.specs.Amid.{IsGivenAmid};
ghost use Rattle.web_ops.specs.Amid.{IsNodeBy, IsGetBy};
ghost use Rattle.web_ops.specs.Calls.{IsFound, IsFoundAmid};

use caps::{Cap, ReadFields, VerifyFields, is_verify_cap, weaken};
use chk_file::{Cache, ReadFault, begin, read_counted};
use dir_codec::is_memory;
use grid::Grid;
use json_view::{Counted, Listing, file_json};
use octets::Bytes;
use path_walk::{Names, WalkFault, walk};
use share_store::Store;
use std::alloc::{AllocError, Global};
use std::rc::RcSlice;
use web_replies::{
    Failure, Reply, bytes_reply, download_reply, failure_reply, json_reply, listing_reply,
};

/// The bytes of what the names lead to from a cap, or its JSON.
pub fn get<S: Store>(
    alloc: Global,
    grid: &mut Grid<S>,
    cache: &mut Cache,
    cap: &Cap,
    names: &Names,
    json: bool,
    range: Option<Bytes>,
) -> Result<Reply, AllocError>
    ensures fresh { IsCacheCurrent cache.old grid.old → IsCacheCurrent cache.new grid.new }
    ensures found { IsFound (IsCacheCurrent cache.old grid.old)
        (IsAnsweredFrom (is_verify_cap cap.now) (IsNode json range) cap.now names.now)
        (λ look. get_reply look.gives cap.now names.now json range) result grid.old grid.new }
    ensures amid { IsFoundAmid (IsGetBy (IsGivenAmid cache.old grid.old grid.new) cap.now names.now json range)
        result cache.old cache.new grid.old grid.new }
{
    if is_verify_cap(cap) {
        return failure_reply(alloc, Failure::NotReadable);
    }
    match walk(alloc, grid, cache, cap, names) {
        Ok(end) => node(alloc, grid, cache, end, json, range),
        Err(fault) => walk_refused(alloc, &fault),
    }
}

/// The reply where a walk stopped.
pub fn walk_refused(alloc: Global, fault: &WalkFault) -> Result<Reply, AllocError>
    ensures { IfOk result (λ reply.
        (fault.now ≢ NoMemory) × (reply ≡ walk_reply fault.now)) }
{
    match fault {
        WalkFault::NoChild(_) => failure_reply(alloc, Failure::NoChild),
        WalkFault::NotDirectory => failure_reply(alloc, Failure::NotDirectory),
        WalkFault::NotEnoughShares => failure_reply(alloc, Failure::NotEnoughShares),
        WalkFault::NoMemory => Err(AllocError),
    }
}

/// The bytes of what a cap names, or its JSON.
fn node<S: Store>(
    alloc: Global,
    grid: &mut Grid<S>,
    cache: &mut Cache,
    cap: Cap,
    json: bool,
    range: Option<Bytes>,
) -> Result<Reply, AllocError>
    ensures fresh { IsCacheCurrent cache.old grid.old → IsCacheCurrent cache.new grid.new }
    ensures found { IsFound (IsCacheCurrent cache.old grid.old) (IsNode json range cap)
        (λ look. node_reply look.gives json range cap) result grid.old grid.new }
    ensures amid { IsFoundAmid (IsNodeBy (IsGivenAmid cache.old grid.old grid.new) json range cap)
        result cache.old cache.new grid.old grid.new }
{
    if json {
        node_json(alloc, grid, cache, &cap)
    } else {
        content(alloc, grid, cache, cap, range)
    }
}

/// The bytes of a file. Nothing of a directory is looked at.
fn content<S: Store>(
    alloc: Global,
    grid: &mut Grid<S>,
    cache: &mut Cache,
    cap: Cap,
    range: Option<Bytes>,
) -> Result<Reply, AllocError>
    ensures fresh { IsCacheCurrent cache.old grid.old → IsCacheCurrent cache.new grid.new }
    ensures found { IsFound (IsCacheCurrent cache.old grid.old) (IsContent range cap)
        (λ look. content_reply look.gives range cap) result grid.old grid.new }
    ensures amid { IsFoundAmid (IsNodeBy (IsGivenAmid cache.old grid.old grid.new) false range cap)
        result cache.old cache.new grid.old grid.new }
{
    chk_file::laws::bound_bytes_have_the_size();
    match cap {
        Cap::Chk(fields) => match begin(alloc, grid, cache, &fields) {
            Ok(download) => {
                let file = file_of(&fields);
                download_reply(alloc, range, file, fields.size, download)
            }
            Err(ReadFault::NotEnoughShares) => failure_reply(alloc, Failure::NotEnoughShares),
            Err(ReadFault::NoMemory) => Err(AllocError),
        },
        Cap::Lit(bytes) => bytes_reply(alloc, range, bytes),
        Cap::DirChk(_) | Cap::DirLit(_) => failure_reply(alloc, Failure::NeedsJson),
        Cap::ChkVerify(_) | Cap::DirChkVerify(_) => failure_reply(alloc, Failure::NotReadable),
    }
}

/// What verifies a file.
fn file_of(fields: &ReadFields) -> Option<VerifyFields>
    ensures { result ≡ Some (verify_fields fields.now) }
{
    let cap = Cap::Chk(*fields);
    match weaken(&cap) {
        Some(verify_cap) => Some(verify_cap.fields),
        None => None,
    }
}

/// The JSON of a file, of which nothing is looked at, or of a directory with its children.
fn node_json<S: Store>(
    alloc: Global,
    grid: &mut Grid<S>,
    cache: &mut Cache,
    cap: &Cap,
) -> Result<Reply, AllocError>
    ensures fresh { IsCacheCurrent cache.old grid.old → IsCacheCurrent cache.new grid.new }
    ensures found { IsFound (IsCacheCurrent cache.old grid.old) (IsNodeJson cap.now)
        (λ look. node_json_reply look.gives cap.now) result grid.old grid.new }
    ensures amid { (range : Option (List ℕ)) →
        IsFoundAmid (IsNodeBy (IsGivenAmid cache.old grid.old grid.new) true range cap.now)
        result cache.old cache.new grid.old grid.new }
{
    match cap {
        Cap::Chk(_) | Cap::Lit(_) => Ok(json_reply(file_json(alloc, cap)?)),
        Cap::DirChk(fields) => match read_counted(alloc, grid, cache, fields) {
            Ok(counted) => listing(alloc, cap, counted),
            Err(ReadFault::NotEnoughShares) => failure_reply(alloc, Failure::NotEnoughShares),
            Err(ReadFault::NoMemory) => Err(AllocError),
        },
        Cap::DirLit(bytes) => literal_listing(alloc, cap, bytes),
        Cap::ChkVerify(_) | Cap::DirChkVerify(_) => failure_reply(alloc, Failure::NotReadable),
    }
}

/// The JSON of a directory whose text stands in its cap.
fn literal_listing(alloc: Global, cap: &Cap, bytes: &Bytes) -> Result<Reply, AllocError>
    ensures { IfOk result (λ reply. reply ≡ listing_reply cap.now bytes.now) }
{
    let text = RcSlice::from_slice(alloc, bytes.as_slice())?;
    listing(alloc, cap, Counted::new(alloc, text)?)
}

/// The JSON of a directory whose text this is, with its children counted. It is made as it is taken, of the text, which is
/// held.
fn listing(alloc: Global, cap: &Cap, counted: Counted) -> Result<Reply, AllocError>
    ensures { IfOk result (λ reply. reply ≡ listing_reply cap.now counted) }
{
    dir_codec::laws::texts_and_entries_belong_together();
    match Listing::new(alloc, cap, counted) {
        Ok(listing) => Ok(listing_reply(listing)),
        Err(fault) if is_memory(&fault) => Err(AllocError),
        Err(_) => failure_reply(alloc, Failure::NotDirectory),
    }
}
