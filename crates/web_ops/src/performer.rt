//! Carrying out requests.
ghost use Rattle.std.specs.Prelude.{◌≡◌, IfOk, IfSome, OnOk};
ghost use Rattle.erasure.specs.Code.{AreBytes};
ghost use Rattle.octets.specs.Sharing.{IsSharing};
ghost use Rattle.grid.specs.GridState.{stood, IsHonest, NoneFailed};
ghost use Rattle.grid.specs.Leaves.{Leaves};
ghost use Rattle.grid.specs.Views.{AllTell, TellOn};
ghost use Rattle.chk_file.specs.Cached.{IsCacheCurrent};
ghost use Rattle.chk_file.specs.Amid.{AreKeptSeen};
ghost use Rattle.chk_file.specs.Look.{look_in};
ghost use Rattle.web_ops.specs.Encoding.{encoding_of, mapping};
ghost use Rattle.web_ops.specs.Uploads.{upload_in};
ghost use Rattle.web_ops.specs.Answers.{range_to_apply, request_reply};
ghost use Rattle.web_ops.specs.Replied.{IsReply};
ghost use Rattle.path_walk.specs.Amid.{IsGivenAmid};
ghost use Rattle.web_ops.specs.Amid.{IsReplyBy};
ghost use Rattle.web_ops.specs.Changes.{HasRoomFor, IsStoredIn, IsBegunIn, TellsOfIn, Follows};

use crate::checking::check;
use crate::node::get;
use crate::storing::{make_directory, put};
use chk_file::Cache;
use grid::Grid;
use octets::Bytes;
use share_store::Store;
use std::alloc::{AllocError, Global};
use web_replies::Reply;
use web_request::Request;

/// Carries out a request over a grid, and gives its reply. Files and directories are stored so that any `k` of their `n`
/// shares give them back, with the secret in their keys. A body or a range is moved; a body that a request doesn't take
/// was let go before.
///
/// Refused only where memory is: then a beginning of an upload's shares may stand, in the order of their numbers, and
/// all else is as it was.
pub fn perform<S: Store>(
    alloc: Global,
    grid: &mut Grid<S>,
    cache: &mut Cache,
    k: u16,
    n: u16,
    secret: &[u8],
    request: Request,
) -> Result<Reply, AllocError>
    requires { IsSharing k n }
    ensures leaves { Leaves grid.old grid.new }

    // What is kept of files that were read stays as good as it was.
    ensures fresh { IsCacheCurrent cache.old grid.old → IsCacheCurrent cache.new grid.new }

    // Of any stores: bytes of a stored file or directory are bound to the cap that the names lead to.
    ensures fits { IfOk result (λ reply. IsReply (encoding_of k n secret.now) request reply) }

    // Of stores that are honest or changed by others too: a reply follows from what was seen, each read for itself.
    ensures seen { AllTell grid.old → IfOk result (λ reply.
        IsReplyBy (encoding_of k n secret.now) (IsGivenAmid cache.old grid.old grid.new)
        grid.old grid.new request reply) }
    ensures kept_seen { AllTell grid.old → AreKeptSeen cache.old cache.new grid.old grid.new }
    ensures told { TellOn grid.old grid.new }

    // What is stored are bytes.
    ensures bytes { OnOk result (IfSome (upload_in (encoding_of k n secret.now) request)
        (λ u. AreBytes u.bytes)) }

    // What a reply to an upload tells of the stores, however full or failing they are.
    ensures tells { IfOk result (λ reply.
        TellsOfIn (upload_in (encoding_of k n secret.now) request) reply grid.old grid.new) }

    // Of honest stores, also where memory is refused or a store is full or fails.
    ensures begun { IsHonest grid.old →
        IsBegunIn (upload_in (encoding_of k n secret.now) request) grid.old grid.new }

    // Of honest stores that have room for what is stored and don't fail in the call.
    ensures written { let e = encoding_of k n secret.now in
        IsCacheCurrent cache.old grid.old → IsHonest grid.old →
        HasRoomFor grid.old (upload_in e request) →
        NoneFailed grid.old grid.new → IfOk result (λ reply.
        reply ≡ request_reply e (look_in (stood grid.old)) request) }
    ensures stored { let e = encoding_of k n secret.now in
        IsHonest grid.old → HasRoomFor grid.old (upload_in e request) →
        NoneFailed grid.old grid.new → OnOk result
        (IsStoredIn (upload_in e request) grid.old grid.new) }
    ensures world { let e = encoding_of k n secret.now in
        IsHonest grid.old → HasRoomFor grid.old (upload_in e request) →
        NoneFailed grid.old grid.new → OnOk result
        (Follows (upload_in e request) grid.old grid.new) }
{
    perform_mapped(alloc, grid, cache, k, n, secret, false, request)
}

/// Like [`perform`]; a check tells also where the shares are, if `mapped` says so.
pub fn perform_mapped<S: Store>(
    alloc: Global,
    grid: &mut Grid<S>,
    cache: &mut Cache,
    k: u16,
    n: u16,
    secret: &[u8],
    mapped: bool,
    request: Request,
) -> Result<Reply, AllocError>
    requires { IsSharing k n }
    ensures leaves { Leaves grid.old grid.new }

    // What is kept of files that were read stays as good as it was.
    ensures fresh { IsCacheCurrent cache.old grid.old → IsCacheCurrent cache.new grid.new }

    // Of any stores: bytes of a stored file or directory are bound to the cap that the names lead to.
    ensures fits { IfOk result (λ reply. IsReply (mapping mapped (encoding_of k n secret.now)) request reply) }

    // Of stores that are honest or changed by others too: a reply follows from what was seen, each read for itself.
    ensures seen { AllTell grid.old → IfOk result (λ reply.
        IsReplyBy (mapping mapped (encoding_of k n secret.now)) (IsGivenAmid cache.old grid.old grid.new)
        grid.old grid.new request reply) }
    ensures kept_seen { AllTell grid.old → AreKeptSeen cache.old cache.new grid.old grid.new }
    ensures told { TellOn grid.old grid.new }

    // What is stored are bytes.
    ensures bytes { OnOk result (IfSome (upload_in (mapping mapped (encoding_of k n secret.now)) request)
        (λ u. AreBytes u.bytes)) }

    // What a reply to an upload tells of the stores, however full or failing they are.
    ensures tells { IfOk result (λ reply.
        TellsOfIn (upload_in (mapping mapped (encoding_of k n secret.now)) request) reply grid.old grid.new) }

    // Of honest stores, also where memory is refused or a store is full or fails.
    ensures begun { IsHonest grid.old →
        IsBegunIn (upload_in (mapping mapped (encoding_of k n secret.now)) request) grid.old grid.new }

    // Of honest stores that have room for what is stored and don't fail in the call.
    ensures written { let e = mapping mapped (encoding_of k n secret.now) in
        IsCacheCurrent cache.old grid.old → IsHonest grid.old →
        HasRoomFor grid.old (upload_in e request) →
        NoneFailed grid.old grid.new → IfOk result (λ reply.
        reply ≡ request_reply e (look_in (stood grid.old)) request) }
    ensures stored { let e = mapping mapped (encoding_of k n secret.now) in
        IsHonest grid.old → HasRoomFor grid.old (upload_in e request) →
        NoneFailed grid.old grid.new → OnOk result
        (IsStoredIn (upload_in e request) grid.old grid.new) }
    ensures world { let e = mapping mapped (encoding_of k n secret.now) in
        IsHonest grid.old → HasRoomFor grid.old (upload_in e request) →
        NoneFailed grid.old grid.new → OnOk result
        (Follows (upload_in e request) grid.old grid.new) }
{
    match request {
        Request::Put(bytes) => put(alloc, grid, cache, k, n, secret, bytes),
        Request::Mkdir(json) => make_directory(alloc, grid, cache, k, n, secret, json.as_slice()),
        Request::Get {
            cap,
            names,
            json,
            head_only,
            range,
        } => {
            let range_to_apply = range_to_apply(head_only, range);
            get(alloc, grid, cache, &cap, &names, json, range_to_apply)
        }
        Request::Check { cap, names, verify } => check(
            alloc, grid, cache, &cap, &names, verify, mapped,
        ),
    }
}

/// The range that applies: none where the head is asked for alone.
fn range_to_apply(head_only: bool, range: Option<Bytes>) -> Option<Bytes>
    ensures { result ≡ range_to_apply head_only range }
{
    if head_only { None } else { range }
}
