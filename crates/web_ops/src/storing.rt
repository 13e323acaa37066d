//! Storing files and directories.
ghost use Rattle.std.specs.Prelude.{◌≡◌, ⊤, if◌then◌else◌};
ghost use Rattle.octets.specs.Sharing.{IsSharing};
ghost use Rattle.erasure.specs.Code.{AreBytes};
ghost use Rattle.grid.specs.Stamped.{IsStamped};
ghost use Rattle.grid.specs.Views.{TellOn};
ghost use Rattle.chk_file.specs.Upload.{uploaded, upload_cap};
ghost use Rattle.web_request.specs.declared.request.Request.TheVariants.{Put, Mkdir};
ghost use Rattle.web_ops.specs.Encoding.{encoding_of};
ghost use Rattle.web_ops.specs.Uploads.{as_directory, if_long};
ghost use Rattle.web_replies.specs.Replies.{cap_reply};
ghost use Rattle.web_ops.specs.Replied.{IsPutReply};
ghost use Rattle.web_ops.specs.Calls.{IsCarriedOut, IsPerformed};

use caps::Cap;
use chk_file::{Cache, directory_text_of, upload};
use grid::{Grid, GridFault};
use octets::Bytes;
use share_store::Store;
use std::alloc::{AllocError, Global};
use web_replies::{Failure, Reply, cap_reply, failure_reply};

/// Stores a file, and gives its cap.
pub fn put<S: Store>(
    alloc: Global,
    grid: &mut Grid<S>,
    cache: &mut Cache,
    k: u16,
    n: u16,
    secret: &[u8],
    bytes: Bytes,
) -> Result<Reply, AllocError>
    requires { IsSharing k n }
    ensures cached { cache.new ≡ cache.old }
    ensures stamped { IsStamped grid.old grid.new }
    ensures told { TellOn grid.old grid.new }
    ensures done { IsPerformed (encoding_of k n secret.now) (Put bytes) result grid.old grid.new }
{
    store(alloc, grid, cache, k, n, secret, bytes.into_vec(), false)
}

/// Stores the directory of the children that a JSON text names, and gives its cap.
pub fn make_directory<S: Store>(
    alloc: Global,
    grid: &mut Grid<S>,
    cache: &mut Cache,
    k: u16,
    n: u16,
    secret: &[u8],
    json: &[u8],
) -> Result<Reply, AllocError>
    requires { IsSharing k n }
    ensures cached { cache.new ≡ cache.old }
    ensures stamped { IsStamped grid.old grid.new }
    ensures told { TellOn grid.old grid.new }
    ensures done { IsPerformed (encoding_of k n secret.now) (Mkdir json.now) result grid.old grid.new }
{
    match directory_text_of(alloc, cache, json)? {
        Some(text) => store(alloc, grid, cache, k, n, secret, text, true),
        None => failure_reply(alloc, Failure::BadChildren),
    }
}

/// Stores bytes, and gives their cap, as that of a directory where they are a directory's text.
fn store<S: Store>(
    alloc: Global,
    grid: &mut Grid<S>,
    cache: &mut Cache,
    k: u16,
    n: u16,
    secret: &[u8],
    bytes: Vec<u8>,
    directory: bool,
) -> Result<Reply, AllocError>
    requires { IsSharing k n }
    ensures cached { cache.new ≡ cache.old }
    ensures stamped { IsStamped grid.old grid.new }
    ensures told { TellOn grid.old grid.new }
    ensures done { let u = uploaded k n secret.now bytes.items in
        let cap = if directory then as_directory (upload_cap u) else upload_cap u in
        IsCarriedOut ⊤ (if_long u) (IsPutReply cap) (λ _. cap_reply cap) result grid.old grid.new }
{
    are_bytes(&bytes);
    match upload(alloc, grid, cache, k, n, secret, bytes) {
        Ok(cap) => {
            let named = as_kind(cap, directory);
            cap_reply(alloc, &named)
        }
        Err(GridFault::Full(_)) => failure_reply(alloc, Failure::StoreFull),
        Err(GridFault::Down(_)) => failure_reply(alloc, Failure::StoreDown),
        Err(GridFault::NoMemory) => Err(AllocError),
        Err(GridFault::NoServer) => unreachable!(),
        Err(GridFault::BadImage(_)) => unreachable!(),
        Err(GridFault::ReadFailed) => unreachable!(),
        Err(GridFault::WriteFailed) => unreachable!(),
    }
}

/// A law and no more: what a slice holds are bytes.
fn are_bytes(bytes: &[u8])
    ensures { AreBytes bytes.now }
{}

/// The cap of what was stored, as that of a directory where it is one.
fn as_kind(cap: Cap, directory: bool) -> Cap
    ensures { result ≡ (if directory then as_directory cap else cap) }
{
    if directory { as_directory(cap) } else { cap }
}

/// The directory's cap in place of its text's.
fn as_directory(cap: Cap) -> Cap
    ensures { result ≡ as_directory cap }
{
    match cap {
        Cap::Chk(fields) => Cap::DirChk(fields),
        Cap::Lit(bytes) => Cap::DirLit(bytes),
        other => other,
    }
}
