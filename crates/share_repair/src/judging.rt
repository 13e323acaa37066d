//! What stands under a storage index, judged.
ghost use Rattle.std.specs.Prelude.{◌≡◌, All, IfOk, IsTrue, map};
ghost use Rattle.std.specs.Rc.{rc_slice_items};
ghost use Rattle.grid.specs.Found.{found_bytes};
ghost use Rattle.share_repair.specs.Files.{Verifies};
ghost use Rattle.share_repair.specs.Judged.{IsJudged, found_of};

use crate::label::{Label, label_of};
use std::alloc::{AllocError, Global};
use std::rc::RcSlice;

/// A string that stands at a server, with the file of which it is a good share, if it is one of any.
#[derive(Drop)]
pub(crate) struct Judged {
    pub(crate) server: usize,
    pub(crate) number: u16,
    pub(crate) bytes: RcSlice<u8>,
    pub(crate) label: Option<Label>,
}

impl Judged {
    /// Whether it gives way to the share that is to stand at this server: it stands there, and is a good share of no file.
    pub(crate) fn gives_way(&self, place: usize) -> bool
        requires { IsJudged self.now }
        ensures bad { IsTrue result →
            ¬ (Verifies self.now.number (rc_slice_items self.now.bytes)) }
        ensures placed { IsTrue result → self.now.server ≡ place }
    {
        self.label.is_none() && self.server == place
    }
}

/// A string with the file of which it is a good share. No byte is copied.
fn judge(
    alloc: Global,
    server: usize,
    number: u16,
    bytes: &RcSlice<u8>,
) -> Result<Judged, AllocError>
    ensures place { IfOk result (λ judged. (judged.server ≡ server) × (judged.number ≡ number)) }
    ensures bytes { IfOk result (λ judged.
        rc_slice_items judged.bytes ≡ rc_slice_items bytes.now) }
    ensures told { IfOk result IsJudged }
{
    let label = label_of(alloc, bytes, number)?;
    let bytes = bytes.clone()?;
    Ok(Judged {
        server,
        number,
        bytes,
        label,
    })
}

/// What stands at each place, judged.
pub(crate) fn judge_each(
    alloc: Global,
    found: &[(usize, u16, RcSlice<u8>)],
) -> Result<Vec<Judged>, AllocError>
    ensures same { IfOk result (λ judged.
        map found_of judged.items ≡ map (found_bytes rc_slice_items) found.now) }
    ensures told { IfOk result (λ judged. All IsJudged judged.items) }
{
    let mut judged = Vec::with_capacity(alloc, found.len())?;
    for (server, number, bytes) in found {
        judged.push(judge(alloc, *server, *number, bytes)?)?;
    }
    Ok(judged)
}
