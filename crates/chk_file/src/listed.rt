//! Directories whose listing is prepared.
ghost use Rattle.std.specs.Prelude.{◌≡◌, ◌++◌, IfOk, IfErr};
ghost use Rattle.std.specs.Rc.{rc_slice_items};
ghost use Rattle.json_view.specs.Counts.{count_text};
ghost use Rattle.chk_file.specs.Seen.{stage_text};

use caps::ReadFields;
use file_shares::Download;
use json_view::{Count, Counted, Counting};
use std::alloc::{AllocError, Global};
use std::marker::Model;
use std::rc::RcSlice;

/// How far a listing is.
#[derive(Drop)]
pub(crate) enum Stage {
    /// The directory's bytes are gathered: those so far, and the rest.
    Gathering(Vec<u8>, Download),
    /// Its children are counted.
    Counting(Counting),
    /// They are counted.
    Done(Counted),
}

/// A directory whose listing is prepared, and the stamp of its storage index when that began: its bytes are gathered, and
/// then its children are counted.
#[derive(Drop)]
pub(crate) struct Listed {
    fields: ReadFields,
    stamp: u64,
    stage: Stage,
}

impl Model for Listed {
    ghost use Rattle.chk_file.specs.Cached.{CacheEntry};
    ghost use Rattle.chk_file.specs.Seen.{stage_text};

    ghost Value = { CacheEntry };

    ghost view = { λ l. (l.fields, (l.stamp, stage_text l.stage)) };
}

impl Listed {
    /// Before the first step, of a directory whose bytes are these. The memory for all of them is taken.
    pub(crate) fn new(
        alloc: Global,
        fields: &ReadFields,
        stamp: u64,
        rest: Download,
    ) -> Result<Listed, AllocError>
        ensures { IfOk result (λ listed. listed ≡ (fields.now, (stamp, rest.left))) }
    {
        let bytes = Vec::with_capacity(alloc, fields.size as usize)?;
        Ok(Listed {
            fields: *fields,
            stamp,
            stage: Stage::Gathering(bytes, rest),
        })
    }

    /// Whether it is for the directory with these fields.
    pub(crate) fn is_of(&self, fields: &ReadFields) -> bool {
        self.fields == *fields
    }

    /// Whether it began at this stamp.
    pub(crate) fn is_at(&self, stamp: u64) -> bool {
        self.stamp == stamp
    }

    /// Whether its children are counted.
    pub(crate) fn is_done(&self) -> bool {
        matches!(&self.stage, Stage::Done(_))
    }

    /// With the next segment gathered, or once all are gathered with the next children counted.
    pub(crate) fn step(self, alloc: Global) -> Result<Listed, AllocError>
        ensures { IfOk result (λ listed. listed ≡ self) }
    {
        let Listed {
            fields,
            stamp,
            stage,
        } = self;
        Ok(Listed {
            fields,
            stamp,
            stage: next_stage(alloc, stage)?,
        })
    }

    /// What was counted, where all of it was, for the directory with these fields and at this stamp. Else itself is given
    /// back.
    pub(crate) fn give(self, fields: &ReadFields, stamp: u64) -> Result<Counted, Listed>
        ensures counted { IfOk result (λ counted. self ≡ (fields.now, (stamp, counted))) }
        ensures kept { IfErr result (λ listed. listed ≡ self) }
    {
        if self.stamp != stamp || self.fields != *fields {
            return Err(self);
        }
        counted_of(self)
    }
}

/// What was counted, where all of it was.
fn counted_of(listed: Listed) -> Result<Counted, Listed>
    ensures counted { IfOk result (λ counted. listed ≡ (listed.0, (listed.1.0, counted))) }
    ensures kept { IfErr result (λ kept. kept ≡ listed) }
{
    let Listed {
        fields,
        stamp,
        stage,
    } = listed;
    match stage {
        Stage::Done(counted) => Ok(counted),
        stage => Err(Listed {
            fields,
            stamp,
            stage,
        }),
    }
}

/// What follows of a listing.
fn next_stage(alloc: Global, stage: Stage) -> Result<Stage, AllocError>
    ensures { IfOk result (λ next. stage_text next ≡ stage_text stage) }
{
    match stage {
        Stage::Gathering(bytes, rest) => gather_next(alloc, bytes, rest),
        Stage::Counting(counting) => count_next(alloc, counting),
        Stage::Done(counted) => Ok(Stage::Done(counted)),
    }
}

/// With the next segment gathered. Once all are gathered the counting begins.
fn gather_next(alloc: Global, bytes: Vec<u8>, rest: Download) -> Result<Stage, AllocError>
    ensures { IfOk result (λ next. stage_text next ≡ bytes.items ++ rest.left) }
{
    let mut bytes = bytes;
    let mut rest = rest;
    let Some(segment) = rest.next()? else {
        return Ok(Stage::Counting(Counting::new(alloc, RcSlice::from_vec(bytes)?)));
    };
    bytes.extend_from_slice(&segment)?;
    Ok(Stage::Gathering(bytes, rest))
}

/// With the next children counted.
fn count_next(alloc: Global, counting: Counting) -> Result<Stage, AllocError>
    ensures { IfOk result (λ next. stage_text next ≡ counting) }
{
    match counting.step(alloc)? {
        Count::Going(counting) => Ok(Stage::Counting(counting)),
        Count::Done(counted) => Ok(Stage::Done(counted)),
    }
}
