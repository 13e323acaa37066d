//! Directories that are looked through for a name.
ghost use Rattle.std.specs.Prelude.{◌≡◌, [], IfOk};
ghost use Rattle.dir_codec.specs.Sought.{IsFinding};
ghost use Rattle.chk_file.specs.Seen.{looked_entry};

use crate::steps::Step;
use caps::ReadFields;
use dir_codec::{Finder, Finding};
use file_shares::Download;
use octets::{Bytes, Text};
use std::alloc::{AllocError, Global};
use std::marker::Model;

/// A directory that is looked through for a name, and the stamp of its storage index when that began: its bytes are
/// gathered, and then the name is looked for in them.
pub(crate) struct Looking {
    fields: ReadFields,
    stamp: u64,
    name: Text,
    bytes: Vec<u8>,
    rest: Download,
    finder: Finder,
}

// Its own, so that what owns one calls it: a derived drop is spelled out wherever a value may be dropped.
impl Drop for Looking {
    fn drop(self) {
        let Looking {
            fields: _,
            stamp: _,
            name: _,
            bytes: _,
            rest: _,
            finder: _,
        } = self;
    }
}

impl Model for Looking {
    ghost use Rattle.std.specs.Prelude.{◌++◌};
    ghost use Rattle.dir_codec.specs.Sought.{IsFinding};
    ghost use Rattle.chk_file.specs.Cached.{CacheEntry};

    ghost Value = { CacheEntry };

    ghost view = { λ l. (l.fields, (l.stamp, l.bytes.items ++ l.rest.left)) };

    ghost invariant = { λ l. IsFinding l.name (l.bytes.items ++ l.rest.left) l.finder };
}

/// How far a look is.
#[derive(Drop)]
pub(crate) enum Looked {
    /// Steps are left.
    Going(Looking),
    /// This was found.
    Done(Step),
}

impl Looking {
    /// Before the first step, of a directory whose bytes are these. The memory for all of them is taken.
    pub(crate) fn new(
        alloc: Global,
        fields: &ReadFields,
        stamp: u64,
        name: &Text,
        rest: Download,
    ) -> Result<Looking, AllocError>
        ensures { IfOk result (λ looking. looking ≡ (fields.now, (stamp, rest.left))) }
    {
        let finder = Finder::new(alloc, name.as_str())?;
        let copy = Text::from_string(String::from_str(alloc, name.as_str())?);
        Ok(Looking {
            fields: *fields,
            stamp,
            name: copy,
            bytes: Vec::with_capacity(alloc, fields.size as usize)?,
            rest,
            finder,
        })
    }

    /// Whether it is for this name in the directory with these fields.
    pub(crate) fn is_of(&self, fields: &ReadFields, name: &Text) -> bool {
        self.fields == *fields && self.name.as_str() == name.as_str()
    }

    /// Whether it began at this stamp.
    pub(crate) fn is_at(&self, stamp: u64) -> bool {
        self.stamp == stamp
    }

    /// With the next segment gathered, or once all are gathered with the next entries read.
    pub(crate) fn step(self, alloc: Global) -> Result<Looked, AllocError>
        ensures { IfOk result (λ looked. looked_entry looked ≡ self) }
    {
        let Looking {
            fields,
            stamp,
            name,
            mut bytes,
            mut rest,
            finder,
        } = self;
        let Some(segment) = rest.next()? else {
            return read_on(alloc, fields, stamp, name, bytes, rest, finder);
        };
        bytes.extend_from_slice(&segment)?;
        Ok(Looked::Going(Looking {
            fields,
            stamp,
            name,
            bytes,
            rest,
            finder,
        }))
    }
}

/// With the next entries read of a directory whose bytes are all gathered.
fn read_on(
    alloc: Global,
    fields: ReadFields,
    stamp: u64,
    name: Text,
    bytes: Vec<u8>,
    rest: Download,
    finder: Finder,
) -> Result<Looked, AllocError>
    requires gathered { rest.left ≡ [] }
    requires finding { IsFinding name bytes.items finder }
    ensures { IfOk result (λ looked. looked_entry looked ≡ (fields, (stamp, bytes.items))) }
{
    match finder.step(alloc, &bytes)? {
        Finding::Going(finder) => Ok(Looked::Going(Looking {
            fields,
            stamp,
            name,
            bytes,
            rest,
            finder,
        })),
        Finding::Done(sought) => {
            let bytes = Bytes::from_vec(bytes);
            Ok(Looked::Done(Step::new(fields, stamp, name, sought, &bytes)))
        }
    }
}
