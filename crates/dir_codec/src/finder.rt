//! Looking a name up in a directory text, some entries at a time.
ghost use Rattle.std.specs.Prelude.{◌≡◌, ℕ, List, IfOk};
ghost use Rattle.dir_codec.specs.Sought.{sought_of, sought_in, IsFinding, IsFoundOn, IsAhead};

use crate::decoder::{Named, read_named};
use crate::fault::is_memory;
use crate::parts::first_entry;
use caps::Cap;
use json_spelling::STEP_BYTES;
use json_spelling::judging::{Judged, Judging, judge};
use octets::Text;
use std::alloc::{AllocError, Global};

/// What is found under a name in bytes that are to be a directory text.
#[derive(Drop)]
pub enum Sought {
    /// The cap of the child of that name.
    Child(Cap),
    /// The bytes are a directory text, and no child has that name.
    NoChild,
    /// The bytes are no directory text.
    NoDirectory,
}

/// A name that is looked for in a directory text, some entries at a time, and in long metadata some of their text at a
/// time. The whole text is judged, also behind the child.
pub struct Finder {
    /// The name that is looked for.
    name: Text,
    /// The name of the last entry that was read, the empty one where there is none.
    last: Text,
    /// How many bytes of the text were read, in whole entries.
    at: usize,
    /// The cap of the first entry of that name among those that were read.
    found: Option<Cap>,
    /// The metadata of the next entry, where they are long and some of their bytes were looked through.
    judging: Option<Judging>,
}

// Its own, so that what owns one calls it: a derived drop is spelled out wherever a value may be dropped.
impl Drop for Finder {
    fn drop(self) {
        let Finder {
            name: _,
            last: _,
            at: _,
            found: _,
            judging: _,
        } = self;
    }
}

/// How far a finder is.
#[derive(Drop)]
pub enum Finding {
    /// More of the text is to be read.
    Going(Finder),
    /// The whole text is judged, or a fault was met.
    Done(Sought),
}

impl Finder {
    /// A finder of a name, before the first entry.
    ///
    /// # Errors
    /// `AllocError` where memory is refused.
    pub fn new(alloc: Global, name: &str) -> Result<Finder, AllocError>
        ensures { IfOk result (λ finder. (text : List ℕ) → IsFinding name.now text finder) }
    {
        Ok(Finder {
            name: Text::from_string(String::from_str(alloc, name)?),
            last: Text::from_string(String::new(alloc)),
            at: 0,
            found: None,
            judging: None,
        })
    }

    /// With the next entries read, some 65,536 bytes of them: whole entries, until they take that many bytes or the
    /// text ends; or with 65,536 bytes looked through of longer metadata, and judged up to the last comma outside
    /// strings in them, if there is one. The text has to be the same at each step.
    ///
    /// # Errors
    /// `AllocError` where memory is refused, and never for what the text says.
    pub fn step(self, alloc: Global, text: &[u8]) -> Result<Finding, AllocError>
        ensures found { IfOk result (λ finding. (name : List ℕ) → IsFinding name text.now self
            → IsFoundOn name text.now finding) }
        ensures ahead { IfOk result (λ finding. IsAhead self finding) }
    {
        let start = self.at;
        let mut finder = self;
        while finder.at - start < STEP_BYTES {
            match finder.with_next(alloc, text)? {
                Finding::Going(next) => {
                    if next.judging.is_some() {
                        return Ok(Finding::Going(next));
                    }
                    finder = next;
                }
                Finding::Done(sought) => return Ok(Finding::Done(sought)),
            }
        }
        Ok(Finding::Going(finder))
    }

    /// With the next entry read, or more of its metadata judged, or done where none is left. Of an entry its metadata are
    /// judged first, since it doesn't matter which fault an entry has.
    fn with_next(self, alloc: Global, text: &[u8]) -> Result<Finding, AllocError>
        ensures found { IfOk result (λ finding. (name : List ℕ) → IsFinding name text.now self
            → IsFoundOn name text.now finding) }
        ensures ahead { IfOk result (λ finding. IsAhead self finding) }
    {
        tag_hash::laws::netstrings_are_read_back();
        let Finder {
            name,
            last,
            at,
            found,
            judging,
        } = self;
        if at >= text.len() {
            return Ok(Finding::Done(sought_of(found)));
        }
        let Some((parts, more)) = first_entry(&text[at..]) else {
            return Ok(Finding::Done(Sought::NoDirectory));
        };
        match judge(alloc, judging, parts.metadata)? {
            Judged::More(judging) => Ok(Finding::Going(Finder {
                name,
                last,
                at,
                found,
                judging: Some(judging),
            })),
            Judged::Done(false) => Ok(Finding::Done(Sought::NoDirectory)),
            Judged::Done(true) => match read_named(alloc, parts, last.as_str().as_bytes()) {
                Ok(Named { name: read, cap }) => {
                    let is_sought = read.as_str() == name.as_str();
                    Ok(Finding::Going(Finder {
                        name,
                        last: read,
                        at: text.len() - more.len(),
                        found: found.or(is_sought.then_some(cap)),
                        judging: None,
                    }))
                }
                Err(fault) => {
                    if is_memory(&fault) {
                        Err(AllocError)
                    } else {
                        Ok(Finding::Done(Sought::NoDirectory))
                    }
                }
            },
        }
    }
}

/// What is found under the name, where the whole text was read.
fn sought_of(found: Option<Cap>) -> Sought
    ensures { result ≡ sought_of found }
{
    match found {
        Some(cap) => Sought::Child(cap),
        None => Sought::NoChild,
    }
}

/// What is found under a name in the directory whose text this is: all of it is judged, one pass, and no directory is
/// built.
///
/// # Errors
/// `AllocError` where memory is refused, and never for what the text says.
pub fn find_child(alloc: Global, text: &[u8], name: &str) -> Result<Sought, AllocError>
    ensures { IfOk result (λ sought. sought ≡ sought_in name.now text.now) }
{
    let mut finder = Finder::new(alloc, name)?;
    'entries: loop {
        match finder.step(alloc, text)? {
            Finding::Going(next) => finder = next,
            Finding::Done(sought) => return Ok(sought),
        }
    }
}
