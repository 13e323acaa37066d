//! What was found under names in directories.
ghost use Rattle.std.specs.Prelude.{◌≡◌, ◌<◌, [], Contains, IfOk, IfSome, IsTrue};
ghost use Rattle.std.specs.Coded.{Coded-set};
ghost use Rattle.dir_codec.specs.Sought.{sought_in};
ghost use Rattle.chk_file.specs.Told.{told_in};

use caps::{Cap, ReadFields, copy_cap};
use dir_codec::Sought;
use http_server::Log;
use octets::{Bytes, Text};
use std::alloc::{AllocError, Global};
use std::marker::Model;

/// How many steps are kept of walks whose turn it is, at most, and how many of others.
const MOST_IN_TURN: usize = 256;

const MOST_OTHERS: usize = 16;

const MOST_STEPS: usize = 272;

/// The most bytes of a name that is kept. A request has no longer one, since its head is shorter.
pub(crate) const MOST_IN_A_NAME: usize = 16_384;

/// The most bytes that stand in a cap that is kept.
const MOST_IN_A_LITERAL: usize = 16_384;

/// What was found under a name in a directory, and the stamp of its storage index at that time. Its bytes are told of, and
/// not held.
#[derive(Drop)]
pub(crate) struct Step {
    fields: ReadFields,
    stamp: u64,
    name: Text,
    sought: Sought,
    told: Log<ReadFields, Bytes>,
    ghost found: { sought ≡ sought_in name (told_in told.items) } by { Coded-set sought-code sought (sought_in name (told_in told.items)) },
}

impl Step {
    ghost use Rattle.chk_file.specs.Seen.{step_entry};

    /// Of a directory of which these are the bytes.
    pub(crate) fn new(
        fields: ReadFields,
        stamp: u64,
        name: Text,
        sought: Sought,
        bytes: &Bytes,
    ) -> Step
        requires { sought ≡ sought_in name bytes.now }
        ensures { step_entry result ≡ (fields, (stamp, bytes.now)) }
    {
        let told = Log::new().and(&fields, bytes);
        Step {
            fields,
            stamp,
            name,
            sought,
            told,
        }
    }

    /// Whether it is for this name in the directory with these fields, at this stamp.
    fn is_of(&self, fields: &ReadFields, stamp: u64, name: &Text) -> bool
        ensures fields { IsTrue result → self.now.fields ≡ fields.now }
        ensures stamp { IsTrue result → self.now.stamp ≡ stamp }
        ensures name { IsTrue result → self.now.name ≡ name.now }
    {
        self.stamp == stamp && self.fields == *fields && self.name.as_str() == name.as_str()
    }

    /// Whether it takes little memory.
    pub(crate) fn is_small(&self) -> bool {
        if self.name.as_str().len() > MOST_IN_A_NAME {
            return false;
        }
        match &self.sought {
            Sought::Child(Cap::Lit(bytes) | Cap::DirLit(bytes)) => bytes.len() <= MOST_IN_A_LITERAL,
            _ => true,
        }
    }

    /// A copy of what was found.
    pub(crate) fn sought(&self, alloc: Global) -> Result<Sought, AllocError>
        ensures { IfOk result (λ sought. sought ≡ sought_in self.now.name (told_in self.now.told.items)) }
    {
        match &self.sought {
            Sought::Child(cap) => Ok(Sought::Child(copy_cap(alloc, cap)?)),
            Sought::NoChild => Ok(Sought::NoChild),
            Sought::NoDirectory => Ok(Sought::NoDirectory),
        }
    }
}

/// The steps that were taken last: of a walk whose turn it is at most 256, and of others at most 16, which don't push those
/// of the first out.
#[derive(Drop)]
pub(crate) struct Steps {
    steps: Vec<Step>,
    oldest: usize,
    oldest_other: usize,
}

impl Model for Steps {
    ghost use Rattle.std.specs.Prelude.{List, map};
    ghost use Rattle.chk_file.specs.Cached.{CacheEntry};

    ghost Value = { List CacheEntry };

    ghost use Rattle.chk_file.specs.Seen.{step_entry};

    ghost view = { λ s. map step_entry s.steps.items };
}

impl Steps {
    ghost use Rattle.std.specs.Prelude.{◌<◌, length, map};
    ghost use Rattle.chk_file.specs.Cached.{IsWithinOr};
    ghost use Rattle.chk_file.specs.Seen.{step_entry};

    /// None yet. Takes no memory.
    pub(crate) fn new(alloc: Global) -> Steps
        ensures { result ≡ [] }
    {
        Steps {
            steps: Vec::new(alloc),
            oldest: 0,
            oldest_other: 0,
        }
    }

    /// The step for this name in the directory with these fields, at this stamp.
    pub(crate) fn find(&self, fields: &ReadFields, stamp: u64, name: &Text) -> Option<&Step>
        ensures there { IfSome result (λ step. Contains self.now (step_entry step.now)) }
        ensures fields { IfSome result (λ step. step.now.fields ≡ fields.now) }
        ensures stamp { IfSome result (λ step. step.now.stamp ≡ stamp) }
        ensures name { IfSome result (λ step. step.now.name ≡ name.now) }
    {
        for step in &self.steps {
            if step.is_of(fields, stamp, name) {
                return Some(step);
            }
        }
        None
    }

    /// Keeps one more, in the place of the oldest of its kind where there are 272. Where memory is refused they are as they
    /// were.
    pub(crate) fn add(&mut self, step: Step, is_its_turn: bool)
        ensures { IsWithinOr self.old self.new (step_entry step) }
    {
        if self.steps.len() < MOST_STEPS {
            drop(self.steps.push(step));
            return;
        }
        let at = next_place(&mut self.oldest, &mut self.oldest_other, is_its_turn);
        Steps::replace(&mut self.steps, at, step);
    }

    /// Puts a step in the place of another.
    fn replace(steps: &mut Vec<Step>, at: usize, step: Step)
        requires { at < length steps.old.items }
        ensures { IsWithinOr (map step_entry steps.old.items) (map step_entry steps.new.items)
            (step_entry step) }
    {
        steps[at] = step;
    }
}

/// The place of the oldest of its kind.
fn next_place(oldest: &mut usize, oldest_other: &mut usize, is_its_turn: bool) -> usize
    ensures { result < 272 }
{
    if is_its_turn {
        let place = behind(*oldest, MOST_IN_TURN);
        *oldest = place;
        return place;
    }
    let place = behind(*oldest_other, MOST_OTHERS);
    *oldest_other = place;
    MOST_IN_TURN + place
}

/// The place behind this one of so many in a ring.
fn behind(place: usize, places: usize) -> usize
    requires { 0 < places }
    ensures { result < places }
{
    if place >= places - 1 { 0 } else { place + 1 }
}
