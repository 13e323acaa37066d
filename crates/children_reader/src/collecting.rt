//! Reads children JSON some of its text at a time.
ghost use Rattle.std.specs.Prelude.{◌≡◌, ℕ, List, [], None, IsTrue, ◌↔◌, OnOk, IfOk};
ghost use Rattle.serde_json.specs.Data.{Members};
ghost use Rattle.children_reader.specs.Kept.{AreOutcomes};
ghost use Rattle.children_reader.specs.Collected.{IsBehindBrace, AreEntered, AreMembersRead};
ghost use Rattle.children_reader.specs.Collecting.{IsCollecting, IsCollectedOn, IsFurther, IsPastPart};
ghost use Rattle.children_reader.specs.Piecewise.{IsPartTaken};

use crate::child::MemberOutcome;
use crate::piecewise::{ReadOn, Reading};
use json_tree::Remains;
use std::alloc::{AllocError, Global};
use std::collections::BTreeMap;

/// What is made of the members that were read so far, by their keys: of equal keys the last.
pub(crate) struct Collecting {
    /// How many bytes of the text were read, up to a comma between members.
    at: usize,
    outcomes: BTreeMap<String, MemberOutcome>,
    /// Members behind them that are under way.
    reading: Option<Reading>,
}

// Its own, so that what owns one calls it: a derived drop is spelled out wherever a value may be dropped.
impl Drop for Collecting {
    fn drop(self) {
        let Collecting {
            at: _,
            outcomes: _,
            reading: _,
        } = self;
    }
}

/// How far the reading of members is.
#[derive(Drop)]
pub(crate) enum Collected {
    /// More of the text is to be read.
    More(Collecting),
    /// What is made of each member of the object, by its key.
    All(BTreeMap<String, MemberOutcome>),
    /// The text is no JSON. What was made of the members before the fault, and what was built of those under way, is to be
    /// let go of.
    Refused(BTreeMap<String, MemberOutcome>, Option<Remains>),
}

impl Collecting {
    /// Before the first member, at the place behind the brace that opens the object.
    pub(crate) fn new(alloc: Global, at: usize) -> Collecting
        ensures { (json : List ℕ) → IsBehindBrace json at → IsCollecting json result }
    {
        Collecting {
            at,
            outcomes: BTreeMap::new(alloc),
            reading: None,
        }
    }

    /// With the next members read. The text has to be the same at each step.
    ///
    /// # Errors
    /// `AllocError` where memory is refused.
    pub(crate) fn step(self, alloc: Global, json: &[u8]) -> Result<Collected, AllocError>
        requires { IsCollecting json.now self }
        ensures collected { IfOk result (IsCollectedOn json.now) }
        ensures further { IfOk result (IsFurther self) }
    {
        let Collecting {
            at,
            outcomes,
            reading,
        } = self;
        let reading = Reading::at(alloc, at, reading);
        match reading.go_on(alloc, json, at)? {
            ReadOn::More(reading) => Ok(Collected::More(Collecting {
                at,
                outcomes,
                reading: Some(reading),
            })),
            ReadOn::All(found, next) => with_part(json, at, outcomes, found, next),
            ReadOn::NotJson(remains) => Ok(Collected::Refused(outcomes, remains)),
        }
    }
}

/// With the outcomes of a part put in, behind those of the members before its place.
fn with_part(
    json: &[u8],
    at: usize,
    outcomes: BTreeMap<String, MemberOutcome>,
    found: Vec<(String, MemberOutcome)>,
    next: Option<usize>,
) -> Result<Collected, AllocError>
    requires before { IsCollecting json.now (record { at = at; outcomes = outcomes; reading = None }) }
    requires part { IsPartTaken (λ ts es. AreMembersRead es ts) json.now at found.items next }
    ensures collected { IfOk result (IsCollectedOn json.now) }
    ensures further { IfOk result (IsPastPart at) }
{
    json_members::laws::a_cut_object_is_joined();
    json_members::laws::objects_begin_with_a_brace();
    json_members::laws::objects_are_joined_in_turn();
    let mut outcomes = outcomes;
    if found.is_empty() {
        if !is_alone(next, &outcomes) {
            return Ok(Collected::Refused(outcomes, None));
        }
        return Ok(Collected::All(outcomes));
    }
    put_in(&mut outcomes, found)?;
    match next {
        Some(at) => Ok(Collected::More(Collecting {
            at,
            outcomes,
            reading: None,
        })),
        None => Ok(Collected::All(outcomes)),
    }
}

/// Nothing stands behind a part, and nothing was read before it.
fn is_alone(next: Option<usize>, outcomes: &BTreeMap<String, MemberOutcome>) -> bool
    ensures { IsTrue result ↔ (next ≡ None) × (outcomes.now.entries ≡ []) }
{
    next.is_none() && outcomes.is_empty()
}

/// Puts outcomes in at their keys, in the place of those that are there.
pub(crate) fn put_in(
    outcomes: &mut BTreeMap<String, MemberOutcome>,
    found: Vec<(String, MemberOutcome)>,
) -> Result<(), AllocError>
    ensures { OnOk result ((before after : Members) → AreOutcomes outcomes.old.entries before
        → AreEntered found.items before after → AreOutcomes outcomes.new.entries after) }
{
    for (key, outcome) in found {
        drop(outcomes.insert(key, outcome)?);
    }
    Ok(())
}
