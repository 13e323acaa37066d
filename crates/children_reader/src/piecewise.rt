//! Reads members of children JSON a piece of their text at a time, whatever the order of keys in them.
ghost use Rattle.std.specs.Prelude.{◌≡◌, ◌≤◌, ◌∷◌, ℕ, List, length, take, Some, IfOk};
ghost use Rattle.std.specs.Str.{IsUtf8};
ghost use Rattle.serde_json.specs.Read.{max_depth};
ghost use Rattle.json_tree.specs.Builders.{HasTakenTokens};
ghost use Rattle.children_reader.specs.Collected.{IsPartUpTo, AreMembersRead};
ghost use Rattle.children_reader.specs.MemberReader.{IsReading};
ghost use Rattle.children_reader.specs.Piecewise.{IsPieceTo, IsReadSoFar, IsPartTaken};
ghost use Rattle.children_reader.specs.Readings.{IsReadingOf, IsReadingAt, IsReadOn, IsLaterReading, IsLaterFrom, IsLaterOn, AreReadOrNot, AreTakenOrNot};
ghost use Rattle.children_reader.specs.Taking.{IsTakenFrom};

use crate::child::MemberOutcome;
use crate::cutting::{Behind, NextPiece, Piece, next_piece};
use crate::member_reader::MemberReader;
use crate::members::read_members;
use crate::part_reader::{PartRead, PartReader};
use crate::taking::{TakenOn, Taking, members_in};
use dir_codec::is_memory;
use json_spelling::tree_in_object;
use json_tree::{Remains, TreeBuilder};
use serde_json::Value;
use std::alloc::{AllocError, Global};

/// Members that are under way.
#[derive(Drop)]
pub(crate) enum Reading {
    /// So far the keys rise in each object that is spelled: what is made of a member is known when its value ends.
    Rising(PartReader<MemberReader>),
    /// A key did not rise: a tree is built of the members from the first one on.
    Building(PartReader<TreeBuilder>),
    /// What is made of the members is taken from the tree. With it the place behind the comma that they end at.
    Taking(Taking, Option<usize>),
    /// What is made of each is known, and what is left of the tree is let go of.
    LettingGo(Vec<(String, MemberOutcome)>, Remains, Option<usize>),
}

/// How far the reading of members is.
#[derive(Drop)]
pub(crate) enum ReadOn {
    /// There is more to do.
    More(Reading),
    /// What is made of each, in the order of the text or, where a key did not rise, in the order of their keys; and the place
    /// behind the comma between members that they end at, None where they are the rest.
    All(Vec<(String, MemberOutcome)>, Option<usize>),
    /// They are no JSON. What was built of them is to be let go of.
    NotJson(Option<Remains>),
}

impl Reading {
    /// That which is under way, or at a place behind an opening brace or a comma between members.
    pub(crate) fn at(alloc: Global, at: usize, reading: Option<Reading>) -> Reading
        ensures read { (json : List ℕ) → at ≤ length json → IsUtf8 (take at json)
            → IsReadingAt json at reading → IsReadingOf json at result }
        ensures later { (next : Reading) → IsLaterReading result next
            → IsLaterFrom at reading (Some next) }
    {
        match reading {
            Some(reading) => reading,
            None => Reading::Rising(PartReader::behind(at, MemberReader::new(alloc))),
        }
    }

    /// With one piece more, or with more looked through for its end: 65,536 bytes. Where a key isn't above the one before it
    /// in an object that is spelled, the members are read anew, into a tree, in pieces too. What is made of them is taken from
    /// it then, and the rest let go of, some members or 1,024 values a step. Where the first piece is all of the members, they
    /// are read at once. The text and the place that they stand at have to be the same at each step.
    ///
    /// # Errors
    /// `AllocError` where memory is refused. Then all is let go of at once.
    pub(crate) fn go_on(self, alloc: Global, json: &[u8], at: usize) -> Result<ReadOn, AllocError>
        requires { IsReadingOf json.now at self }
        ensures read { IfOk result (IsReadOn json.now at) }
        ensures later { IfOk result (IsLaterOn self) }
    {
        match self {
            Reading::Rising(reader) => rise_on(alloc, json, at, reader),
            Reading::Building(reader) => build_on(alloc, json, at, reader),
            Reading::Taking(taking, next) => take_on(alloc, json, at, taking, next),
            Reading::LettingGo(found, remains, next) => let_go_on(json, at, found, remains, next),
        }
    }
}

/// With one piece more, or with more looked through for its end, where so far keys rise.
fn rise_on(
    alloc: Global,
    json: &[u8],
    at: usize,
    reader: PartReader<MemberReader>,
) -> Result<ReadOn, AllocError>
    requires { IsReadSoFar IsReading json.now at reader }
    ensures read { IfOk result (IsReadOn json.now at) }
    ensures later { IfOk result (IsLaterOn (Reading.Rising reader)) }
{
    match next_piece(alloc, json, &reader.looked)? {
        NextPiece::Sought(looked) => Ok(ReadOn::More(Reading::Rising(PartReader {
            looked,
            taker: reader.taker,
        }))),
        NextPiece::Found(Piece { text, behind }) => match behind {
            Behind::End(next) if reader.looked.end <= reader.looked.at => {
                read_first(alloc, json, at, text, next)
            }
            behind => push_rising(alloc, json, at, reader, text, behind),
        },
    }
}

/// With the tokens of the piece that comes next, where so far keys rise.
fn push_rising(
    alloc: Global,
    json: &[u8],
    at: usize,
    reader: PartReader<MemberReader>,
    text: Vec<u8>,
    behind: Behind,
) -> Result<ReadOn, AllocError>
    requires read { IsReadSoFar IsReading json.now at reader }
    requires piece { IsPieceTo json.now reader.looked text.items behind }
    ensures read { IfOk result (IsReadOn json.now at) }
    ensures later { IfOk result (IsLaterOn (Reading.Rising reader)) }
{
    match reader.push_on(alloc, json, text, behind)? {
        PartRead::More(reader) => Ok(ReadOn::More(Reading::Rising(reader))),
        PartRead::All(reader, next) => Ok(finished(json, at, reader, next)),
        PartRead::NotJson(_) => Ok(ReadOn::NotJson(None)),
        PartRead::NotRising => {
            let tree = PartReader::behind(at, tree_in_object(alloc)?);
            Ok(ReadOn::More(Reading::Building(tree)))
        }
    }
}

/// With all tokens of the members read.
fn finished(json: &[u8], at: usize, reader: MemberReader, next: Option<usize>) -> ReadOn
    requires { IsPartTaken IsReading json.now at reader next }
    ensures read { IsReadOn json.now at result }
    ensures later { AreReadOrNot result }
{
    json_members::laws::a_cut_object_is_joined();
    json_members::laws::objects_begin_with_a_brace();
    json_members::laws::objects_are_joined_in_turn();
    match reader.finish() {
        Some(found) => ReadOn::All(found, next),
        None => ReadOn::NotJson(None),
    }
}

/// Members before whose first piece nothing was read, and which end with it, are read at once.
fn read_first(
    alloc: Global,
    json: &[u8],
    at: usize,
    piece: Vec<u8>,
    next: Option<usize>,
) -> Result<ReadOn, AllocError>
    requires within { at ≤ length json.now }
    requires before { IsUtf8 (take at json.now) }
    requires part { IsPartUpTo json.now at (123 ∷ piece.items) next }
    ensures read { IfOk result (IsReadOn json.now at) }
    ensures later { IfOk result AreReadOrNot }
{
    json_members::laws::a_cut_object_is_joined();
    json_members::laws::objects_begin_with_a_brace();
    json_members::laws::objects_are_joined_in_turn();
    let text = in_braces(alloc, piece.as_slice())?;
    let Ok(text) = str::from_utf8(text.as_slice()) else {
        return Ok(ReadOn::NotJson(None));
    };
    match read_members(alloc, text) {
        Ok(found) => Ok(ReadOn::All(found, next)),
        Err(fault) => {
            if is_memory(&fault) {
                return Err(AllocError);
            }
            Ok(ReadOn::NotJson(None))
        }
    }
}

/// A piece behind the brace that opens an object.
fn in_braces(alloc: Global, piece: &[u8]) -> Result<Vec<u8>, AllocError>
    ensures { IfOk result (λ text. text.items ≡ 123 ∷ piece.now) }
{
    let mut text = Vec::with_capacity(alloc, piece.len().saturating_add(1))?;
    text.push(b'{')?;
    text.extend_from_slice(piece)?;
    Ok(text)
}

/// With one piece more in the tree, or with more looked through for its end.
fn build_on(
    alloc: Global,
    json: &[u8],
    at: usize,
    reader: PartReader<TreeBuilder>,
) -> Result<ReadOn, AllocError>
    requires { IsReadSoFar (HasTakenTokens max_depth) json.now at reader }
    ensures read { IfOk result (IsReadOn json.now at) }
    ensures later { IfOk result (IsLaterOn (Reading.Building reader)) }
{
    match reader.step(alloc, json)? {
        PartRead::More(reader) => Ok(ReadOn::More(Reading::Building(reader))),
        PartRead::All(tree, next) => Ok(built(alloc, json, at, tree, next)),
        PartRead::NotJson(tree) => Ok(ReadOn::NotJson(Some(tree.give_up()))),
        // A tree wants no order of keys: NotRising never comes.
        PartRead::NotRising => Ok(ReadOn::NotJson(None)),
    }
}

/// With all tokens of the members in the tree.
fn built(alloc: Global, json: &[u8], at: usize, tree: TreeBuilder, next: Option<usize>) -> ReadOn
    requires { IsPartTaken (HasTakenTokens max_depth) json.now at tree next }
    ensures read { IsReadOn json.now at result }
    ensures later { AreTakenOrNot result }
{
    json_members::laws::a_cut_object_is_joined();
    json_members::laws::objects_begin_with_a_brace();
    json_members::laws::objects_are_joined_in_turn();
    json_tree::laws::builders_read_the_grammar();
    let value = match tree.finish() {
        Ok(value) => value,
        Err(tree) => return ReadOn::NotJson(Some(tree.give_up())),
    };
    match members_in(Some(value)) {
        Ok(members) => ReadOn::More(Reading::Taking(Taking::of(alloc, members), next)),
        // What begins with a brace is an object: nothing else comes.
        Err(other) => ReadOn::NotJson(remains_of(alloc, other)),
    }
}

/// A value that is let go of, if there is one.
fn remains_of(alloc: Global, value: Option<Value>) -> Option<Remains> {
    match value {
        Some(value) => Some(Remains::of(alloc, value)),
        None => None,
    }
}

/// With more taken from the tree.
fn take_on(
    alloc: Global,
    json: &[u8],
    at: usize,
    taking: Taking,
    next: Option<usize>,
) -> Result<ReadOn, AllocError>
    requires { IsPartTaken IsTakenFrom json.now at taking next }
    ensures read { IfOk result (IsReadOn json.now at) }
    ensures later { IfOk result (IsLaterOn (Reading.Taking taking next)) }
{
    match taking.step(alloc)? {
        TakenOn::Going(taking) => Ok(ReadOn::More(Reading::Taking(taking, next))),
        TakenOn::All(found, remains) => {
            Ok(ReadOn::More(Reading::LettingGo(found, remains, next)))
        }
    }
}

/// With more of the tree let go of.
fn let_go_on(
    json: &[u8],
    at: usize,
    found: Vec<(String, MemberOutcome)>,
    remains: Remains,
    next: Option<usize>,
) -> Result<ReadOn, AllocError>
    requires { IsPartTaken (λ ts es. AreMembersRead es ts) json.now at found.items next }
    ensures read { IfOk result (IsReadOn json.now at) }
    ensures later { IfOk result (IsLaterOn (Reading.LettingGo found remains next)) }
{
    let mut left = remains;
    if left.step()? {
        return Ok(ReadOn::More(Reading::LettingGo(found, left, next)));
    }
    Ok(ReadOn::All(found, next))
}
