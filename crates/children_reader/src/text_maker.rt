//! The text of the directory of the children that JSON names, made some members at a time.
ghost use Rattle.std.specs.Prelude.{◌≡◌, ◌+◌, ◌-◌, ◌<◌, ◌≤◌, ◌++◌, ℕ, List, Ok, None, length, option_map, OnOk, IfOk, IfSome};
ghost use Rattle.dir_codec.specs.DirectoryText.{directory_text};
ghost use Rattle.children_reader.specs.Named.{entries_of};
ghost use Rattle.children_reader.specs.TextMakers.{IsMakerStage, IsTextMaker, IsTextMadeOn, IsLaterMaker, AreFewLeavings, text_made, tree_parts};
ghost use Rattle.children_reader.specs.declared.text_maker.TextMaking.TheVariants.{Going, Done};

use crate::child::{Child, MemberOutcome};
use crate::children::from_children_json;
use crate::collecting::{Collected, Collecting};
use crate::cutting::behind_brace;
use crate::naming::name_some;
use dir_codec::{DirFault, Entry, encode, is_memory, push_entry};
use json_spelling::STEP_BYTES;
use json_tree::Remains;
use octets::Text;
use std::alloc::{AllocError, Global};
use std::collections::BTreeMap;

/// How many children are named, or written, or let go of, in a step, at most.
const STEP_CHILDREN: usize = 1_024;

/// The text of the directory of the children that JSON names, as far as it is made.
pub struct TextMaker {
    stage: MakerStage,
}

// Its own, so that what owns one calls it: a derived drop is spelled out wherever a value may be dropped.
impl Drop for TextMaker {
    fn drop(self) {
        let TextMaker { stage: _ } = self;
    }
}

/// How far a maker is.
#[derive(Drop)]
pub(crate) enum MakerStage {
    /// Nothing was read.
    Unopened,
    /// Members are read.
    Collecting(Collecting),
    /// Their children are named.
    Naming(BTreeMap<String, MemberOutcome>, BTreeMap<String, Child>),
    /// The children are written.
    Writing(BTreeMap<String, Child>, Vec<u8>),
    /// The JSON names no directory: what was made and built of its members is let go of.
    Refused(Leavings),
}

/// What was made and built of the members of JSON that names no directory.
#[derive(Drop)]
pub(crate) struct Leavings {
    /// What was made of members.
    outcomes: BTreeMap<String, MemberOutcome>,
    /// Children that were named.
    children: BTreeMap<String, Child>,
    /// What is left of a tree of members that were under way.
    tree: Option<Remains>,
}

/// How a maker goes on.
#[derive(Drop)]
pub enum TextMaking {
    /// It has more to do.
    Going(TextMaker),
    /// The text of the directory, None where the JSON names no directory.
    Done(Option<Vec<u8>>),
}

impl TextMaker {
    /// Before the first byte.
    pub fn new() -> TextMaker
        ensures { (json : List ℕ) → IsTextMaker json result }
    {
        TextMaker {
            stage: MakerStage::Unopened,
        }
    }

    /// With 65,536 bytes of members looked through, or with 1,024 children named, or with as many written or with
    /// 65,536 bytes of them. Where the JSON names no directory, what was made of its members is let go of so too: of
    /// 1,024 members, 1,024 children and 1,024 values in a step. The members that end in the bytes looked through are
    /// read, and of a longer one what stands up to the last comma outside strings, if there is one. So a long string is
    /// read at once. Where an object in a longer one has keys that don't rise, the member is read anew, into a tree, in
    /// steps too; and what is made of it is taken from the tree, and the rest let go of, some 1,024 values a step. The
    /// JSON has to be the same at each step. What it is that the JSON names is said at
    /// [`from_children_json`](crate::from_children_json).
    ///
    /// # Errors
    /// `AllocError` where memory is refused, and never for what the JSON says.
    pub fn step(self, alloc: Global, json: &[u8]) -> Result<TextMaking, AllocError>
        requires { IsTextMaker json.now self }
        ensures made { IfOk result (λ making. IsTextMadeOn json.now making) }
        ensures later { IfOk result (λ making. IsLaterMaker self.stage making) }
    {
        let TextMaker { stage } = self;
        match stage {
            MakerStage::Unopened => Ok(opened(alloc, json)),
            MakerStage::Collecting(collecting) => collect_next(alloc, json, collecting),
            MakerStage::Naming(outcomes, children) => name_next(alloc, json, outcomes, children),
            MakerStage::Writing(children, text) => write_next(alloc, json, children, text),
            MakerStage::Refused(leavings) => drop_next(json, leavings),
        }
    }
}

/// A maker that stands there.
fn going(stage: MakerStage) -> TextMaking
    ensures { result ≡ Going (record { stage = stage }) }
{
    TextMaking::Going(TextMaker { stage })
}

/// Behind the brace that opens the object.
fn opened(alloc: Global, json: &[u8]) -> TextMaking
    ensures made { IsTextMadeOn json.now result }
    ensures later { IsLaterMaker MakerStage.Unopened result }
{
    match behind_brace(json) {
        Some(start) => going(MakerStage::Collecting(Collecting::new(alloc, start))),
        None => TextMaking::Done(None),
    }
}

/// With the next members read. Where memory is refused, all is let go of at once.
fn collect_next(
    alloc: Global,
    json: &[u8],
    collecting: Collecting,
) -> Result<TextMaking, AllocError>
    requires { IsMakerStage json.now (MakerStage.Collecting collecting) }
    ensures made { IfOk result (λ making. IsTextMadeOn json.now making) }
    ensures later { IfOk result (IsLaterMaker (MakerStage.Collecting collecting)) }
{
    match collecting.step(alloc, json)? {
        Collected::More(next) => Ok(going(MakerStage::Collecting(next))),
        Collected::All(outcomes) => Ok(going(MakerStage::Naming(outcomes, BTreeMap::new(alloc)))),
        Collected::Refused(outcomes, tree) => Ok(going(MakerStage::Refused(Leavings {
            outcomes,
            children: BTreeMap::new(alloc),
            tree,
        }))),
    }
}

/// With the next children named. Where memory is refused, all is let go of at once.
fn name_next(
    alloc: Global,
    json: &[u8],
    outcomes: BTreeMap<String, MemberOutcome>,
    children: BTreeMap<String, Child>,
) -> Result<TextMaking, AllocError>
    requires { IsMakerStage json.now (MakerStage.Naming outcomes children) }
    ensures made { IfOk result (λ making. IsTextMadeOn json.now making) }
    ensures later { IfOk result (IsLaterMaker (MakerStage.Naming outcomes children)) }
{
    let mut left = outcomes;
    let mut named = children;
    match name_some(&mut named, &mut left, STEP_CHILDREN) {
        Ok(()) if left.is_empty() => Ok(going(MakerStage::Writing(named, Vec::new(alloc)))),
        Ok(()) => Ok(going(MakerStage::Naming(left, named))),
        Err(fault) if is_memory(&fault) => Err(AllocError),
        Err(_) => Ok(going(MakerStage::Refused(Leavings {
            outcomes: left,
            children: named,
            tree: None,
        }))),
    }
}

/// With the next children written.
fn write_next(
    alloc: Global,
    json: &[u8],
    children: BTreeMap<String, Child>,
    text: Vec<u8>,
) -> Result<TextMaking, AllocError>
    requires { IsMakerStage json.now (MakerStage.Writing children text) }
    ensures made { IfOk result (λ making. IsTextMadeOn json.now making) }
    ensures later { IfOk result (IsLaterMaker (MakerStage.Writing children text)) }
{
    let mut left = children;
    let mut written = text;
    write_some(alloc, &mut left, &mut written)?;
    if left.is_empty() {
        return Ok(TextMaking::Done(Some(written)));
    }
    Ok(going(MakerStage::Writing(left, written)))
}

/// Writes the entries of the next children behind a text, in the order of their names: 1,024 of them, or as many as take
/// 65,536 bytes.
fn write_some(
    alloc: Global,
    left: &mut BTreeMap<String, Child>,
    text: &mut Vec<u8>,
) -> Result<(), AllocError>
    ensures written { OnOk result (text.new.items ++ directory_text (entries_of left.new.entries)
        ≡ text.old.items ++ directory_text (entries_of left.old.entries)) }
    ensures fewer { OnOk result (0 < length left.new.entries
        → length left.new.entries < length left.old.entries) }
    ensures few { OnOk result (length left.old.entries ≤ length left.new.entries + 1024) }
{
    let mut inside = Vec::new(alloc);
    let full = text.len().saturating_add(STEP_BYTES);
    for i in 0..STEP_CHILDREN {
        let Some((name, child)) = left.pop_first() else {
            return Ok(());
        };
        let Child { cap, metadata } = child;
        let entry = Entry {
            name: Text::from_string(name),
            cap,
            metadata,
        };
        push_entry(alloc, text, &mut inside, &entry)?;
        if text.len() >= full {
            return Ok(());
        }
    }
    Ok(())
}

/// With more let go of that was made of refused JSON. It is done once nothing is left.
fn drop_next(json: &[u8], leavings: Leavings) -> Result<TextMaking, AllocError>
    requires { IsMakerStage json.now (MakerStage.Refused leavings) }
    ensures made { IfOk result (IsTextMadeOn json.now) }
    ensures later { IfOk result (IsLaterMaker (MakerStage.Refused leavings)) }
    ensures few { result ≡ Ok (Done None) → AreFewLeavings leavings }
{
    let Leavings {
        mut outcomes,
        mut children,
        tree,
    } = leavings;
    drop_some(&mut outcomes, STEP_CHILDREN);
    drop_some(&mut children, STEP_CHILDREN);
    let tree = drop_parts(tree)?;
    if outcomes.is_empty() && children.is_empty() && tree.is_none() {
        return Ok(TextMaking::Done(None));
    }
    Ok(going(MakerStage::Refused(Leavings {
        outcomes,
        children,
        tree,
    })))
}

/// Lets go of the next 1,024 parts of a tree, or those that are left.
fn drop_parts(tree: Option<Remains>) -> Result<Option<Remains>, AllocError>
    ensures fewer { IfOk result (λ left. IfSome left (λ rest. tree_parts left < tree_parts tree)) }
    ensures none_more { IfOk result (λ left. tree_parts left ≤ tree_parts tree) }
    ensures few { IfOk result (λ left. tree_parts tree ≤ tree_parts left + 1024) }
{
    let Some(mut left) = tree else {
        return Ok(None);
    };
    if left.step()? {
        return Ok(Some(left));
    }
    Ok(None)
}

/// Lets go of the first values of a map: so many, or those that are left.
fn drop_some<V: Drop>(left: &mut BTreeMap<String, V>, most: usize)
    ensures { length left.new.entries ≡ length left.old.entries - most }
{
    for i in 0..most {
        if left.pop_first().is_none() {
            return;
        }
    }
}

/// The text of the directory of the children that JSON names, made at once. None where it names no directory.
///
/// # Errors
/// `AllocError` where memory is refused, and never for what the JSON says.
pub fn make_text(alloc: Global, json: &[u8]) -> Result<Option<Vec<u8>>, AllocError>
    ensures { IfOk result (λ text. option_map (λ bytes. bytes.items) text ≡ text_made json.now) }
{
    match from_children_json(alloc, json) {
        Ok(directory) => Ok(Some(encode(alloc, &directory)?)),
        Err(fault) if is_memory(&fault) => Err(AllocError),
        Err(_) => Ok(None),
    }
}
