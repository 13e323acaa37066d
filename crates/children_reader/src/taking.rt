//! What is made of the members of children JSON is taken from the tree of their values, some members at a time.
ghost use Rattle.std.specs.Prelude.{◌≡◌, ◌<◌, ℕ, List, [], length, false, Some, None, is_some, bytes_eq, IfOk, OnOk, MatchResult, option_map, option_and_then, string_bytes};
ghost use Rattle.std.specs.Str.{IsUtf8};
ghost use Rattle.json.specs.Token.{Token as JsonToken};
ghost use Rattle.json_stack.specs.Machine.{whole_value};
ghost use Rattle.serde_json.specs.Data.{Data, Members, array, object, member};
ghost use Rattle.serde_json.specs.Find.{get_member, as_object};
ghost use Rattle.serde_json.specs.View.{view, items_view, members_view};
ghost use Rattle.serde_json.specs.Written.{compact_text};
ghost use Rattle.json_tree.specs.Writers.{IsWritten};
ghost use Rattle.children_reader.specs.Children.{fields_of};
ghost use Rattle.children_reader.specs.Kept.{IsTextFieldAt, IsFieldAt, IsChildNode};
ghost use Rattle.json_spelling.specs.Spelled.{IsSpelled};
ghost use Rattle.children_reader.specs.Taking.{AreTakenBefore, IsTakenChild, IsTakenFrom, IsTakenOn, HasLessToTake, HasLessToTakeOn, child_parts};

use crate::child::MemberOutcome;
use crate::fields::{Field, Fields};
use crate::members::made_of;
use json_spelling::{Extent, Spelled};
use json_tree::{Remains, TextWriter, Writing, Written};
use serde_json::Value;
use std::alloc::{AllocError, Global};
use std::collections::BTreeMap;

/// How many members are taken in a step, at most.
const STEP_MEMBERS: usize = 1_024;

/// The members of an object whose values are a tree, as far as what is made of them is taken from it.
pub(crate) struct Taking {
    /// The members that are left.
    left: BTreeMap<String, Value>,
    /// The one of which the metadata are written.
    child: Option<TakenChild>,
    /// What is made of those before them.
    found: Vec<(String, MemberOutcome)>,
    /// What has no meaning in them, which is let go of at the end.
    dropped: Vec<Value>,
}

// Its own, so that what owns one calls it: a derived drop is spelled out wherever a value may be dropped.
impl Drop for Taking {
    fn drop(self) {
        let Taking {
            left: _,
            child: _,
            found: _,
            dropped: _,
        } = self;
    }
}

/// A member that is a child with metadata.
#[derive(Drop)]
pub(crate) struct TakenChild {
    /// Its key.
    key: String,
    /// The cap that reads it.
    ro_uri: Option<Field>,
    /// The cap that could change it.
    rw_uri: Option<Field>,
    /// The metadata, as far as they are written.
    writer: TextWriter,
}

/// How far the taking is.
#[derive(Drop)]
pub(crate) enum TakenOn {
    /// There is more to take.
    Going(Taking),
    /// What is made of each member, and what had no meaning in them, to be let go of.
    All(Vec<(String, MemberOutcome)>, Remains),
}

impl Taking {
    /// Before the first of these members.
    pub(crate) fn of(alloc: Global, members: BTreeMap<String, Value>) -> Taking
        ensures left { result.left ≡ members }
        ensures none { result.child ≡ None }
        ensures found { result.found.items ≡ [] }
    {
        Taking {
            left: members,
            child: None,
            found: Vec::new(alloc),
            dropped: Vec::new(alloc),
        }
    }

    /// With the next members taken, 1,024 of them at most, and no more once the metadata of one are long: of these the next
    /// 1,024 values are written at most, and no more once 65,536 bytes are.
    ///
    /// # Errors
    /// `AllocError` where memory is refused. Then all is let go of at once.
    pub(crate) fn step(self, alloc: Global) -> Result<TakenOn, AllocError>
        ensures taken { IfOk result (λ on. (ts : List JsonToken) → IsTakenFrom ts self
            → IsTakenOn ts on) }
        ensures less { IfOk result (HasLessToTakeOn self) }
    {
        let Taking {
            left,
            child,
            found,
            dropped,
        } = self;
        let mut taking = Taking {
            left,
            child: None,
            found,
            dropped,
        };
        match child {
            None => taking.take_next(alloc),
            Some(child) => {
                taking.write_on(alloc, child)?;
                Ok(TakenOn::Going(taking))
            }
        }
    }

    /// With the next members taken, where no child is under way.
    fn take_next(self, alloc: Global) -> Result<TakenOn, AllocError>
        requires { self.child ≡ None }
        ensures taken { IfOk result (λ on. (ts : List JsonToken) → IsTakenFrom ts self
            → IsTakenOn ts on) }
        ensures less { IfOk result (HasLessToTakeOn self) }
    {
        if self.left.is_empty() {
            let Taking {
                left: _,
                child: _,
                found,
                dropped,
            } = self;
            let remains = Remains::of(alloc, Value::Array(dropped));
            return Ok(TakenOn::All(found, remains));
        }
        let mut taking = self;
        taking.take_some(alloc)?;
        Ok(TakenOn::Going(taking))
    }

    /// With the next members taken, up to one that has long metadata.
    fn take_some(&mut self, alloc: Global) -> Result<(), AllocError>
        requires { self.old.child ≡ None }
        ensures taken { OnOk result ((ts : List JsonToken) → IsTakenFrom ts self.old
            → IsTakenFrom ts self.new) }
        ensures fewer { OnOk result (0 < length self.old.left.entries
            → length self.new.left.entries < length self.old.left.entries) }
    {
        for i in 0..STEP_MEMBERS {
            let Some((key, value)) = self.left.pop_first() else {
                return Ok(());
            };
            self.take_member(alloc, key, value)?;
            if self.child.is_some() {
                return Ok(());
            }
        }
        Ok(())
    }

    /// With a member taken.
    fn take_member(&mut self, alloc: Global, key: String, value: Value) -> Result<(), AllocError>
        requires { self.old.child ≡ None }
        ensures taken { OnOk result ((ts : List JsonToken)
            → AreTakenBefore ts self.old.found.items
            (member (string_bytes key) (view value) (members_view self.old.left.entries))
            → IsTakenFrom ts self.new) }
        ensures left { self.new.left ≡ self.old.left }
    {
        match fields_in(&mut self.dropped, value)? {
            None => self.put(alloc, key, None),
            Some(fields) => self.take_fields(alloc, key, fields),
        }
    }

    /// With a member taken whose value is a list of a text and the object of these fields.
    fn take_fields(
        &mut self,
        alloc: Global,
        key: String,
        mut fields: BTreeMap<String, Value>,
    ) -> Result<(), AllocError>
        requires { self.old.child ≡ None }
        ensures taken { OnOk result ((ts : List JsonToken) (d : Data)
            → fields_of d ≡ Some (object (members_view fields.entries))
            → AreTakenBefore ts self.old.found.items
            (member (string_bytes key) d (members_view self.old.left.entries))
            → IsTakenFrom ts self.new) }
        ensures left { self.new.left ≡ self.old.left }
    {
        let ro_uri = field_in(&mut self.dropped, take_value(&mut fields, "ro_uri"))?;
        let rw_uri = field_in(&mut self.dropped, take_value(&mut fields, "rw_uri"))?;
        let metadata = take_value(&mut fields, "metadata");
        self.dropped.push(Value::Object(fields))?;
        match members_in(metadata) {
            Ok(members) => {
                let child = TakenChild {
                    key,
                    ro_uri,
                    rw_uri,
                    writer: TextWriter::new(alloc, Value::Object(members)),
                };
                self.write_on(alloc, child)
            }
            Err(other) => {
                let metadata = field_in(&mut self.dropped, other)?;
                let fields = Fields {
                    ro_uri,
                    rw_uri,
                    metadata,
                };
                self.put(alloc, key, Some(fields))
            }
        }
    }

    /// With more of a child's metadata written.
    fn write_on(&mut self, alloc: Global, child: TakenChild) -> Result<(), AllocError>
        requires { self.old.child ≡ None }
        ensures taken { OnOk result ((ts : List JsonToken) (d : Data)
            → IsTakenChild child d → AreTakenBefore ts self.old.found.items
            (member (string_bytes child.key) d (members_view self.old.left.entries))
            → IsTakenFrom ts self.new) }
        ensures left { self.new.left ≡ self.old.left }
        ensures less { OnOk result (child_parts self.new.child < child_parts (Some child)) }
    {
        let TakenChild {
            key,
            ro_uri,
            rw_uri,
            writer,
        } = child;
        match writer.step(alloc)? {
            Writing::Going(writer) => {
                self.child = Some(TakenChild {
                    key,
                    ro_uri,
                    rw_uri,
                    writer,
                });
                Ok(())
            }
            Writing::Done(written) => {
                let metadata = Some(Field::Object(spelled_in(written)));
                let fields = Fields {
                    ro_uri,
                    rw_uri,
                    metadata,
                };
                self.put(alloc, key, Some(fields))
            }
        }
    }

    /// Puts in what is made of a member.
    fn put(&mut self, alloc: Global, key: String, node: Option<Fields>) -> Result<(), AllocError>
        ensures taken { OnOk result ((ts : List JsonToken) (d : Data) (rest : Members)
            → IsChildNode node d
            → AreTakenBefore ts self.old.found.items (member (string_bytes key) d rest)
            → AreTakenBefore ts self.new.found.items rest) }
        ensures left { self.new.left ≡ self.old.left }
        ensures child { self.new.child ≡ self.old.child }
    {
        let outcome = made_of(alloc, key.as_str(), node)?;
        self.found.push((key, outcome))?;
        Ok(())
    }
}

/// The members of an object. Another value, or none, is given back.
pub(crate) fn members_in(value: Option<Value>) -> Result<BTreeMap<String, Value>, Option<Value>>
    ensures { MatchResult result
        (λ members. option_map view value ≡ Some (object (members_view members.entries)))
        (λ other. (other ≡ value) × (option_and_then as_object (option_map view value) ≡ None)) }
{
    let Some(value) = value else {
        return Err(None);
    };
    match object_in(value) {
        Ok(members) => Ok(members),
        Err(other) => Err(Some(other)),
    }
}

/// The same of a value.
fn object_in(value: Value) -> Result<BTreeMap<String, Value>, Value>
    ensures { MatchResult result (λ members. view value ≡ object (members_view members.entries))
        (λ other. (other ≡ value) × (as_object (view value) ≡ None)) }
{
    match value {
        Value::Object(members) => Ok(members),
        other => Err(other),
    }
}

/// The value at a name, which leaves the members.
fn take_value(members: &mut BTreeMap<String, Value>, name: &str) -> Option<Value>
    ensures value { option_map view result ≡ get_member name.now (members_view members.old.entries) }
    ensures others { (other : List ℕ) → bytes_eq name.now other ≡ false
        → get_member other (members_view members.new.entries)
        ≡ get_member other (members_view members.old.entries) }
{
    members.remove(name)
}

/// The fields of the object in a list of just a text and an object, None of another value. What has no meaning is put to
/// what is let go of.
fn fields_in(
    dropped: &mut Vec<Value>,
    value: Value,
) -> Result<Option<BTreeMap<String, Value>>, AllocError>
    ensures { IfOk result (λ found. option_map (λ fields. object (members_view fields.entries)) found
        ≡ fields_of (view value)) }
{
    match value {
        Value::Array(items) => fields_of_pair(dropped, items),
        other => {
            dropped.push(other)?;
            Ok(None)
        }
    }
}

/// The same of a list of these items.
fn fields_of_pair(
    dropped: &mut Vec<Value>,
    items: Vec<Value>,
) -> Result<Option<BTreeMap<String, Value>>, AllocError>
    ensures { IfOk result (λ found. option_map (λ fields. object (members_view fields.entries)) found
        ≡ fields_of (array (items_view items.items))) }
{
    let mut items = items;
    if !is_pair(items.as_slice()) {
        dropped.push(Value::Array(items))?;
        return Ok(None);
    }
    let Some(last) = items.pop() else {
        return Ok(None);
    };
    match object_in(last) {
        Ok(fields) => Ok(Some(fields)),
        // The last item of a pair is an object: nothing else comes.
        Err(_) => Ok(None),
    }
}

/// Whether items are just a text and an object.
fn is_pair(items: &[Value]) -> bool
    ensures { result ≡ is_some (fields_of (array (items_view items.now))) }
{
    match items {
        [first, last] => first.is_string() && last.is_object(),
        _ => false,
    }
}

/// The field that a value is, where it is no object: and as far as a text is concerned, also where it is one.
fn field_in(dropped: &mut Vec<Value>, value: Option<Value>) -> Result<Option<Field>, AllocError>
    ensures text { IfOk result (λ field. IsTextFieldAt field (option_map view value)) }
    ensures plain { IfOk result (λ field. option_and_then as_object (option_map view value) ≡ None
        → IsFieldAt field (option_map view value)) }
{
    match value {
        None => Ok(None),
        Some(Value::Null) => Ok(Some(Field::Null)),
        Some(Value::String(text)) => Ok(Some(Field::Text(text))),
        Some(other) => {
            dropped.push(other)?;
            Ok(Some(Field::Other))
        }
    }
}

/// A written value, as a field has it.
fn spelled_in(written: Written) -> Spelled
    ensures { (d : Data) → IsWritten d written → IsUtf8 (compact_text d) → IsSpelled result d }
{
    let Written {
        text,
        levels,
        fractional,
    } = written;
    Spelled {
        text,
        extent: Extent { levels, fractional },
    }
}
