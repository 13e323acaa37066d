//! A value under construction.
ghost use Rattle.std.specs.Prelude.{◌≡◌, Err, None, Some, MatchOption, OnOk, OnErr, IfErr, true, reverse, vec_len};
ghost use Rattle.std.specs.Vec.{vec_capacity};
ghost use Rattle.json.specs.Token.{Token as JsonToken};
ghost use Rattle.json.specs.Json.{Json};
ghost use Rattle.json.specs.Reads.{token_of};
ghost use Rattle.json_stack.specs.Machine.{Frame, StackState, failed, start_state};
ghost use Rattle.serde_json.specs.Read.{of_json};
ghost use Rattle.serde_json.specs.View.{view};
ghost use Rattle.json_tree.specs.Builders.{HasFrame, FollowsStack, FollowsToken, HasNoValueWith, StaysThere, IsFinished, is_due, is_due_at, state_within_frame, state_behind, frame_behind};
ghost use Rattle.json_tree.specs.Remains.{parts_built, parts_left};

use crate::fault::TreeFault;
use crate::number::number_in;
use crate::remains::Remains;
use json::Token;
use serde_json::Value;
use std::alloc::Global;
use std::collections::BTreeMap;

/// A JSON value, as far as its tokens came.
pub struct TreeBuilder {
    /// What is open, the innermost last.
    opened: Vec<Opened>,
    /// The whole value, where it has ended.
    value: Option<Value>,
    /// How many levels of arrays and objects it may have.
    levels: usize,
}

// Its own, so that what owns one calls it: a derived drop is spelled out wherever a value may be dropped.
impl Drop for TreeBuilder {
    fn drop(self) {
        let TreeBuilder {
            opened: _,
            value: _,
            levels: _,
        } = self;
    }
}

/// An array or object that is open.
#[derive(Drop)]
pub(crate) enum Opened {
    /// An array with its items so far.
    Array(Vec<Value>),
    /// An object with its members so far, which awaits a key.
    Object(BTreeMap<String, Value>),
    /// An object with its members so far, which awaits the value of this key.
    Member(BTreeMap<String, Value>, String),
}

impl TreeBuilder {
    /// Before the first token of a value with at most so many levels of arrays and objects.
    pub fn within(alloc: Global, levels: usize) -> TreeBuilder
        ensures { FollowsStack (start_state levels) result }
    {
        TreeBuilder {
            opened: Vec::new(alloc),
            value: None,
            levels,
        }
    }

    /// With one token more, from wherever the machine stands. It takes the time of copying the token and of one search in a
    /// map, besides what a list takes to grow. Where it isn't taken, the builder stands where it stood.
    ///
    /// # Errors
    /// NotJson where no JSON goes on so, or where a number is beyond the finite floats. NoMemory where memory is refused.
    pub fn push(&mut self, alloc: Global, token: Token<'_>) -> Result<(), TreeFault>
        ensures ok { OnOk result (FollowsToken self.old (token_of token.entry) self.new) }
        ensures err { result ≡ Err TreeFault.NotJson
            → HasNoValueWith self.old (token_of token.entry) }
        ensures stays { OnErr result (StaysThere self.old self.new) }
    {
        match token {
            Token::BeginArray => self.begin(Opened::Array(Vec::new(alloc))),
            Token::BeginObject => self.begin(Opened::Object(BTreeMap::new(alloc))),
            Token::EndArray => self.end_array(),
            Token::EndObject => self.end_object(),
            Token::Key(name) => self.push_key(alloc, name),
            Token::String(text) => self.push_value(Value::String(String::from_str(alloc, text)?)),
            Token::Number(text) => {
                let number = number_in(text).ok_or(TreeFault::NotJson)?;
                self.push_value(Value::Number(number))
            }
            Token::Bool(b) => self.push_value(Value::Bool(b)),
            Token::Null => self.push_value(Value::Null),
            Token::Bad => Err(TreeFault::NotJson),
        }
    }

    /// The value, where it has ended; else the builder, from which it goes on.
    pub fn finish(self) -> Result<Value, TreeBuilder>
        ensures { (s : StackState) → FollowsStack s self → IsFinished s self result }
    {
        let TreeBuilder {
            opened,
            value,
            levels,
        } = self;
        match value {
            Some(value) => Ok(value),
            None => Err(TreeBuilder {
                opened,
                value: None,
                levels,
            }),
        }
    }

    /// What it holds, to be let go of.
    pub fn give_up(self) -> Remains
        ensures { parts_left result ≡ parts_built self }
    {
        let TreeBuilder {
            opened,
            value,
            levels: _,
        } = self;
        Remains::with(opened, value)
    }

    /// An array or object opens, where a value is awaited and one level more is left.
    fn begin(&mut self, opened: Opened) -> Result<(), TreeFault>
        ensures ok { OnOk result ((s : StackState) (frame : Frame) → FollowsStack s self.old
            → HasFrame frame opened → FollowsStack (state_within_frame s frame) self.new) }
        ensures err { result ≡ Err TreeFault.NotJson → (s : StackState) (frame : Frame)
            → FollowsStack s self.old → state_within_frame s frame ≡ failed }
        ensures stays { OnErr result (StaysThere self.old self.new) }
    {
        if !self.awaits_value() {
            return Err(TreeFault::NotJson);
        }
        if self.opened.len() >= self.levels {
            return Err(TreeFault::NotJson);
        }
        self.opened.push(opened)?;
        Ok(())
    }

    /// A value comes that is one token.
    fn push_value(&mut self, value: Value) -> Result<(), TreeFault>
        ensures ok { OnOk result ((s : StackState) (j : Json) → FollowsStack s self.old
            → of_json j ≡ Some (view value) → FollowsStack (state_behind s j) self.new) }
        ensures err { result ≡ Err TreeFault.NotJson → (s : StackState) (j : Json)
            → FollowsStack s self.old → state_behind s j ≡ failed }
        ensures stays { OnErr result (StaysThere self.old self.new) }
    {
        if !self.awaits_value() {
            return Err(TreeFault::NotJson);
        }
        match self.put(value) {
            Ok(()) => Ok(()),
            Err(_) => Err(TreeFault::NoMemory),
        }
    }

    /// An array closes.
    fn end_array(&mut self) -> Result<(), TreeFault>
        ensures ok { OnOk result (FollowsToken self.old JsonToken.end_array self.new) }
        ensures err { result ≡ Err TreeFault.NotJson
            → HasNoValueWith self.old JsonToken.end_array }
        ensures stays { OnErr result (StaysThere self.old self.new) }
    {
        let Some(innermost) = self.opened.pop() else {
            return Err(TreeFault::NotJson);
        };
        match innermost {
            Opened::Array(items) => match self.put(Value::Array(items)) {
                Ok(()) => Ok(()),
                Err(Value::Array(items)) => {
                    self.opened.push_reserved(Opened::Array(items));
                    Err(TreeFault::NoMemory)
                }
                Err(_) => Err(TreeFault::NoMemory),
            },
            other => {
                self.opened.push_reserved(other);
                Err(TreeFault::NotJson)
            }
        }
    }

    /// An object closes.
    fn end_object(&mut self) -> Result<(), TreeFault>
        ensures ok { OnOk result (FollowsToken self.old JsonToken.end_object self.new) }
        ensures err { result ≡ Err TreeFault.NotJson
            → HasNoValueWith self.old JsonToken.end_object }
        ensures stays { OnErr result (StaysThere self.old self.new) }
    {
        let Some(innermost) = self.opened.pop() else {
            return Err(TreeFault::NotJson);
        };
        match innermost {
            Opened::Object(members) => match self.put(Value::Object(members)) {
                Ok(()) => Ok(()),
                Err(Value::Object(members)) => {
                    self.opened.push_reserved(Opened::Object(members));
                    Err(TreeFault::NoMemory)
                }
                Err(_) => Err(TreeFault::NoMemory),
            },
            other => {
                self.opened.push_reserved(other);
                Err(TreeFault::NotJson)
            }
        }
    }

    /// A key comes.
    fn push_key(&mut self, alloc: Global, name: &str) -> Result<(), TreeFault>
        ensures ok { OnOk result (FollowsToken self.old (JsonToken.key name.now) self.new) }
        ensures err { result ≡ Err TreeFault.NotJson
            → HasNoValueWith self.old (JsonToken.key name.now) }
        ensures stays { OnErr result (StaysThere self.old self.new) }
    {
        let key = String::from_str(alloc, name)?;
        let Some(innermost) = self.opened.pop() else {
            return Err(TreeFault::NotJson);
        };
        match innermost {
            Opened::Object(members) => {
                self.opened.push_reserved(Opened::Member(members, key));
                Ok(())
            }
            other => {
                self.opened.push_reserved(other);
                Err(TreeFault::NotJson)
            }
        }
    }

    /// Whether a value is awaited.
    fn awaits_value(&self) -> bool
        ensures { (s : StackState) → FollowsStack s self.now → result ≡ is_due_at s }
    {
        self.value.is_none() && is_awaited(self.opened.as_slice())
    }

    /// Puts a value where one is awaited. Where memory for it is refused, it is given back.
    fn put(&mut self, value: Value) -> Result<(), Value>
        ensures ok { OnOk result ((s : StackState) (j : Json) → FollowsStack s self.old
            → is_due_at s ≡ true → of_json j ≡ Some (view value)
            → FollowsStack (state_behind s j) self.new) }
        ensures returned { IfErr result (λ refused. refused ≡ value) }
        ensures stays { OnErr result (StaysThere self.old self.new) }
        ensures place { OnErr result ((vec_len self.new.opened ≡ vec_len self.old.opened)
            × (vec_capacity self.new.opened ≡ vec_capacity self.old.opened)) }
    {
        let Some(around) = self.opened.pop() else {
            self.value = Some(value);
            return Ok(());
        };
        let (around, refused) = with_value(around, value);
        self.opened.push_reserved(around);
        match refused {
            None => Ok(()),
            Some(value) => Err(value),
        }
    }
}

/// Whether what is innermost, if anything is open, awaits a value.
fn is_awaited(opened: &[Opened]) -> bool
    ensures { result ≡ is_due (reverse opened.now) }
{
    match opened.last() {
        None | Some(Opened::Array(_)) | Some(Opened::Member(_, _)) => true,
        Some(Opened::Object(_)) => false,
    }
}

/// What is open, with the value that it awaits, or as it was and the value where memory for it is refused.
fn with_value(around: Opened, value: Value) -> (Opened, Option<Value>)
    ensures { MatchOption result.1 ((frame : Frame) (j : Json) → HasFrame frame around
        → of_json j ≡ Some (view value) → HasFrame (frame_behind frame j) result.0)
        (λ refused. (refused ≡ value)
        × ((frame : Frame) → HasFrame frame around → HasFrame frame result.0)) }
{
    match around {
        Opened::Array(mut items) => match items.push(value) {
            Ok(()) => (Opened::Array(items), None),
            Err(failed) => (Opened::Array(items), Some(failed.value)),
        },
        Opened::Member(mut members, key) => match members.insert(key, value) {
            Ok(_) => (Opened::Object(members), None),
            Err(failed) => {
                let (key, value) = failed.value;
                (Opened::Member(members, key), Some(value))
            }
        },
        Opened::Object(members) => (Opened::Object(members), None),
    }
}
