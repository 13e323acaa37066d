//! Values that are let go of, some at a time.
ghost use Rattle.std.specs.Prelude.{◌≡◌, ◌+◌, ◌<◌, ◌≤◌, ◌↔◌, suc, None, IsTrue, IfOk, OnOk, OnErr, false, vec_len};
ghost use Rattle.std.specs.Vec.{vec_capacity};
ghost use Rattle.serde_json.specs.View.{view, items_view, members_view};
ghost use Rattle.json_tree.specs.Parts.{part_count, items_part_count, members_part_count, value_part_count};
ghost use Rattle.json_tree.specs.Remains.{opened_part_count, opened_parts, parts_left};

use crate::builder::Opened;
use crate::freed::join_freed;
use serde_json::Value;
use std::alloc::{AllocError, Global};
use std::collections::BTreeMap;

/// How many parts of values are let go of in a step, at most.
const STEP_PARTS: usize = 1_024;

/// What is left of a value that is let go of, or of a builder that is given up.
pub struct Remains {
    /// The arrays and objects of which some is left.
    opened: Vec<Opened>,
    /// A value of which all is left.
    value: Option<Value>,
}

// Its own, so that what owns one calls it: a derived drop is spelled out wherever a value may be dropped.
impl Drop for Remains {
    fn drop(self) {
        let Remains {
            opened: _,
            value: _,
        } = self;
    }
}

impl Remains {
    /// All of a value.
    pub fn of(alloc: Global, value: Value) -> Remains
        ensures { parts_left result ≡ part_count (view value) }
    {
        Remains::with(Vec::new(alloc), Some(value))
    }

    /// All that is open, and a value.
    pub(crate) fn with(opened: Vec<Opened>, value: Option<Value>) -> Remains
        ensures { parts_left result ≡ value_part_count value + opened_parts opened.items }
    {
        Remains { opened, value }
    }

    /// Lets go of the next parts, 1,024 of them at most, which are as many values at most. It gives whether any are left.
    ///
    /// # Errors
    /// `AllocError` where memory is refused, of which it takes a little for each level of arrays and objects. What is left
    /// stays, and would be let go of at once with `self`.
    pub fn step(&mut self) -> Result<bool, AllocError>
        ensures more { IfOk result (λ more. IsTrue more ↔ (0 < parts_left self.new)) }
        ensures less { OnOk result (0 < parts_left self.old
            → parts_left self.new < parts_left self.old) }
        ensures none_more { parts_left self.new ≤ parts_left self.old }
        ensures few { parts_left self.old ≤ parts_left self.new + 1024 }
    {
        join_freed(*self.opened.allocator());
        for i in 0..STEP_PARTS {
            if self.is_over() {
                return Ok(false);
            }
            self.drop_part()?;
        }
        Ok(!self.is_over())
    }

    /// Whether nothing is left.
    fn is_over(&self) -> bool
        ensures none { IsTrue result → parts_left self.now ≡ 0 }
        ensures some { result ≡ false → 0 < parts_left self.now }
    {
        self.value.is_none() && self.opened.is_empty()
    }

    /// Lets go of the next part.
    #[tactic(auto, using(crate::proofs::Held::opened_parts_more, crate::proofs::Held::items_parts_more))]
    fn drop_part(&mut self) -> Result<(), AllocError>
        requires { 0 < parts_left self.old }
        ensures ok { OnOk result (parts_left self.new + 1 ≡ parts_left self.old) }
        ensures err { OnErr result (parts_left self.new ≡ parts_left self.old) }
    {
        if let Some(value) = self.value.take() {
            return self.open(value);
        }
        match self.opened.pop() {
            None => Ok(()),
            Some(Opened::Array(items)) => self.drop_item(items),
            Some(Opened::Object(members)) => self.drop_member(members),
            Some(Opened::Member(members, _)) => self.drop_member(members),
        }
    }

    /// Lets go of the next part of an array, whose place is still there.
    #[tactic(auto, using(crate::proofs::Held::opened_parts_more, crate::proofs::Held::items_parts_more))]
    fn drop_item(&mut self, items: Vec<Value>) -> Result<(), AllocError>
        requires none { self.old.value ≡ None }
        requires place { vec_len self.old.opened < vec_capacity self.old.opened }
        ensures ok { OnOk result (parts_left self.new
            ≡ items_part_count (items_view items.items) + parts_left self.old) }
        ensures err { OnErr result (parts_left self.new
            ≡ suc (items_part_count (items_view items.items)) + parts_left self.old) }
    {
        let mut left = items;
        let Some(value) = left.pop() else {
            return Ok(());
        };
        self.opened.push_reserved(Opened::Array(left));
        self.open(value)
    }

    /// Lets go of the next part of an object, whose place is still there.
    #[tactic(auto, using(crate::proofs::Held::opened_parts_more, crate::proofs::Held::items_parts_more))]
    fn drop_member(&mut self, members: BTreeMap<String, Value>) -> Result<(), AllocError>
        requires none { self.old.value ≡ None }
        requires place { vec_len self.old.opened < vec_capacity self.old.opened }
        ensures ok { OnOk result (parts_left self.new
            ≡ members_part_count (members_view members.entries) + parts_left self.old) }
        ensures err { OnErr result (parts_left self.new
            ≡ suc (members_part_count (members_view members.entries)) + parts_left self.old) }
    {
        let mut left = members;
        let Some((_, value)) = left.pop_first() else {
            return Ok(());
        };
        self.opened.push_reserved(Opened::Object(left));
        self.open(value)
    }

    /// Lets go of a value that has no other in it, and else opens it. Where memory is refused, the value is kept.
    #[tactic(auto, using(crate::proofs::Held::opened_parts_more, crate::proofs::Held::items_parts_more))]
    fn open(&mut self, value: Value) -> Result<(), AllocError>
        requires { self.old.value ≡ None }
        ensures ok { OnOk result
            (parts_left self.new + 1 ≡ part_count (view value) + parts_left self.old) }
        ensures err { OnErr result
            (parts_left self.new ≡ part_count (view value) + parts_left self.old) }
    {
        let opened = match value {
            Value::Array(items) => Opened::Array(items),
            Value::Object(members) => Opened::Object(members),
            Value::Null | Value::Bool(_) | Value::Number(_) | Value::String(_) => return Ok(()),
        };
        match self.opened.push(opened) {
            Ok(()) => Ok(()),
            Err(failed) => {
                self.value = Some(value_of(failed.value));
                Err(AllocError)
            }
        }
    }
}

/// The value that is opened so.
fn value_of(opened: Opened) -> Value
    ensures { part_count (view result) ≡ suc (opened_part_count opened) }
{
    match opened {
        Opened::Array(items) => Value::Array(items),
        Opened::Object(members) => Value::Object(members),
        Opened::Member(members, _) => Value::Object(members),
    }
}
