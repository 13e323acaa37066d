//! What is left to be written of an array or object.
ghost use Rattle.std.specs.Prelude.{◌≡◌, IfOk};
ghost use Rattle.json_tree.specs.Writers.{Reaches};
ghost use Rattle.json_tree.specs.declared.rest.Rest.TheVariants.{Items, Members};

use crate::text::{put_comma, put_key};
use serde_json::Value;
use std::alloc::{AllocError, Global};
use std::collections::{BTreeMap, VecDeque};

/// What is left to be written of an array or object that is open.
#[derive(Drop)]
pub(crate) enum Rest {
    /// The items that are left, and whether some stand before them.
    Items(VecDeque<Value>, bool),
    /// The members that are left, and whether some stand before them.
    Members(BTreeMap<String, Value>, bool),
}

/// What comes next.
#[derive(Drop)]
pub(crate) enum Reached {
    /// A value, whose comma and key are written, and what is left behind it.
    Value(Value, Rest),
    /// Nothing: the bracket that closes is written.
    End,
}

impl Rest {
    /// Writes what stands before the next value, or the bracket that closes.
    pub(crate) fn reach(self, alloc: Global, out: &mut Vec<u8>) -> Result<Reached, AllocError>
        ensures { IfOk result (λ reached. Reaches out.old.items self out.new.items reached) }
    {
        match self {
            Rest::Items(items, later) => reach_item(out, items, later),
            Rest::Members(members, later) => reach_member(alloc, out, members, later),
        }
    }
}

/// Writes the comma before the next item, or the bracket that closes.
fn reach_item(
    out: &mut Vec<u8>,
    mut items: VecDeque<Value>,
    later: bool,
) -> Result<Reached, AllocError>
    ensures { IfOk result (λ reached.
        Reaches out.old.items (Items items later) out.new.items reached) }
{
    match items.pop_front() {
        Some(value) => {
            put_comma(out, later)?;
            Ok(Reached::Value(value, Rest::Items(items, true)))
        }
        None => {
            out.push(b']')?;
            Ok(Reached::End)
        }
    }
}

/// Writes the comma and the key of the next member, or the bracket that closes.
fn reach_member(
    alloc: Global,
    out: &mut Vec<u8>,
    mut members: BTreeMap<String, Value>,
    later: bool,
) -> Result<Reached, AllocError>
    ensures { IfOk result (λ reached.
        Reaches out.old.items (Members members later) out.new.items reached) }
{
    match members.pop_first() {
        Some((key, value)) => {
            put_comma(out, later)?;
            put_key(alloc, out, key.as_str())?;
            Ok(Reached::Value(value, Rest::Members(members, true)))
        }
        None => {
            out.push(b'}')?;
            Ok(Reached::End)
        }
    }
}
