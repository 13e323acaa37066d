//! The children of members, by their names.
ghost use Rattle.std.specs.Prelude.{◌≡◌, ◌≢◌, ◌-◌, [], length, Ok, Err, IfOk, IfErr, OnOk};
ghost use Rattle.serde_json.specs.Data.{Members};
ghost use Rattle.dir_codec.specs.Entries.{IsDirectory};
ghost use Rattle.children_reader.specs.Children.{making_after};
ghost use Rattle.children_reader.specs.Kept.{AreOutcomes, AreBefore};
ghost use Rattle.children_reader.specs.Named.{entries_of};
ghost use Rattle.dir_codec.specs.declared.fault.DirFault.TheVariants.{NoMemory};

use crate::child::{Child, MemberOutcome};
use dir_codec::DirFault;
use std::alloc::Global;
use std::collections::BTreeMap;

/// The children that were made of members, by their names.
pub(crate) fn named_children(
    alloc: Global,
    outcomes: BTreeMap<String, MemberOutcome>,
) -> Result<BTreeMap<String, Child>, DirFault>
    ensures ok { IfOk result (λ children. (ms : Members) → AreOutcomes outcomes.entries ms
        → making_after [] ms ≡ Ok (entries_of children.entries)) }
    ensures kept { IfOk result (λ children. (ms : Members) → AreOutcomes outcomes.entries ms
        → IsDirectory (entries_of children.entries)) }
    ensures err { IfErr result (λ fault. fault ≢ NoMemory → (ms : Members)
        → AreOutcomes outcomes.entries ms → making_after [] ms ≡ Err fault) }
{
    let mut children = BTreeMap::new(alloc);
    let mut left = outcomes;
    let all = left.len();
    name_some(&mut children, &mut left, all)?;
    Ok(children)
}

/// Names the children of the next members, in the order of their keys: so many, or those that are left.
pub(crate) fn name_some(
    children: &mut BTreeMap<String, Child>,
    left: &mut BTreeMap<String, MemberOutcome>,
    most: usize,
) -> Result<(), DirFault>
    ensures ok { OnOk result ((ms : Members) → AreBefore children.old.entries left.old.entries ms
        → AreBefore children.new.entries left.new.entries ms) }
    ensures fewer { OnOk result (length left.new.entries ≡ length left.old.entries - most) }
    ensures err { IfErr result (λ fault. fault ≢ NoMemory → (ms : Members)
        → AreBefore children.old.entries left.old.entries ms → making_after [] ms ≡ Err fault) }
{
    for i in 0..most {
        let Some((_key, outcome)) = left.pop_first() else {
            return Ok(());
        };
        let named = outcome?;
        let (name, child) = Box::into_inner(named);
        let old = children.insert(name, child)?;
        if old.is_some() {
            return Err(DirFault::SameName);
        }
    }
    Ok(())
}
