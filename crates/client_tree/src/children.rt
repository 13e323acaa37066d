//! Directories that are made of what stands under names.
ghost use Rattle.std.specs.Prelude.{◌≡◌, All, IfOk, OnOk, IsTrue, Some};
ghost use Rattle.path_walk.specs.Walk.{cap_named};
ghost use Rattle.client_tree.specs.Stored.{HasChildren, stored_name};

use crate::fault::TreeFault;
use caps::{Cap, print};
use children_reader::from_children_json;
use client_core::{Exchange, make_directory};
use dir_codec::{DirFault, Directory, decode, is_memory};
use octets::Text;
use std::alloc::{AllocError, Global};
use std::collections::BTreeMap;
use tag_hash::push_netstring;
use unicode_normalization::to_nfc;

/// What stands under a name, stored.
#[derive(Drop)]
pub struct Child {
    /// The name as it was given.
    pub name: Text,
    /// The same in NFC, as a directory has it.
    pub stored: Text,
    /// The cap.
    pub cap: Cap,
}

/// Makes a directory of children, and gives its cap.
///
/// Whatever the gateway answers, the cap is of a directory that has each child under its name. `SameName` where two have one
/// name in NFC.
pub fn directory_of<E: Exchange>(
    alloc: Global,
    gateway: &mut E,
    children: &[Child],
) -> Result<Cap, TreeFault>
    ensures { IfOk result (HasChildren children.now) }
{
    let directory = directory_with(alloc, children)?;
    all_are_found(alloc, children, &directory)?;
    Ok(make_directory(alloc, gateway, &directory)?)
}

/// The directory that the text names.
pub(crate) fn named_directory(alloc: Global, text: &[u8]) -> Result<Directory, TreeFault> {
    match from_children_json(alloc, text) {
        Ok(directory) => Ok(directory),
        Err(fault) => Err(fault_of(&fault)),
    }
}

/// The fault where there is no directory.
fn fault_of(fault: &DirFault) -> TreeFault {
    if is_memory(fault) {
        TreeFault::NoMemory
    } else {
        TreeFault::BadChildren
    }
}

/// Whether the directory has each child under its name: else the name is told.
fn all_are_found(alloc: Global, children: &[Child], directory: &Directory) -> Result<(), TreeFault>
    ensures { OnOk result (All (λ child. cap_named child.stored directory.now ≡ Some child.cap)
        children.now) }
{
    for child in children {
        if !is_found(child, directory) {
            let name = Text::from_string(String::from_str(alloc, child.name.as_str())?);
            return Err(TreeFault::SameName(name));
        }
    }
    Ok(())
}

/// Whether the directory has this child under its name.
fn is_found(child: &Child, directory: &Directory) -> bool
    ensures { IsTrue result → cap_named child.now.stored directory.now ≡ Some child.now.cap }
{
    match directory.find(child.stored.as_str()) {
        Some(entry) => are_same(&entry.cap, &child.cap),
        None => false,
    }
}

/// Whether two caps that may be a child's are the same.
pub(crate) fn are_same(one: &Cap, other: &Cap) -> bool
    ensures { IsTrue result → one.now ≡ other.now }
{
    match (one, other) {
        (Cap::Chk(fields), Cap::Chk(more)) => fields == more,
        (Cap::DirChk(fields), Cap::DirChk(more)) => fields == more,
        (Cap::Lit(bytes), Cap::Lit(more)) => bytes.as_slice() == more.as_slice(),
        (Cap::DirLit(bytes), Cap::DirLit(more)) => bytes.as_slice() == more.as_slice(),
        _ => false,
    }
}

/// The directory that has each child under its name, as far as no two have one name: of those it has the last.
///
/// It is read from its own text. Read from the JSON of which a gateway makes it, a tree of JSON values would stand beside it.
fn directory_with(alloc: Global, children: &[Child]) -> Result<Directory, TreeFault> {
    let text = text_of_children(alloc, children)?;
    match decode(alloc, &text) {
        Ok(directory) => Ok(directory),
        Err(fault) => Err(fault_of(&fault)),
    }
}

/// The text of that directory: its entries in order of their names.
fn text_of_children(alloc: Global, children: &[Child]) -> Result<Vec<u8>, AllocError> {
    let mut named = BTreeMap::new(alloc);
    for child in children {
        named.insert(child.stored.as_str().as_bytes(), &child.cap)?;
    }
    let mut text = Vec::new(alloc);
    let mut inside = Vec::new(alloc);
    for (name, cap) in named.iter() {
        push_entry(alloc, &mut text, &mut inside, *name, *cap)?;
    }
    Ok(text)
}

/// Appends the entry of a child, which has no metadata. What `inside` holds is dropped, and its memory used.
fn push_entry(
    alloc: Global,
    text: &mut Vec<u8>,
    inside: &mut Vec<u8>,
    name: &[u8],
    cap: &Cap,
) -> Result<(), AllocError> {
    let cap = print(alloc, cap)?;
    inside.clear();
    push_netstring(inside, name)?;
    push_netstring(inside, cap.as_bytes())?;
    push_netstring(inside, b"")?;
    push_netstring(inside, b"{}")?;
    push_netstring(text, inside)
}

/// The child of a name.
#[tactic(auto, unfolding(crate::specs::Stored::stored_name))]
pub fn child_of(alloc: Global, name: &Text, cap: Cap) -> Result<Child, AllocError>
    ensures name { IfOk result (λ child. child.name ≡ name.now) }
    ensures stored { IfOk result (λ child. child.stored ≡ stored_name name.now) }
    ensures cap { IfOk result (λ child. child.cap ≡ cap) }
{
    let stored = to_nfc(alloc, name.as_str())?;
    Ok(Child {
        name: Text::from_string(String::from_str(alloc, name.as_str())?),
        stored: Text::from_string(stored),
        cap,
    })
}
