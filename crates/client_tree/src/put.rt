//! Storing a folder.
ghost use Rattle.std.specs.Prelude.{◌≡◌, [], ◌∷◌, ◌++◌, IfOk, IfNone, IfSome, OnOk};
ghost use Rattle.client_tree.specs.Runs.{Passes, AreGroups};
ghost use Rattle.client_tree.specs.Stored.{IsAnyDirectory, IsStoredFile, IsStoredBelow};
ghost use Rattle.client_tree.specs.Known.{IsIdle, IsKnownBelow, IsKnownChild, IsKnownFile};
ghost use Rattle.client_tree.specs.UnderWay.{IsInHand, StaysInHand};

use crate::children::{Child, child_of, directory_of};
use crate::fault::TreeFault;
use crate::path::{path_below, text_of};
use crate::pieces::put_rest;
use crate::source::{Item, Source};
use crate::window::{Waiting, Window};
use caps::Cap;
use client_core::Exchange;
use octets::{Bytes, Text};
use std::alloc::Global;

/// The most bytes of a file that is on its way beside others, and is kept in memory meanwhile.
pub(crate) const MOST_BESIDE: u64 = 262_144;

/// Stores all that stands in a folder, what stands below before it, and gives the cap. Of the files of a folder that have at
/// most 262,144 bytes several are on their way at once, one on each lane of the gateway. There are at most `most` files and
/// folders, in folders that stand at most `depth` deep.
///
/// Whatever the gateway answers, for each file that was read under a path, whole or piece after piece, the names of the
/// path, in NFC, lead from the cap to one that is of all bytes which were read. A file whose cap the source knows isn't
/// read: the names of its path lead to that cap.
pub fn put_tree<E: Exchange, S: Source>(
    alloc: Global,
    gateway: &mut E,
    source: &mut S,
    depth: u32,
    most: u64,
) -> Result<Cap, TreeFault>
    ensures files { IfOk result (λ cap. Passes S.gave (IsIdle S.kept S.knew (IsKnownFile cap []))
        (AreGroups (IsStoredFile cap [])) source.old source.new) }
    ensures directory { IfOk result IsAnyDirectory }
{
    let path = Vec::new(alloc);
    let mut left = most;
    put_folder(alloc, gateway, source, &path, depth, &mut left)
}

/// One of those that may still come.
fn take_one(left: &mut u64) -> Result<(), TreeFault> {
    if *left == 0 {
        return Err(TreeFault::TooMany);
    }
    *left -= 1;
    Ok(())
}

/// Stores the folder under a path: its files, and then its folders.
#[cycle(stored)]
fn put_folder<E: Exchange, S: Source>(
    alloc: Global,
    gateway: &mut E,
    source: &mut S,
    path: &[Text],
    depth: u32,
    left: &mut u64,
) -> Result<Cap, TreeFault>
    ensures files { IfOk result (λ cap.
        Passes S.gave (IsIdle S.kept S.knew (IsKnownFile cap path.now))
        (AreGroups (IsStoredFile cap path.now)) source.old source.new) }
    ensures directory { IfOk result IsAnyDirectory }
{
    let items = source.items(path)?;
    let mut children = put_files(alloc, gateway, source, path, &items, left)?;
    let mut folders = put_folders(alloc, gateway, source, path, &items, depth, left)?;
    children.append(&mut folders)?;
    directory_of(alloc, gateway, &children)
}

/// Stores those of these items below a path that are folders.
#[cycle(stored)]
fn put_folders<E: Exchange, S: Source>(
    alloc: Global,
    gateway: &mut E,
    source: &mut S,
    path: &[Text],
    items: &[Item],
    depth: u32,
    left: &mut u64,
) -> Result<Vec<Child>, TreeFault>
    ensures { IfOk result (λ children.
        Passes S.gave (IsIdle S.kept S.knew (IsKnownBelow children.items path.now))
        (AreGroups (IsStoredBelow children.items path.now)) source.old source.new) }
{
    let mut children = Vec::new(alloc);
    for item in items {
        if !item.is_folder {
            continue;
        }
        take_one(left)?;
        if depth == 0 {
            return Err(TreeFault::TooDeep);
        }
        let below = path_below(alloc, path, item.name.as_str())?;
        let cap = put_folder(alloc, gateway, source, &below, depth - 1, left)?;
        children.push(child_of(alloc, &item.name, cap)?)?;
    }
    Ok(children)
}

/// Stores those of these items below a path that are files, and tells the source of them.
fn put_files<E: Exchange, S: Source>(
    alloc: Global,
    gateway: &mut E,
    source: &mut S,
    path: &[Text],
    items: &[Item],
    left: &mut u64,
) -> Result<Vec<Child>, TreeFault>
    ensures { IfOk result (λ children.
        Passes S.gave (IsIdle S.kept S.knew (IsKnownBelow children.items path.now))
        (AreGroups (IsStoredBelow children.items path.now)) source.old source.new) }
{
    let mut window = Window::new(alloc);
    let mut known = Vec::new(alloc);
    for item in items {
        if item.is_folder {
            continue;
        }
        take_one(left)?;
        let below = path_below(alloc, path, item.name.as_str())?;
        match known_child(alloc, source, &below, &item.name)? {
            Some(child) => known.push(child)?,
            None => put_unknown(
                alloc,
                gateway,
                source,
                path,
                &item.name,
                &below,
                &mut window,
            )?,
        }
    }
    let mut children = window.finish(alloc, gateway)?;
    children.append(&mut known)?;
    source.stored(path, &children)?;
    Ok(children)
}

/// The child that the file under a path becomes, whose name is given, if the source knows its cap.
fn known_child<S: Source>(
    alloc: Global,
    source: &mut S,
    below: &[Text],
    name: &Text,
) -> Result<Option<Child>, TreeFault>
    ensures some { IfOk result (λ found. IfSome found (λ child.
        IsKnownChild S.knew below.now name.now child source.old source.new)) }
    ensures none { IfOk result (λ found. IfNone found (S.kept source.old source.new)) }
{
    match source.known(below)? {
        Some(cap) => Ok(Some(child_of(alloc, name, cap)?)),
        None => Ok(None),
    }
}

/// Stores the file of a name below a path, which are the names `below`, or sends it on its way.
fn put_unknown<E: Exchange, S: Source>(
    alloc: Global,
    gateway: &mut E,
    source: &mut S,
    path: &[Text],
    name: &Text,
    below: &[Text],
    window: &mut Window,
) -> Result<(), TreeFault>
    requires { below.now ≡ path.now ++ name.now ∷ [] }
    ensures passed { OnOk result (Passes S.gave S.kept
        (IsInHand window.new.children.items window.new.waiting.items path.now)
        source.old source.new) }
    ensures stays { OnOk result (StaysInHand
        window.old.children.items window.old.waiting.items
        window.new.children.items window.new.waiting.items) }
{
    let first = source.read_piece(below, true)?;
    let size = first.len() as u64;
    if size > MOST_BESIDE {
        window.settle_all(alloc, gateway)?;
        let cap = put_rest(alloc, gateway, source, below, first)?;
        window.children.push(child_of(alloc, name, cap)?)?;
        return Ok(());
    }
    let file = Waiting {
        name: text_of(alloc, name.as_str())?,
        bytes: Bytes::from_vec(first),
    };
    window.send(alloc, gateway, file)
}
