//! Writing what a cap leads to.
ghost use Rattle.std.specs.Prelude.{◌≡◌, true, [], All, OnOk, OnErr, MatchResult};
ghost use Rattle.std.specs.List.{list_all};
ghost use Rattle.client_tree.specs.Runs.{Passes, FileRun};
ghost use Rattle.client_tree.specs.Trees.{IsBoundFile, IsBoundBelow, AreTreesOf, IsFileOf, IsTreeOf};
ghost use Rattle.client_tree.specs.FileNames.{is_file_name, AreFileNames};
ghost use Rattle.client_tree.specs.Joined.{ArePiecesAt, AreFirstPiecesAt, IsJoinedFile, IsUnfinishedAt};
ghost use Rattle.client_tree.specs.Placed.{IsPlacedFile, IsUnfinished};

use crate::fault::{LocalFault, TreeFault};
use crate::file_name::is_file_name;
use crate::folder::Folder;
use crate::parts::parts_size;
use crate::path::{path_below, text_of};
use crate::row::Row;
use caps::Cap;
use client_core::laws::children_are_found;
use client_core::{ClientFault, Exchange, fetch_begun, fetch_directory, fetch_file, walk};
use dir_codec::{Directory, Entry};
use octets::Text;
use std::alloc::Global;

/// Writes the file that names lead to from a cap on, under a path in a folder. A file in parts is written part by part, each
/// once it was verified.
///
/// Whatever the gateway answers, the bytes that are written are bound to the cap that the names lead to, and where the call
/// is refused nothing is written, or of a file in parts the first of these.
pub fn get_file<E: Exchange, F: Folder>(
    alloc: Global,
    gateway: &mut E,
    folder: &mut F,
    cap: &Cap,
    names: &[Text],
    path: &[Text],
) -> Result<(), TreeFault>
    requires { AreFileNames path.now }
    ensures { MatchResult result
        (λ done. Passes F.wrote F.kept (IsPlacedFile cap.now names.now path.now)
        folder.old folder.new)
        (λ fault. Passes F.wrote F.kept (IsUnfinished cap.now names.now path.now)
        folder.old folder.new) }
{
    let end = walk(alloc, gateway, cap, names)?;
    match end {
        Cap::DirChk(_) | Cap::DirLit(_) => get_parts(alloc, gateway, folder, &end, path),
        _ => get_whole(alloc, gateway, folder, &end, path),
    }
}

/// Writes the file that a cap is of.
fn get_whole<E: Exchange, F: Folder>(
    alloc: Global,
    gateway: &mut E,
    folder: &mut F,
    cap: &Cap,
    path: &[Text],
) -> Result<(), TreeFault>
    requires { AreFileNames path.now }
    ensures { MatchResult result
        (λ done. Passes F.wrote F.kept (IsFileOf cap.now path.now) folder.old folder.new)
        (λ fault. FileRun F.wrote F.kept folder.old [] folder.new) }
{
    let bytes = fetch_file(alloc, gateway, cap)?;
    folder.write_file(path, &bytes)?;
    Ok(())
}

/// Writes the file whose parts a directory has. `NotFile` where it has other children.
fn get_parts<E: Exchange, F: Folder>(
    alloc: Global,
    gateway: &mut E,
    folder: &mut F,
    cap: &Cap,
    path: &[Text],
) -> Result<(), TreeFault>
    requires { AreFileNames path.now }
    ensures { MatchResult result
        (λ done. Passes F.wrote F.kept (IsJoinedFile cap.now path.now) folder.old folder.new)
        (λ fault. Passes F.wrote F.kept (IsUnfinishedAt cap.now path.now) folder.old folder.new) }
{
    let directory = fetch_directory(alloc, gateway, cap)?;
    let Some(_) = parts_size(alloc, &directory)? else {
        return Err(TreeFault::Client(ClientFault::NotFile));
    };
    get_pieces(alloc, gateway, folder, &directory, path)
}

/// Writes the files of a directory's children at the end of one file, in their order.
fn get_pieces<E: Exchange, F: Folder>(
    alloc: Global,
    gateway: &mut E,
    folder: &mut F,
    directory: &Directory,
    path: &[Text],
) -> Result<(), TreeFault>
    requires { AreFileNames path.now }
    ensures { MatchResult result
        (λ done. Passes F.wrote F.kept (ArePiecesAt path.now directory.now) folder.old folder.new)
        (λ fault. Passes F.wrote F.kept (AreFirstPiecesAt path.now directory.now)
        folder.old folder.new) }
{
    for (place, entry) in directory.entries().iter().enumerate() {
        let bytes = fetch_file(alloc, gateway, &entry.cap)?;
        put_piece(folder, path, &bytes, place == 0)?;
    }
    Ok(())
}

/// Puts bytes at the end of a file, which is a new one if these are its first.
fn put_piece<F: Folder>(
    folder: &mut F,
    path: &[Text],
    bytes: &[u8],
    is_first: bool,
) -> Result<(), LocalFault>
    requires { AreFileNames path.now }
    ensures ok { OnOk result
        (F.wrote folder.old (record { path = path.now; bytes = bytes.now }) folder.new) }
    ensures err { OnErr result (F.kept folder.old folder.new) }
{
    if is_first {
        folder.write_file(path, bytes)
    } else {
        folder.append_file(path, bytes)
    }
}

/// Writes what a cap leads to into a folder: a file under no name, or folders and files under theirs, those in parts piece
/// after piece. There are at most `most` of these, in folders that stand at most `depth` deep.
///
/// Whatever the gateway answers, all files of the directories that the cap leads to are written then, each with the bytes
/// that are bound to the cap that the names of its path lead to; where the call is refused, some of them.
pub fn get_tree<E: Exchange, F: Folder>(
    alloc: Global,
    gateway: &mut E,
    folder: &mut F,
    cap: &Cap,
    depth: u32,
    most: u64,
) -> Result<(), TreeFault>
    ensures { MatchResult result
        (λ done. Passes F.wrote F.kept (IsTreeOf cap.now []) folder.old folder.new)
        (λ fault. Passes F.wrote F.kept (All (IsBoundFile cap.now [])) folder.old folder.new) }
{
    let path = Vec::new(alloc);
    let mut left = most;
    get_node(alloc, gateway, folder, cap, &path, depth, &mut left)
}

/// Writes what a cap leads to under a path.
#[cycle(tree)]
fn get_node<E: Exchange, F: Folder>(
    alloc: Global,
    gateway: &mut E,
    folder: &mut F,
    cap: &Cap,
    path: &[Text],
    depth: u32,
    left: &mut u64,
) -> Result<(), TreeFault>
    requires { AreFileNames path.now }
    ensures { MatchResult result
        (λ done. Passes F.wrote F.kept (IsTreeOf cap.now path.now) folder.old folder.new)
        (λ fault. Passes F.wrote F.kept (All (IsBoundFile cap.now path.now)) folder.old folder.new) }
{
    children_are_found();
    if *left == 0 {
        return Err(TreeFault::TooMany);
    }
    *left -= 1;
    match cap {
        Cap::DirChk(_) | Cap::DirLit(_) => {
            if depth == 0 {
                return Err(TreeFault::TooDeep);
            }
            let directory = fetch_directory(alloc, gateway, cap)?;
            match parts_size(alloc, &directory)? {
                Some(_) => get_pieces(alloc, gateway, folder, &directory, path),
                None => {
                    test_names(alloc, &directory)?;
                    folder.make_folder(path)?;
                    get_children(alloc, gateway, folder, &directory, path, depth - 1, left)
                }
            }
        }
        _ => {
            let bytes = fetch_file(alloc, gateway, cap)?;
            folder.write_file(path, &bytes)?;
            Ok(())
        }
    }
}

/// Writes what the entries of a directory lead to, under their names below a path. Of small files that stand one behind the
/// other in it several are asked for at once.
#[cycle(tree)]
fn get_children<E: Exchange, F: Folder>(
    alloc: Global,
    gateway: &mut E,
    folder: &mut F,
    directory: &Directory,
    path: &[Text],
    depth: u32,
    left: &mut u64,
) -> Result<(), TreeFault>
    requires path { AreFileNames path.now }
    requires names { list_all (λ entry. is_file_name entry.name) directory.now ≡ true }
    ensures { MatchResult result
        (λ done. Passes F.wrote F.kept (AreTreesOf path.now directory.now) folder.old folder.new)
        (λ fault. Passes F.wrote F.kept (All (IsBoundBelow directory.now path.now)) folder.old folder.new) }
{
    children_are_found();
    let entries = directory.entries();
    let mut row = Row::new();
    for entry in directory.entries() {
        let below = path_below(alloc, path, entry.name.as_str())?;
        row.go_on(gateway, entries);
        get_entry(
            alloc, gateway, folder, &entry.cap, &row, entries, &below, depth, left,
        )?;
    }
    Ok(())
}

/// Writes what the cap of an entry leads to under a path, which stands in such a row.
#[cycle(tree)]
fn get_entry<E: Exchange, F: Folder>(
    alloc: Global,
    gateway: &mut E,
    folder: &mut F,
    cap: &Cap,
    row: &Row,
    entries: &[Entry],
    path: &[Text],
    depth: u32,
    left: &mut u64,
) -> Result<(), TreeFault>
    requires { AreFileNames path.now }
    ensures { MatchResult result
        (λ done. Passes F.wrote F.kept (IsTreeOf cap.now path.now) folder.old folder.new)
        (λ fault. Passes F.wrote F.kept (All (IsBoundFile cap.now path.now)) folder.old folder.new) }
{
    if row.is_within() {
        get_begun(alloc, gateway, folder, cap, row, entries, path, left)
    } else {
        get_node(alloc, gateway, folder, cap, path, depth, left)
    }
}

/// Writes the file that a cap is of, which was asked for ahead.
fn get_begun<E: Exchange, F: Folder>(
    alloc: Global,
    gateway: &mut E,
    folder: &mut F,
    cap: &Cap,
    row: &Row,
    entries: &[Entry],
    path: &[Text],
    left: &mut u64,
) -> Result<(), TreeFault>
    requires { AreFileNames path.now }
    ensures { MatchResult result
        (λ done. Passes F.wrote F.kept (IsTreeOf cap.now path.now) folder.old folder.new)
        (λ fault. Passes F.wrote F.kept (All (IsBoundFile cap.now path.now)) folder.old folder.new) }
{
    if *left == 0 {
        return Err(TreeFault::TooMany);
    }
    *left -= 1;
    let lane = row.lane(gateway);
    let next = row.next(gateway, entries);
    let bytes = fetch_begun(alloc, gateway, lane, cap, next)?;
    folder.write_file(path, &bytes)?;
    Ok(())
}

/// Whether each entry has a name that a file can have: else the first that hasn't is told.
fn test_names(alloc: Global, directory: &Directory) -> Result<(), TreeFault>
    ensures { OnOk result (list_all (λ entry. is_file_name entry.name) directory.now ≡ true) }
{
    for entry in directory.entries() {
        if !is_file_name(entry.name.as_str()) {
            return Err(TreeFault::BadName(text_of(alloc, entry.name.as_str())?));
        }
    }
    Ok(())
}
