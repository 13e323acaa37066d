//! Nodes: files, and directories with their children.
ghost use Rattle.std.specs.Prelude.{◌≡◌, ◌++◌, length, false, map, IfOk, OnOk};
ghost use Rattle.std.specs.List.{join_with_byte};
ghost use Rattle.caps.specs.Weakening.{weakened};
ghost use Rattle.serde_json.specs.Written.{comma_if};
ghost use Rattle.json_view.specs.Nodes.{size_member, verify_member, node_members, node_kind, file_text, child_text, dir_text};
ghost use Rattle.json_view.specs.Listings.{head_unless, dir_end};

use crate::text::{put_all, put_cap, put_comma, put_string};
use caps::{Cap, weaken};
use dir_codec::{Directory, Entry};
use itoa::Buffer;
use std::alloc::{AllocError, Global};

/// The JSON of a file: its cap, its size in bytes and the verify cap, which a file whose bytes stand in its cap has not.
/// No share is looked at. Refused only where memory is.
#[tactic(auto, unfolding(crate::specs::Nodes::file_text))]
pub fn file_json(alloc: Global, cap: &Cap) -> Result<Vec<u8>, AllocError>
    ensures { IfOk result (λ text. text.items ≡ file_text cap.now) }
{
    let mut out = Vec::from_slice(alloc, b"[\"filenode\",{")?;
    put_members(alloc, &mut out, cap)?;
    out.extend_from_slice(b"}]")?;
    Ok(out)
}

/// The JSON of a directory: its children in the order of their names, its cap, and the verify cap, which a directory
/// whose bytes stand in its cap has not. Children of a child are not listed. Refused only where memory is.
pub fn dir_json(alloc: Global, cap: &Cap, directory: &Directory) -> Result<Vec<u8>, AllocError>
    ensures { IfOk result (λ text. text.items ≡ dir_text cap.now directory.now) }
{
    let mut out = Vec::new(alloc);
    put_dir_head(&mut out)?;
    put_children(alloc, &mut out, directory.entries())?;
    put_dir_end(alloc, &mut out, cap)?;
    Ok(out)
}

/// Puts what stands before the children of a directory.
pub(crate) fn put_dir_head(out: &mut Vec<u8>) -> Result<(), AllocError>
    ensures { OnOk result (out.new.items ≡ out.old.items ++ head_unless false) }
{
    out.extend_from_slice(b"[\"dirnode\",{\"children\":{")?;
    Ok(())
}

/// Puts what stands behind the children of a directory: its own members.
pub(crate) fn put_dir_end(alloc: Global, out: &mut Vec<u8>, cap: &Cap) -> Result<(), AllocError>
    ensures { OnOk result (out.new.items ≡ out.old.items ++ dir_end cap.now) }
{
    out.extend_from_slice(b"},")?;
    put_members(alloc, out, cap)?;
    out.extend_from_slice(b"}]")?;
    Ok(())
}

/// Puts the members of `children`.
fn put_children(alloc: Global, out: &mut Vec<u8>, entries: &[Entry]) -> Result<(), AllocError>
    ensures { OnOk result (out.new.items
        ≡ out.old.items ++ join_with_byte 44 (map child_text entries.now)) }
{
    for (at, entry) in entries.iter().enumerate() {
        put_comma(out, at > 0)?;
        put_child(alloc, out, entry)?;
    }
    Ok(())
}

/// Puts a child under its name, with its metadata.
pub(crate) fn put_child(alloc: Global, out: &mut Vec<u8>, entry: &Entry) -> Result<(), AllocError>
    ensures { OnOk result (out.new.items ≡ out.old.items ++ child_text entry.now) }
{
    put_child_with(alloc, out, entry, entry.metadata.as_str().as_bytes())
}

/// Puts a child under its name, with these metadata in place of its own.
#[tactic(auto, unfolding(crate::specs::Nodes::child_text))]
fn put_child_with(
    alloc: Global,
    out: &mut Vec<u8>,
    entry: &Entry,
    metadata: &[u8],
) -> Result<(), AllocError>
    ensures { OnOk result (out.new.items
        ≡ out.old.items ++ child_text (record entry.now { metadata = metadata.now })) }
{
    put_string(alloc, out, entry.name.as_str())?;
    put_all(
        out,
        &[
            b":[\"",
            node_kind(&entry.cap),
            b"\",{\"metadata\":",
            metadata,
            b",",
        ],
    )?;
    put_members(alloc, out, &entry.cap)?;
    out.extend_from_slice(b"}]")?;
    Ok(())
}

/// How many bytes a child takes, with the comma before it that a later one has. Its metadata are counted and not copied:
/// only the rest of it is put, into the buffer.
///
/// # Errors
/// `AllocError` where memory is refused, or where a `usize` doesn't count them.
pub(crate) fn child_len(
    alloc: Global,
    buffer: &mut Vec<u8>,
    later: bool,
    entry: &Entry,
) -> Result<usize, AllocError>
    ensures { IfOk result (λ len. len ≡ length (comma_if later ++ child_text entry.now)) }
{
    buffer.clear();
    put_comma(buffer, later)?;
    put_child_with(alloc, buffer, entry, &[])?;
    let Some(len) = buffer.len().checked_add(entry.metadata.as_str().len()) else {
        return Err(AllocError);
    };
    Ok(len)
}

/// The kind of the node that a cap names.
fn node_kind(cap: &Cap) -> &[u8]
    ensures { result.now ≡ node_kind cap.now }
{
    match cap {
        Cap::Chk(_) | Cap::Lit(_) | Cap::ChkVerify(_) => b"filenode",
        Cap::DirChk(_) | Cap::DirLit(_) | Cap::DirChkVerify(_) => b"dirnode",
    }
}

/// Puts the members that every node has.
#[tactic(auto, unfolding(crate::specs::Nodes::node_members))]
fn put_members(alloc: Global, out: &mut Vec<u8>, cap: &Cap) -> Result<(), AllocError>
    ensures { OnOk result (out.new.items ≡ out.old.items ++ node_members cap.now) }
{
    out.extend_from_slice(b"\"mutable\":false,\"ro_uri\":")?;
    put_cap(alloc, out, cap)?;
    put_size(out, cap)?;
    put_verify(alloc, out, cap)
}

/// Puts the size of a file.
fn put_size(out: &mut Vec<u8>, cap: &Cap) -> Result<(), AllocError>
    ensures { OnOk result (out.new.items ≡ out.old.items ++ size_member cap.now) }
{
    let size = match cap {
        Cap::Chk(fields) => fields.size,
        Cap::Lit(bytes) => bytes.len() as u64,
        _ => return Ok(()),
    };
    let mut digits = Buffer::new();
    put_all(out, &[b",\"size\":", digits.format(size).as_bytes()])
}

/// Puts the verify cap, where there is one.
fn put_verify(alloc: Global, out: &mut Vec<u8>, cap: &Cap) -> Result<(), AllocError>
    ensures { OnOk result (out.new.items ≡ out.old.items ++ verify_member (weakened cap.now)) }
{
    let Some(verify) = weaken(cap) else {
        return Ok(());
    };
    out.extend_from_slice(b",\"verify_uri\":")?;
    put_cap(alloc, out, &Cap::from(verify))
}
