//! Writing the JSON that is sent for a directory.
ghost use Rattle.std.specs.Prelude.{◌≡◌, ◌++◌, List, map, codes, Ok, IfOk, OnOk, string_bytes};
ghost use Rattle.std.specs.List.{join_with_byte};
ghost use Rattle.serde_json.specs.Data.{string};
ghost use Rattle.serde_json.specs.Written.{comma_if, compact_text};
ghost use Rattle.caps.specs.CapTexts.{cap_text};
ghost use Rattle.dir_codec.specs.Entries.{IsDirectory};
ghost use Rattle.children_reader.specs.Children.{making};
ghost use Rattle.client_core.specs.ChildrenJson.{kind, entry_member, children_text};

use caps::{Cap, print};
use dir_codec::Entry;
use serde_json::Value;
use std::alloc::{AllocError, Global};

/// The JSON of a directory's children. The children that it names are these entries.
pub fn children_json(alloc: Global, entries: &[Entry]) -> Result<String, AllocError>
    requires { IsDirectory entries.now }
    ensures text { IfOk result (λ text. string_bytes text ≡ children_text entries.now) }
    ensures made { IfOk result (λ text. making (string_bytes text) ≡ Ok entries.now) }
{
    crate::laws::written_children_are_made();
    let mut out = String::from_str(alloc, "{")?;
    put_entries(alloc, &mut out, entries)?;
    out.push_str("}")?;
    Ok(out)
}

/// Puts the members.
fn put_entries(alloc: Global, out: &mut String, entries: &[Entry]) -> Result<(), AllocError>
    ensures { OnOk result (string_bytes out.new
        ≡ string_bytes out.old ++ join_with_byte 44 (map entry_member entries.now)) }
{
    for (at, entry) in entries.iter().enumerate() {
        put_comma(out, at > 0)?;
        put_entry(alloc, out, entry)?;
    }
    Ok(())
}

/// Puts a comma, where something stands before.
fn put_comma(out: &mut String, later: bool) -> Result<(), AllocError>
    ensures { OnOk result (string_bytes out.new ≡ string_bytes out.old ++ comma_if later) }
{
    if later {
        out.push_str(",")?;
    }
    Ok(())
}

/// Puts an entry.
fn put_entry(alloc: Global, out: &mut String, entry: &Entry) -> Result<(), AllocError>
    ensures { OnOk result (string_bytes out.new ≡ string_bytes out.old ++ entry_member entry.now) }
{
    caps::laws::caps_have_one_text();
    let cap = print(alloc, &entry.cap)?;
    put_string(alloc, out, entry.name.as_str())?;
    out.push_str(":[\"")?;
    out.push_str(kind(&entry.cap))?;
    out.push_str("\",{\"metadata\":")?;
    out.push_str(entry.metadata.as_str())?;
    out.push_str(",\"ro_uri\":")?;
    put_string(alloc, out, cap.as_str())?;
    out.push_str("}]")?;
    Ok(())
}

/// The kind of the node that a cap names.
fn kind(cap: &Cap) -> &str
    ensures { result.now ≡ kind cap.now }
{
    match cap {
        Cap::Chk(_) | Cap::Lit(_) | Cap::ChkVerify(_) => "filenode",
        Cap::DirChk(_) | Cap::DirLit(_) | Cap::DirChkVerify(_) => "dirnode",
    }
}

/// Puts a text as a JSON string.
fn put_string(alloc: Global, out: &mut String, text: &str) -> Result<(), AllocError>
    ensures { OnOk result (string_bytes out.new
        ≡ string_bytes out.old ++ compact_text (string text.now)) }
{
    let value = Value::try_from_str(alloc, text)?;
    let written = value.to_string(alloc)?;
    out.push_str(written.as_str())
}
