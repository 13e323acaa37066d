//! Pieces of text, put after one another: what JSON of files, of directories and of checks is made of.
ghost use Rattle.std.specs.Prelude.{◌≡◌, ◌++◌, OnOk};
ghost use Rattle.std.specs.List.{flat_map, list_all};
ghost use Rattle.serde_json.specs.Written.{comma_if};
ghost use Rattle.caps.specs.CapTexts.{cap_text};
ghost use Rattle.json_view.specs.Strings.{quoted, needs_no_escape};

use caps::{Cap, print};
use serde_json::Value;
use std::alloc::{AllocError, Global};

/// Puts the parts at the end, in their order.
///
/// # Errors
/// `AllocError` where memory is refused; some of the parts may then be put.
pub fn put_all(out: &mut Vec<u8>, parts: &[&[u8]]) -> Result<(), AllocError>
    ensures { OnOk result (out.new.items ≡ out.old.items ++ flat_map (λ part. part.now) parts.now) }
{
    for part in parts {
        out.extend_from_slice(part)?;
    }
    Ok(())
}

/// Puts a comma at the end, where something stands before.
///
/// # Errors
/// `AllocError` where memory is refused.
pub fn put_comma(out: &mut Vec<u8>, later: bool) -> Result<(), AllocError>
    ensures { OnOk result (out.new.items ≡ out.old.items ++ comma_if later) }
{
    if later {
        out.extend_from_slice(b",")?;
    }
    Ok(())
}

/// Puts a text at the end as a JSON string, as `serde_json` writes it. One that has nothing to escape is copied whole.
///
/// # Errors
/// `AllocError` where memory is refused; a part of the string may then be put.
pub fn put_string(alloc: Global, out: &mut Vec<u8>, text: &str) -> Result<(), AllocError>
    ensures { OnOk result (out.new.items ≡ out.old.items ++ quoted text.now) }
{
    if needs_no_escape(text.as_bytes()) {
        return put_all(out, &[b"\"", text.as_bytes(), b"\""]);
    }
    let value = Value::try_from_str(alloc, text)?;
    let written = value.to_string(alloc)?;
    out.extend_from_slice(written.as_bytes())?;
    Ok(())
}

/// Whether each byte stands for itself in a JSON string.
fn needs_no_escape(text: &[u8]) -> bool
    ensures { result ≡ list_all needs_no_escape text.now }
{
    text.iter()
        .all(|byte| *byte >= 32 && *byte != b'"' && *byte != b'\\')
}

/// Puts the text of a cap as a JSON string.
pub(crate) fn put_cap(alloc: Global, out: &mut Vec<u8>, cap: &Cap) -> Result<(), AllocError>
    ensures { OnOk result (out.new.items ≡ out.old.items ++ quoted (cap_text cap.now)) }
{
    caps::laws::caps_have_one_text();
    let text = print(alloc, cap)?;
    put_string(alloc, out, text.as_str())
}
