//! The text of a key, and of a value that is one token.
ghost use Rattle.std.specs.Prelude.{◌≡◌, [], ◌∷◌, ◌++◌, OnOk};
ghost use Rattle.std.specs.List.{list_all};
ghost use Rattle.json.specs.Print.{IsPrintable, quoted, token_text};
ghost use Rattle.json.specs.Reads.{token_of};
ghost use Rattle.json.specs.Run.{is_plain};
ghost use Rattle.serde_json.specs.View.{number_view};
ghost use Rattle.serde_json.specs.Written.{comma_if, number_text};

use json::{Token, Writer};
use serde_json::Number;
use std::alloc::{AllocError, Global};

/// Writes a comma, where something stands before.
pub(crate) fn put_comma(out: &mut Vec<u8>, later: bool) -> Result<(), AllocError>
    ensures { OnOk result (out.new.items ≡ out.old.items ++ comma_if later) }
{
    if later {
        out.push(b',')?;
    }
    Ok(())
}

/// Writes a key, and the colon behind it. One that has nothing to escape is copied whole.
pub(crate) fn put_key(alloc: Global, out: &mut Vec<u8>, name: &str) -> Result<(), AllocError>
    ensures { OnOk result (out.new.items ≡ out.old.items ++ (quoted name.now ++ 58 ∷ [])) }
{
    if !is_plain(name.as_bytes()) {
        return put_token(alloc, out, Token::Key(name));
    }
    out.push(b'"')?;
    out.extend_from_slice(name.as_bytes())?;
    out.extend_from_slice(b"\":")?;
    Ok(())
}

/// Writes a text. One that has nothing to escape is copied whole.
pub(crate) fn put_string(alloc: Global, out: &mut Vec<u8>, text: &str) -> Result<(), AllocError>
    ensures { OnOk result (out.new.items ≡ out.old.items ++ quoted text.now) }
{
    if !is_plain(text.as_bytes()) {
        return put_token(alloc, out, Token::String(text));
    }
    out.push(b'"')?;
    out.extend_from_slice(text.as_bytes())?;
    out.push(b'"')?;
    Ok(())
}

/// Writes a number where it is whole, and else nothing.
pub(crate) fn put_number(out: &mut Vec<u8>, number: &Number) -> Result<(), AllocError>
    ensures { OnOk result (out.new.items ≡ out.old.items ++ number_text (number_view number.now)) }
{
    match number.as_i128() {
        None => Ok(()),
        Some(n) => {
            let mut buffer = itoa::Buffer::new();
            out.extend_from_slice(buffer.format(n).as_bytes())?;
            Ok(())
        }
    }
}

/// Writes `true`, `false` or `null`.
pub(crate) fn put_word(out: &mut Vec<u8>, word: &[u8]) -> Result<(), AllocError>
    ensures { OnOk result (out.new.items ≡ out.old.items ++ word.now) }
{
    out.extend_from_slice(word)?;
    Ok(())
}

/// Whether each byte stands for itself in a JSON string.
fn is_plain(text: &[u8]) -> bool
    ensures { result ≡ list_all is_plain text.now }
{
    text.iter()
        .all(|byte| *byte >= 32 && *byte != b'"' && *byte != b'\\')
}

/// Writes one token, by `json`'s writer into a buffer of its own: before each token it clears as much memory as it has
/// written, up to 16 KiB.
fn put_token(alloc: Global, out: &mut Vec<u8>, token: Token<'_>) -> Result<(), AllocError>
    requires { IsPrintable (token_of token) }
    ensures { OnOk result (out.new.items ≡ out.old.items ++ token_text (token_of token.entry)) }
{
    let mut writer = Writer::new(Vec::new(alloc));
    writer.token(token)?;
    out.extend_from_slice(writer.into_inner().as_slice())?;
    Ok(())
}
