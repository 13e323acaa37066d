//! What a request names the file that it reads.
ghost use Rattle.std.specs.Prelude.{◌≡◌, ◌++◌, map, codes, IfOk, OnOk, IfSome, IsTrue};
ghost use Rattle.std.specs.List.{list_all};
ghost use Rattle.http_edge.specs.Plain.{is_line_byte};
ghost use Rattle.percent_encoding.specs.Percent.{percent_encode};
ghost use Rattle.web_request.specs.Actions.{verify_of};
ghost use Rattle.reply_fields.specs.Names.{some_name, says_yes, naming_of, escaped_in_names, plain_byte, named_disposition, disposition_of};

use octets::{Bytes, Text};
use percent_encoding::{AsciiSet, NON_ALPHANUMERIC, ascii_set, percent_encode};
use std::alloc::{AllocError, Global};
use web_request::{value_in, yes_or_no};

/// What stays as it is in a name: RFC 8187's attr-char.
const ESCAPED: AsciiSet = ascii_set!(
    NON_ALPHANUMERIC
        .remove(b'!')
        .remove(b'#')
        .remove(b'$')
        .remove(b'&')
        .remove(b'+')
        .remove(b'-')
        .remove(b'.')
        .remove(b'^')
        .remove(b'_')
        .remove(b'`')
        .remove(b'|')
        .remove(b'~')
);

/// What a request names the file that it reads, and whether it is to be saved and not shown.
#[derive(Drop)]
pub struct Naming {
    /// The name, which isn't empty.
    pub name: Option<Text>,
    /// Whether it is to be saved.
    pub save: bool,
}

/// What the query of a target says: the first `filename` that it has, and whether its first `save` is `true`, `t`, `1` or
/// `on`, in any case.
#[tactic(auto, unfolding(crate::specs::Names::naming_of))]
pub fn naming_of(alloc: Global, target: &[u8]) -> Result<Naming, AllocError>
    ensures { IfOk result (λ naming. naming ≡ naming_of target.now) }
{
    let name = some_name(value_in(alloc, target, "filename")?);
    let save = says_yes(&value_in(alloc, target, "save")?);
    Ok(Naming { name, save })
}

/// A name that isn't empty.
fn some_name(name: Option<Text>) -> Option<Text>
    ensures { result ≡ some_name name }
{
    match name {
        Some(name) if !name.as_str().is_empty() => Some(name),
        Some(_) | None => None,
    }
}

/// Whether a value says yes.
fn says_yes(value: &Option<Text>) -> bool
    ensures { result ≡ says_yes (verify_of value.now) }
{
    match value {
        Some(text) => yes_or_no(text.as_str()).unwrap_or(false),
        None => false,
    }
}

/// The value of Content-Disposition (RFC 6266), if the query asks for one. It holds no CR and no LF.
pub fn disposition_of(alloc: Global, naming: &Naming) -> Result<Option<Bytes>, AllocError>
    ensures value { IfOk result (λ value. value ≡ disposition_of naming.now) }
    ensures plain { IfOk result (λ value. IfSome value (λ v. IsTrue (list_all is_line_byte v))) }
{
    let kind: &[u8] = if naming.save {
        b"attachment"
    } else {
        b"inline"
    };
    match &naming.name {
        Some(name) => Ok(Some(named(alloc, kind, name.as_str())?)),
        None if naming.save => Ok(Some(Bytes::from_slice(alloc, b"attachment")?)),
        None => Ok(None),
    }
}

/// A kind with a name in both ways.
fn named(alloc: Global, kind: &[u8], name: &str) -> Result<Bytes, AllocError>
    requires plain { IsTrue (list_all is_line_byte kind.now) }
    ensures value { IfOk result (λ value. value ≡ named_disposition kind.now name.now) }
    ensures plain { IfOk result (λ value. IsTrue (list_all is_line_byte value)) }
{
    let mut escaped = String::new(alloc);
    percent_encode(name.as_bytes(), ESCAPED).append_to(&mut escaped)?;
    let mut value = Vec::from_slice(alloc, kind)?;
    value.extend_from_slice(b"; filename=\"")?;
    put_plain(&mut value, name.as_bytes())?;
    value.extend_from_slice(b"\"; filename*=UTF-8''")?;
    value.extend_from_slice(escaped.as_bytes())?;
    Ok(Bytes::from_vec(value))
}

/// Puts a name for those who read no escapes.
fn put_plain(out: &mut Vec<u8>, name: &[u8]) -> Result<(), AllocError>
    ensures { OnOk result (out.new.items ≡ out.old.items ++ map plain_byte name.now) }
{
    for byte in name {
        out.push(plain_byte(*byte))?;
    }
    Ok(())
}

/// A byte of such a name.
fn plain_byte(byte: u8) -> u8
    ensures { result ≡ plain_byte byte }
{
    if ESCAPED.should_percent_encode(byte) && byte != b' ' {
        b'_'
    } else {
        byte
    }
}
