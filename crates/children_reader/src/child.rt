//! What is made of a child in JSON.
ghost use Rattle.std.specs.Prelude.{◌≡◌, ◌≢◌, ◌==◌, true, false, Ok, Err, Some, Option, IfOk, IfErr, option_map, option_and_then, string_bytes, length};
ghost use Rattle.serde_json.specs.Data.{Data, Members, object};
ghost use Rattle.serde_json.specs.Find.{as_str};
ghost use Rattle.json_spelling.specs.Metadata.{spelling_of};
ghost use Rattle.caps.specs.CapTexts.{cap_text};
ghost use Rattle.caps.specs.Reading.{cap_reading};
ghost use Rattle.dir_codec.specs.Entries.{is_child_cap, IsEntry};
ghost use Rattle.children_reader.specs.Children.{has_write, metadata_made, entry_of_fields, entry_made};
ghost use Rattle.children_reader.specs.Kept.{IsFieldAt, IsTextFieldAt, AreChildFields, IsChildNode};
ghost use Rattle.children_reader.specs.Named.{entry_of_child};
ghost use Rattle.dir_codec.specs.declared.fault.DirFault.TheVariants.{NoMemory};

use crate::fields::{Field, Fields};
use caps::Cap;
use dir_codec::{DirFault, read_cap};
use octets::Text;
use std::alloc::Global;
use unicode_normalization::to_nfc;

/// What an entry has besides its name.
#[derive(Drop)]
pub(crate) struct Child {
    /// The cap that reads the child.
    pub(crate) cap: Cap,
    /// The metadata, in their one spelling.
    pub(crate) metadata: Text,
}

/// What is made of a member of children JSON: its name and child, or why there is none. They stand in a box, so that a
/// fault takes few bytes: a stranger's JSON may have millions of members that are at fault.
pub(crate) type MemberOutcome = Result<Box<(String, Child)>, DirFault>;

/// The child of a member of children JSON, and its name. `node` are the fields of the member's value.
pub(crate) fn read_child(
    alloc: Global,
    key: &str,
    node: Option<Fields>,
) -> Result<(String, Child), DirFault>
    ensures ok { IfOk result (λ named. (d : Data) → IsChildNode node d
        → entry_made key.now d ≡ Ok (entry_of_child named)) }
    ensures kept { IfOk result (λ named. (d : Data) → IsChildNode node d
        → IsEntry (entry_of_child named)) }
    ensures err { IfErr result (λ fault. fault ≢ NoMemory → (d : Data) → IsChildNode node d
        → entry_made key.now d ≡ Err fault) }
{
    let Some(fields) = node else {
        return Err(DirFault::BadShape);
    };
    let name = to_nfc(alloc, key)?;
    let child = read_fields(alloc, name.as_str(), fields)?;
    Ok((name, child))
}

/// The child of that name with these fields.
fn read_fields(alloc: Global, name: &str, fields: Fields) -> Result<Child, DirFault>
    ensures ok { IfOk result (λ child. (ms : Members) → AreChildFields fields ms
        → entry_of_fields name.now (object ms)
        ≡ Ok (record { name = name.now; cap = child.cap; metadata = child.metadata })) }
    ensures some { IfOk result (λ child. (length name.now == 0) ≡ false) }
    ensures child { IfOk result (λ child. is_child_cap child.cap ≡ true) }
    ensures cap { IfOk result (λ child. cap_reading (cap_text child.cap) ≡ Ok child.cap) }
    ensures metadata { IfOk result (λ child. (ms : Members) → AreChildFields fields ms
        → spelling_of child.metadata ≡ Some child.metadata) }
    ensures err { IfErr result (λ fault. fault ≢ NoMemory → (ms : Members) → AreChildFields fields ms
        → entry_of_fields name.now (object ms) ≡ Err fault) }
{
    let Fields {
        ro_uri,
        rw_uri,
        metadata,
    } = fields;
    let Some(uri) = text_of(ro_uri) else {
        return Err(DirFault::BadShape);
    };
    if name.is_empty() {
        return Err(DirFault::BadName);
    }
    let cap = read_cap(alloc, uri.as_bytes())?;
    if has_write(&rw_uri) {
        return Err(DirFault::WriteCap);
    }
    let metadata = made_metadata(alloc, metadata)?;
    Ok(Child { cap, metadata })
}

/// The text that a field is.
fn text_of(field: Option<Field>) -> Option<String>
    ensures { (found : Option Data) → IsTextFieldAt field found
        → option_map string_bytes result ≡ option_and_then as_str found }
{
    match field {
        None => None,
        Some(Field::Null) => None,
        Some(Field::Text(text)) => Some(text),
        Some(Field::Object(_)) => None,
        Some(Field::Other) => None,
    }
}

/// Whether there is a write cap: neither null nor the empty text.
fn has_write(field: &Option<Field>) -> bool
    ensures { (found : Option Data) → IsTextFieldAt field.now found → result ≡ has_write found }
{
    match field {
        None => false,
        Some(Field::Null) => false,
        Some(Field::Text(text)) => !text.is_empty(),
        Some(Field::Object(_)) => true,
        Some(Field::Other) => true,
    }
}

/// The metadata of a child, in their one spelling: `{}` where there are none.
fn made_metadata(alloc: Global, field: Option<Field>) -> Result<Text, DirFault>
    ensures ok { IfOk result (λ text. (found : Option Data) → IsFieldAt field found
        → metadata_made found ≡ Ok text) }
    ensures kept { IfOk result (λ text. (found : Option Data) → IsFieldAt field found
        → spelling_of text ≡ Some text) }
    ensures err { IfErr result (λ fault. fault ≢ NoMemory → (found : Option Data)
        → IsFieldAt field found → metadata_made found ≡ Err fault) }
{
    let Some(field) = field else {
        return Ok(Text::from_string(String::from_str(alloc, "{}")?));
    };
    let Field::Object(spelled) = field else {
        return Err(DirFault::BadShape);
    };
    if spelled.extent.fractional {
        return Err(DirFault::FractionalNumber);
    }
    if !spelled.extent.fits() {
        return Err(DirFault::BadMetadata);
    }
    match String::from_utf8(spelled.text) {
        Ok(text) => Ok(Text::from_string(text)),
        Err(_) => Err(DirFault::BadMetadata),
    }
}
