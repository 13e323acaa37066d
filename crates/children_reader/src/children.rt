//! From the JSON that a client names children with to their directory.
ghost use Rattle.std.specs.Prelude.{◌≡◌, ◌≢◌, Ok, Err, Some, IfOk, IfErr};
ghost use Rattle.json.specs.Token.{begin_object};
ghost use Rattle.json.specs.Lex.{tokens};
ghost use Rattle.json_members.specs.MemberCuts.{first_token};
ghost use Rattle.serde_json.specs.Data.{Members, object};
ghost use Rattle.children_reader.specs.Children.{making};
ghost use Rattle.children_reader.specs.Kept.{AreOutcomes};
ghost use Rattle.json_spelling.specs.Metadata.{json_of};
ghost use Rattle.children_reader.specs.Named.{entries_of};
ghost use Rattle.dir_codec.specs.declared.fault.DirFault.TheVariants.{NoMemory};

use crate::child::{Child, MemberOutcome};
use crate::collecting::put_in;
use crate::cutting::behind_brace;
use crate::members::{read_members, why_no_object};
use crate::naming::named_children;
use dir_codec::{DirFault, Directory, Entry};
use octets::Text;
use std::alloc::{AllocError, Global};
use std::collections::BTreeMap;

/// The directory of the children that JSON names: an object of members `name: [kind, fields]`, as Tahoe-LAFS's web API
/// takes it. Of `fields`, `ro_uri` is the child's cap, `rw_uri` is absent, null or empty, and `metadata` is an object
/// or absent. Names are brought to NFC. Of equal keys of one object the last counts.
///
/// # Errors
/// NotJson, BadShape, BadName (empty), BadCap, NotImmutable, WriteCap, FractionalNumber, BadMetadata (too deep) and
/// SameName each name something that is wrong.
pub fn from_children_json(alloc: Global, json: &[u8]) -> Result<Directory, DirFault>
    ensures made { IfOk result (λ directory. making json.now ≡ Ok directory) }
    ensures refused { IfErr result (λ fault. fault ≢ NoMemory → making json.now ≡ Err fault) }
{
    json_members::laws::objects_begin_with_a_brace();
    let Some(_) = behind_brace(json) else {
        let Ok(text) = str::from_utf8(json) else {
            return Err(DirFault::NotJson);
        };
        return Err(why_no_object(alloc, text));
    };
    let outcomes = collect(alloc, json)?;
    let children = named_children(alloc, outcomes)?;
    let entries = in_order(alloc, children)?;
    Ok(Directory::from_entries(entries))
}

/// What is made of each member of the object that a text begins with, by its key.
fn collect(alloc: Global, json: &[u8]) -> Result<BTreeMap<String, MemberOutcome>, DirFault>
    requires { first_token (tokens json.now) ≡ Some begin_object }
    ensures ok { IfOk result (λ outcomes. (ms : Members) × (json_of json.now ≡ Some (object ms))
        × AreOutcomes outcomes.entries ms) }
    ensures err { IfErr result (λ fault. fault ≢ NoMemory → making json.now ≡ Err fault) }
{
    let Ok(text) = str::from_utf8(json) else {
        return Err(DirFault::NotJson);
    };
    let found = read_members(alloc, text)?;
    let mut outcomes = BTreeMap::new(alloc);
    put_in(&mut outcomes, found)?;
    Ok(outcomes)
}

/// The entries of children, in order of their names.
fn in_order(alloc: Global, children: BTreeMap<String, Child>) -> Result<Vec<Entry>, AllocError>
    ensures { IfOk result (λ entries. entries.items ≡ entries_of children.entries) }
{
    let mut entries = Vec::with_capacity(alloc, children.len())?;
    for (name, child) in children {
        let Child { cap, metadata } = child;
        entries.push(Entry {
            name: Text::from_string(name),
            cap,
            metadata,
        })?;
    }
    Ok(entries)
}
