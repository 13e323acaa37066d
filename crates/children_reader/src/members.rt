//! Reads the members of children JSON in one pass over their tokens: what is made of a member is known when its value ends,
//! and what has no meaning is dropped as soon as it is read.
ghost use Rattle.std.specs.Prelude.{◌≡◌, ◌≢◌, ◌<◌, ◌≤◌, ◌∷◌, List, [], length, Err, None, Some, IfOk, IfErr, OnOk, is_some};
ghost use Rattle.json.specs.Token.{Token as JsonToken};
ghost use Rattle.json.specs.Lex.{tokens};
ghost use Rattle.json.specs.Json.{value, items, members};
ghost use Rattle.json.specs.Reads.{token_of};
ghost use Rattle.serde_json.specs.Data.{Data, Items, Members, array, no_members};
ghost use Rattle.serde_json.specs.Find.{as_str, as_object};
ghost use Rattle.serde_json.specs.Read.{of_json, of_items, of_members, converted};
ghost use Rattle.children_reader.specs.Kept.{IsField, AreChildFields, IsObject, IsChildNode, IsOutcome, IsNoObject};
ghost use Rattle.json_members.specs.MemberCuts.{first_token};
ghost use Rattle.children_reader.specs.Collected.{AreEntered, AreMembersRead};
ghost use Rattle.json.specs.Print.{IsPrintable};
ghost use Rattle.json_spelling.specs.Spelled.{data_of, begins_text, begins_array};
ghost use Rattle.dir_codec.specs.declared.fault.DirFault.TheVariants.{NoMemory, BadShape};

use crate::child::{MemberOutcome, read_child};
use crate::fields::{Field, Fields};
use dir_codec::DirFault;
use json::{Reader, Scratch, Token};
use json_spelling::{Keys, READ_LEVELS, Spelled, Stop, opens_object, spell_items, spell_token};
use std::alloc::{AllocError, Global};

/// What is made of each member of an object, in the order of the text. Where keys rise in each object that is a field, the
/// texts of caps and metadata are in memory twice at most, and else they are read in a second pass.
///
/// # Errors
/// NotJson where the text is no JSON.
pub(crate) fn read_members(
    alloc: Global,
    text: &str,
) -> Result<Vec<(String, MemberOutcome)>, DirFault>
    requires { first_token (tokens text.now) ≡ Some JsonToken.begin_object }
    ensures ok { IfOk result (λ outcomes. AreMembersRead outcomes.items (tokens text.now)) }
    ensures err { IfErr result (λ fault. fault ≢ NoMemory → IsNoObject fault (tokens text.now)) }
    ensures json { result ≢ Err BadShape }
{
    let mut scratch = Scratch::new(alloc);
    match members_once(alloc, text, &mut scratch, Keys::Rising) {
        Ok(found) => Ok(found),
        Err(Stop::NotJson) => Err(DirFault::NotJson),
        Err(Stop::NoMemory) => Err(DirFault::NoMemory),
        Err(Stop::NotRising) => match members_once(alloc, text, &mut scratch, Keys::Any) {
            Ok(found) => Ok(found),
            Err(Stop::NotJson) => Err(DirFault::NotJson),
            Err(_) => Err(DirFault::NoMemory),
        },
    }
}

/// The same in one pass over the text, where the members of fields come so.
fn members_once(
    alloc: Global,
    text: &str,
    scratch: &mut Scratch,
    keys: Keys,
) -> Result<Vec<(String, MemberOutcome)>, Stop>
    requires { first_token (tokens text.now) ≡ Some JsonToken.begin_object }
    ensures ok { IfOk result (λ outcomes. AreMembersRead outcomes.items (tokens text.now)) }
    ensures err { result ≡ Err Stop.NotJson → data_of (tokens text.now) ≡ None }
    ensures order { keys ≡ Keys.Any → result ≢ Err Stop.NotRising }
{
    let mut reader = Reader::new(text, scratch)?;
    reader.next().ok_or(Stop::NotJson)?;
    let found = gather_children(alloc, &mut reader, READ_LEVELS - 1, keys)?;
    end(&mut reader)?;
    Ok(found)
}

/// Why a text that doesn't begin with an object is no children JSON: NotJson, BadShape where it is other JSON, or NoMemory.
pub(crate) fn why_no_object(alloc: Global, text: &str) -> DirFault
    requires { first_token (tokens text.now) ≢ Some JsonToken.begin_object }
    ensures { result ≢ NoMemory → IsNoObject result (tokens text.now) }
{
    let mut scratch = Scratch::new(alloc);
    match other_once(alloc, text, &mut scratch, Keys::Rising) {
        Ok(()) => DirFault::BadShape,
        Err(Stop::NotJson) => DirFault::NotJson,
        Err(Stop::NoMemory) => DirFault::NoMemory,
        Err(Stop::NotRising) => match other_once(alloc, text, &mut scratch, Keys::Any) {
            Ok(()) => DirFault::BadShape,
            Err(Stop::NotJson) => DirFault::NotJson,
            Err(_) => DirFault::NoMemory,
        },
    }
}

/// Reads a text that doesn't begin with an object in one pass, and drops what it reads.
fn other_once(alloc: Global, text: &str, scratch: &mut Scratch, keys: Keys) -> Result<(), Stop>
    requires { first_token (tokens text.now) ≢ Some JsonToken.begin_object }
    ensures ok { OnOk result ((d : Data) × (data_of (tokens text.now) ≡ Some d) × (as_object d ≡ None)) }
    ensures err { result ≡ Err Stop.NotJson → data_of (tokens text.now) ≡ None }
    ensures order { keys ≡ Keys.Any → result ≢ Err Stop.NotRising }
{
    let mut reader = Reader::new(text, scratch)?;
    let token = reader.next().ok_or(Stop::NotJson)?;
    pass_by(alloc, &mut reader, token, READ_LEVELS, keys)?;
    end(&mut reader)
}

/// Sees that no token is left.
fn end(reader: &mut Reader<'_>) -> Result<(), Stop>
    ensures ok { OnOk result (reader.old ≡ []) }
    ensures err { result ≡ Err Stop.NotJson
        → (t : JsonToken) × (ts : List JsonToken) × (reader.old ≡ t ∷ ts) }
    ensures order { result ≢ Err Stop.NotRising }
{
    match reader.next() {
        None => Ok(()),
        Some(_) => Err(Stop::NotJson),
    }
}

/// What is made of each member of an object behind its opening brace, in order.
fn gather_children(
    alloc: Global,
    reader: &mut Reader<'_>,
    depth: usize,
    keys: Keys,
) -> Result<Vec<(String, MemberOutcome)>, Stop>
    ensures ok { IfOk result (λ found. (before : Members) → (after : Members)
        × (converted (λ j. of_members j before)
        (members (value depth) (length reader.old) reader.old) ≡ Some (after, reader.new))
        × AreEntered found.items before after) }
    ensures shorter { OnOk result (length reader.new < length reader.old) }
    ensures err { result ≡ Err Stop.NotJson → converted (λ j. of_members j no_members)
        (members (value depth) (length reader.old) reader.old) ≡ None }
    ensures order { keys ≡ Keys.Any → result ≢ Err Stop.NotRising }
{
    let mut found = Vec::new(alloc);
    'members: while let Some(name) = reader.next_key()? {
        let key = String::from_str(alloc, name)?;
        let node = read_node(alloc, reader, depth, keys)?;
        let outcome = made_of(alloc, name, node)?;
        found.push((key, outcome))?;
    }
    Ok(found)
}

/// What is made of a member. `Err` only where memory is refused.
pub(crate) fn made_of(
    alloc: Global,
    key: &str,
    node: Option<Fields>,
) -> Result<MemberOutcome, AllocError>
    ensures { IfOk result (λ outcome. (d : Data) → IsChildNode node d → IsOutcome key.now d outcome) }
{
    match read_child(alloc, key, node) {
        Ok(named) => Ok(Ok(Box::new(alloc, named)?)),
        Err(DirFault::NoMemory) => Err(AllocError),
        Err(fault) => Ok(Err(fault)),
    }
}

/// The fields of the member's value that stands next, None where it is no list of just two items, a text and an object.
fn read_node(
    alloc: Global,
    reader: &mut Reader<'_>,
    depth: usize,
    keys: Keys,
) -> Result<Option<Fields>, Stop>
    ensures ok { IfOk result (λ node. (d : Data)
        × (converted of_json (value depth reader.old) ≡ Some (d, reader.new)) × IsChildNode node d) }
    ensures shorter { OnOk result (length reader.new < length reader.old) }
    ensures err { result ≡ Err Stop.NotJson → converted of_json (value depth reader.old) ≡ None }
    ensures order { keys ≡ Keys.Any → result ≢ Err Stop.NotRising }
{
    let token = reader.next().ok_or(Stop::NotJson)?;
    if !opens_array(token) {
        pass_by(alloc, reader, token, depth, keys)?;
        return Ok(None);
    }
    if depth == 0 {
        return Err(Stop::NotJson);
    }
    read_pair(alloc, reader, depth - 1, keys)
}

/// The same of a list's items, behind its opening bracket.
fn read_pair(
    alloc: Global,
    reader: &mut Reader<'_>,
    depth: usize,
    keys: Keys,
) -> Result<Option<Fields>, Stop>
    ensures ok { IfOk result (λ node. (ds : Items)
        × (converted of_items (items (value depth) (length reader.old) reader.old)
        ≡ Some (ds, reader.new)) × IsChildNode node (array ds)) }
    ensures shorter { OnOk result (length reader.new < length reader.old) }
    ensures err { result ≡ Err Stop.NotJson
        → converted of_items (items (value depth) (length reader.old) reader.old) ≡ None }
    ensures order { keys ≡ Keys.Any → result ≢ Err Stop.NotRising }
{
    if reader.take_end_array() {
        return Ok(None);
    }
    let text = pass_by_kind(alloc, reader, depth, keys)?;
    if reader.take_end_array() {
        return Ok(None);
    }
    let fields = read_object(alloc, reader, depth, keys)?;
    if !reader.take_end_array() {
        let mut dropped = Vec::new(alloc);
        spell_items(alloc, reader, depth, keys, &mut dropped)?;
        return Ok(None);
    }
    if !text {
        return Ok(None);
    }
    Ok(fields)
}

/// Reads the value that stands next and drops it. Says whether it was a text.
fn pass_by_kind(
    alloc: Global,
    reader: &mut Reader<'_>,
    depth: usize,
    keys: Keys,
) -> Result<bool, Stop>
    ensures ok { IfOk result (λ text. (d : Data)
        × (converted of_json (value depth reader.old) ≡ Some (d, reader.new))
        × (text ≡ is_some (as_str d))) }
    ensures shorter { OnOk result (length reader.new < length reader.old) }
    ensures err { result ≡ Err Stop.NotJson → converted of_json (value depth reader.old) ≡ None }
    ensures order { keys ≡ Keys.Any → result ≢ Err Stop.NotRising }
{
    let token = reader.next().ok_or(Stop::NotJson)?;
    pass_by(alloc, reader, token, depth, keys)?;
    Ok(begins_text(token))
}

/// The fields of the object that stands next, None where it is another value.
fn read_object(
    alloc: Global,
    reader: &mut Reader<'_>,
    depth: usize,
    keys: Keys,
) -> Result<Option<Fields>, Stop>
    ensures ok { IfOk result (λ found. (d : Data)
        × (converted of_json (value depth reader.old) ≡ Some (d, reader.new)) × IsObject found d) }
    ensures shorter { OnOk result (length reader.new < length reader.old) }
    ensures err { result ≡ Err Stop.NotJson → converted of_json (value depth reader.old) ≡ None }
    ensures order { keys ≡ Keys.Any → result ≢ Err Stop.NotRising }
{
    let token = reader.next().ok_or(Stop::NotJson)?;
    if !opens_object(token) {
        pass_by(alloc, reader, token, depth, keys)?;
        return Ok(None);
    }
    if depth == 0 {
        return Err(Stop::NotJson);
    }
    let fields = gather_fields(alloc, reader, depth - 1, keys)?;
    Ok(Some(fields))
}

/// The fields of an object, behind its opening brace: of equal names the last.
fn gather_fields(
    alloc: Global,
    reader: &mut Reader<'_>,
    depth: usize,
    keys: Keys,
) -> Result<Fields, Stop>
    ensures ok { IfOk result (λ fields. (ms : Members)
        × (converted (λ j. of_members j no_members)
        (members (value depth) (length reader.old) reader.old) ≡ Some (ms, reader.new))
        × AreChildFields fields ms) }
    ensures shorter { OnOk result (length reader.new < length reader.old) }
    ensures err { result ≡ Err Stop.NotJson → converted (λ j. of_members j no_members)
        (members (value depth) (length reader.old) reader.old) ≡ None }
    ensures order { keys ≡ Keys.Any → result ≢ Err Stop.NotRising }
{
    let mut fields = Fields::none();
    'members: while let Some(name) = reader.next_key()? {
        let field = read_field(alloc, reader, depth, keys)?;
        fields.put(name, field);
    }
    Ok(fields)
}

/// The field that stands next.
fn read_field(
    alloc: Global,
    reader: &mut Reader<'_>,
    depth: usize,
    keys: Keys,
) -> Result<Field, Stop>
    ensures ok { IfOk result (λ field. (d : Data)
        × (converted of_json (value depth reader.old) ≡ Some (d, reader.new)) × IsField field d) }
    ensures shorter { OnOk result (length reader.new < length reader.old) }
    ensures err { result ≡ Err Stop.NotJson → converted of_json (value depth reader.old) ≡ None }
    ensures order { keys ≡ Keys.Any → result ≢ Err Stop.NotRising }
{
    let token = reader.next().ok_or(Stop::NotJson)?;
    match token {
        Token::Null => Ok(Field::Null),
        Token::String(text) => Ok(Field::Text(String::from_str(alloc, text)?)),
        Token::BeginObject => {
            let mut text = Vec::new(alloc);
            let extent = spell_token(alloc, reader, Token::BeginObject, depth, keys, &mut text)?;
            Ok(Field::Object(Spelled { text, extent }))
        }
        Token::Bool(_)
        | Token::Number(_)
        | Token::BeginArray
        | Token::EndObject
        | Token::EndArray
        | Token::Key(_)
        | Token::Bad => {
            pass_by(alloc, reader, token, depth, keys)?;
            Ok(Field::Other)
        }
    }
}

/// Reads the value that a token and those behind it are, and drops it.
fn pass_by(
    alloc: Global,
    reader: &mut Reader<'_>,
    token: Token<'_>,
    depth: usize,
    keys: Keys,
) -> Result<(), Stop>
    requires { token ≢ Token.Bad → IsPrintable (token_of token) }
    ensures ok { OnOk result ((d : Data)
        × (converted of_json (value depth (token_of token.entry ∷ reader.old))
        ≡ Some (d, reader.new))) }
    ensures shorter { OnOk result (length reader.new ≤ length reader.old) }
    ensures err { result ≡ Err Stop.NotJson
        → converted of_json (value depth (token_of token.entry ∷ reader.old)) ≡ None }
    ensures order { keys ≡ Keys.Any → result ≢ Err Stop.NotRising }
{
    let mut dropped = Vec::new(alloc);
    spell_token(alloc, reader, token, depth, keys, &mut dropped)?;
    Ok(())
}

/// Whether a token is a text.
fn begins_text(token: Token<'_>) -> bool
    ensures { result ≡ begins_text (token_of token.entry) }
{
    matches!(token, Token::String(_))
}

/// Whether a token opens an array.
pub(crate) fn opens_array(token: Token<'_>) -> bool
    ensures { result ≡ begins_array (token_of token.entry) }
{
    matches!(token, Token::BeginArray)
}
