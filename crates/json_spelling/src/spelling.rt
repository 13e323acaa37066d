//! The one spelling of JSON, written while its tokens are read: no value of it is built.
ghost use Rattle.std.specs.Prelude.{◌≡◌, ◌≢◌, ◌<◌, ◌≤◌, ◌==◌, [], ◌∷◌, ◌++◌, slice_index, string_bytes, IsTrue, length, MatchOption, true, false, Err, None, Some, IfOk, OnOk, option_map};
ghost use Rattle.std.specs.Bool.{MatchBool};
ghost use Rattle.std.specs.Str.{IsUtf8};
ghost use Rattle.json.specs.Lex.{tokens};
ghost use Rattle.json.specs.Json.{value, items, members};
ghost use Rattle.json.specs.Print.{IsPrintable, quoted, token_text};
ghost use Rattle.json.specs.Run.{is_plain};
ghost use Rattle.std.specs.List.{list_all};
ghost use Rattle.json.specs.Reads.{token_of};
ghost use Rattle.serde_json.specs.Data.{Num, Data, Members, no_members};
ghost use Rattle.serde_json.specs.Find.{as_integer, is_float};
ghost use Rattle.serde_json.specs.Read.{number_of, number_from, float_of, of_json, of_items, of_members, converted};
ghost use Rattle.serde_json.specs.Written.{comma_if, compact_text, number_text};
ghost use Rattle.json_spelling.specs.Metadata.{if_metadata, is_metadata};
ghost use Rattle.json_spelling.specs.Sound.{IsSound};
ghost use Rattle.json_spelling.specs.Spelled.{IsExtent, IsSpelled, SpellsValue, SpellsItems, SpellsMembers, AreSpelled, SpellsMetadata, AreNoMetadata, begins_object, rises, spelled_text, entries_levels, entries_fractional};

use crate::extent::Extent;
use fast_float::Numeral;
use json::{Invalid, Reader, Scratch, Token, Writer};
use octets::Text;
use std::alloc::{AllocError, AllocFailed, Global};
use std::collections::BTreeMap;

/// Levels of arrays and objects that `serde_json` reads, at most.
pub const READ_LEVELS: usize = 127;

/// Why no spelling was made.
#[derive(Clone, Copy, Drop)]
pub enum Stop {
    /// The tokens are no JSON.
    NotJson,
    /// A key is not above the one before it, where keys have to rise.
    NotRising,
    /// Memory was refused.
    NoMemory,
}

/// How an object's members may come.
#[derive(Clone, Copy, Drop)]
pub enum Keys {
    /// Each key is above the one before it, so members are written as they come.
    Rising,
    /// In any order. They are kept until the object ends, of equal keys the last.
    Any,
}

impl From<AllocError> for Stop {
    ghost use Rattle.std.specs.Prelude.{◌≡◌};
    ghost use Rattle.json_spelling.specs.declared.spelling.Stop.TheVariants.{NoMemory};

    ghost from_gives = { λ _ stop. stop ≡ NoMemory };

    fn from(_: AllocError) -> Stop {
        Stop::NoMemory
    }
}

impl<T: Drop> From<AllocFailed<T>> for Stop {
    ghost use Rattle.std.specs.Prelude.{◌≡◌};
    ghost use Rattle.json_spelling.specs.declared.spelling.Stop.TheVariants.{NoMemory};

    ghost from_gives = { λ _ stop. stop ≡ NoMemory };

    fn from(_: AllocFailed<T>) -> Stop {
        Stop::NoMemory
    }
}

impl From<Invalid> for Stop {
    ghost use Rattle.std.specs.Prelude.{◌≡◌};
    ghost use Rattle.json_spelling.specs.declared.spelling.Stop.TheVariants.{NotJson};

    ghost from_gives = { λ _ stop. stop ≡ NotJson };

    fn from(_: Invalid) -> Stop {
        Stop::NotJson
    }
}

/// A value, spelled.
#[derive(Drop)]
pub struct Spelled {
    /// `serde_json`'s compact text, in which a number that isn't whole leaves nothing.
    pub text: Vec<u8>,
    /// Its extent.
    pub extent: Extent,
}

impl Spelled {
    /// Whether the value is metadata: only an object's spelling begins with a brace.
    pub(crate) fn is_metadata(&self) -> bool
        ensures { (d : Data) → IsSound d → IsSpelled self.now d → result ≡ is_metadata d }
    {
        self.extent.fits() && self.text.first() == Some(&b'{')
    }

    /// The one spelling of the metadata. None where the value is none.
    pub(crate) fn into_metadata(self) -> Option<Text>
        ensures { (d : Data) → IsSound d → IsSpelled self d
            → result ≡ option_map compact_text (if_metadata d) }
    {
        if !self.is_metadata() {
            return None;
        }
        match String::from_utf8(self.text) {
            Ok(text) => Some(Text::from_string(text)),
            Err(_) => None,
        }
    }
}

/// The one spelling of the metadata that a text is, None where it is none, with a guess of how keys come in it. Where
/// they rise in each object, it takes some twice the text's bytes, and else some 20 to 25 times at most. `Err` only where
/// memory is refused.
pub(crate) fn spell_text(
    alloc: Global,
    text: &str,
    guess: Keys,
) -> Result<Option<String>, AllocError>
    ensures { IfOk result (λ found. MatchOption found (AreNoMetadata (tokens text.now))
        (λ spelling. SpellsMetadata (tokens text.now) [] (string_bytes spelling))) }
{
    let mut scratch = Scratch::new(alloc);
    match spell_once(alloc, text, &mut scratch, guess) {
        Ok(found) => Ok(found),
        Err(Stop::NotRising) => match spell_once(alloc, text, &mut scratch, Keys::Any) {
            Ok(found) => Ok(found),
            Err(_) => Err(AllocError),
        },
        Err(_) => Err(AllocError),
    }
}

/// The same in one pass over the text, where the members of its objects come so.
fn spell_once(
    alloc: Global,
    text: &str,
    scratch: &mut Scratch,
    keys: Keys,
) -> Result<Option<String>, Stop>
    ensures ok { IfOk result (λ found. MatchOption found (AreNoMetadata (tokens text.now))
        (λ spelling. SpellsMetadata (tokens text.now) [] (string_bytes spelling))) }
    ensures json { result ≢ Err Stop.NotJson }
    ensures order { keys ≡ Keys.Any → result ≢ Err Stop.NotRising }
{
    let mut reader = Reader::new(text, scratch)?;
    let mut out = Vec::with_capacity(alloc, text.len())?;
    let fit = spell_metadata(alloc, &mut reader, keys, &mut out)?;
    if !fit {
        return Ok(None);
    }
    match String::from_utf8(out) {
        Ok(spelling) => Ok(Some(spelling)),
        Err(_) => Ok(None),
    }
}

/// Spells the metadata that the tokens are, and says whether they are some.
fn spell_metadata(
    alloc: Global,
    reader: &mut Reader<'_>,
    keys: Keys,
    out: &mut Vec<u8>,
) -> Result<bool, Stop>
    ensures ok { IfOk result
        (λ fit. MatchBool fit (SpellsMetadata reader.old out.old.items out.new.items)
        (AreNoMetadata reader.old)) }
    ensures json { result ≢ Err Stop.NotJson }
    ensures order { keys ≡ Keys.Any → result ≢ Err Stop.NotRising }
{
    let Some(token) = reader.next() else {
        return Ok(false);
    };
    if !opens_object(token) {
        return Ok(false);
    }
    match spell_members(alloc, reader, READ_LEVELS - 1, keys, out) {
        Ok(extent) => match reader.next() {
            None => Ok(extent.opened().fits()),
            Some(_) => Ok(false),
        },
        Err(Stop::NotJson) => Ok(false),
        Err(Stop::NotRising) => Err(Stop::NotRising),
        Err(Stop::NoMemory) => Err(Stop::NoMemory),
    }
}

/// Whether a token opens an object.
pub fn opens_object(token: Token<'_>) -> bool
    ensures { result ≡ begins_object (token_of token.entry) }
{
    matches!(token, Token::BeginObject)
}

/// Spells the value that the next tokens are, and gives its extent.
#[cycle(spell)]
fn spell_value(
    alloc: Global,
    reader: &mut Reader<'_>,
    depth: usize,
    keys: Keys,
    out: &mut Vec<u8>,
) -> Result<Extent, Stop>
    ensures ok { IfOk result
        (λ extent. SpellsValue depth reader.old reader.new out.old.items out.new.items extent) }
    ensures levels { IfOk result (λ extent. extent.levels ≤ depth) }
    ensures shorter { OnOk result (length reader.new < length reader.old) }
    ensures err { result ≡ Err Stop.NotJson → converted of_json (value depth reader.old) ≡ None }
    ensures order { keys ≡ Keys.Any → result ≢ Err Stop.NotRising }
{
    let token = reader.next().ok_or(Stop::NotJson)?;
    spell_token(alloc, reader, token, depth, keys, out)
}

/// Spells the value that a token and those behind it are, and gives its extent. The spelling is put behind what `out` has.
///
/// # Errors
/// NotJson where they are no value of so many levels of arrays and objects, NotRising where a key isn't above the one
/// before it in its object and keys have to rise.
#[cycle(spell)]
pub fn spell_token(
    alloc: Global,
    reader: &mut Reader<'_>,
    token: Token<'_>,
    depth: usize,
    keys: Keys,
    out: &mut Vec<u8>,
) -> Result<Extent, Stop>
    requires { token ≢ Token.Bad → IsPrintable (token_of token) }
    ensures ok { IfOk result (λ extent. SpellsValue depth (token_of token.entry ∷ reader.old)
        reader.new out.old.items out.new.items extent) }
    ensures levels { IfOk result (λ extent. extent.levels ≤ depth) }
    ensures shorter { OnOk result (length reader.new ≤ length reader.old) }
    ensures err { result ≡ Err Stop.NotJson
        → converted of_json (value depth (token_of token.entry ∷ reader.old)) ≡ None }
    ensures order { keys ≡ Keys.Any → result ≢ Err Stop.NotRising }
{
    match token {
        Token::Null => {
            put(alloc, out, Token::Null)?;
            Ok(Extent::flat())
        }
        Token::Bool(b) => {
            put(alloc, out, Token::Bool(b))?;
            Ok(Extent::flat())
        }
        Token::String(text) => {
            put(alloc, out, Token::String(text))?;
            Ok(Extent::flat())
        }
        Token::Number(text) => spell_number(text, out),
        Token::BeginArray => {
            if depth == 0 {
                return Err(Stop::NotJson);
            }
            let extent = spell_items(alloc, reader, depth - 1, keys, out)?;
            Ok(extent.opened())
        }
        Token::BeginObject => {
            if depth == 0 {
                return Err(Stop::NotJson);
            }
            let extent = spell_members(alloc, reader, depth - 1, keys, out)?;
            Ok(extent.opened())
        }
        Token::EndObject | Token::EndArray | Token::Key(_) | Token::Bad => Err(Stop::NotJson),
    }
}

/// Spells an array's items, with its brackets, where its opening bracket was read. The spelling is put behind what `out`
/// has.
///
/// # Errors
/// NotJson where no array of items with so many levels goes on so, NotRising where a key isn't above the one before it in
/// its object and keys have to rise.
#[cycle(spell)]
pub fn spell_items(
    alloc: Global,
    reader: &mut Reader<'_>,
    depth: usize,
    keys: Keys,
    out: &mut Vec<u8>,
) -> Result<Extent, Stop>
    ensures ok { IfOk result
        (λ extent. SpellsItems depth reader.old reader.new out.old.items out.new.items extent) }
    ensures levels { IfOk result (λ extent. extent.levels ≤ depth) }
    ensures shorter { OnOk result (length reader.new < length reader.old) }
    ensures err { result ≡ Err Stop.NotJson
        → converted of_items (items (value depth) (length reader.old) reader.old) ≡ None }
    ensures order { keys ≡ Keys.Any → result ≢ Err Stop.NotRising }
{
    out.push(b'[')?;
    let mut extent = Extent::flat();
    let mut later = false;
    'items: while !reader.take_end_array() {
        separate(out, later)?;
        later = true;
        let item = spell_value(alloc, reader, depth, keys, out)?;
        extent = extent.beside(item);
    }
    out.push(b']')?;
    Ok(extent)
}

/// Spells an object's members, with its braces.
#[cycle(spell)]
fn spell_members(
    alloc: Global,
    reader: &mut Reader<'_>,
    depth: usize,
    keys: Keys,
    out: &mut Vec<u8>,
) -> Result<Extent, Stop>
    ensures ok { IfOk result
        (λ extent. SpellsMembers depth reader.old reader.new out.old.items out.new.items extent) }
    ensures levels { IfOk result (λ extent. extent.levels ≤ depth) }
    ensures shorter { OnOk result (length reader.new < length reader.old) }
    ensures err { result ≡ Err Stop.NotJson → converted (λ j. of_members j no_members)
        (members (value depth) (length reader.old) reader.old) ≡ None }
    ensures order { keys ≡ Keys.Any → result ≢ Err Stop.NotRising }
{
    match keys {
        Keys::Rising => spell_rising(alloc, reader, depth, out),
        Keys::Any => {
            let found = gather_members(alloc, reader, depth)?;
            Ok(put_members(alloc, out, &found)?)
        }
    }
}

/// Spells an object's members as they come, with its braces. Their keys have to rise.
#[cycle(spell)]
fn spell_rising(
    alloc: Global,
    reader: &mut Reader<'_>,
    depth: usize,
    out: &mut Vec<u8>,
) -> Result<Extent, Stop>
    ensures ok { IfOk result
        (λ extent. SpellsMembers depth reader.old reader.new out.old.items out.new.items extent) }
    ensures levels { IfOk result (λ extent. extent.levels ≤ depth) }
    ensures shorter { OnOk result (length reader.new < length reader.old) }
    ensures err { result ≡ Err Stop.NotJson → converted (λ j. of_members j no_members)
        (members (value depth) (length reader.old) reader.old) ≡ None }
{
    out.push(b'{')?;
    let mut extent = Extent::flat();
    let mut last: Option<&str> = None;
    'members: while let Some(name) = reader.next_key()? {
        if !rises(last, name) {
            return Err(Stop::NotRising);
        }
        separate(out, last.is_some())?;
        put(alloc, out, Token::Key(name))?;
        let member = spell_value(alloc, reader, depth, Keys::Rising, out)?;
        extent = extent.beside(member);
        last = Some(name);
    }
    out.push(b'}')?;
    Ok(extent)
}

/// An object's members, spelled, of equal keys the last.
#[cycle(spell)]
fn gather_members(
    alloc: Global,
    reader: &mut Reader<'_>,
    depth: usize,
) -> Result<BTreeMap<String, Spelled>, Stop>
    ensures ok { IfOk result (λ found. (ms : Members)
        × (converted (λ j. of_members j no_members)
        (members (value depth) (length reader.old) reader.old) ≡ Some (ms, reader.new))
        × AreSpelled found.entries ms) }
    ensures levels { IfOk result (λ found. entries_levels found.entries ≤ depth) }
    ensures shorter { OnOk result (length reader.new < length reader.old) }
    ensures err { result ≡ Err Stop.NotJson → converted (λ j. of_members j no_members)
        (members (value depth) (length reader.old) reader.old) ≡ None }
    ensures order { result ≢ Err Stop.NotRising }
{
    let mut found = BTreeMap::new(alloc);
    'members: while let Some(name) = reader.next_key()? {
        let key = String::from_str(alloc, name)?;
        let mut text = Vec::new(alloc);
        let extent = spell_value(alloc, reader, depth, Keys::Any, &mut text)?;
        drop(found.insert(key, Spelled { text, extent })?);
    }
    Ok(found)
}

/// Whether a key is above the last one, where there is one.
pub(crate) fn rises(last: Option<&str>, key: &str) -> bool
    ensures { result ≡ rises (option_map (λ name. name.now) last.entry) key.now }
{
    match last {
        None => true,
        Some(name) => name.as_bytes().cmp(&key.as_bytes()).is_lt(),
    }
}

/// Writes the spelling of members, with the braces, and gives the extent of their values, beside each other.
fn put_members(
    alloc: Global,
    out: &mut Vec<u8>,
    members: &BTreeMap<String, Spelled>,
) -> Result<Extent, AllocError>
    ensures text { OnOk result
        (out.new.items ≡ out.old.items ++ 123 ∷ spelled_text false members.now.entries) }
    ensures extent { IfOk result (λ extent. IsExtent extent
        (entries_levels members.now.entries) (entries_fractional members.now.entries)) }
{
    out.push(b'{')?;
    let mut extent = Extent::flat();
    let mut later = false;
    for (name, member) in members.iter() {
        separate(out, later)?;
        later = true;
        put(alloc, out, Token::Key(name.as_str()))?;
        out.extend_from_slice(member.text.as_slice())?;
        extent = extent.beside(member.extent);
    }
    out.push(b'}')?;
    Ok(extent)
}

/// Writes a comma, where something stands before.
pub(crate) fn separate(out: &mut Vec<u8>, later: bool) -> Result<(), AllocError>
    ensures { OnOk result (out.new.items ≡ out.old.items ++ comma_if later) }
{
    if later {
        out.push(b',')?;
    }
    Ok(())
}

/// Writes one token. A text that has nothing to escape is copied whole.
pub(crate) fn put(alloc: Global, out: &mut Vec<u8>, token: Token<'_>) -> Result<(), AllocError>
    requires { IsPrintable (token_of token) }
    ensures written { OnOk result
        (out.new.items ≡ out.old.items ++ token_text (token_of token.entry)) }
    ensures utf8 { OnOk result (IsUtf8 (token_text (token_of token.entry))) }
{
    match token {
        Token::Key(name) => put_key(alloc, out, name),
        Token::String(text) => put_string(alloc, out, text),
        Token::Null => Ok(out.extend_from_slice(b"null")?),
        Token::Bool(false) => Ok(out.extend_from_slice(b"false")?),
        Token::Bool(true) => Ok(out.extend_from_slice(b"true")?),
        other => write(alloc, out, other),
    }
}

/// Writes a key, and the colon behind it.
fn put_key(alloc: Global, out: &mut Vec<u8>, name: &str) -> Result<(), AllocError>
    ensures written { OnOk result (out.new.items ≡ out.old.items ++ (quoted name.now ++ 58 ∷ [])) }
    ensures utf8 { OnOk result (IsUtf8 (quoted name.now ++ 58 ∷ [])) }
{
    if !is_plain(name.as_bytes()) {
        return write(alloc, out, Token::Key(name));
    }
    out.push(b'"')?;
    out.extend_from_slice(name.as_bytes())?;
    out.extend_from_slice(b"\":")?;
    Ok(())
}

/// Writes a text.
fn put_string(alloc: Global, out: &mut Vec<u8>, text: &str) -> Result<(), AllocError>
    ensures written { OnOk result (out.new.items ≡ out.old.items ++ quoted text.now) }
    ensures utf8 { OnOk result (IsUtf8 (quoted text.now)) }
{
    if !is_plain(text.as_bytes()) {
        return write(alloc, out, Token::String(text));
    }
    out.push(b'"')?;
    out.extend_from_slice(text.as_bytes())?;
    out.push(b'"')?;
    Ok(())
}

/// Whether each byte stands for itself in a JSON string.
fn is_plain(text: &[u8]) -> bool
    ensures { result ≡ list_all is_plain text.now }
{
    text.iter()
        .all(|byte| *byte >= 32 && *byte != b'"' && *byte != b'\\')
}

/// Writes one token, by `json`'s writer into a buffer of its own: before each token it clears as much memory as it has
/// written, up to 16 KiB.
fn write(alloc: Global, out: &mut Vec<u8>, token: Token<'_>) -> Result<(), AllocError>
    requires { IsPrintable (token_of token) }
    ensures written { OnOk result
        (out.new.items ≡ out.old.items ++ token_text (token_of token.entry)) }
    ensures utf8 { OnOk result (IsUtf8 (token_text (token_of token.entry))) }
{
    let mut writer = Writer::new(Vec::new(alloc));
    writer.token(token)?;
    out.extend_from_slice(writer.into_inner().as_slice())?;
    Ok(())
}

/// Writes a number where it is whole, and gives its extent.
pub(crate) fn spell_number(text: &str, out: &mut Vec<u8>) -> Result<Extent, Stop>
    ensures ok { IfOk result (λ extent. (n : Num) × (number_of text.now ≡ Some n)
        × (out.new.items ≡ out.old.items ++ number_text n) × IsExtent extent 0 (is_float n)
        × IsUtf8 (number_text n)) }
    ensures levels { IfOk result (λ extent. extent.levels ≡ 0) }
    ensures err { result ≡ Err Stop.NotJson → number_of text.now ≡ None }
    ensures order { result ≢ Err Stop.NotRising }
{
    match integer_in(text) {
        None => Err(Stop::NotJson),
        Some(None) => Ok(Extent {
            levels: 0,
            fractional: true,
        }),
        Some(Some(n)) => {
            let mut buffer = itoa::Buffer::new();
            out.extend_from_slice(buffer.format(n).as_bytes())?;
            Ok(Extent::flat())
        }
    }
}

/// The whole number of 64 bits that a token writes, None within for another number; None where `serde_json` has no
/// such number.
pub(crate) fn integer_in(text: &str) -> Option<Option<i128>>
    ensures { result ≡ option_map as_integer (number_of text.now) }
{
    let bytes = text.as_bytes();
    if is_negative(bytes) {
        negative_in(&Numeral::scan(&bytes[1..]))
    } else {
        unsigned_in(&Numeral::scan(bytes))
    }
}

/// Whether a number's text begins with a minus.
fn is_negative(text: &[u8]) -> bool
    ensures value { result ≡ (slice_index text.now 0 == 45) }
    ensures some { IsTrue result → 0 < length text.now }
{
    !text.is_empty() && text[0] == b'-'
}

/// The same of a number without a sign.
fn unsigned_in(numeral: &Numeral<'_>) -> Option<Option<i128>>
    ensures { result ≡ option_map as_integer (number_from false numeral.now) }
{
    match numeral.to_u64() {
        Some(n) => Some(Some(n as i128)),
        None => fraction_in(false, numeral),
    }
}

/// The same of a number behind a minus.
fn negative_in(numeral: &Numeral<'_>) -> Option<Option<i128>>
    ensures { result ≡ option_map as_integer (number_from true numeral.now) }
{
    if let Some(n) = numeral.to_i64(true) {
        if n < 0 {
            return Some(Some(n as i128));
        }
    }
    fraction_in(true, numeral)
}

/// The same of a number that is no whole one of 64 bits.
fn fraction_in(negative: bool, numeral: &Numeral<'_>) -> Option<Option<i128>>
    ensures { result ≡ option_map as_integer (float_of negative numeral.now) }
{
    if numeral.to_float::<f64>(negative).is_finite() {
        Some(None)
    } else {
        None
    }
}
