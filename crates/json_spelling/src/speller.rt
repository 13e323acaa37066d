//! The one spelling of JSON whose keys rise, written while its tokens come one at a time.
ghost use Rattle.std.specs.Prelude.{◌≡◌, ◌≢◌, ◌+◌, ◌<◌, ◌≤◌, List, [], ⊤, None, Some, Err, false, MatchOption, MatchResult, OnOk, IfOk, reverse, option_map, option_and_then};
ghost use Rattle.json.specs.Token.{Token as JsonToken};
ghost use Rattle.json.specs.Json.{Json};
ghost use Rattle.json.specs.Print.{IsPrintable};
ghost use Rattle.json.specs.Reads.{token_of};
ghost use Rattle.json_stack.specs.Machine.{StackState, start_state};
ghost use Rattle.serde_json.specs.Data.{Data};
ghost use Rattle.serde_json.specs.Read.{of_json};
ghost use Rattle.serde_json.specs.Written.{compact_text};
ghost use Rattle.json_spelling.specs.Metadata.{if_metadata};
ghost use Rattle.json_spelling.specs.Spelled.{IsExtent, data_of, IsSpelled};
ghost use Rattle.json_spelling.specs.Speller.{FollowsMachine, GoesOver, RefusesToken, IsBeforeValue, IsBehindValue, IsPlainValue, awaits, with_value, value_awaited, opened_after, is_array, is_object, IsEnded, IsUnended, HasSpelled};

use crate::extent::Extent;
use crate::spelling::{Spelled, Stop, put, rises, separate, spell_number};
use crate::token_pieces::TakesTokens;
use json::Token;
use octets::Text;
use std::alloc::{AllocError, Global};

/// The spelling of a JSON value, as far as its tokens came.
#[derive(Drop)]
pub struct Speller {
    /// What is written.
    out: Vec<u8>,
    /// What is open, the innermost last.
    opened: Vec<Opened>,
    /// Whether the whole value has ended.
    ended: bool,
    /// The extent of what was written.
    extent: Extent,
    /// How many levels of arrays and objects it may have.
    levels: usize,
}

/// An array or object that is open.
#[derive(Drop)]
pub(crate) enum Opened {
    /// An array, and whether an item stands in it.
    Array(bool),
    /// An object that awaits a key, and the last key in it.
    Object(Option<String>),
    /// An object that awaits the value of this key.
    Member(String),
}

impl Speller {
    /// Before the first token of a value with at most so many levels of arrays and objects.
    pub fn within(alloc: Global, levels: usize) -> Speller
        ensures { FollowsMachine (start_state levels) result }
    {
        Speller {
            out: Vec::new(alloc),
            opened: Vec::new(alloc),
            ended: false,
            extent: Extent::flat(),
            levels,
        }
    }

    /// With one token more, from wherever the machine stands. NotRising where a key isn't above the one before it in its
    /// object.
    ///
    /// # Errors
    /// NotJson where no JSON goes on so.
    pub fn go_over(&mut self, alloc: Global, token: Token<'_>) -> Result<(), Stop>
        requires { token ≢ Token.Bad → IsPrintable (token_of token) }
        ensures ok { OnOk result (GoesOver self.old (token_of token.entry) self.new) }
        ensures err { result ≡ Err Stop.NotJson → RefusesToken self.old (token_of token.entry) }
    {
        match token {
            Token::BeginArray => self.begin_array(),
            Token::BeginObject => self.begin_object(),
            Token::EndArray => self.end_array(),
            Token::EndObject => self.end_object(),
            Token::Key(name) => self.push_key(alloc, name),
            Token::Number(text) => self.push_number(text),
            Token::Null | Token::Bool(_) | Token::String(_) => self.push_plain(alloc, token),
            Token::Bad => Err(Stop::NotJson),
        }
    }

    /// An array opens.
    fn begin_array(&mut self) -> Result<(), Stop>
        ensures ok { OnOk result (GoesOver self.old JsonToken.begin_array self.new) }
        ensures err { result ≡ Err Stop.NotJson → RefusesToken self.old JsonToken.begin_array }
    {
        self.begin_value()?;
        let level = level_of(self.opened.len(), self.levels)?;
        self.extent = self.extent.beside(level);
        self.out.push(b'[')?;
        self.opened.push(Opened::Array(false))?;
        Ok(())
    }

    /// An object opens.
    fn begin_object(&mut self) -> Result<(), Stop>
        ensures ok { OnOk result (GoesOver self.old JsonToken.begin_object self.new) }
        ensures err { result ≡ Err Stop.NotJson → RefusesToken self.old JsonToken.begin_object }
    {
        self.begin_value()?;
        let level = level_of(self.opened.len(), self.levels)?;
        self.extent = self.extent.beside(level);
        self.out.push(b'{')?;
        self.opened.push(Opened::Object(None))?;
        Ok(())
    }

    /// An array closes.
    fn end_array(&mut self) -> Result<(), Stop>
        ensures ok { OnOk result (GoesOver self.old JsonToken.end_array self.new) }
        ensures err { result ≡ Err Stop.NotJson → RefusesToken self.old JsonToken.end_array }
    {
        array_in(self.opened.pop())?;
        self.out.push(b']')?;
        self.end_value()?;
        Ok(())
    }

    /// An object closes.
    fn end_object(&mut self) -> Result<(), Stop>
        ensures ok { OnOk result (GoesOver self.old JsonToken.end_object self.new) }
        ensures err { result ≡ Err Stop.NotJson → RefusesToken self.old JsonToken.end_object }
    {
        drop(object_in(self.opened.pop())?);
        self.out.push(b'}')?;
        self.end_value()?;
        Ok(())
    }

    /// A key comes.
    fn push_key(&mut self, alloc: Global, name: &str) -> Result<(), Stop>
        ensures ok { OnOk result (GoesOver self.old (JsonToken.key name.now) self.new) }
        ensures err { result ≡ Err Stop.NotJson → RefusesToken self.old (JsonToken.key name.now) }
    {
        let last = object_in(self.opened.pop())?;
        if !rises(last.as_deref(), name) {
            return Err(Stop::NotRising);
        }
        separate(&mut self.out, last.is_some())?;
        put(alloc, &mut self.out, Token::Key(name))?;
        let key = String::from_str(alloc, name)?;
        self.opened.push(Opened::Member(key))?;
        Ok(())
    }

    /// A number comes.
    fn push_number(&mut self, text: &str) -> Result<(), Stop>
        ensures ok { OnOk result (GoesOver self.old (JsonToken.number text.now) self.new) }
        ensures err { result ≡ Err Stop.NotJson → RefusesToken self.old (JsonToken.number text.now) }
    {
        self.begin_value()?;
        let extent = spell_number(text, &mut self.out)?;
        self.extent = self.extent.beside(extent);
        self.end_value()?;
        Ok(())
    }

    /// A value comes that is one token and no number.
    fn push_plain(&mut self, alloc: Global, token: Token<'_>) -> Result<(), Stop>
        requires printable { IsPrintable (token_of token) }
        requires plain { IsPlainValue (token_of token) }
        ensures ok { OnOk result (GoesOver self.old (token_of token.entry) self.new) }
        ensures err { result ≡ Err Stop.NotJson → RefusesToken self.old (token_of token.entry) }
    {
        self.begin_value()?;
        put(alloc, &mut self.out, token)?;
        self.end_value()?;
        Ok(())
    }

    /// Writes the comma before a value.
    fn begin_value(&mut self) -> Result<(), Stop>
        ensures ok { OnOk result ((s : StackState) → FollowsMachine s self.old → IsBeforeValue s self.new) }
        ensures err { result ≡ Err Stop.NotJson → (s : StackState) → FollowsMachine s self.old → awaits s ≡ false }
    {
        if self.ended {
            return Err(Stop::NotJson);
        }
        let later = awaited(self.opened.as_slice()).ok_or(Stop::NotJson)?;
        separate(&mut self.out, later)?;
        Ok(())
    }

    /// Behind a value: it is an item or a member's value, or the whole.
    fn end_value(&mut self) -> Result<(), AllocError>
        ensures { OnOk result ((s : StackState) (j : Json) (d : Data) → of_json j ≡ Some d
            → IsBehindValue s d self.old → FollowsMachine (with_value s j) self.new) }
    {
        match self.opened.pop() {
            None => self.ended = true,
            Some(around) => self.opened.push(after_value(around))?,
        }
        Ok(())
    }

    /// The value's spelling where it has ended.
    ///
    /// # Errors
    /// The speller, as it was, where the value has not ended.
    pub fn spelled(self) -> Result<Spelled, Speller>
        ensures { (s : StackState) → FollowsMachine s self → MatchResult result (IsEnded s) (IsUnended s self) }
    {
        if self.ended {
            let Speller { out, extent, .. } = self;
            return Ok(Spelled { text: out, extent });
        }
        Err(self)
    }
}

impl Speller {
    /// The one spelling of the metadata that came. None where the value has not ended, or is none.
    pub(crate) fn into_metadata(self) -> Option<Text>
        ensures { (ts : List JsonToken) → HasSpelled ts self
            → result ≡ option_map compact_text (option_and_then if_metadata (data_of ts)) }
    {
        match self.spelled() {
            Ok(spelled) => spelled.into_metadata(),
            Err(_) => None,
        }
    }
}

impl TakesTokens for Speller {
    ghost took = { HasSpelled };

    ghost wants_order = { ⊤ };

    fn push(&mut self, alloc: Global, token: Token<'_>) -> Result<(), Stop> {
        self.go_over(alloc, token)
    }
}

/// The extent of an array or object inside so many, with nothing in it. NotJson where it would be deeper than so many levels.
fn level_of(around: usize, levels: usize) -> Result<Extent, Stop>
    ensures ok { IfOk result (λ extent. (around < levels) × IsExtent extent (around + 1) false) }
    ensures err { result ≡ Err Stop.NotJson → levels ≤ around }
{
    if around >= levels {
        return Err(Stop::NotJson);
    }
    Ok(Extent {
        levels: around + 1,
        fractional: false,
    })
}

/// Whether something stands in the array that is innermost. NotJson where no array is.
fn array_in(innermost: Option<Opened>) -> Result<bool, Stop>
    ensures ok { IfOk result (λ later. innermost ≡ Some (Opened.Array later)) }
    ensures err { result ≡ Err Stop.NotJson → is_array innermost ≡ false }
{
    match innermost {
        Some(Opened::Array(later)) => Ok(later),
        _ => Err(Stop::NotJson),
    }
}

/// The last key of the object that is innermost. NotJson where no object is, or where it awaits a value.
fn object_in(innermost: Option<Opened>) -> Result<Option<String>, Stop>
    ensures ok { IfOk result (λ last. innermost ≡ Some (Opened.Object last)) }
    ensures err { result ≡ Err Stop.NotJson → is_object innermost ≡ false }
{
    match innermost {
        Some(Opened::Object(last)) => Ok(last),
        _ => Err(Stop::NotJson),
    }
}

/// Whether a comma comes before the value that is awaited, None where none is.
fn awaited(opened: &[Opened]) -> Option<bool>
    ensures { result ≡ value_awaited (reverse opened.now) }
{
    match opened.last() {
        None | Some(Opened::Member(_)) => Some(false),
        Some(Opened::Array(later)) => Some(*later),
        Some(Opened::Object(_)) => None,
    }
}

/// What is open once the value that it awaits has come.
fn after_value(around: Opened) -> Opened
    ensures { result ≡ opened_after around }
{
    match around {
        Opened::Array(_) => Opened::Array(true),
        Opened::Object(last) => Opened::Object(last),
        Opened::Member(key) => Opened::Object(Some(key)),
    }
}
