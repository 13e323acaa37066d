//! Judging JSON whose tokens come one at a time: whether it is metadata. Nothing is written, and keys come in any order.
ghost use Rattle.std.specs.Prelude.{◌≡◌, ◌≢◌, ℕ, Bool, List, [], reverse, Some, Err, false, not, nat_lt, ◌&&◌, is_some, option_and_then, OnOk, IfOk};
ghost use Rattle.json.specs.Token.{Token as JsonToken};
ghost use Rattle.json.specs.Json.{Json};
ghost use Rattle.json.specs.Reads.{token_of};
ghost use Rattle.json_stack.specs.Machine.{Frame, StackState, failed, next_state};
ghost use Rattle.serde_json.specs.Data.{Data, Members, no_members, put, depth};
ghost use Rattle.serde_json.specs.Read.{of_json};
ghost use Rattle.serde_json.specs.Written.{has_float};
ghost use Rattle.json_spelling.specs.Metadata.{is_whole, if_metadata};
ghost use Rattle.json_spelling.specs.Sound.{MembersAreSound};
ghost use Rattle.json_spelling.specs.Spelled.{data_of};
ghost use Rattle.json_spelling.specs.Speller.{DataFrame, data_object, data_member, IsFrameData, awaits, with_value};
ghost use Rattle.json_spelling.specs.Judge.{IsNoted, IsJudgeAt, frame_with, with_opened, awaits_key, EndsValue, JudgesToken, BarsToken, HasJudged};

use crate::extent::MOST_LEVELS;
use crate::spelling::{READ_LEVELS, Stop, integer_in};
use crate::token_pieces::TakesTokens;
use json::Token;
use std::alloc::{AllocError, Global};
use std::collections::BTreeSet;

/// What is known of a JSON value, as far as its tokens came. A value in it is unfit where metadata can't have it there: a
/// number that is no whole one of 64 bits, or an array or object below 100 others; and so is an array or object with such
/// an item or such a last value of a key.
#[derive(Drop)]
pub(crate) struct Judge {
    /// What is open, the innermost last.
    opened: Vec<Bracket>,
    /// Whether the whole value is metadata, once it has ended.
    verdict: Option<bool>,
}

/// An array or object that is open.
#[derive(Drop)]
enum Bracket {
    /// An array, and whether an item in it is unfit.
    Array(bool),
    /// An object that awaits a key.
    Object(Noted),
    /// An object that awaits the value of the key that came last.
    Member(Noted),
}

/// What is kept of an open object's members.
#[derive(Drop)]
struct Noted {
    /// The keys whose last values are unfit.
    unfit: BTreeSet<String>,
    /// The key that came last. Its memory takes the next one.
    key: String,
}

impl Judge {
    /// Before the first token.
    pub(crate) fn new(alloc: Global) -> Judge
        ensures { HasJudged [] result }
    {
        Judge {
            opened: Vec::new(alloc),
            verdict: None,
        }
    }

    /// Whether the tokens that came are those of metadata.
    pub(crate) fn finish(self) -> bool
        ensures { (ts : List JsonToken) → HasJudged ts self
            → result ≡ is_some (option_and_then if_metadata (data_of ts)) }
    {
        self.verdict.unwrap_or(false)
    }

    /// With one token more, from wherever the machine stands.
    ///
    /// # Errors
    /// NotJson where no JSON goes on so.
    fn go_over(&mut self, alloc: Global, token: Token<'_>) -> Result<(), Stop>
        ensures ok { OnOk result (JudgesToken self.old (token_of token.entry) self.new) }
        ensures err { result ≡ Err Stop.NotJson → BarsToken self.old (token_of token.entry) }
        ensures order { result ≢ Err Stop.NotRising }
    {
        match token {
            Token::BeginArray => self.begin(Bracket::Array(false)),
            Token::BeginObject => self.begin(Bracket::Object(Noted::new(alloc))),
            Token::EndArray => self.end_array(alloc),
            Token::EndObject => self.end_object(alloc),
            Token::Key(name) => self.push_key(name),
            Token::Number(text) => self.push_number(alloc, text),
            Token::Null | Token::Bool(_) | Token::String(_) => self.push_scalar(alloc, true),
            Token::Bad => Err(Stop::NotJson),
        }
    }

    /// An array or object opens.
    fn begin(&mut self, bracket: Bracket) -> Result<(), Stop>
        ensures ok { OnOk result ((s : StackState) (frame : Frame) (f : DataFrame)
            → IsFrameData frame f → ((levels : ℕ) → IsNoted levels f bracket)
            → IsJudgeAt s self.old → IsJudgeAt (with_opened s frame) self.new) }
        ensures err { result ≡ Err Stop.NotJson → (s : StackState) (frame : Frame)
            → IsJudgeAt s self.old → with_opened s frame ≡ failed }
        ensures order { result ≢ Err Stop.NotRising }
    {
        if !self.awaits_value() || self.opened.len() >= READ_LEVELS {
            return Err(Stop::NotJson);
        }
        self.opened.push(bracket)?;
        Ok(())
    }

    /// An array closes.
    fn end_array(&mut self, alloc: Global) -> Result<(), Stop>
        ensures ok { OnOk result (JudgesToken self.old JsonToken.end_array self.new) }
        ensures err { result ≡ Err Stop.NotJson → BarsToken self.old JsonToken.end_array }
        ensures order { result ≢ Err Stop.NotRising }
    {
        let unfit = array_in(self.opened.pop())?;
        let fit = fits(!unfit, self.opened.len());
        self.end_value(alloc, false, fit)?;
        Ok(())
    }

    /// An object closes.
    fn end_object(&mut self, alloc: Global) -> Result<(), Stop>
        ensures ok { OnOk result (JudgesToken self.old JsonToken.end_object self.new) }
        ensures err { result ≡ Err Stop.NotJson → BarsToken self.old JsonToken.end_object }
        ensures order { result ≢ Err Stop.NotRising }
    {
        let noted = object_in(self.opened.pop())?;
        let fit = fits(noted.unfit.is_empty(), self.opened.len());
        self.end_value(alloc, true, fit)?;
        Ok(())
    }

    /// A key comes.
    fn push_key(&mut self, name: &str) -> Result<(), Stop>
        ensures ok { OnOk result (JudgesToken self.old (JsonToken.key name.now) self.new) }
        ensures err { result ≡ Err Stop.NotJson → BarsToken self.old (JsonToken.key name.now) }
        ensures order { result ≢ Err Stop.NotRising }
    {
        let mut noted = object_in(self.opened.pop())?;
        noted.key.clear();
        noted.key.push_str(name)?;
        self.opened.push(Bracket::Member(noted))?;
        Ok(())
    }

    /// A number comes.
    fn push_number(&mut self, alloc: Global, text: &str) -> Result<(), Stop>
        ensures ok { OnOk result (JudgesToken self.old (JsonToken.number text.now) self.new) }
        ensures err { result ≡ Err Stop.NotJson → BarsToken self.old (JsonToken.number text.now) }
        ensures order { result ≢ Err Stop.NotRising }
    {
        let whole = integer_in(text).ok_or(Stop::NotJson)?;
        self.push_scalar(alloc, whole.is_some())
    }

    /// A value comes that is one token.
    fn push_scalar(&mut self, alloc: Global, fit: bool) -> Result<(), Stop>
        ensures ok { OnOk result ((s : StackState) (j : Json) (d : Data) → of_json j ≡ Some d
            → depth d ≡ 0 → fit ≡ not (has_float d)
            → IsJudgeAt s self.old → IsJudgeAt (with_value s j) self.new) }
        ensures err { result ≡ Err Stop.NotJson → (s : StackState) (j : Json)
            → IsJudgeAt s self.old → with_value s j ≡ failed }
        ensures order { result ≢ Err Stop.NotRising }
    {
        if !self.awaits_value() {
            return Err(Stop::NotJson);
        }
        self.end_value(alloc, false, fit)?;
        Ok(())
    }

    /// Whether a value may come.
    fn awaits_value(&self) -> bool
        ensures { (s : StackState) → IsJudgeAt s self.now → result ≡ awaits s }
    {
        self.verdict.is_none() && !awaits_key(self.opened.as_slice())
    }

    /// A value has ended where it was awaited: an object, or not, and one that is fit, or not.
    fn end_value(&mut self, alloc: Global, object: bool, fit: bool) -> Result<(), AllocError>
        ensures { OnOk result (EndsValue self.old object fit self.new) }
    {
        match self.opened.pop() {
            None => self.verdict = Some(object & fit),
            Some(around) => self.opened.push(after_value(alloc, around, fit)?)?,
        }
        Ok(())
    }
}

impl TakesTokens for Judge {
    ghost took = { HasJudged };

    ghost wants_order = { ⊥ };

    fn push(&mut self, alloc: Global, token: Token<'_>) -> Result<(), Stop> {
        self.go_over(alloc, token)
    }
}

impl Noted {
    /// Of an object without members.
    fn new(alloc: Global) -> Noted
        ensures { (levels : ℕ) → IsNoted levels (data_object no_members) (Bracket.Object result) }
    {
        Noted {
            unfit: BTreeSet::new(alloc),
            key: String::new(alloc),
        }
    }

    /// With the value of the key that came last: the key is kept where that is unfit, and else no longer.
    fn with_value(self, alloc: Global, fit: bool) -> Result<Noted, AllocError>
        ensures { IfOk result (λ noted. (levels : ℕ) (ms : Members) (k : List ℕ) (d : Data)
            → MembersAreSound ms → fit ≡ is_whole d levels
            → IsNoted levels (data_member ms k) (Bracket.Member self)
            → IsNoted levels (data_object (put k d ms)) (Bracket.Object noted)) }
    {
        let Noted { mut unfit, key } = self;
        if fit {
            unfit.remove(key.as_str());
            return Ok(Noted { unfit, key });
        }
        unfit.insert(key)?;
        Ok(Noted {
            unfit,
            key: String::new(alloc),
        })
    }
}

/// Whether an object is innermost that awaits a key.
fn awaits_key(opened: &[Bracket]) -> bool
    ensures { result ≡ awaits_key (reverse opened.now) }
{
    matches!(opened.last(), Some(Bracket::Object(_)))
}

/// Whether an array or object that stands in so many others is fit: all that is in it is, and it isn't too deep.
fn fits(all_fit: bool, around: usize) -> bool
    ensures { result ≡ (all_fit && nat_lt around 100) }
{
    all_fit && around < MOST_LEVELS
}

/// Whether an item is unfit in the array that is innermost. NotJson where no array is.
fn array_in(innermost: Option<Bracket>) -> Result<bool, Stop>
    ensures ok { IfOk result (λ unfit. innermost ≡ Some (Bracket.Array unfit)) }
    ensures err { result ≡ Err Stop.NotJson → (unfit : Bool) → innermost ≢ Some (Bracket.Array unfit) }
    ensures order { result ≢ Err Stop.NotRising }
{
    match innermost {
        Some(Bracket::Array(unfit)) => Ok(unfit),
        _ => Err(Stop::NotJson),
    }
}

/// What is kept of the object that is innermost. NotJson where no object is, or where it awaits a value.
fn object_in(innermost: Option<Bracket>) -> Result<Noted, Stop>
    ensures ok { IfOk result (λ noted. innermost ≡ Some (Bracket.Object noted)) }
    ensures err { result ≡ Err Stop.NotJson → (noted : Noted) → innermost ≢ Some (Bracket.Object noted) }
    ensures order { result ≢ Err Stop.NotRising }
{
    match innermost {
        Some(Bracket::Object(noted)) => Ok(noted),
        _ => Err(Stop::NotJson),
    }
}

/// What is kept of an array or object once the value that it awaits has come.
fn after_value(alloc: Global, around: Bracket, fit: bool) -> Result<Bracket, AllocError>
    ensures { IfOk result (λ after. (levels : ℕ) (frame : Frame) (f : DataFrame) (d : Data)
        → IsFrameData frame f → fit ≡ is_whole d levels
        → IsNoted levels f around → IsNoted levels (frame_with f d) after) }
{
    match around {
        Bracket::Array(unfit) => Ok(Bracket::Array(unfit | !fit)),
        Bracket::Object(noted) => Ok(Bracket::Object(noted)),
        Bracket::Member(noted) => Ok(Bracket::Object(noted.with_value(alloc, fit)?)),
    }
}
