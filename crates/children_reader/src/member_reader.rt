//! Reads the members of children JSON whose tokens come one at a time: what is made of a member is known when its value ends.
ghost use Rattle.std.specs.Prelude.{◌≡◌, ◌≢◌, ⊤, ℕ, List, [], ◌∷◌, None, Some, Err, true, MatchOption, MatchResult, IfOk, OnOk};
ghost use Rattle.json.specs.Token.{Token as JsonToken};
ghost use Rattle.json.specs.Json.{Json};
ghost use Rattle.json.specs.Print.{IsPrintable};
ghost use Rattle.json.specs.Reads.{token_of};
ghost use Rattle.json_stack.specs.Machine.{Frame, StackState, failed, value_ended, state_within, next_state, start_state, whole_value};
ghost use Rattle.serde_json.specs.Data.{Data, Items, array};
ghost use Rattle.serde_json.specs.Read.{of_json, max_depth};
ghost use Rattle.children_reader.specs.Collected.{AreMembersRead};
ghost use Rattle.children_reader.specs.Kept.{IsField, IsChildNode, Outcome};
ghost use Rattle.json_spelling.specs.Speller.{items_with};
ghost use Rattle.children_reader.specs.MemberReader.{NoneAfter, opens, IsOpen, IsEndedField, IsStillOpen, IsOpenOrEnded, IsBegunValue, AreListed, FitsListed, IsStage, Fits, FitsFirst, ends_array, is_one_text, object_has_ended, IsOn, StandsAt, IsReading};

use crate::child::MemberOutcome;
use crate::fields::{Field, Fields};
use crate::members::{made_of, opens_array};
use dir_codec::DirFault;
use json::Token;
use json_spelling::{READ_LEVELS, Speller, Stop, TakesTokens, opens_object};
use std::alloc::Global;
use std::mem;

/// What is made of the members of an object, as far as their tokens came.
pub(crate) struct MemberReader {
    /// What is made of the members that have ended.
    outcomes: Vec<(String, MemberOutcome)>,
    /// What is open.
    stage: Stage,
    /// The array or object that is under way there, and that is spelled or passed by.
    value: Option<UnderWay>,
}

// Its own, so that what owns one calls it: a derived drop is spelled out wherever a value may be dropped.
impl Drop for MemberReader {
    fn drop(self) {
        let MemberReader {
            outcomes: _,
            stage: _,
            value: _,
        } = self;
    }
}

/// What is open.
#[derive(Drop)]
pub(crate) enum Stage {
    /// The object, which awaits a key or its end.
    Members,
    /// The object, which awaits the value of this key.
    Member(String),
    /// The array that is this value, which awaits an item or its end.
    Pair(String, Listed),
    /// The object that is the second item, which awaits a key or its end.
    Fields(String, Fields),
    /// That object, which awaits the value of the last key.
    Field(String, Fields, String),
    /// Nothing: the object has ended.
    Ended,
}

/// What is known of the items of an array.
#[derive(Drop)]
pub(crate) enum Listed {
    /// There is none.
    Nothing,
    /// There is one, a text.
    Text,
    /// There are two, a text and the object that has these fields.
    Pair(Fields),
    /// No pair of a text and an object comes of them.
    Other,
}

/// An array or object that is spelled, and has not ended.
pub(crate) struct UnderWay {
    /// Whether it is an object.
    object: bool,
    /// Its spelling so far.
    speller: Speller,
}

// Its own, so that what owns one calls it: a derived drop is spelled out wherever a value may be dropped.
impl Drop for UnderWay {
    fn drop(self) {
        let UnderWay {
            object: _,
            speller: _,
        } = self;
    }
}

/// What begins with a token.
#[derive(Drop)]
pub(crate) enum Begun {
    /// A value that is this one token.
    Scalar(Field),
    /// An array or object.
    Open(UnderWay),
}

impl MemberReader {
    /// Behind the brace that opens the object.
    pub(crate) fn new(alloc: Global) -> MemberReader
        ensures { IsReading (JsonToken.begin_object ∷ []) result }
    {
        MemberReader {
            outcomes: Vec::new(alloc),
            stage: Stage::Members,
            value: None,
        }
    }

    /// With one token more, from wherever the machine stands. NotRising where a key isn't above the one before it in an object
    /// that is a field's value, or that is passed by.
    ///
    /// # Errors
    /// NotJson where no JSON goes on so.
    fn go_over(&mut self, alloc: Global, token: Token<'_>) -> Result<(), Stop>
        requires { token ≢ Token.Bad → IsPrintable (token_of token) }
        ensures ok { OnOk result ((s : StackState) → StandsAt s self.old
            → StandsAt (next_state s (token_of token.entry)) self.new) }
        ensures err { result ≡ Err Stop.NotJson → (s : StackState) → StandsAt s self.old
            → NoneAfter (next_state s (token_of token.entry)) }
    {
        match self.value.take() {
            Some(value) => self.go_inside(alloc, value, token),
            None => {
                let stage = mem::replace(&mut self.stage, Stage::Ended);
                let (stage, value) = go_outside(alloc, &mut self.outcomes, stage, token)?;
                self.stage = stage;
                self.value = value;
                Ok(())
            }
        }
    }

    /// The same where a value is under way.
    fn go_inside(&mut self, alloc: Global, value: UnderWay, token: Token<'_>) -> Result<(), Stop>
        requires printable { token ≢ Token.Bad → IsPrintable (token_of token) }
        requires taken { self.old.value ≡ None }
        ensures ok { OnOk result ((s : StackState)
            → IsOn s self.old.outcomes.items self.old.stage (Some value)
            → StandsAt (next_state s (token_of token.entry)) self.new) }
        ensures err { result ≡ Err Stop.NotJson → (s : StackState)
            → IsOn s self.old.outcomes.items self.old.stage (Some value)
            → NoneAfter (next_state s (token_of token.entry)) }
    {
        match value.go_over(alloc, token)?.ended() {
            Err(value) => {
                self.value = Some(value);
                Ok(())
            }
            Ok(field) => {
                let stage = mem::replace(&mut self.stage, Stage::Ended);
                self.stage = stage_after(alloc, &mut self.outcomes, stage, field)?;
                Ok(())
            }
        }
    }

    /// What is made of each member, in the order of the text. None where the object has not ended.
    pub(crate) fn finish(self) -> Option<Vec<(String, MemberOutcome)>>
        ensures { (ts : List JsonToken) → IsReading ts self → MatchOption result
            (whole_value max_depth ts ≡ None) (λ outcomes. AreMembersRead outcomes.items ts) }
    {
        let MemberReader {
            outcomes,
            stage,
            value: _,
        } = self;
        if object_has_ended(&stage) {
            Some(outcomes)
        } else {
            None
        }
    }
}

impl TakesTokens for MemberReader {
    ghost took = { IsReading };

    ghost wants_order = { ⊤ };

    fn push(&mut self, alloc: Global, token: Token<'_>) -> Result<(), Stop> {
        self.go_over(alloc, token)
    }
}

impl UnderWay {
    /// The array or object that a token opens.
    fn begin(alloc: Global, token: Token<'_>, levels: usize) -> Result<UnderWay, Stop>
        requires printable { token ≢ Token.Bad → IsPrintable (token_of token) }
        requires opens { opens (token_of token) ≡ true }
        ensures ok { IfOk result (λ value. IsBegunValue levels (token_of token.entry) (Begun.Open value)) }
        ensures err { result ≡ Err Stop.NotJson
            → NoneAfter (next_state (start_state levels) (token_of token.entry)) }
    {
        let mut speller = Speller::within(alloc, levels);
        speller.go_over(alloc, token)?;
        Ok(UnderWay {
            object: opens_object(token),
            speller,
        })
    }

    /// With one token more.
    fn go_over(self, alloc: Global, token: Token<'_>) -> Result<UnderWay, Stop>
        requires { token ≢ Token.Bad → IsPrintable (token_of token) }
        ensures ok { IfOk result (λ next. (levels : ℕ) (s : StackState) → IsOpen levels s self
            → IsOpenOrEnded levels (next_state s (token_of token.entry)) next) }
        ensures kind { IfOk result (λ next. next.object ≡ self.object) }
        ensures err { result ≡ Err Stop.NotJson → (levels : ℕ) (s : StackState)
            → IsOpen levels s self → NoneAfter (next_state s (token_of token.entry)) }
    {
        let UnderWay {
            object,
            mut speller,
        } = self;
        speller.go_over(alloc, token)?;
        Ok(UnderWay { object, speller })
    }

    /// The value that it is, where it has ended, else itself.
    fn ended(self) -> Result<Field, UnderWay>
        ensures { (levels : ℕ) (s : StackState) → IsOpenOrEnded levels s self
            → MatchResult result (IsEndedField s self) (IsStillOpen levels s self) }
    {
        let UnderWay { object, speller } = self;
        match speller.spelled() {
            Ok(spelled) => {
                if object {
                    Ok(Field::Object(spelled))
                } else {
                    Ok(Field::Other)
                }
            }
            Err(speller) => Err(UnderWay { object, speller }),
        }
    }
}

/// What begins with a token, where a value is awaited.
fn begin(alloc: Global, token: Token<'_>, levels: usize) -> Result<Begun, Stop>
    requires { token ≢ Token.Bad → IsPrintable (token_of token) }
    ensures ok { IfOk result (IsBegunValue levels (token_of token.entry)) }
    ensures err { result ≡ Err Stop.NotJson
        → NoneAfter (next_state (start_state levels) (token_of token.entry)) }
{
    match token {
        Token::Null => Ok(Begun::Scalar(Field::Null)),
        Token::Bool(_) => Ok(Begun::Scalar(Field::Other)),
        Token::String(text) => Ok(Begun::Scalar(Field::Text(String::from_str(alloc, text)?))),
        Token::Number(_) => {
            Speller::within(alloc, levels).go_over(alloc, token)?;
            Ok(Begun::Scalar(Field::Other))
        }
        Token::BeginArray | Token::BeginObject => {
            Ok(Begun::Open(UnderWay::begin(alloc, token, levels)?))
        }
        Token::EndArray | Token::EndObject | Token::Key(_) | Token::Bad => Err(Stop::NotJson),
    }
}

/// The stage behind a value that it awaited.
fn stage_after(
    alloc: Global,
    outcomes: &mut Vec<(String, MemberOutcome)>,
    stage: Stage,
    field: Field,
) -> Result<Stage, Stop>
    ensures ok { IfOk result (λ next. (room : ℕ) (frames : List Frame) (j : Json) (d : Data)
        → IsStage stage outcomes.old.items room frames → of_json j ≡ Some d → IsField field d
        → Fits stage d → IsOn (value_ended room frames j) outcomes.new.items next None) }
    ensures err { result ≡ Err Stop.NotJson → (d : Data) → Fits stage d → ⊥ }
{
    match stage {
        Stage::Member(key) => {
            let outcome = made_of(alloc, key.as_str(), None)?;
            outcomes.push((key, outcome))?;
            Ok(Stage::Members)
        }
        Stage::Pair(key, listed) => Ok(Stage::Pair(key, with_item(listed, field))),
        Stage::Field(key, mut fields, name) => {
            fields.put(name.as_str(), field);
            Ok(Stage::Fields(key, fields))
        }
        Stage::Members | Stage::Fields(_, _) | Stage::Ended => Err(Stop::NotJson),
    }
}

/// With one token more, where no value is under way.
fn go_outside(
    alloc: Global,
    outcomes: &mut Vec<(String, MemberOutcome)>,
    stage: Stage,
    token: Token<'_>,
) -> Result<(Stage, Option<UnderWay>), Stop>
    requires { token ≢ Token.Bad → IsPrintable (token_of token) }
    ensures ok { IfOk result (λ next. (s : StackState) → IsOn s outcomes.old.items stage None
        → IsOn (next_state s (token_of token.entry)) outcomes.new.items next.0 next.1) }
    ensures err { result ≡ Err Stop.NotJson → (s : StackState)
        → IsOn s outcomes.old.items stage None → NoneAfter (next_state s (token_of token.entry)) }
{
    match stage {
        Stage::Members => Ok((go_in_members(alloc, token)?, None)),
        Stage::Member(key) => {
            if opens_array(token) {
                Ok((Stage::Pair(key, Listed::Nothing), None))
            } else {
                begin_in(alloc, outcomes, Stage::Member(key), token, READ_LEVELS - 1)
            }
        }
        Stage::Pair(key, listed) => go_in_pair(alloc, outcomes, key, listed, token),
        Stage::Fields(key, fields) => Ok((go_in_fields(alloc, key, fields, token)?, None)),
        Stage::Field(key, fields, name) => {
            let stage = Stage::Field(key, fields, name);
            begin_in(alloc, outcomes, stage, token, READ_LEVELS - 3)
        }
        Stage::Ended => Err(Stop::NotJson),
    }
}

/// With a value's first token.
fn begin_in(
    alloc: Global,
    outcomes: &mut Vec<(String, MemberOutcome)>,
    stage: Stage,
    token: Token<'_>,
    levels: usize,
) -> Result<(Stage, Option<UnderWay>), Stop>
    requires printable { token ≢ Token.Bad → IsPrintable (token_of token) }
    requires fits { FitsFirst stage (token_of token) }
    ensures ok { IfOk result (λ next. (frames : List Frame)
        → IsStage stage outcomes.old.items levels frames
        → IsOn (state_within levels frames (token_of token.entry)) outcomes.new.items next.0 next.1) }
    ensures err { result ≡ Err Stop.NotJson → (frames : List Frame)
        → IsStage stage outcomes.old.items levels frames
        → NoneAfter (state_within levels frames (token_of token.entry)) }
{
    match begin(alloc, token, levels)? {
        Begun::Scalar(field) => Ok((stage_after(alloc, outcomes, stage, field)?, None)),
        Begun::Open(value) => Ok((stage, Some(value))),
    }
}

/// With one token more in the object.
fn go_in_members(alloc: Global, token: Token<'_>) -> Result<Stage, Stop>
    ensures ok { IfOk result (λ next.
        (es : List Outcome) (room : ℕ)
        (frames : List Frame) → IsStage Stage.Members es room frames
        → IsOn (state_within room frames (token_of token.entry)) es next None) }
    ensures err { result ≡ Err Stop.NotJson
        → (es : List Outcome) (room : ℕ)
        (frames : List Frame) → IsStage Stage.Members es room frames
        → state_within room frames (token_of token.entry) ≡ failed }
{
    match token {
        Token::EndObject => Ok(Stage::Ended),
        Token::Key(name) => Ok(Stage::Member(String::from_str(alloc, name)?)),
        _ => Err(Stop::NotJson),
    }
}

/// With one token more in a member's array.
fn go_in_pair(
    alloc: Global,
    outcomes: &mut Vec<(String, MemberOutcome)>,
    key: String,
    listed: Listed,
    token: Token<'_>,
) -> Result<(Stage, Option<UnderWay>), Stop>
    requires { token ≢ Token.Bad → IsPrintable (token_of token) }
    ensures ok { IfOk result (λ next. (room : ℕ) (frames : List Frame)
        → IsStage (Stage.Pair key listed) outcomes.old.items room frames
        → IsOn (state_within room frames (token_of token.entry)) outcomes.new.items next.0 next.1) }
    ensures err { result ≡ Err Stop.NotJson → (room : ℕ) (frames : List Frame)
        → IsStage (Stage.Pair key listed) outcomes.old.items room frames
        → NoneAfter (state_within room frames (token_of token.entry)) }
{
    if closes_array(token) {
        let outcome = made_of(alloc, key.as_str(), node_of(listed))?;
        outcomes.push((key, outcome))?;
        return Ok((Stage::Members, None));
    }
    if is_one_text(&listed) && opens_object(token) {
        return Ok((Stage::Fields(key, Fields::none()), None));
    }
    let stage = Stage::Pair(key, listed);
    begin_in(alloc, outcomes, stage, token, READ_LEVELS - 2)
}

/// With one token more in a child's object.
fn go_in_fields(alloc: Global, key: String, fields: Fields, token: Token<'_>) -> Result<Stage, Stop>
    ensures ok { IfOk result (λ next.
        (es : List Outcome) (room : ℕ)
        (frames : List Frame) → IsStage (Stage.Fields key fields) es room frames
        → IsOn (state_within room frames (token_of token.entry)) es next None) }
    ensures err { result ≡ Err Stop.NotJson
        → (es : List Outcome) (room : ℕ)
        (frames : List Frame) → IsStage (Stage.Fields key fields) es room frames
        → state_within room frames (token_of token.entry) ≡ failed }
{
    match token {
        Token::EndObject => Ok(Stage::Pair(key, Listed::Pair(fields))),
        Token::Key(name) => Ok(Stage::Field(key, fields, String::from_str(alloc, name)?)),
        _ => Err(Stop::NotJson),
    }
}

/// What is known of items with one more.
fn with_item(listed: Listed, field: Field) -> Listed
    ensures { (ds : Items) (d : Data) → AreListed listed ds → IsField field d → FitsListed listed d
        → AreListed result (items_with ds d) }
{
    match (listed, field) {
        (Listed::Nothing, Field::Text(_)) => Listed::Text,
        _ => Listed::Other,
    }
}

/// The fields of the list of these items.
fn node_of(listed: Listed) -> Option<Fields>
    ensures { (ds : Items) → AreListed listed ds → IsChildNode result (array ds) }
{
    match listed {
        Listed::Pair(fields) => Some(fields),
        Listed::Nothing | Listed::Text | Listed::Other => None,
    }
}

/// Whether the object has ended.
fn object_has_ended(stage: &Stage) -> bool
    ensures { result ≡ object_has_ended stage.now }
{
    matches!(stage, Stage::Ended)
}

/// Whether the items are one text.
fn is_one_text(listed: &Listed) -> bool
    ensures { result ≡ is_one_text listed.now }
{
    matches!(listed, Listed::Text)
}

/// Whether a token closes an array.
fn closes_array(token: Token<'_>) -> bool
    ensures { result ≡ ends_array (token_of token.entry) }
{
    matches!(token, Token::EndArray)
}
