//! Pushes the tokens of a piece of a JSON text into what takes them one at a time.
ghost use Rattle.std.specs.Prelude.{◌≡◌, ◌≢◌, ◌++◌, List, [], ◌∷◌, None, Err, OnOk};
ghost use Rattle.json.specs.Token.{Token as JsonToken};
ghost use Rattle.json.specs.Print.{IsPrintable, begins};
ghost use Rattle.json.specs.Reads.{token_of};
ghost use Rattle.json_spelling.specs.Spelled.{data_of};
ghost use Rattle.json_spelling.specs.TokenPieces.{ends_value, IsPiecePushed, IsPieceRefused};

use crate::spelling::Stop;
use json::{Reader, Scratch, Token};
use std::alloc::Global;

/// What takes the tokens of a JSON value one at a time.
pub trait TakesTokens {
    /// It took these tokens so far.
    ghost took: { List JsonToken → Self → Type 0 };

    /// It has objects whose keys have to rise.
    ghost wants_order: { Type 0 };

    /// Takes one token more. NotRising where a key isn't above the one before it in an object whose keys have to rise.
    ///
    /// # Errors
    /// NotJson where no JSON goes on so.
    fn push(&mut self, alloc: Global, token: Token<'_>) -> Result<(), Stop>
        requires { token ≢ Token.Bad → IsPrintable (token_of token) }
        ensures ok { OnOk result ((ts : List JsonToken) → took ts self.old
            → took (ts ++ token_of token.entry ∷ []) self.new) }
        ensures err { result ≡ Err Stop.NotJson → (ts more : List JsonToken)
            → took ts self.old → data_of (ts ++ token_of token.entry ∷ more) ≡ None }
        ensures order { result ≡ Err Stop.NotRising → wants_order };
}

/// Pushes the tokens of a piece that stands behind a comma or at the beginning, and before a comma or at the end.
///
/// # Errors
/// NotJson where no JSON has that piece, and NotRising as the taker's `push` says.
pub fn push_tokens<T: TakesTokens>(
    alloc: Global,
    taker: &mut T,
    text: &str,
    behind: bool,
    before: bool,
) -> Result<(), Stop>
    ensures ok { OnOk result (IsPiecePushed T.took behind before text.now taker.old taker.new) }
    ensures err { result ≡ Err Stop.NotJson
        → IsPieceRefused T.took behind before text.now taker.old }
    ensures order { result ≡ Err Stop.NotRising → T.wants_order }
{
    let mut scratch = Scratch::new(alloc);
    let mut reader = Reader::new(text, &mut scratch)?;
    let mut begun = !behind;
    let mut ended = false;
    'tokens: while let Some(token) = reader.next() {
        if !begun && !begins_value(token) {
            return Err(Stop::NotJson);
        }
        begun = true;
        ended = ends_value(token);
        taker.push(alloc, token)?;
    }
    if !begun || (before && !ended) {
        return Err(Stop::NotJson);
    }
    Ok(())
}

/// Whether a value or a key may begin with a token.
fn begins_value(token: Token<'_>) -> bool
    ensures { result ≡ begins (token_of token.entry) }
{
    !matches!(token, Token::EndArray | Token::EndObject)
}

/// Whether a token is the last of a value.
fn ends_value(token: Token<'_>) -> bool
    ensures { result ≡ ends_value (token_of token.entry) }
{
    match token {
        Token::EndArray | Token::EndObject => true,
        Token::String(_) | Token::Number(_) | Token::Bool(_) | Token::Null => true,
        Token::BeginArray | Token::BeginObject | Token::Key(_) | Token::Bad => false,
    }
}
