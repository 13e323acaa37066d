//! Reads the tokens of members of children JSON a piece of their text at a time.
ghost use Rattle.std.specs.Prelude.{◌≡◌, ◌≤◌, ◌∷◌, ℕ, List, [], length, take, IfOk};
ghost use Rattle.std.specs.Str.{IsUtf8};
ghost use Rattle.json.specs.Token.{begin_object};
ghost use Rattle.children_reader.specs.Piecewise.{IsPieceTo, is_inner_comma, IsReadSoFar, IsPartReadOn};

use crate::cutting::{Behind, Looked, NextPiece, Piece, next_piece};
use json_spelling::{Stop, TakesTokens, push_tokens};
use std::alloc::{AllocError, Global};

/// Members that are under way, by what takes their tokens.
#[derive(Drop)]
pub(crate) struct PartReader<T> {
    /// What was looked through of their text.
    pub(crate) looked: Looked,
    /// What took the tokens of what was read.
    pub(crate) taker: T,
}

/// How far the reading of members is.
#[derive(Drop)]
pub(crate) enum PartRead<T> {
    /// The last member has not ended.
    More(PartReader<T>),
    /// All their tokens were taken. With it the place behind the comma between members that they end at, None where they
    /// are the rest.
    All(T, Option<usize>),
    /// No JSON goes on so. What took the tokens before the fault is given back, to be let go of.
    NotJson(T),
    /// A key isn't above the one before it in an object whose keys have to rise.
    NotRising,
}

impl<T: TakesTokens + Drop> PartReader<T> {
    /// At a place behind an opening brace or a comma between members, for what took the brace.
    pub(crate) fn behind(at: usize, taker: T) -> PartReader<T>
        ensures read { T.took (begin_object ∷ []) taker → (json : List ℕ) → at ≤ length json
            → IsUtf8 (take at json) → IsReadSoFar T.took json at result }
        ensures reached { result.looked.search.reached ≡ at }
    {
        PartReader {
            looked: Looked::new(at),
            taker,
        }
    }

    /// With one piece more, or with more looked through for its end. The text has to be the same at each step.
    pub(crate) fn step(self, alloc: Global, json: &[u8]) -> Result<PartRead<T>, AllocError>
        requires { IsReadSoFar T.took json.now self.looked.at self }
        ensures read { IfOk result
            (IsPartReadOn T.took json.now self.looked.at self.looked.search.reached) }
        ensures order { IfOk result (λ read. read ≡ PartRead.NotRising → T.wants_order) }
    {
        match next_piece(alloc, json, &self.looked)? {
            NextPiece::Found(Piece { text, behind }) => self.push_on(alloc, json, text, behind),
            NextPiece::Sought(looked) => Ok(PartRead::More(PartReader {
                looked,
                taker: self.taker,
            })),
        }
    }

    /// With the tokens of the piece that comes next.
    pub(crate) fn push_on(
        self,
        alloc: Global,
        json: &[u8],
        text: Vec<u8>,
        behind: Behind,
    ) -> Result<PartRead<T>, AllocError>
        requires read { IsReadSoFar T.took json.now self.looked.at self }
        requires piece { IsPieceTo json.now self.looked text.items behind }
        ensures read { IfOk result
            (IsPartReadOn T.took json.now self.looked.at self.looked.search.reached) }
        ensures order { IfOk result (λ read. read ≡ PartRead.NotRising → T.wants_order) }
    {
        json_seams::laws::a_cut_text_is_joined();
        json_members::laws::a_cut_object_is_joined();
        json_members::laws::objects_begin_with_a_brace();
        json_members::laws::objects_are_joined_in_turn();
        let PartReader { looked, mut taker } = self;
        let Ok(text) = str::from_utf8(text.as_slice()) else {
            return Ok(PartRead::NotJson(taker));
        };
        let comma = is_inner_comma(&behind);
        match push_tokens(alloc, &mut taker, text, looked.end > looked.at, comma) {
            Ok(()) => match behind {
                Behind::Comma(looked) => Ok(PartRead::More(PartReader { looked, taker })),
                Behind::End(next) => Ok(PartRead::All(taker, next)),
            },
            Err(Stop::NotJson) => Ok(PartRead::NotJson(taker)),
            Err(Stop::NotRising) => Ok(PartRead::NotRising),
            Err(Stop::NoMemory) => Err(AllocError),
        }
    }
}

/// Whether a comma inside a member stands behind a piece.
fn is_inner_comma(behind: &Behind) -> bool
    ensures { result ≡ is_inner_comma behind.now }
{
    matches!(behind, Behind::Comma(_))
}
