//! Reading JSON a piece of its text at a time.
ghost use Rattle.std.specs.Prelude.{◌≡◌, ◌≢◌, ℕ, List, [], IfOk};
ghost use Rattle.json_spelling.specs.PieceReaders.{IsPieceReader, AreTokensRead, AreBytesBehind};

use crate::comma_search::{CommaSearch, STEP_BYTES};
use crate::spelling::Stop;
use crate::token_pieces::{TakesTokens, push_tokens};
use std::alloc::{AllocError, Global};

/// JSON that is read a piece of its text at a time, by what takes its tokens.
#[derive(Drop)]
pub(crate) struct PieceReader<T> {
    /// How many bytes of the text were read: none, or those up to a value and a comma.
    at: usize,
    /// The search for the comma that the next piece ends at.
    search: CommaSearch,
    /// What took the tokens of what was read.
    taker: T,
}

/// How far the reading of JSON is.
#[derive(Drop)]
pub(crate) enum PiecesRead<T> {
    /// More of the text is to be read.
    More(PieceReader<T>),
    /// All its tokens were taken.
    All(T),
    /// The text is no JSON. What took the tokens before the fault is given back, to be let go of.
    NotJson(T),
    /// A key isn't above the one before it in an object whose keys have to rise.
    NotRising,
}

impl<T: TakesTokens + Drop> PieceReader<T> {
    /// Before the first byte.
    pub(crate) fn new(taker: T) -> PieceReader<T>
        ensures begun { T.took [] taker → (text : List ℕ) → IsPieceReader T.took text result }
        ensures reached { result.search.reached ≡ 0 }
    {
        PieceReader {
            at: 0,
            search: CommaSearch::new(0),
            taker,
        }
    }

    /// With one piece more read, where it ends in the next 65,536 bytes: up to the last comma outside strings in them,
    /// or the rest. Else with those looked through. The text has to be the same at each step.
    pub(crate) fn step(self, alloc: Global, text: &[u8]) -> Result<PiecesRead<T>, AllocError>
        ensures read { IfOk result (λ read. IsPieceReader T.took text.now self
            → AreTokensRead T.took text.now read) }
        ensures behind { IfOk result (λ read. AreBytesBehind text.now self.search.reached read) }
        ensures order { IfOk result (λ read. read ≡ PiecesRead.NotRising → T.wants_order) }
    {
        json_seams::laws::a_cut_text_is_joined();
        let PieceReader {
            at,
            mut search,
            mut taker,
        } = self;
        if at > search.reached || search.reached > text.len() {
            return Ok(PiecesRead::NotJson(taker));
        }
        let cut = search.step(text);
        if cut.is_none() && search.reached < text.len() {
            return Ok(PiecesRead::More(PieceReader { at, search, taker }));
        }
        let end = cut.unwrap_or(text.len());
        let Ok(piece) = str::from_utf8(&text[at..end]) else {
            return Ok(PiecesRead::NotJson(taker));
        };
        match push_tokens(alloc, &mut taker, piece, at > 0, cut.is_some()) {
            Ok(()) => match cut {
                Some(cut) => Ok(PiecesRead::More(PieceReader {
                    at: cut + 1,
                    search: CommaSearch::new(cut + 1),
                    taker,
                })),
                None => Ok(PiecesRead::All(taker)),
            },
            Err(Stop::NotJson) => Ok(PiecesRead::NotJson(taker)),
            Err(Stop::NotRising) => Ok(PiecesRead::NotRising),
            Err(Stop::NoMemory) => Err(AllocError),
        }
    }
}
