//! Judging long metadata, some of their text at a time.
ghost use Rattle.std.specs.Prelude.{◌≡◌, ℕ, List, IfOk, is_some};
ghost use Rattle.json_spelling.specs.Metadata.{spelling_of};
ghost use Rattle.json_spelling.specs.Judging.{IsJudging, IsJudgedOn, IsJudgedBehind, IsJudgedSoFar, judged_bytes};

use crate::comma_search::STEP_BYTES;
use crate::judge::Judge;
use crate::metadata::spell_bytes;
use crate::piece_reader::{PieceReader, PiecesRead};
use crate::spelling::Keys;
use std::alloc::{AllocError, Global};

/// Metadata that are judged, some of their text at a time.
#[derive(Drop)]
pub struct Judging {
    /// What was read, and what is known of it.
    reader: PieceReader<Judge>,
}

/// How far the judging of metadata is.
#[derive(Drop)]
pub enum Judged {
    /// More of the text is to be read.
    More(Judging),
    /// Whether the text is metadata.
    Done(bool),
}

/// With more of a text judged, or looked through: long ones by some 65,536 bytes, short ones whole. The text has to be
/// the same each time.
///
/// # Errors
/// `AllocError` where memory is refused, and never for what the text says.
pub fn judge(alloc: Global, judging: Option<Judging>, text: &[u8]) -> Result<Judged, AllocError>
    ensures judged { IfOk result (λ judged. IsJudgedSoFar text.now judging → IsJudgedOn text.now judged) }
    ensures behind { IfOk result (λ judged. IsJudgedBehind text.now (judged_bytes judging) judged) }
{
    match judging {
        Some(judging) => judging.step(alloc, text),
        None => {
            if text.len() > STEP_BYTES {
                Judging::new(alloc).step(alloc, text)
            } else {
                let spelled = spell_bytes(alloc, text, Keys::Rising)?;
                Ok(Judged::Done(spelled.is_some()))
            }
        }
    }
}

impl Judging {
    /// Before the first byte.
    fn new(alloc: Global) -> Judging
        ensures judging { (text : List ℕ) → IsJudging text result }
        ensures reached { result.reader.search.reached ≡ 0 }
    {
        Judging {
            reader: PieceReader::new(Judge::new(alloc)),
        }
    }

    /// With one part more read, where it ends in the next 65,536 bytes: up to the last comma outside strings in them,
    /// or the rest. Else with those looked through.
    fn step(self, alloc: Global, text: &[u8]) -> Result<Judged, AllocError>
        ensures judged { IfOk result (λ judged. IsJudging text.now self → IsJudgedOn text.now judged) }
        ensures behind { IfOk result (λ judged. IsJudgedBehind text.now self.reader.search.reached judged) }
    {
        match self.reader.step(alloc, text)? {
            PiecesRead::More(reader) => Ok(Judged::More(Judging { reader })),
            PiecesRead::All(judge) => Ok(Judged::Done(judge.finish())),
            PiecesRead::NotJson(_) => Ok(Judged::Done(false)),
            // A judge wants no order of keys: NotRising never comes.
            PiecesRead::NotRising => Ok(Judged::Done(false)),
        }
    }
}
