//! Spelling long metadata, some of their text at a time.
ghost use Rattle.std.specs.Prelude.{◌≡◌, ℕ, List, Some, None, IfOk};
ghost use Rattle.serde_json.specs.Data.{Data};
ghost use Rattle.serde_json.specs.Read.{max_depth};
ghost use Rattle.json_tree.specs.Builders.{HasTakenTokens};
ghost use Rattle.json_tree.specs.Writers.{IsWritten, IsWriting};
ghost use Rattle.json_spelling.specs.Metadata.{json_of, spelling_of};
ghost use Rattle.json_spelling.specs.PieceReaders.{IsPieceReader};
ghost use Rattle.json_spelling.specs.Sound.{IsSound};
ghost use Rattle.json_spelling.specs.Speller.{HasSpelled};
ghost use Rattle.json_spelling.specs.MetadataSpellers.{IsMetadataSpeller, IsSpellingStage, IsSpelledOn, IsLaterSpelling, HoldsTreeOf, IsBehindTree};
ghost use Rattle.json_spelling.specs.declared.metadata_speller.MetadataSpelling.TheVariants.{Going};

use crate::extent::Extent;
use crate::metadata::spell_bytes;
use crate::piece_reader::{PieceReader, PiecesRead};
use crate::speller::Speller;
use crate::spelling::{Keys, READ_LEVELS, Spelled};
use json_tree::{Remains, TextWriter, TreeBuilder, Writing, Written};
use octets::Text;
use std::alloc::{AllocError, Global};

/// The one spelling of metadata, as far as it is made of their text, some 65,536 bytes at a time.
pub struct MetadataSpeller {
    stage: SpellingStage,
}

// Its own, so that what owns one calls it: a derived drop is spelled out wherever a value may be dropped.
impl Drop for MetadataSpeller {
    fn drop(self) {
        let MetadataSpeller { stage: _ } = self;
    }
}

/// How far a speller of metadata is.
#[derive(Drop)]
pub(crate) enum SpellingStage {
    /// So far the keys of each object rise: what is read is written as it comes.
    Rising(PieceReader<Speller>),
    /// A key did not rise: a tree is built of the whole text from its first byte on.
    Building(PieceReader<TreeBuilder>),
    /// The tree is written, and let go of.
    Writing(TextWriter),
    /// The text is no JSON: what was built of it is let go of.
    Refused(Remains),
}

/// How a speller of metadata goes on.
#[derive(Drop)]
pub enum MetadataSpelling {
    /// It has more to do.
    Going(MetadataSpeller),
    /// The spelling, None where the text is no metadata.
    Done(Option<Text>),
}

impl MetadataSpeller {
    /// Before the first byte.
    pub fn new(alloc: Global) -> MetadataSpeller
        ensures { (text : List ℕ) → IsMetadataSpeller text result }
    {
        MetadataSpeller {
            stage: SpellingStage::Rising(PieceReader::new(Speller::within(alloc, READ_LEVELS))),
        }
    }

    /// With the next 65,536 bytes of the text looked through, or those that are left, and what stands up to the last comma
    /// outside strings in them read, if there is one, or the rest. So a long string is read at once. Where a key doesn't
    /// rise in its object, the text is read anew from its first byte on, into a tree, which is then written and let go of,
    /// 1,024 values a step or 65,536 bytes. The text has to be the same at each step.
    ///
    /// # Errors
    /// `AllocError` where memory is refused, and never for what the text says. Then all is let go of at once.
    pub fn step(self, alloc: Global, text: &[u8]) -> Result<MetadataSpelling, AllocError>
        ensures spelled { IfOk result (λ spelling. IsMetadataSpeller text.now self
            → IsSpelledOn text.now spelling) }
        ensures later { IfOk result (λ spelling. IsLaterSpelling self.stage spelling) }
    {
        let MetadataSpeller { stage } = self;
        match stage {
            SpellingStage::Rising(reader) => spell_rising(alloc, reader, text),
            SpellingStage::Building(reader) => build_on(alloc, reader, text),
            SpellingStage::Writing(writer) => write_on(alloc, writer, text),
            SpellingStage::Refused(remains) => let_go_on(remains),
        }
    }
}

/// A speller that stands there.
fn going(stage: SpellingStage) -> MetadataSpelling
    ensures { result ≡ Going (record { stage = stage }) }
{
    MetadataSpelling::Going(MetadataSpeller { stage })
}

/// With one piece more spelled, or looked through, where so far keys rise.
fn spell_rising(
    alloc: Global,
    reader: PieceReader<Speller>,
    text: &[u8],
) -> Result<MetadataSpelling, AllocError>
    ensures spelled { IfOk result (λ spelling. IsPieceReader HasSpelled text.now reader
        → IsSpelledOn text.now spelling) }
    ensures later { IfOk result (IsLaterSpelling (SpellingStage.Rising reader)) }
{
    match reader.step(alloc, text)? {
        PiecesRead::More(reader) => Ok(going(SpellingStage::Rising(reader))),
        PiecesRead::All(speller) => Ok(MetadataSpelling::Done(speller.into_metadata())),
        PiecesRead::NotJson(_) => Ok(MetadataSpelling::Done(None)),
        PiecesRead::NotRising => Ok(going(SpellingStage::Building(tree_reader(alloc)))),
    }
}

/// What reads a text into a tree, before the first byte.
fn tree_reader(alloc: Global) -> PieceReader<TreeBuilder>
    ensures { (text : List ℕ) → IsPieceReader (HasTakenTokens max_depth) text result }
{
    json_tree::laws::builders_read_the_grammar();
    PieceReader::new(TreeBuilder::within(alloc, READ_LEVELS))
}

/// With one piece more in the tree, or looked through.
fn build_on(
    alloc: Global,
    reader: PieceReader<TreeBuilder>,
    text: &[u8],
) -> Result<MetadataSpelling, AllocError>
    ensures spelled { IfOk result (λ spelling.
        IsPieceReader (HasTakenTokens max_depth) text.now reader → IsSpelledOn text.now spelling) }
    ensures later { IfOk result (IsLaterSpelling (SpellingStage.Building reader)) }
{
    match reader.step(alloc, text)? {
        PiecesRead::More(reader) => Ok(going(SpellingStage::Building(reader))),
        PiecesRead::All(tree) => Ok(going(stage_of(alloc, tree))),
        PiecesRead::NotJson(tree) => Ok(going(SpellingStage::Refused(tree.give_up()))),
        // A tree wants no order of keys: NotRising never comes.
        PiecesRead::NotRising => Ok(MetadataSpelling::Done(None)),
    }
}

/// What comes behind a tree that took all tokens of a text.
fn stage_of(alloc: Global, tree: TreeBuilder) -> SpellingStage
    ensures spelled { (text : List ℕ) → HoldsTreeOf text tree → IsSpellingStage text result }
    ensures later { IsBehindTree result }
{
    json_tree::laws::builders_read_the_grammar();
    match tree.finish() {
        Ok(value) => SpellingStage::Writing(TextWriter::new(alloc, value)),
        Err(tree) => SpellingStage::Refused(tree.give_up()),
    }
}

/// With more of the tree written.
fn write_on(alloc: Global, writer: TextWriter, text: &[u8]) -> Result<MetadataSpelling, AllocError>
    ensures spelled { IfOk result (λ spelling.
        IsSpellingStage text.now (SpellingStage.Writing writer) → IsSpelledOn text.now spelling) }
    ensures later { IfOk result (IsLaterSpelling (SpellingStage.Writing writer)) }
{
    match writer.step(alloc)? {
        Writing::Going(next) => Ok(going(SpellingStage::Writing(next))),
        Writing::Done(written) => Ok(MetadataSpelling::Done(metadata_in(alloc, written, text)?)),
    }
}

/// The one spelling of the metadata that were written of this text. None where what was written is none.
fn metadata_in(alloc: Global, written: Written, text: &[u8]) -> Result<Option<Text>, AllocError>
    ensures { IfOk result (λ spelled. (d : Data) → json_of text.now ≡ Some d → IsSound d
        → IsWritten d written → spelled ≡ spelling_of text.now) }
{
    let Written {
        text: spelling,
        levels,
        fractional,
    } = written;
    // What is written of a tree is always text.
    let Ok(_) = str::from_utf8(spelling.as_slice()) else {
        return spell_bytes(alloc, text, Keys::Any);
    };
    let spelled = Spelled {
        text: spelling,
        extent: Extent { levels, fractional },
    };
    Ok(spelled.into_metadata())
}

/// With more let go of, of a text that is no JSON.
fn let_go_on(remains: Remains) -> Result<MetadataSpelling, AllocError>
    ensures spelled { IfOk result (λ spelling. (text : List ℕ) → spelling_of text ≡ None
        → IsSpelledOn text spelling) }
    ensures later { IfOk result (IsLaterSpelling (SpellingStage.Refused remains)) }
{
    let mut left = remains;
    if left.step()? {
        return Ok(going(SpellingStage::Refused(left)));
    }
    Ok(MetadataSpelling::Done(None))
}
