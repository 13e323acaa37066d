//! The spellings of long metadata that a count keeps for the listing.
ghost use Rattle.std.specs.Prelude.{◌≤◌, length, drop};
ghost use Rattle.dir_codec.specs.First.{IsFirstSpelling};
ghost use Rattle.json_view.specs.KeptSpellings.{AreSpellingsIn, IsKnownSpelling};

use octets::Text;
use std::alloc::{AllocError, Global};
use std::collections::VecDeque;

/// The spelling of the metadata of an entry of a directory's text, with the entry's place.
#[derive(Drop)]
pub(crate) struct KeptSpelling {
    /// How many bytes of the text are left where the entry begins: the same in what remains of a text whose begin was let
    /// go of.
    left: usize,
    /// The spelling.
    spelling: Text,
}

/// Keeps a copy of the spelling of the metadata of the entry at a place of a text, behind those of entries before it. Of
/// metadata that have none nothing is kept.
pub(crate) fn keep_spelling(
    alloc: Global,
    kept: &mut VecDeque<KeptSpelling>,
    text: &[u8],
    at: usize,
    spelling: &Option<Text>,
) -> Result<(), AllocError>
    requires within { at ≤ length text.now }
    requires first { IsFirstSpelling (drop at text.now) spelling.now }
    requires kept { AreSpellingsIn text.now kept.old.items }
    ensures { AreSpellingsIn text.now kept.new.items }
{
    let Some(spelling) = spelling else {
        return Ok(());
    };
    let copy = String::from_str(alloc, spelling.as_str())?;
    kept.push_back(KeptSpelling {
        left: text.len() - at,
        spelling: Text::from_string(copy),
    })?;
    Ok(())
}

/// Takes out the spelling of the metadata of the entry at a place of a text, where it is the first that is kept.
pub(crate) fn take_spelling(
    kept: &mut VecDeque<KeptSpelling>,
    text: &[u8],
    at: usize,
) -> Option<Text>
    requires within { at ≤ length text.now }
    requires kept { AreSpellingsIn text.now kept.old.items }
    ensures kept { AreSpellingsIn text.now kept.new.items }
    ensures known { IsKnownSpelling (drop at text.now) result }
{
    if kept.front()?.left != text.len() - at {
        return None;
    }
    let first = kept.pop_front()?;
    Some(first.spelling)
}
