//! Names of unfinished files.
ghost use Rattle.std.specs.Prelude.{◌≡◌, string_bytes, IfOk};
ghost use Rattle.shared_folder.specs.Tags.{tag_text};

use std::alloc::{AllocError, Global};

/// What stands behind the name of a process's unfinished files: a full stop, and random bytes of the process in
/// hexadecimal with lower-case letters. `Err` only where memory is refused.
#[tactic(auto, unfolding(crate::specs::Tags::tag_text))]
pub(crate) fn spell_tag(alloc: Global, random: &[u8; 16]) -> Result<String, AllocError>
    ensures { IfOk result (λ text. string_bytes text ≡ tag_text random.now) }
{
    let digits = hex::encode(alloc, random.as_slice())?;
    let text = format!(in alloc; ".{digits}")?;
    Ok(text)
}
