//! Paths: the names below a folder.
ghost use Rattle.std.specs.Prelude.{◌≡◌, ◌∷◌, ◌++◌, [], IfOk};

use octets::Text;
use std::alloc::{AllocError, Global};

/// A path with one more name.
pub(crate) fn path_below(alloc: Global, path: &[Text], name: &str) -> Result<Vec<Text>, AllocError>
    ensures { IfOk result (λ below. below.items ≡ path.now ++ name.now ∷ []) }
{
    let mut below = Vec::with_capacity(alloc, path.len().saturating_add(1))?;
    for step in path {
        below.push(text_of(alloc, step.as_str())?)?;
    }
    below.push(text_of(alloc, name)?)?;
    Ok(below)
}

/// A text that owns its bytes.
pub(crate) fn text_of(alloc: Global, text: &str) -> Result<Text, AllocError>
    ensures { IfOk result (λ made. made ≡ text.now) }
{
    Ok(Text::from_string(String::from_str(alloc, text)?))
}
