//! How cap texts begin.
ghost use Rattle.std.specs.Prelude.{◌≡◌, ◌++◌, ◌||◌, MatchOption, false};
ghost use Rattle.caps.specs.Beginnings.{beginning, begins_with, is_mutable};
ghost use Rattle.caps.specs.declared.kind.Kind.{Kind};

use crate::kind::Kind;

/// The kind of the cap that a text begins like, and what follows the beginning.
pub fn kind_and_rest(text: &[u8]) -> Option<(Kind, &[u8])>
    ensures { MatchOption result ((kind : Kind) → begins_with text.now (beginning kind) ≡ false)
        (λ p. text.now ≡ beginning p.0 ++ p.1.now) }
{
    if let Some(rest) = after(text, b"URI:CHK:") {
        return Some((Kind::ReadFile, rest));
    }
    if let Some(rest) = after(text, b"URI:LIT:") {
        return Some((Kind::LiteralFile, rest));
    }
    if let Some(rest) = after(text, b"URI:DIR2-CHK:") {
        return Some((Kind::ReadDirectory, rest));
    }
    if let Some(rest) = after(text, b"URI:DIR2-LIT:") {
        return Some((Kind::LiteralDirectory, rest));
    }
    if let Some(rest) = after(text, b"URI:CHK-Verifier:") {
        return Some((Kind::VerifyFile, rest));
    }
    if let Some(rest) = after(text, b"URI:DIR2-CHK-Verifier:") {
        return Some((Kind::VerifyDirectory, rest));
    }
    None
}

/// Whether the text begins like the cap of a mutable file or directory.
pub fn names_mutable(text: &[u8]) -> bool
    ensures { result ≡ is_mutable text.now }
{
    if begins_like(text, b"URI:SSK:", b"URI:SSK-RO:", b"URI:SSK-Verifier:") {
        return true;
    }
    if begins_like(text, b"URI:MDMF:", b"URI:MDMF-RO:", b"URI:MDMF-Verifier:") {
        return true;
    }
    if begins_like(text, b"URI:DIR2:", b"URI:DIR2-RO:", b"URI:DIR2-Verifier:") {
        return true;
    }
    begins_like(
        text,
        b"URI:DIR2-MDMF:",
        b"URI:DIR2-MDMF-RO:",
        b"URI:DIR2-MDMF-Verifier:",
    )
}

/// Whether the text begins like one of three.
fn begins_like(text: &[u8], write: &[u8], read: &[u8], verify: &[u8]) -> bool
    ensures { result ≡ (begins_with text.now write.now
        || (begins_with text.now read.now || begins_with text.now verify.now)) }
{
    begins(text, write) || (begins(text, read) || begins(text, verify))
}

/// Whether the text begins so.
fn begins(text: &[u8], beginning: &[u8]) -> bool
    ensures { result ≡ begins_with text.now beginning.now }
{
    text.starts_with(beginning)
}

/// What follows a beginning, None where the text begins otherwise.
fn after<'a>(text: &'a [u8], beginning: &[u8]) -> Option<&'a [u8]>
    ensures { MatchOption result (begins_with text.now beginning.now ≡ false)
        (λ rest. text.now ≡ beginning.now ++ rest.now) }
{
    match text.strip_prefix(beginning) {
        Some(rest) => Some(rest),
        None => None,
    }
}
