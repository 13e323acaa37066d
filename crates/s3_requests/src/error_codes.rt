//! Where an error's code stands in a body.
ghost use Rattle.std.specs.Prelude.{◌≡◌, ◌↔◌, ◌++◌, ◌∷◌, [], ℕ, List, MatchOption, OnOk, OnErr, length, take, slice_index, ◌<◌, ◌≤◌, false};
ghost use Rattle.std.specs.Char.{is_ascii_alphabetic};
ghost use Rattle.std.specs.List.{AllPass};
ghost use Rattle.s3_requests.specs.ErrorCodes.{BeginsWithCode, IsFirstCode, HasNoCode, code_room};

use std::alloc::AllocError;

/// As much of a body as is looked through.
const ROOM: usize = 4096;

/// Puts a piece of a body behind the pieces before it, as much as is looked through. So what is kept is the first 4,096
/// bytes of all that came, however it was cut. Where memory is refused nothing changes.
pub fn keep_first(kept: &mut Vec<u8>, piece: &[u8]) -> Result<(), AllocError>
    ensures kept { OnOk result ((came : List ℕ) → kept.old.items ≡ code_room came
        → kept.new.items ≡ code_room (came ++ piece.now)) }
    ensures refused { OnErr result (kept.new.items ≡ kept.old.items) }
{
    let room = ROOM.saturating_sub(kept.len());
    let len = piece.len().min(room);
    kept.extend_from_slice(&piece[..len])
}

/// What follows a beginning, `None` where the text begins otherwise.
fn after<'a>(text: &'a [u8], beginning: &[u8]) -> Option<&'a [u8]>
    ensures { MatchOption result ((rest : List ℕ) → text.now ≡ beginning.now ++ rest → ⊥)
        (λ rest. text.now ≡ beginning.now ++ rest.now) }
{
    match text.strip_prefix(beginning) {
        Some(rest) => Some(rest),
        None => None,
    }
}

/// How many letters it begins with.
fn count_letters(text: &[u8]) -> usize
    ensures within { result ≤ length text.now }
    ensures letters { AllPass is_ascii_alphabetic (take result text.now) }
    ensures other { result < length text.now
        → is_ascii_alphabetic (slice_index text.now result) ≡ false }
{
    match text.iter().position(|byte| !byte.is_ascii_alphabetic()) {
        Some(count) => count,
        None => text.len(),
    }
}

/// The code of the element with which a text begins.
fn code_at(text: &[u8]) -> Option<&[u8]>
    ensures { MatchOption result ((code : List ℕ) → BeginsWithCode text.now code → ⊥)
        (λ code. BeginsWithCode text.now code.now) }
{
    let rest = after(text, b"<Code>")?;
    let count = count_letters(rest);
    if count == 0 || count > 64 {
        return None;
    }
    let (code, behind) = rest.split_at(count);
    match after(behind, b"</Code>") {
        Some(_) => Some(code),
        None => None,
    }
}

/// The code of the first element `<Code>..</Code>` with 1 to 64 letters and nothing else in it, in the first 4,096
/// bytes of a body. `None` where there is none.
pub fn code_in(body: &[u8]) -> Option<&[u8]>
    ensures { MatchOption result (HasNoCode (code_room body.now))
        (λ code. IsFirstCode (code_room body.now) code.now) }
{
    let text = &body[..body.len().min(ROOM)];
    for place in 0..text.len() {
        if let Some(code) = code_at(&text[place..]) {
            return Some(code);
        }
    }
    None
}
