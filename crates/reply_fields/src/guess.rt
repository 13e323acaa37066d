//! What a file is taken for by the end of its name.
ghost use Rattle.std.specs.Prelude.{◌≡◌};
ghost use Rattle.reply_fields.specs.Guesses.{has_end, is_text_name, image_guess, film_guess, guess_or, guess_by_name, guess_of};

use octets::Text;
use web_request::is_same;

/// What a file may be shown as. In none of these kinds anything runs.
#[derive(Clone, Copy, PartialEq, Eq)]
pub enum Guess {
    /// `text/plain; charset=utf-8`.
    PlainText,
    /// `image/png`.
    Png,
    /// `image/jpeg`.
    Jpeg,
    /// `image/gif`.
    Gif,
    /// `image/webp`.
    WebP,
    /// `image/avif`.
    Avif,
    /// `video/mp4`.
    Mp4,
    /// `video/webm`.
    WebM,
    /// `audio/mpeg`.
    Mp3,
    /// `audio/ogg`.
    Ogg,
    /// `audio/wav`.
    Wav,
    /// `audio/flac`.
    Flac,
}

/// What a file is taken for by the end of its name, if it has one, in any case: `.txt`, `.md`, `.csv`, `.log`; `.png`,
/// `.jpg`, `.jpeg`, `.gif`, `.webp`, `.avif`; `.mp4`, `.webm`, `.mp3`, `.ogg`, `.wav`, `.flac`. Nothing else is guessed.
pub fn guess_of(name: &Option<Text>) -> Option<Guess>
    ensures { result ≡ guess_of name.now }
{
    match name {
        Some(name) => guess_by_name(name.as_str().as_bytes()),
        None => None,
    }
}

#[tactic(auto, unfolding(crate::specs::Guesses::guess_by_name))]
fn guess_by_name(name: &[u8]) -> Option<Guess>
    ensures { result ≡ guess_by_name name.now }
{
    if is_text_name(name) {
        return Some(Guess::PlainText);
    }
    match image_guess(name) {
        Some(guess) => Some(guess),
        None => film_guess(name),
    }
}

/// Whether a name ends as that of a text.
#[tactic(auto, unfolding(crate::specs::Guesses::is_text_name))]
fn is_text_name(name: &[u8]) -> bool
    ensures { result ≡ is_text_name name.now }
{
    has_end(name, b".txt")
        || (has_end(name, b".md") || (has_end(name, b".csv") || has_end(name, b".log")))
}

/// An image, by the end of its name.
#[tactic(auto, unfolding(crate::specs::Guesses::image_guess))]
fn image_guess(name: &[u8]) -> Option<Guess>
    ensures { result ≡ image_guess name.now }
{
    if has_end(name, b".png") {
        return Some(Guess::Png);
    }
    if has_end(name, b".jpg") || has_end(name, b".jpeg") {
        return Some(Guess::Jpeg);
    }
    if has_end(name, b".gif") {
        return Some(Guess::Gif);
    }
    if has_end(name, b".webp") {
        return Some(Guess::WebP);
    }
    if has_end(name, b".avif") {
        return Some(Guess::Avif);
    }
    None
}

/// Film or sound, by the end of its name.
#[tactic(auto, unfolding(crate::specs::Guesses::film_guess))]
fn film_guess(name: &[u8]) -> Option<Guess>
    ensures { result ≡ film_guess name.now }
{
    if has_end(name, b".mp4") {
        return Some(Guess::Mp4);
    }
    if has_end(name, b".webm") {
        return Some(Guess::WebM);
    }
    if has_end(name, b".mp3") {
        return Some(Guess::Mp3);
    }
    if has_end(name, b".ogg") {
        return Some(Guess::Ogg);
    }
    if has_end(name, b".wav") {
        return Some(Guess::Wav);
    }
    if has_end(name, b".flac") {
        return Some(Guess::Flac);
    }
    None
}

/// Whether a name ends so, in any case.
fn has_end(name: &[u8], end: &[u8]) -> bool
    ensures { result ≡ has_end name.now end.now }
{
    let before = name.len().saturating_sub(end.len());
    is_same(&name[before..], end)
}
