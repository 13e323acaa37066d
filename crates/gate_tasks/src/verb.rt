//! The verbs of a script's lines.
ghost use Rattle.std.specs.Prelude.{◌≡◌, Some};
ghost use Rattle.std.specs.Str.{bytes_eq};
ghost use Rattle.gate_tasks.specs.Command.{name_of, verb_of};

/// What a line asks for, said by its first word.
#[derive(Clone, Copy)]
pub enum Verb {
    /// `grid`
    Grid,
    /// `restore`
    Restore,
    /// `open`
    Open,
    /// `bytes`
    Bytes,
    /// `end`
    End,
    /// `take`
    Take,
    /// `lose`
    Lose,
    /// `spoil`
    Spoil,
    /// `image`
    Image,
}

/// All of them.
const VERBS: [Verb; 9] = [
    Verb::Grid,
    Verb::Restore,
    Verb::Open,
    Verb::Bytes,
    Verb::End,
    Verb::Take,
    Verb::Lose,
    Verb::Spoil,
    Verb::Image,
];

/// The verb that a word names, if it names one.
pub fn read_verb(word: &[u8]) -> Option<Verb>
    ensures { result ≡ verb_of word.now }
{
    VERBS.iter().find(|verb| is_named(**verb, word)).copied()
}

/// Whether a word names this verb.
fn is_named(verb: Verb, word: &[u8]) -> bool
    ensures { result ≡ bytes_eq (name_of verb) word.now }
{
    name(verb) == word
}

/// The word that names a verb.
fn name(verb: Verb) -> &'static [u8]
    ensures named { result.now ≡ name_of verb }
    ensures read_back { verb_of result.now ≡ Some verb }
{
    match verb {
        Verb::Grid => b"grid",
        Verb::Restore => b"restore",
        Verb::Open => b"open",
        Verb::Bytes => b"bytes",
        Verb::End => b"end",
        Verb::Take => b"take",
        Verb::Lose => b"lose",
        Verb::Spoil => b"spoil",
        Verb::Image => b"image",
    }
}
