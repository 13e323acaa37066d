//! Finding the commas outside strings.
ghost use Rattle.std.specs.Prelude.{◌≡◌, ◌||◌};
ghost use Rattle.json.specs.Lex.{between, class};
ghost use Rattle.json.specs.Word.{is_operator, is_space};
ghost use Rattle.json_seams.specs.Modes.{next_mode, mode_after, is_outside};
ghost use Rattle.json_seams.specs.Cuts.{IsLastCut};
ghost use Rattle.json_seams.specs.Standings.{mode_of};

use std::marker::Model;

/// Where in a text the lexer stands.
#[derive(Clone, Copy, Drop)]
enum Standing {
    /// Before a token.
    Between,
    /// In a number or a literal, or in what is none.
    InWord,
    /// In a string.
    InString,
    /// In a string, behind a backslash.
    InEscape,
}

/// A bracket, a colon, a comma or white space.
fn ends_word(byte: u8) -> bool
    ensures { result ≡ is_operator byte || is_space byte }
{
    matches!(
        byte,
        b'{' | b'}' | b'[' | b']' | b':' | b',' | b' ' | b'\t' | b'\n' | b'\r'
    )
}

/// Goes over a text in parts and finds the commas outside strings. Contracts see it as the mode in which the lexer stands
/// behind the bytes that it went over.
#[derive(Clone, Copy, Drop)]
pub struct Scanner {
    /// Where the text goes on.
    standing: Standing,
}

impl Model for Scanner {
    ghost use Rattle.json.specs.Lex.{Mode};
    ghost use Rattle.json_seams.specs.Modes.{mode_code};

    ghost Value = { Mode };

    ghost coded = { mode_code };

    ghost use Rattle.std.proofs.Common.{ap};
    ghost use Rattle.json_seams.specs.Standings.{mode_of, standing_of, standing_kept};

    ghost view = { λ s. mode_of s.standing };

    ghost inverse = { λ m. record { standing = standing_of m } };

    ghost inverse_ok = { λ a h. ap (λ s. record { standing = s }) (standing_kept a.standing) };
}

impl Scanner {
    /// At the beginning of a text.
    pub fn new() -> Scanner
        ensures { result ≡ between }
    {
        Scanner {
            standing: Standing::Between,
        }
    }

    /// No string is open behind the bytes so far.
    pub fn is_outside(&self) -> bool
        ensures { result ≡ is_outside self.now }
    {
        matches!(self.standing, Standing::Between | Standing::InWord)
    }

    /// Goes over the next byte of the text.
    pub fn passes(&mut self, byte: u8)
        ensures { self.new ≡ next_mode self.old (class byte) }
    {
        self.standing = match self.standing {
            Standing::Between => {
                if byte == b'"' {
                    Standing::InString
                } else if ends_word(byte) {
                    Standing::Between
                } else {
                    Standing::InWord
                }
            }
            Standing::InWord => {
                if ends_word(byte) {
                    Standing::Between
                } else {
                    Standing::InWord
                }
            }
            Standing::InString => match byte {
                b'"' => Standing::Between,
                b'\\' => Standing::InEscape,
                _ => Standing::InString,
            },
            Standing::InEscape => Standing::InString,
        };
    }

    /// Goes over the next bytes of the text, and gives the place of the last comma outside strings among them, where there
    /// is one.
    pub fn last_cut(&mut self, bytes: &[u8]) -> Option<usize>
        ensures mode { self.new ≡ mode_after self.old bytes.now }
        ensures cut { IsLastCut self.old bytes.now result }
    {
        let mut last = None;
        for (i, byte) in bytes.iter().enumerate() {
            if *byte == b',' && self.is_outside() {
                last = Some(i);
            }
            self.passes(*byte);
        }
        last
    }
}
