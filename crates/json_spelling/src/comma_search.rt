//! Finding a comma outside strings, some bytes of a text at a time.
ghost use Rattle.std.specs.Prelude.{◌≡◌, ◌+◌, ◌<◌, ◌≤◌, ℕ, List, length, IfSome};
ghost use Rattle.json_spelling.specs.CommaSearch.{IsSearched, IsCommaCut};

use json_seams::Scanner;

/// How many bytes of a text one step reads, or looks through for a cut at a time.
pub const STEP_BYTES: usize = 65_536;

/// A search for a comma outside strings, from a place of a text on.
#[derive(Clone, Copy, Drop)]
pub struct CommaSearch {
    /// The place up to which the text was looked through.
    pub reached: usize,
    /// Where the text goes on there.
    scanner: Scanner,
}

impl CommaSearch {
    /// From a place on, before which no string is open.
    pub fn new(at: usize) -> CommaSearch
        ensures reached { result.reached ≡ at }
        ensures searched { (text : List ℕ) → at ≤ length text → IsSearched text at result }
    {
        CommaSearch {
            reached: at,
            scanner: Scanner::new(),
        }
    }

    /// Looks through the next 65,536 bytes, or those that are left, and gives the place of the last comma outside
    /// strings among them, where there is one. The text has to be the same at each step.
    pub fn step(&mut self, text: &[u8]) -> Option<usize>
        requires { self.old.reached ≤ length text.now }
        ensures behind { self.old.reached ≤ self.new.reached }
        ensures within { self.new.reached ≤ length text.now }
        ensures few { self.new.reached ≤ self.old.reached + 65536 }
        ensures ahead { self.old.reached < length text.now → self.old.reached < self.new.reached }
        ensures searched { (at : ℕ) → IsSearched text.now at self.old → IsSearched text.now at self.new }
        ensures cut { IfSome result (λ cut. (self.old.reached ≤ cut) × (cut < self.new.reached)
            × ((at : ℕ) → IsSearched text.now at self.old → IsCommaCut text.now at cut)) }
    {
        json_seams::laws::cuts_are_found_in_parts();
        let start = self.reached;
        let end = text.len().min(start.saturating_add(STEP_BYTES));
        let cut = self.scanner.last_cut(&text[start..end]);
        self.reached = end;
        if let Some(cut) = cut {
            return Some(start + cut);
        }
        None
    }
}
