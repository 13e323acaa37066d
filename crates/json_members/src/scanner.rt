//! Finding the commas between members.
ghost use Rattle.std.specs.Prelude.{◌≡◌, ◌+◌, ◌<◌, ◌≤◌, length};
ghost use Rattle.json.specs.Lex.{between};
ghost use Rattle.json_seams.specs.Modes.{mode_after};
ghost use Rattle.json_members.specs.Brackets.{depth_behind, bracket_depth};
ghost use Rattle.json_members.specs.MemberCuts.{IsLastMemberCut};

use json_seams::Scanner;
use std::marker::Model;

/// How many brackets are open behind that byte, which stands in no string, where `depth` are open before it.
fn depth_after(depth: u64, byte: u8) -> u64
    requires { depth < 18446744073709551615 }
    ensures { result ≡ depth_behind depth byte }
{
    match byte {
        b'{' | b'[' => depth + 1,
        b'}' | b']' => depth.saturating_sub(1),
        _ => depth,
    }
}

/// Goes over a text in parts and finds the commas between members of its outermost object. Contracts see it as the mode in
/// which the lexer stands behind the bytes that it went over, and the count of brackets that are open there.
#[derive(Clone, Copy, Drop)]
pub struct MemberScanner {
    /// Where the text goes on.
    scanner: Scanner,
    /// How many brackets are open there.
    depth: u64,
}

impl Model for MemberScanner {
    ghost use Rattle.json_members.specs.ScanStates.{ScanState, scan_state_code};

    ghost Value = { ScanState };

    ghost coded = { scan_state_code };

    ghost use Rattle.std.proofs.Common.{refl};

    ghost view = { λ s. record { mode = s.scanner; depth = s.depth } };

    ghost inverse = { λ m. record { scanner = m.mode; depth = m.depth } };

    ghost inverse_ok = { λ a h. refl };
}

impl MemberScanner {
    /// At the beginning of a text.
    pub fn new() -> MemberScanner
        ensures mode { result.mode ≡ between }
        ensures depth { result.depth ≡ 0 }
    {
        MemberScanner {
            scanner: Scanner::new(),
            depth: 0,
        }
    }

    /// Goes over the next bytes of the text, and gives the place of the last comma between members of the outermost object
    /// among them, where there is one: of the last comma that stands in no string and in one bracket. The count of brackets
    /// has to be in 64 bits, and is at most that of the bytes so far.
    pub fn last_cut(&mut self, bytes: &[u8]) -> Option<usize>
        requires { self.old.depth + length bytes.now ≤ 18446744073709551615 }
        ensures mode { self.new.mode ≡ mode_after self.old.mode bytes.now }
        ensures depth { self.new.depth ≡ bracket_depth self.old.mode self.old.depth bytes.now }
        ensures cut { IsLastMemberCut self.old.mode self.old.depth bytes.now result }
    {
        let mut last = None;
        for (i, byte) in bytes.iter().enumerate() {
            if self.scanner.is_outside() {
                if *byte == b',' && self.depth == 1 {
                    last = Some(i);
                }
                self.depth = depth_after(self.depth, *byte);
            }
            self.scanner.passes(*byte);
        }
        last
    }
}
