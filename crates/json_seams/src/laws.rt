//! What holds of a text that is cut.
ghost use Rattle.std.specs.Prelude.{◌≡◌, ◌+◌, ◌↔◌, ℕ, List, [], ◌∷◌, ◌++◌, length, take, drop, codes};
ghost use Rattle.json.specs.Token.{Token, begin_object, end_object, begin_array, end_array, key, number, null, bad};
ghost use Rattle.json.specs.Lex.{Mode, between, in_word, in_string, in_escape, tokens};
ghost use Rattle.json_seams.specs.Modes.{mode_after};
ghost use Rattle.json_seams.specs.Cuts.{IsCutFrom, IsCutComma};
ghost use Rattle.json_seams.specs.Seams.{seam};

/// The tokens of a text that is cut at a comma outside strings are those of what stands before it, joined with those of
/// what stands behind it.
pub fn a_cut_text_is_joined()
    ensures { (text : List ℕ) (at : ℕ) → IsCutComma text at
        → tokens text ≡ seam (tokens (take at text)) (tokens (drop (at + 1) text)) }
{}

/// A text may be looked through in parts: the mode goes on from one part to the next, and so do the places of commas.
/// Behind a comma outside strings the next part begins as a text does.
pub fn cuts_are_found_in_parts()
    ensures modes { (mode : Mode) (before bytes : List ℕ)
        → mode_after mode (before ++ bytes) ≡ mode_after (mode_after mode before) bytes }
    ensures places { (mode : Mode) (before bytes : List ℕ) (at : ℕ)
        → IsCutFrom (mode_after mode before) bytes at
        ↔ IsCutFrom mode (before ++ bytes) (length before + at) }
    ensures fresh { (mode : Mode) (text : List ℕ) (at : ℕ) → IsCutFrom mode text at
        → mode_after mode (take (at + 1) text) ≡ between }
{}

/// The tokens of more than two parts are joined from the first on or from the last on: both give the same.
pub fn parts_are_joined_in_turn()
    ensures { (first second third : List Token)
        → seam (seam first second) third ≡ seam first (seam second third) }
{}

/// How small texts are joined, and where strings are open.
pub fn small_texts_are_cut()
    ensures whole { seam (tokens (codes "[1")) (tokens (codes "2]"))
        ≡ begin_array ∷ number (codes "1") ∷ number (codes "2") ∷ end_array ∷ [] }
    ensures members { seam (tokens (codes "{\"a\":[]")) (tokens (codes "\"b\":null}"))
        ≡ begin_object ∷ key (codes "a") ∷ begin_array ∷ end_array
        ∷ key (codes "b") ∷ null ∷ end_object ∷ [] }
    ensures at_first { seam (tokens (codes "[")) (tokens (codes "1]"))
        ≡ begin_array ∷ bad ∷ [] }
    ensures at_last { seam (tokens (codes "[1")) (tokens (codes "]"))
        ≡ begin_array ∷ number (codes "1") ∷ bad ∷ [] }
    ensures no_value { seam (tokens (codes "{\"a\":")) (tokens (codes "1}"))
        ≡ begin_object ∷ key (codes "a") ∷ bad ∷ [] }
    ensures twice { seam (tokens (codes "[1,")) (tokens (codes "2]"))
        ≡ begin_array ∷ number (codes "1") ∷ bad ∷ [] }
    ensures in_string { mode_after between (codes "[\"a\\\"") ≡ in_string }
    ensures in_escape { mode_after between (codes "[\"a\\") ≡ in_escape }
    ensures behind_string { mode_after between (codes "[\"a\\\\\"") ≡ between }
    ensures in_word { mode_after between (codes "[1\"") ≡ in_word }
{}
