//! What paths say, computed on small texts.
ghost use Rattle.std.specs.Prelude.{◌≡◌, [], ◌∷◌, codes, Ok, Err};
ghost use Rattle.path_names.specs.Names.{names_of};
ghost use Rattle.path_names.specs.declared.fault.PathFault.TheVariants.{BadEscape, NotUtf8, EmptyName};

/// Paths on small texts: escapes, one slash at the end, the order of the faults.
pub fn small_paths()
    ensures escaped { names_of (codes "URI%3ALIT%3Amy/a%2fb/")
        ≡ Ok (codes "URI:LIT:my", codes "a/b" ∷ []) }
    ensures cap_alone { names_of (codes "c/") ≡ Ok (codes "c", []) }
    ensures empty_cap { names_of [] ≡ Ok ([], []) }
    ensures empty_name { names_of (codes "c//") ≡ Err EmptyName }
    ensures escape_first { names_of (codes "%FF//%2") ≡ Err BadEscape }
    ensures text_second { names_of (codes "%FF//a") ≡ Err NotUtf8 }
{}

/// A letter and its accent become one character (UAX 15).
pub fn an_accent_is_joined()
    ensures { names_of (codes "c/e%CC%81") ≡ Ok (codes "c", (0xC3 ∷ 0xA9 ∷ []) ∷ []) }
{}
