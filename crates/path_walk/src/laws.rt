//! What holds of walks.
ghost use Rattle.std.specs.Prelude.{◌≡◌, ◌↔◌, ℕ, List, Result, Ok, Err, IfSome, Contains};
ghost use Rattle.caps.specs.declared.cap.Cap.{Cap};
ghost use Rattle.caps.specs.Fields.{ReadValue};
ghost use Rattle.file_shares.specs.Bound.{Bound};
ghost use Rattle.path_walk.specs.Walk.{FileLookup, walked, met};
ghost use Rattle.path_walk.specs.Way.{NamesLeadTo, WalkStops};
ghost use Rattle.path_walk.specs.declared.fault.WalkFault.{WalkFault};
ghost use Rattle.path_walk.specs.Agree.{GiveSameOn};
ghost use Rattle.path_walk.specs.Amid.{WalksBy};

/// Where two looks agree on the caps that a walk meets, it ends alike over both, and meets the same caps.
pub fn walks_agree_where_looks_do()
    ensures walks { (gives other : FileLookup) (cap : Cap) (names : List (List ℕ)) →
        GiveSameOn gives other (met gives cap names) →
        walked gives cap names ≡ walked other cap names }
    ensures met { (gives other : FileLookup) (cap : Cap) (names : List (List ℕ)) →
        GiveSameOn gives other (met gives cap names) →
        met gives cap names ≡ met other cap names }
{}

/// A walk meets the cap that it begins at and the one that it ends at.
pub fn walks_meet_their_ends()
    ensures beginning { (gives : FileLookup) (cap : Cap) (names : List (List ℕ)) →
        Contains (met gives cap names) cap }
    ensures end { (gives : FileLookup) (cap : Cap) (names : List (List ℕ)) (end : Cap) →
        walked gives cap names ≡ Ok end → Contains (met gives cap names) end }
{}

/// Over a look that gives only bound bytes, the names lead to the end of a walk, or stop with its fault.
pub fn bound_looks_lead()
    ensures leads { (gives : FileLookup) (cap : Cap) (names : List (List ℕ)) (end : Cap) →
        ((f : ReadValue) → IfSome (gives f) (Bound f)) → walked gives cap names ≡ Ok end →
        NamesLeadTo cap names end }
    ensures stops { (gives : FileLookup) (cap : Cap) (names : List (List ℕ)) (fault : WalkFault) →
        ((f : ReadValue) → IfSome (gives f) (Bound f)) → walked gives cap names ≡ Err fault →
        WalkStops cap names fault }
{}

/// A walk of which each step has a look of its own that gives what one look gives is the walk by that look.
pub fn like_looks_walk_as_one()
    ensures { (gives : FileLookup) (cap : Cap) (names : List (List ℕ)) (result : Result Cap WalkFault) →
        WalksBy (λ f found. found ≡ gives f) cap names result ↔ (result ≡ walked gives cap names) }
{}
