//! What holds of ranges, whatever the value.
ghost use Rattle.std.specs.Prelude.{◌≡◌, ◌<◌, ◌≤◌, ℕ, List, codes};
ghost use Rattle.range_view.specs.Resolved.{resolved};
ghost use Rattle.range_view.specs.declared.range.Resolved.TheVariants.{Whole, Part, Unsatisfiable};

/// A part of a file has a byte, and lies within the file.
pub fn parts_are_within()
    ensures { (text : List ℕ) (size from to : ℕ) → resolved text size ≡ Part from to →
        (from ≤ to) × (to < size) }
{}

/// Values of each form, computed.
pub fn values_on_small_files()
    ensures middle { resolved (codes "bytes=1-2") 6 ≡ Part 1 2 }
    ensures cut { resolved (codes "Bytes=4-99") 6 ≡ Part 4 5 }
    ensures open { resolved (codes "bytes=5-") 6 ≡ Part 5 5 }
    ensures suffix { resolved (codes "bytes=-2") 6 ≡ Part 4 5 }
    ensures long_suffix { resolved (codes "bytes=-7") 6 ≡ Part 0 5 }
    ensures no_suffix { resolved (codes "bytes=-0") 6 ≡ Unsatisfiable }
    ensures past { resolved (codes "bytes=6-") 6 ≡ Unsatisfiable }
    ensures backwards { resolved (codes "bytes=5-2") 6 ≡ Whole }
    ensures several { resolved (codes "bytes=0-1,3-4") 6 ≡ Whole }
    ensures empty { resolved (codes "bytes=-5") 0 ≡ Whole }
{}
