//! What holds of the code, whatever the blocks: `primary` are the primary blocks, all of `size` bytes.
ghost use Rattle.std.specs.Prelude.{◌≡◌, ◌<◌, ◌≤◌, ℕ, List, length, map, slice_index_or, All, []};
ghost use Rattle.std.specs.List.{range_with_len};
ghost use Rattle.erasure.specs.Code.{PassesThrough, AreBytes, AreBlocks, AreCoded, IsBlock};
ghost use Rattle.erasure.specs.Blocks.{size_of, block_of, primary_from};
ghost use Rattle.erasure.specs.Given.{numbers_of, blocks_of, AreNumbers, HaveOneLength};

/// The blocks `block_of` are the code, the only ones; the first are the primary blocks themselves.
pub fn blocks_are_the_code()
    ensures coded { (size n : ℕ) (primary : List (List ℕ)) → 0 < length primary
        → length primary ≤ 256 → AreBlocks size primary
        → AreCoded primary (map (λ i. block_of primary i) (range_with_len 0 n)) size }
    ensures each { (size i : ℕ) (primary : List (List ℕ)) → 0 < length primary
        → length primary ≤ 256 → AreBlocks size primary
        → IsBlock primary size i (block_of primary i) }
    ensures only { (size i : ℕ) (primary : List (List ℕ)) (block : List ℕ) → 0 < length primary
        → length primary ≤ 256
        → AreBlocks size primary → IsBlock primary size i block → block ≡ block_of primary i }
    ensures first { (size j : ℕ) (primary : List (List ℕ)) → length primary ≤ 256
        → AreBlocks size primary → j < length primary
        → block_of primary j ≡ slice_index_or primary j [] }
{}

/// The polynomial of the code is one alone.
pub fn coefficients_are_unique()
    ensures { (primary cs ds : List ℕ) → length primary ≤ 256 → PassesThrough cs primary
        → PassesThrough ds primary → cs ≡ ds }
{}

/// Any k blocks with different numbers determine the primary ones.
pub fn any_blocks_determine()
    ensures { (size : ℕ) (primary other : List (List ℕ)) (given : List (ℕ × List ℕ))
        → 0 < length primary → length primary ≤ 256
        → length other ≡ length primary → AreBlocks size primary → AreBlocks size other
        → length primary ≤ length given → AreNumbers (numbers_of given)
        → All (λ g. IsBlock primary size g.0 g.1) given
        → All (λ g. IsBlock other size g.0 g.1) given
        → primary ≡ other }
{}

/// k or more blocks of the code decode to the primary blocks.
pub fn true_blocks_decode()
    ensures { (size : ℕ) (primary : List (List ℕ)) (given : List (ℕ × List ℕ))
        → 0 < length primary → length primary ≤ 256
        → AreBlocks size primary → length primary ≤ length given → AreNumbers (numbers_of given)
        → All (λ g. g.1 ≡ block_of primary g.0) given
        → primary_from (length primary) given ≡ primary }
{}

/// k blocks with different numbers and of one length are the blocks, at their numbers, of the primary blocks that they
/// decode to, which are k and of that length.
pub fn decoded_blocks_are_the_given()
    ensures count { (k : ℕ) (given : List (ℕ × List ℕ)) → length (primary_from k given) ≡ k }
    ensures primary { (k : ℕ) (given : List (ℕ × List ℕ))
        → AreBlocks (size_of (blocks_of given)) (primary_from k given) }
    ensures given { (k : ℕ) (given : List (ℕ × List ℕ)) → 0 < k → k ≤ 256 → length given ≡ k
        → AreNumbers (numbers_of given) → HaveOneLength (blocks_of given)
        → All AreBytes (blocks_of given)
        → All (λ g. g.1 ≡ block_of (primary_from k given) g.0) given }
{}
