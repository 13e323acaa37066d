//! Laws of the definitions, each on a function that does nothing.
ghost use Rattle.std.specs.Prelude.{◌≡◌, ◌+◌, ◌^◌, ◌<◌, ◌≤◌, ℕ, List, [], ◌∷◌, length, take, drop, slice_index_or, All};
ghost use Rattle.tag_hash.specs.Collisions.{NoCollision, Includes};
ghost use Rattle.tag_hash.specs.Use.{Use};
ghost use Rattle.merkle.specs.Chain.{chain};
ghost use Rattle.merkle.specs.Height.{height};
ghost use Rattle.merkle.specs.Leads.{Leads, leads_uses};
ghost use Rattle.merkle.specs.Node.{node};
ghost use Rattle.merkle.specs.Tree.{root, root_uses, padded};

/// So many leaves fit a tree of their height, and no lower one.
pub fn heights_are_the_least()
    ensures fits { (count : ℕ) → count ≤ 2 ^ height count }
    ensures least { (count levels : ℕ) → count ≤ 2 ^ levels → height count ≤ levels }
{}

/// The root of one leaf is the leaf, of twice as many the node over the roots of both halves, and of any
/// list that of the list with its padding.
pub fn roots_go_by_halves()
    ensures one { (leaf : List ℕ) → root (leaf ∷ []) ≡ leaf }
    ensures halves { (levels : ℕ) (leaves : List (List ℕ)) → length leaves ≡ 2 ^ (levels + 1) →
        root leaves ≡ node (root (take (2 ^ levels) leaves)) (root (drop (2 ^ levels) leaves)) }
    ensures padding { (leaves : List (List ℕ)) → root (padded leaves) ≡ root leaves }
    ensures padded { (leaves : List (List ℕ))
        → length (padded leaves) ≡ 2 ^ height (length leaves) }
{}

/// Where the leaves are hashes of 32 bytes, so are the root and the chains.
pub fn hashes_have_32_bytes()
    ensures root { (leaves : List (List ℕ)) → All (λ leaf. length leaf ≡ 32) leaves
        → length (root leaves) ≡ 32 }
    ensures chain { (leaves : List (List ℕ)) (place : ℕ) → All (λ leaf. length leaf ≡ 32) leaves →
        All (λ hash. length hash ≡ 32) (chain leaves place) }
{}

/// Each leaf leads to the root by its own chain, which is as long as the tree is high, and what is
/// hashed on the way is hashed for the root.
pub fn chains_lead_to_the_root()
    ensures leads { (leaves : List (List ℕ)) (place : ℕ) → place < length leaves →
        Leads (root leaves) place (slice_index_or leaves place []) (chain leaves place) }
    ensures high { (leaves : List (List ℕ)) (place : ℕ)
        → length (chain leaves place) ≡ height (length leaves) }
    ensures uses { (leaves : List (List ℕ)) (place : ℕ) → place < length leaves →
        Includes (root_uses leaves)
        (leads_uses place (slice_index_or leaves place []) (chain leaves place)) }
{}

/// Where no two uses collide, lists of as many leaves with one root are one list.
pub fn roots_fix_their_leaves()
    ensures { (uses : List Use) (leaves others : List (List ℕ)) → NoCollision uses →
        Includes uses (root_uses leaves) → Includes uses (root_uses others) →
        length leaves ≡ length others → root leaves ≡ root others → leaves ≡ others }
{}

/// Where no two uses collide, a chain as long as the tree is high that leads to the root of a list from
/// a place is that list's chain there, and the leaf is that list's leaf.
pub fn roots_fix_their_chains()
    ensures { (uses : List Use) (leaves : List (List ℕ)) (place : ℕ) (leaf : List ℕ)
        (hashes : List (List ℕ)) →
        NoCollision uses → Includes uses (root_uses leaves)
        → Includes uses (leads_uses place leaf hashes) →
        place < length leaves → length hashes ≡ height (length leaves)
        → Leads (root leaves) place leaf hashes →
        (leaf ≡ slice_index_or leaves place []) × (hashes ≡ chain leaves place) }
{}
