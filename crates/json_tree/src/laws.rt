//! What holds of a builder that took tokens from the first on.
ghost use Rattle.std.specs.Prelude.{◌≡◌, ℕ, negsuc, List, [], ◌∷◌, ◌++◌, codes, Result, Some, None, option_map};
ghost use Rattle.std.specs.Result.{result_ok};
ghost use Rattle.json.specs.Token.{Token};
ghost use Rattle.json.specs.Lex.{tokens};
ghost use Rattle.json_stack.specs.Machine.{state_after, start_state};
ghost use Rattle.serde_json.specs.Data.{null, negative, number, string, array, object, no_items, item, no_members, member};
ghost use Rattle.serde_json.specs.Read.{max_depth, read};
ghost use Rattle.serde_json.specs.View.{view};
ghost use Rattle.serde_json.specs.declared.value.Value.{Value};
ghost use Rattle.json_tree.specs.Builders.{FollowsStack, FollowsToken, HasNoValueWith, StaysThere, IsFinished, HasTakenTokens, built_data};
ghost use Rattle.json_tree.specs.Parts.{part_count};
ghost use Rattle.json_tree.specs.declared.builder.TreeBuilder.{TreeBuilder};

/// A builder takes tokens one after the other. What it comes to is the data that they are by the grammar, and after one that
/// it refused no tokens are a value. Those of a text are what `serde_json` reads.
pub fn builders_read_the_grammar()
    ensures begins { (levels : ℕ) (builder : TreeBuilder)
        → FollowsStack (start_state levels) builder → HasTakenTokens levels [] builder }
    ensures goes_on { (levels : ℕ) (ts : List Token) (t : Token) (old new : TreeBuilder)
        → HasTakenTokens levels ts old → FollowsToken old t new
        → HasTakenTokens levels (ts ++ t ∷ []) new }
    ensures stays { (levels : ℕ) (ts : List Token) (old new : TreeBuilder)
        → HasTakenTokens levels ts old → StaysThere old new → HasTakenTokens levels ts new }
    ensures refuses { (levels : ℕ) (ts more : List Token) (t : Token) (builder : TreeBuilder)
        → HasTakenTokens levels ts builder → HasNoValueWith builder t
        → built_data levels (ts ++ t ∷ more) ≡ None }
    ensures finishes { (levels : ℕ) (ts : List Token) (builder : TreeBuilder)
        (result : Result Value TreeBuilder) → HasTakenTokens levels ts builder
        → IsFinished (state_after (start_state levels) ts) builder result
        → option_map view (result_ok result) ≡ built_data levels ts }
    ensures text { (text : List ℕ) → built_data max_depth (tokens text) ≡ read text }
{
    json_stack::laws::machine_reads_the_grammar();
    json_stack::laws::pieces_are_read_on();
}

/// What small texts are, with keys in any order, and how many parts their values have.
pub fn small_texts_are_built()
    ensures keys { built_data 1 (tokens (codes "{\"b\":1,\"a\":-2,\"b\":\"c\"}"))
        ≡ Some (object (member (codes "a") (number (negative (negsuc 1)))
        (member (codes "b") (string (codes "c")) no_members))) }
    ensures levels { built_data 1 (tokens (codes "[[]]")) ≡ None }
    ensures order { built_data 2 (tokens (codes "{\"a\" [}")) ≡ None }
    ensures parts { part_count (array (item null (item (object no_members) no_items))) ≡ 5 }
{}
