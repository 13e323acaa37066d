//! What holds of an object that is cut.
ghost use Rattle.std.specs.Prelude.{◌≡◌, ◌+◌, ◌<◌, ◌≤◌, ◌↔◌, ℕ, true, List, [], ◌∷◌, ◌++◌, length, codes, Option, Some, None};
ghost use Rattle.json.specs.Token.{Token, begin_object};
ghost use Rattle.json.specs.Json.{Json, number, array, object, no_items, no_members, member, document, max_depth};
ghost use Rattle.json.specs.Lex.{Mode, between, tokens};
ghost use Rattle.json_stack.specs.Machine.{whole_value};
ghost use Rattle.json_seams.specs.Modes.{mode_after};
ghost use Rattle.json_members.specs.Brackets.{bracket_depth};
ghost use Rattle.json_members.specs.MemberCuts.{IsMemberCutFrom, IsMemberCut, first_token, front_object, back_object, opens_object};
ghost use Rattle.json_members.specs.JoinedObjects.{joined_objects};

/// A text that begins an object and is cut at a comma between members of the outermost object is what the objects of both
/// parts are together, for every number of levels.
pub fn a_cut_object_is_joined()
    ensures value { (depth : ℕ) (text : List ℕ) (at : ℕ) → IsMemberCut text at
        → first_token (tokens text) ≡ Some begin_object
        → whole_value depth (tokens text)
        ≡ joined_objects (whole_value depth (tokens (front_object text at)))
        (whole_value depth (tokens (back_object text at))) }
    ensures document { (text : List ℕ) (at : ℕ) → IsMemberCut text at
        → first_token (tokens text) ≡ Some begin_object
        → document text
        ≡ joined_objects (document (front_object text at)) (document (back_object text at)) }
{
    json_seams::laws::a_cut_text_is_joined();
    json_stack::laws::machine_reads_the_grammar();
    json_stack::laws::pieces_are_read_on();
    json_stack::laws::stack_is_bounded();
}

/// The first token opens an object where the first byte that is no white space is a brace that opens: so it does in a text
/// of which the first bytes have it, and in what stands behind a cut.
pub fn objects_begin_with_a_brace()
    ensures first { (text : List ℕ) → first_token (tokens text) ≡ Some begin_object
        ↔ opens_object text ≡ true }
    ensures front { (front back : List ℕ) → opens_object front ≡ true
        → opens_object (front ++ back) ≡ true }
    ensures back { (text : List ℕ) (at : ℕ) → opens_object (back_object text at) ≡ true }
{}

/// A text may be looked through in parts: the count of open brackets goes on from one part to the next, and so do the
/// places of member cuts. The cuts among the first bytes of a text, and what stands before each, are the same whatever
/// follows. A byte opens one bracket at most.
pub fn member_cuts_are_found_in_parts()
    ensures depths { (mode : Mode) (depth : ℕ) (before bytes : List ℕ)
        → bracket_depth mode depth (before ++ bytes)
        ≡ bracket_depth (mode_after mode before) (bracket_depth mode depth before) bytes }
    ensures places { (mode : Mode) (depth : ℕ) (before bytes : List ℕ) (at : ℕ)
        → IsMemberCutFrom (mode_after mode before) (bracket_depth mode depth before) bytes at
        ↔ IsMemberCutFrom mode depth (before ++ bytes) (length before + at) }
    ensures in_front { (mode : Mode) (depth : ℕ) (front back : List ℕ) (at : ℕ) → at < length front
        → IsMemberCutFrom mode depth front at ↔ IsMemberCutFrom mode depth (front ++ back) at }
    ensures front_same { (front back : List ℕ) (at : ℕ) → at < length front
        → front_object (front ++ back) at ≡ front_object front at }
    ensures bounded { (mode : Mode) (depth : ℕ) (bytes : List ℕ)
        → bracket_depth mode depth bytes ≤ depth + length bytes }
{
    json_seams::laws::cuts_are_found_in_parts();
}

/// What stands behind a cut, as an object of its own, may be cut where the whole text may be cut behind it, and nowhere
/// else; and behind its cut stands what stands behind that of the whole.
pub fn cuts_go_on()
    ensures cuts { (text : List ℕ) (at place : ℕ) → IsMemberCut text at
        → IsMemberCut (back_object text at) (place + 1) ↔ IsMemberCut text (at + 1 + place) }
    ensures back { (text : List ℕ) (at place : ℕ)
        → back_object (back_object text at) (place + 1) ≡ back_object text (at + 1 + place) }
{
    json_seams::laws::cuts_are_found_in_parts();
}

/// More than two objects are joined from the first on or from the last on: both give the same.
pub fn objects_are_joined_in_turn()
    ensures { (first second third : Option Json)
        → joined_objects (joined_objects first second) third
        ≡ joined_objects first (joined_objects second third) }
{}

/// How small objects are joined, and where brackets are open.
pub fn small_objects_are_cut()
    ensures whole { joined_objects (document (codes "{\"a\":[]}")) (document (codes "{\"a\":1}"))
        ≡ Some (object (member (codes "a") (array no_items)
        (member (codes "a") (number (codes "1")) no_members))) }
    ensures none_before { joined_objects (document (codes "{}")) (document (codes "{\"a\":1}"))
        ≡ None }
    ensures none_behind { joined_objects (document (codes "{\"a\":1}")) (document (codes "{}"))
        ≡ None }
    ensures no_object { joined_objects (document (codes "{\"a\":1}")) (document (codes "[1]"))
        ≡ None }
    ensures open { bracket_depth between 0 (codes "{\"a\":[{") ≡ 3 }
    ensures closed { bracket_depth between 0 (codes "{\"a\":[{}]") ≡ 1 }
    ensures in_string { bracket_depth between 0 (codes "{\"{[\\\"[") ≡ 1 }
    ensures none_open { bracket_depth between 0 (codes "]{") ≡ 1 }
{}
