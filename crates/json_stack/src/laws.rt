//! What holds of the machine, whatever the tokens.
ghost use Rattle.std.specs.Prelude.{◌≡◌, ◌+◌, ℕ, true, List, [], ◌∷◌, ◌++◌, length, codes, Some, None};
ghost use Rattle.json.specs.Token.{Token};
ghost use Rattle.json.specs.Json.{Json, null, boolean, number, array, object, no_items, item, no_members, member, document, max_depth};
ghost use Rattle.json.specs.Lex.{tokens};
ghost use Rattle.json_stack.specs.Machine.{Frame, in_array, in_object, in_member, StackState, reading, done, failed, state_after, start_state, result_of, whole_value};

/// The grammar reads a whole value, with nothing behind it, exactly where the machine ends with that value.
pub fn machine_reads_the_grammar()
    ensures value { (depth : ℕ) (ts : List Token)
        → whole_value depth ts ≡ result_of (state_after (start_state depth) ts) }
    ensures document { (text : List ℕ)
        → document text ≡ result_of (state_after (start_state max_depth) (tokens text)) }
{}

/// Tokens may come in pieces. What has failed stays failed, and nothing may stand behind a whole value.
pub fn pieces_are_read_on()
    ensures joined { (s : StackState) (front back : List Token)
        → state_after s (front ++ back) ≡ state_after (state_after s front) back }
    ensures stays_failed { (ts : List Token) → state_after failed ts ≡ failed }
    ensures nothing_behind { (j : Json) (t : Token) (ts : List Token)
        → state_after (done j) (t ∷ ts) ≡ failed }
{}

/// The machine fails with the first token with which no value begins: after it none is read, whatever follows, and
/// while a value is being read, there are tokens that bring it to its end.
pub fn faults_are_met_at_once()
    ensures none_follows { (depth : ℕ) (front back : List Token)
        → state_after (start_state depth) front ≡ failed
        → whole_value depth (front ++ back) ≡ None }
    ensures some_follows { (depth : ℕ) (front : List Token) (room : ℕ) (frames : List Frame)
        → state_after (start_state depth) front ≡ reading room frames
        → (back : List Token) × (j : Json) × (whole_value depth (front ++ back) ≡ Some j) }
{}

/// The arrays and objects that are open, and the levels that are left, are as many as the levels that were allowed.
pub fn stack_is_bounded()
    ensures { (depth : ℕ) (ts : List Token) (room : ℕ) (frames : List Frame)
        → state_after (start_state depth) ts ≡ reading room frames
        → length frames + room ≡ depth }
{}

/// What the machine comes to, on small texts.
pub fn small_texts()
    ensures whole { state_after (start_state 2) (tokens (codes "{\"a\":[1,null],\"a\":true}"))
        ≡ done (object (member (codes "a")
        (array (item (number (codes "1")) (item null no_items)))
        (member (codes "a") (boolean true) no_members))) }
    ensures half { state_after (start_state 3) (tokens (codes "[[],{\"a\":"))
        ≡ reading 1 (in_member no_members (codes "a")
        ∷ in_array (item (array no_items) no_items) ∷ []) }
    ensures deep { state_after (start_state 2) (Token.begin_array ∷ Token.begin_array ∷ [])
        ≡ reading 0 (in_array no_items ∷ in_array no_items ∷ []) }
    ensures too_deep { state_after (start_state 1) (Token.begin_array ∷ Token.begin_array ∷ [])
        ≡ failed }
    ensures key_awaited { state_after (start_state 1) (Token.begin_object ∷ Token.null ∷ [])
        ≡ failed }
{}
