//! What holds of keys, of the text and of the name under which it stands, and of what calls answer where the server
//! does what is assumed of one.
ghost use Rattle.std.specs.FinMap as map;
ghost use Rattle.std.specs.List.{flat_map, AllZip};
ghost use Rattle.std.specs.Prelude.{◌≡◌, ◌≢◌, ◌<◌, ◌^◌, ℕ, Bool, true, List, ◌∷◌, Option, Some, All, Contains, IfSome, length};
ghost use Rattle.folder_shelf.specs.SettingsText.{AreSettings};
ghost use Rattle.folder_shelf.specs.declared.settings.StoreSettings.{StoreSettings};
ghost use Rattle.folder_shelf.specs.Names.{IsKeyInRange};
ghost use Rattle.share_store.specs.Shares.{Shares};
ghost use Rattle.share_store.specs.History.{History};
ghost use Rattle.share_store.specs.Shared.{StoodAmid, SeesAmid};
ghost use Rattle.share_store.specs.Numbers.{numbers_for};
ghost use Rattle.share_store.specs.NumberedShares.{below_limit, shares_for};
ghost use Rattle.resp.specs.declared.limits.Limits.{Limits};
ghost use Rattle.resp.specs.declared.reply.Reply.{Reply};
ghost use Rattle.resp.specs.Spelled.{SpellsReply, SpellsAll};
ghost use Rattle.redis_store.specs.Keys.{key};
ghost use Rattle.redis_store.specs.GridText.{grid_text, grid_name};
ghost use Rattle.redis_store.specs.declared.connection.Greeting.{Greeting};
ghost use Rattle.redis_store.specs.Exchanges.{Exchange, Talk};
ghost use Rattle.redis_store.specs.Commands.{get_command, delete_command, exists_command, exists_below, get_below, asked_below};
ghost use Rattle.redis_store.specs.Put.{IsPutBy};
ghost use Rattle.redis_store.specs.Told.{IsToldIn, IsSaidBy, AreSaidBy, IsShareGivenBy, AreSharesGivenBy};
ghost use Rattle.redis_store.specs.Engine.{EngineValue, EngineState, nothing, of_bytes, is_something, StoodUnder, SaysValue, IsEngineExchange};
ghost use Rattle.redis_store.specs.EngineShares.{value_share, HaveSharesAlone, AreSeenUnder, shares_seen, numbers_seen, AreKeysInRange, AreToldAmid};

/// Settings with one text are the same settings.
pub fn grids_are_told_apart()
    ensures { (s t : StoreSettings) → AreSettings s → AreSettings t → grid_text s ≡ grid_text t → s ≡ t }
{}

/// Two shares with one key are one share of one grid, whatever the grids' ids are.
pub fn keys_are_told_apart()
    ensures { (grid ours index other : List ℕ) (number another : ℕ)
        → IsKeyInRange index number → IsKeyInRange other another
        → key grid index number ≡ key ours other another
        → (grid ≡ ours) × (index ≡ other) × (number ≡ another) }
{}

/// The name under which the text stands is no share's key.
pub fn grid_name_is_no_key()
    ensures { (grid index : List ℕ) (number : ℕ) → IsKeyInRange index number
        → key grid index number ≢ grid_name grid }
{}

/// What is assumed of a server can be met: where as many names were asked for as fit 4 GiB of commands, and each reply
/// says what stood under its name in some of these states, that is an exchange of a server that was in them.
pub fn replies_of_states_meet_the_premise()
    ensures { (limits : Limits) (states : List EngineState) (names : List (List ℕ))
        (answers : List Reply) (came : List ℕ) → length (flat_map get_command names) < 2 ^ 32
        → AllZip (λ name answer. (value : EngineValue) × StoodUnder states name value
        × SaysValue value answer) names answers
        → SpellsAll (SpellsReply limits) answers came
        → IsEngineExchange states (flat_map get_command names, came) }
{
    resp::laws::commands_are_replies();
    resp::laws::one_reply();
}

/// What was told and came in a call is the last exchange over the connection, a new one's too.
pub fn calls_are_last_exchanges()
    ensures { (is_open : Bool) (first : Greeting) (old new : Talk) (commands came : List ℕ)
        (last : Exchange) (all : List Exchange) (before : List (List Exchange))
        → IsToldIn is_open first old new commands came → new ≡ Some (last ∷ all, before)
        → last ≡ (commands, came) }
{}

/// What `get` gave stood in the engine at some moment of the exchange: that share, or none.
pub fn share_given_stood()
    ensures { (is_open : Bool) (first : Greeting) (old new : Talk) (states : List EngineState)
        (name : List ℕ) (longest : ℕ) (share : Option (List ℕ))
        (by : IsShareGivenBy is_open first old new longest (get_command name) share)
        → IfSome share (λ bytes. 0 < length bytes)
        → IsEngineExchange states (get_command name, by.came)
        → (value : EngineValue) × StoodUnder states name value × (share ≡ value_share value) }
{}

/// What `gather` gave is what is seen in the engine, each number at a moment of its own.
pub fn shares_given_stood()
    ensures { (is_open : Bool) (first : Greeting) (old new : Talk) (states : List EngineState)
        (grid index : List ℕ) (count longest : ℕ) (shares : List (ℕ × List ℕ))
        (by : AreSharesGivenBy is_open first old new longest (get_below grid index count) count
        shares)
        → All (λ share. 0 < length share.1) shares
        → IsEngineExchange states (get_below grid index count, by.came)
        → (values : List EngineValue) × AreSeenUnder states grid index count values
        × (shares ≡ shares_seen 0 values) }
{}

/// What `has` answered is whether something stood in the engine at some moment of the exchange.
pub fn presence_said_stood()
    ensures { (is_open : Bool) (first : Greeting) (old new : Talk) (states : List EngineState)
        (name : List ℕ) (said : Bool)
        (by : IsSaidBy is_open first old new (exists_command name) said)
        → IsEngineExchange states (exists_command name, by.came)
        → (value : EngineValue) × StoodUnder states name value × (said ≡ is_something value) }
{}

/// What `numbers` answered are the numbers of what is seen in the engine, each at a moment of its own.
pub fn numbers_said_stood()
    ensures { (is_open : Bool) (first : Greeting) (old new : Talk) (states : List EngineState)
        (grid index : List ℕ) (count : ℕ) (numbers : List ℕ)
        (by : AreSaidBy is_open first old new (exists_below grid index count) count numbers)
        → IsEngineExchange states (exists_below grid index count, by.came)
        → (values : List EngineValue) × AreSeenUnder states grid index count values
        × (numbers ≡ numbers_seen 0 values) }
{}

/// Where `put` answered, the share's bytes stood at its place at some moment of the last exchange.
pub fn share_put_stood()
    ensures { (is_open : Bool) (first : Greeting) (old new : Talk) (states : List EngineState)
        (longest : ℕ) (name content : List ℕ) (put : Bool)
        (last : Exchange) (all : List Exchange) (before : List (List Exchange))
        → IsPutBy is_open first old new longest name content put → 0 < length content
        → new ≡ Some (last ∷ all, before) → IsEngineExchange states last
        → StoodUnder states name (of_bytes content) }
{}

/// Where `lose` answered, nothing stood at the share's place at some moment of the exchange.
pub fn share_lost_was_gone()
    ensures { (is_open : Bool) (first : Greeting) (old new : Talk) (states : List EngineState)
        (name : List ℕ) (said : Bool)
        (by : IsSaidBy is_open first old new (delete_command name) said)
        → IsEngineExchange states (delete_command name, by.came)
        → StoodUnder states name nothing }
{}

/// Over a store that tells the states of the exchange, what `get` gave is what a call sees of it.
pub fn share_given_is_seen_amid()
    ensures { (is_open : Bool) (first : Greeting) (old new : Talk) (states : List EngineState)
        (grid index : List ℕ) (number made longest : ℕ) (share : Option (List ℕ))
        (past now : History)
        (by : IsShareGivenBy is_open first old new longest
        (get_command (key grid index number)) share)
        → IfSome share (λ bytes. 0 < length bytes)
        → IsEngineExchange states (get_command (key grid index number), by.came)
        → AreToldAmid past now grid made states
        → AreKeysInRange index made → number < made
        → SeesAmid past now (λ view. share ≡ map.get view (index, number)) }
{}

/// Over a store that tells the states of the exchange, what `gather` gave is what a call sees of it: each share at a
/// moment of its own.
pub fn shares_given_are_seen_amid()
    ensures { (is_open : Bool) (first : Greeting) (old new : Talk) (states : List EngineState)
        (grid index : List ℕ) (made longest : ℕ) (limit : Option ℕ) (shares : List (ℕ × List ℕ))
        (past now : History) (state : EngineState)
        (by : AreSharesGivenBy is_open first old new longest
        (get_below grid index (asked_below limit made)) (asked_below limit made) shares)
        → All (λ share. 0 < length share.1) shares
        → IsEngineExchange states (get_below grid index (asked_below limit made), by.came)
        → AreToldAmid past now grid made states → Contains states state
        → AreKeysInRange index made
        → SeesAmid past now (λ view.
        shares ≡ below_limit (λ share. share.0) limit (shares_for view index)) }
{}

/// Over a store that tells the states of the exchange, in which nothing but shares stands under the keys, what `has`
/// answered is what a call sees of it.
pub fn presence_said_is_seen_amid()
    ensures { (is_open : Bool) (first : Greeting) (old new : Talk) (states : List EngineState)
        (grid index : List ℕ) (number made : ℕ) (said : Bool) (past now : History)
        (by : IsSaidBy is_open first old new (exists_command (key grid index number)) said)
        → IsEngineExchange states (exists_command (key grid index number), by.came)
        → AreToldAmid past now grid made states → HaveSharesAlone grid states
        → AreKeysInRange index made → number < made
        → SeesAmid past now (λ view. said ≡ map.contains_key view (index, number)) }
{}

/// The same of what `numbers` answered: each number at a moment of its own.
pub fn numbers_said_are_seen_amid()
    ensures { (is_open : Bool) (first : Greeting) (old new : Talk) (states : List EngineState)
        (grid index : List ℕ) (made : ℕ) (numbers : List ℕ)
        (past now : History) (state : EngineState)
        (by : AreSaidBy is_open first old new (exists_below grid index made) made numbers)
        → IsEngineExchange states (exists_below grid index made, by.came)
        → AreToldAmid past now grid made states → Contains states state
        → HaveSharesAlone grid states → AreKeysInRange index made
        → SeesAmid past now (λ view. numbers ≡ numbers_for view index) }
{}

/// Over a store that tells the states of the last exchange, where `put` answered, the share stood at its place at some
/// moment of the call.
pub fn share_put_stood_amid()
    ensures { (is_open : Bool) (first : Greeting) (old new : Talk) (states : List EngineState)
        (longest : ℕ) (grid index content : List ℕ) (number made : ℕ) (put : Bool)
        (last : Exchange) (all : List Exchange) (before : List (List Exchange))
        (past now : History)
        → IsPutBy is_open first old new longest (key grid index number) content put
        → 0 < length content → new ≡ Some (last ∷ all, before) → IsEngineExchange states last
        → AreToldAmid past now grid made states
        → AreKeysInRange index made → number < made
        → (c : Shares) × StoodAmid past now c × (map.get c (index, number) ≡ Some content) }
{}
