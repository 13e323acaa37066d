//! Laws, each on a function that does nothing.
ghost use Rattle.std.specs.Prelude.{◌≡◌, ◌⊎◌, ◌+◌, ◌++◌, ◌∷◌, ℕ, Bool, IsTrue, List, [], length, take, false};
ghost use Rattle.octets.specs.Sharing.{IsSharing};
ghost use Rattle.std.specs.List.{AllByRecursion};
ghost use Rattle.share_store.specs.Shares.{Shares, ShareKey};
ghost use Rattle.kept_store.specs.Calls.{after_calls, MayBeLeft, IsRun};
ghost use Rattle.kept_store.specs.Step.{IsInStep};
ghost use Rattle.kept_store.specs.declared.calls.Call.{Call};
ghost use Rattle.std.specs.FinMap as map;
ghost use Rattle.grid.specs.Standing.{Standing, standing};
ghost use Rattle.grid.specs.GridState.{GridState, stood, IsHonest};
ghost use Rattle.grid.specs.Changes.{without, spoiled};
ghost use Rattle.grid.specs.Histories.{TellsOfChange};
ghost use Rattle.http_edge.specs.FramingState.{frame_from};
ghost use Rattle.chk_file.specs.Marks.{shown};
ghost use Rattle.chk_file.specs.World.{World};
ghost use Rattle.chk_file.specs.Look.{Look, by_fit};
ghost use Rattle.gate_core.specs.Settings.{GatewaySettings, under};
ghost use Rattle.gate_core.specs.Events.{Event, handed};
ghost use Rattle.gate_core.specs.Items.{Entry, Lost, Spoiled, items, entries_of_items};
ghost use Rattle.gate_core.specs.Runs.{world_after, said_by, said};
ghost use Rattle.gate_core.specs.Reach.{only_caller, kept_by, kept};
ghost use Rattle.gate_core.specs.Apart.{Apart};
ghost use Rattle.gate_core.specs.Uploaded.{IsProper, IsLeftBy};
ghost use Rattle.gate_core.specs.ConnectionState.{ConnectionState, State, secret_at, waiting};
ghost use Rattle.gate_core.specs.Served.{IsReceived};
ghost use Rattle.gate_core.specs.Stopped.{IsCutShort};
ghost use Rattle.gate_core.specs.Came.{Starts, GoesOn};
ghost use Rattle.restarts.specs.CutOff.{IsCutOff};
ghost use Rattle.restarts.specs.Resumed.{Resumed};
ghost use Rattle.restarts.specs.Reopened.{Reopened};
ghost use Rattle.restarts.specs.Mended.{AreCutOff, Mended};
ghost use Rattle.restarts.specs.Stores.{AreLeft};
ghost use Rattle.restarts.specs.LeftIn.{AreLeftIn};
ghost use Rattle.restarts.specs.CrashedRuns.{CrashedRun, AreLived, IsHistory, Restarted, items_of};
ghost use Rattle.restarts.specs.Callers.{caller_number, all_items, told_over};

use share_shelf::Shelf;

/// A crash takes no call back that was answered: whenever it comes after these calls, it leaves what stood after them, with
/// later ones done as they were answered, and the next one done or not.
pub fn answered_calls_stay<H: Shelf>()
    // the calls up to there left the store up, and the shelf in step with it
    ensures later { (calls rest : List Call) (answers later : List Bool) (first mid last : H)
        (before stood after_all left : Shares) →
        IsRun H.moment H.left_since H.honest calls answers false first mid before stood →
        IsTrue (H.honest mid) → IsInStep H.moment H.left_since H.honest false mid stood →
        IsRun H.moment H.left_since H.honest rest later false mid last stood after_all →
        H.left_since last (H.moment mid) left →
        MayBeLeft rest later (after_calls calls answers before) left }
    // and where no call was under way, just what stood
    ensures between { (calls : List Call) (answers : List Bool) (first mid : H)
        (before stood left : Shares) →
        IsRun H.moment H.left_since H.honest calls answers false first mid before stood →
        IsTrue (H.honest mid) → IsInStep H.moment H.left_since H.honest false mid stood →
        H.left_since mid (H.moment mid) left → left ≡ after_calls calls answers before }
{}

/// Where each store was told of an item as a grid tells it, each may be left at a call of its own: at each place stands
/// what stood before the item, or what stands after it.
pub fn stores_are_cut_off()
    ensures { (settings : GatewaySettings) (w : World) (x : Entry) (maps left : List Shares) →
        standing maps ≡ shown w.marks → AreLeft settings x maps left →
        IsCutOff settings w x (standing left) }
{
    chk_file::laws::marks_follow_the_grid();
}

/// What a crash left at an item, a run leaves that goes on with that item and with losses of shares that it brought, or
/// without the item.
pub fn crashes_are_losses()
    ensures { (settings : GatewaySettings) (w : World) (x : Entry) (c : Standing) →
        IsCutOff settings w x c → Resumed settings w x c }
{
    chk_file::laws::marks_follow_the_grid();
}

/// Runs go on over a crash: the opening world of the next one is left by a run, of the items of all runs before it.
pub fn runs_go_on()
    ensures { (settings : GatewaySettings) (past first : List Entry) (opening : World) (x : Entry)
        (c : Standing) → IsLeftBy settings past opening → IsProper settings first →
        IsProper settings (x ∷ []) →
        IsCutOff settings (world_after settings opening first) x c →
        Reopened settings past first opening x c }
{
    crashes_are_losses();
    gate_core::laws::came_begins();
}

/// A restart mends a run in which stores failed, or memory ran out: items that were refused are items cut off, each an item
/// and losses of shares that it brought, or not begun. So the next run has the opening that a run leaves.
pub fn refused_items_are_mended()
    ensures { (settings : GatewaySettings) (past : List Entry) (opening : World) (entries : List Entry)
        (d : Standing) → IsLeftBy settings past opening →
        AllByRecursion (λ x. IsProper settings (x ∷ [])) entries →
        AreCutOff settings (shown opening.marks) entries d →
        Mended settings past opening entries d }
{
    crashes_are_losses();
    gate_core::laws::came_begins();
}

/// A crash inside a call of a gateway cuts items off: whatever the stores tell of the call, at whatever moment of it each
/// server is left, each item of the piece was done, cut off or not begun. It holds over honest stores, whether they have
/// room and fail or not, and so of the call as it would have ended.
pub fn calls_are_cut_off()
    // by `received` of `Gateway::bytes`
    ensures received { (old new : State) (id : ℕ) (held : ConnectionState) (piece : List ℕ) (d : Standing) →
        IsHonest old.grid → length old.grid.stores ≡ old.settings.servers →
        IsReceived old new id held piece → AreLeftIn old.grid new.grid d →
        AreCutOff old.settings (stood old.grid) (entries_of_items id
        (secret_at old.settings held) (frame_from held.conn piece)) d }
    // and what these items upload are bytes
    ensures proper { (old new : State) (id : ℕ) (held : ConnectionState) (piece : List ℕ) →
        IsSharing old.settings.k old.settings.n → IsReceived old new id held piece →
        AllByRecursion (λ x. IsProper old.settings (x ∷ [])) (entries_of_items id
        (secret_at old.settings held) (frame_from held.conn piece)) }
    // by `cut_short`, where memory runs out: of the items up to the one at which it does
    ensures cut_short { (old new : State) (id : ℕ) (held : ConnectionState) (piece : List ℕ) (d : Standing)
        (short : IsCutShort old new id held piece) →
        IsHonest old.grid → length old.grid.stores ≡ old.settings.servers →
        AreLeftIn old.grid new.grid d →
        AreCutOff old.settings (stood old.grid) (entries_of_items id (secret_at old.settings held)
        (take (short.stopped.done + 1) (frame_from held.conn piece))) d }
    // by `ok`, `err` and `history` of `Gateway::lose` and `Gateway::spoil`
    ensures lost { (settings : GatewaySettings) (server : ℕ) (key : ShareKey) (old new : GridState)
        (d : Standing) → (stood new ≡ stood old) ⊎ (stood new ≡ without server key (stood old)) →
        TellsOfChange (without server key (stood old)) old new →
        AreLeftIn old new d → AreCutOff settings (stood old) (Lost server key ∷ []) d }
    ensures spoiled { (settings : GatewaySettings) (server : ℕ) (key : ShareKey) (place : ℕ)
        (old new : GridState) (d : Standing) →
        (stood new ≡ stood old) ⊎ (stood new ≡ spoiled server key place (stood old)) →
        TellsOfChange (spoiled server key place (stood old)) old new →
        AreLeftIn old new d → AreCutOff settings (stood old) (Spoiled server key place ∷ []) d }
{
    chk_file::laws::marks_follow_the_grid();
}

/// Histories over restarts go on: with each call of a gateway that its own contract takes on, and with each crash.
pub fn histories_go_on()
    // where a gateway starts from a world
    ensures begins { (settings : GatewaySettings) (w : World) (g : State) →
        g.settings ≡ under settings g.settings.secret → IsHonest g.grid →
        Starts w g → IsHistory settings w [] g [] }
    ensures called { (settings : GatewaySettings) (w : World) (lives : List CrashedRun) (old new : State)
        (events : List Event) (e : Event) → IsHistory settings w lives old events →
        new.settings ≡ old.settings → GoesOn old new e →
        IsHistory settings w lives new (events ++ e ∷ []) }
    // The run that a crash ended is one more behind it, and a gateway over what the crash left begins the next: each item
    // of the call under way was done, cut off or not begun.
    ensures crashed { (settings : GatewaySettings) (w : World) (lives : List CrashedRun) (g : State)
        (events : List Event) (asked : List Entry) (c : Standing) (h : State) →
        IsHistory settings w lives g events →
        AllByRecursion (λ x. IsProper settings (x ∷ [])) asked →
        AreCutOff settings (shown (world_after settings (world_after settings w (items_of lives))
        (items events)).marks) asked c →
        h.settings ≡ under settings h.settings.secret →
        h.connections ≡ map.empty → length h.grid.stores ≡ h.settings.servers →
        IsHonest h.grid → stood h.grid ≡ c →
        Restarted settings w lives g events asked h }
    // So it is of a crash inside `Gateway::bytes`, at whatever moment of the call each server was left.
    ensures crashed_in_bytes { (settings : GatewaySettings) (w : World) (lives : List CrashedRun)
        (g new : State) (events : List Event) (id : ℕ) (held : ConnectionState) (piece : List ℕ)
        (c : Standing) (h : State) → IsSharing settings.k settings.n →
        IsHistory settings w lives g events → IsReceived g new id held piece →
        AreLeftIn g.grid new.grid c →
        h.settings ≡ under settings h.settings.secret →
        h.connections ≡ map.empty → length h.grid.stores ≡ h.settings.servers →
        IsHonest h.grid → stood h.grid ≡ c →
        Restarted settings w lives g events (entries_of_items id
        (secret_at g.settings held) (frame_from held.conn piece)) h }
{
    chk_file::laws::marks_follow_the_grid();
    crashes_are_losses();
    gate_core::laws::came_begins();
}

/// What callers are told over restarts is what they are told in one run of all items: those that were carried out, and of
/// each item at which a crash came its end, with the losses that stand for the crash. A caller is one connection of one
/// run: `run` of them came before its own.
pub fn callers_are_told_over_restarts()
    // connections of two runs are two callers, whatever their ids
    ensures callers { (run id other_run other_id : ℕ) →
        caller_number run id ≡ caller_number other_run other_id → (run ≡ other_run) × (id ≡ other_id) }
    // all runs together left what one run leaves, and so did each of them
    ensures left { (settings : GatewaySettings) (past : List Entry) (w : World) (lives : List CrashedRun) →
        IsLeftBy settings past w → AreLived settings w lives →
        IsLeftBy settings (past ++ items_of lives) (world_after settings w (items_of lives)) }
    // by verification, with nothing dropped and no premise on hashes
    ensures verified_whole { (settings : GatewaySettings) (w : World) (lives : List CrashedRun) (g : State)
        (events : List Event) (run id : ℕ) → IsHistory settings w lives g events →
        told_over settings run id w lives g events
        ≡ said_by by_fit settings (caller_number run id) w (all_items lives events) }
    // with the items of others dropped, save uploads under a storage index that the caller met
    ensures verified { (settings : GatewaySettings) (w : World) (lives : List CrashedRun) (g : State)
        (events : List Event) (run id : ℕ) → IsHistory settings w lives g events →
        told_over settings run id w lives g events
        ≡ said_by by_fit settings (caller_number run id) w
        (kept_by by_fit settings (only_caller (caller_number run id)) w (all_items lives events)) }
    // by the written answers, where no two of this caller's strings collide
    ensures apart { (settings : GatewaySettings) (past : List Entry) (w : World) (lives : List CrashedRun)
        (g : State) (events : List Event) (run id : ℕ) → IsHistory settings w lives g events →
        IsLeftBy settings past w →
        Apart settings (only_caller (caller_number run id)) past w (all_items lives events) →
        told_over settings run id w lives g events
        ≡ said settings (caller_number run id) w
        (kept settings (only_caller (caller_number run id)) w (all_items lives events)) }
    // the last run alone: the runs before it are a past like any other
    ensures last { (settings : GatewaySettings) (past : List Entry) (w : World) (lives : List CrashedRun)
        (g : State) (events : List Event) (caller : ℕ) → IsHistory settings w lives g events →
        IsLeftBy settings past w →
        Apart settings (only_caller caller) (past ++ items_of lives)
        (world_after settings w (items_of lives)) (items events) →
        handed caller events ++ waiting g caller
        ≡ said settings caller (world_after settings w (items_of lives))
        (kept settings (only_caller caller) (world_after settings w (items_of lives)) (items events)) }
    // what is said over runs joined is what is said in each, one after the other
    ensures said { (look : World → Look) (settings : GatewaySettings) (caller : ℕ) (opening : World)
        (past entries : List Entry) →
        said_by look settings caller opening (past ++ entries)
        ≡ said_by look settings caller opening past
        ++ said_by look settings caller (world_after settings opening past) entries }
{
    gate_core::laws::verified_isolation();
    gate_core::laws::kept_answers_are_verified();
    gate_core::laws::items_are_local();
}
