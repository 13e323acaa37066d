//! Laws, each on a function that does nothing.
ghost use Rattle.std.specs.Prelude.{◌≡◌, ◌++◌, ◌∷◌, ℕ, List, [], take, Option, Some, None, unwrap_or};
ghost use Rattle.std.specs.List.{AllByRecursion};
ghost use Rattle.gate_core.specs.declared.stage.Stage.TheVariants.{Open as OpenStage};
ghost use Rattle.http_edge.specs.declared.item.Item.{Item};
ghost use Rattle.share_store.specs.Shares.{Shares, ShareKey};
ghost use Rattle.grid.specs.Standing.{Standing, standing};
ghost use Rattle.grid.specs.GridState.{GridState, NoneFailed};
ghost use Rattle.grid.specs.Views.{AllTell, AreViews};
ghost use Rattle.chk_file.specs.Upload.{Upload};
ghost use Rattle.chk_file.specs.Marks.{shown};
ghost use Rattle.chk_file.specs.World.{World};
ghost use Rattle.chk_file.specs.Look.{look_in, by_held};
ghost use Rattle.gate_core.specs.Settings.{GatewaySettings, under};
ghost use Rattle.gate_core.specs.Events.{Event, Open, Bytes, End, Take};
ghost use Rattle.gate_core.specs.Items.{Entry, Asked};
ghost use Rattle.gate_core.specs.Runs.{upload_by, after_entry, world_after, told};
ghost use Rattle.gate_core.specs.Reach.{only_caller};
ghost use Rattle.gate_core.specs.Apart.{Apart};
ghost use Rattle.gate_core.specs.Uploaded.{IsProper, IsLeftBy};
ghost use Rattle.gate_core.specs.ConnectionState.{ConnectionState, State, connection_at};
ghost use Rattle.gate_core.specs.AfterCall.{with_held, opened, taken, ended_state};
ghost use Rattle.gate_core.specs.Served.{IsReceived};
ghost use Rattle.gate_core.specs.Came.{Opening, Came, IsRoomy};
ghost use Rattle.restarts.specs.Mended.{AreCutOff};
ghost use Rattle.many_gates.specs.Changes.{Change, item_of_change, items_of_changes, all_changed};
ghost use Rattle.many_gates.specs.Seen.{IsSeen, SeenOf, IsPut, AllStandIn};
ghost use Rattle.many_gates.specs.Looks.{AreChangedBy};
ghost use Rattle.many_gates.specs.Parts.{IsOneOfThem, GoesOnTogether};

/// What a call sees of stores that gateways change is seen so, each place at a moment of its own.
pub fn calls_see_what_changes_leave()
    ensures { (settings : GatewaySettings) (changes : List Change) (before : Standing)
        (old new : GridState) (views : List Shares) → AllTell old →
        AreViews old.stores new.stores views → AreChangedBy settings changes before old new →
        IsSeen settings changes before (standing views) }
{}

/// What is seen while others change a grid, each place at a moment of its own, is what stands where each of the items
/// under way was cut off, done, or not begun.
pub fn looks_see_items_cut_off()
    ensures { (settings : GatewaySettings) (changes : List Change) (before seen : Standing) →
        IsSeen settings changes before seen →
        AreCutOff settings before (items_of_changes changes) seen }
{
    chk_file::laws::marks_follow_the_grid();
}

/// So it is what a run leaves: all items that were done before, whole, and ends of those under way.
pub fn looks_are_at_runs()
    ensures { (settings : GatewaySettings) (past : List Entry) (w : World) (changes : List Change)
        (seen : Standing) → IsLeftBy settings past w →
        AllByRecursion (λ x. IsProper settings (item_of_change x ∷ [])) changes →
        IsSeen settings changes (shown w.marks) seen → SeenOf settings past w changes seen }
{
    looks_see_items_cut_off();
    restarts::laws::crashes_are_losses();
}

/// Where only gateways change the grid, a look finds what stood when it began, and what it finds stands when it ends:
/// no share goes away.
pub fn looks_lie_between()
    ensures seen { (settings : GatewaySettings) (changes : List Change) (before seen : Standing) (s : ℕ)
        (q : ShareKey) (bytes : List ℕ) → AllByRecursion IsPut changes →
        IsSeen settings changes before seen → before s q ≡ Some bytes → seen s q ≡ Some bytes }
    ensures stands { (settings : GatewaySettings) (changes : List Change) (before seen : Standing)
        (s : ℕ) (q : ShareKey) (bytes : List ℕ) → AllByRecursion IsPut changes →
        IsSeen settings changes before seen → seen s q ≡ Some bytes →
        all_changed settings changes before s q ≡ Some bytes }
{}

/// An upload of which a share of each number stands is done: the run may have it whole.
pub fn whole_uploads_are_done()
    ensures { (settings : GatewaySettings) (w : World) (id : ℕ) (secret : List ℕ) (item : Item)
        (u : Upload) → upload_by (under settings secret) item ≡ Some u →
        AllStandIn settings.servers u (shown w.marks) →
        shown (after_entry settings (Asked id secret item) w).marks ≡ shown w.marks }
{
    chk_file::laws::marks_follow_the_grid();
}

/// An item that is answered by what was seen so is told what the written answers say in the world that this run
/// leaves, where no two of its strings collide.
pub fn answers_are_written_ones()
    ensures { (settings : GatewaySettings) (past : List Entry) (w : World) (changes : List Change)
        (seen : Standing) (run : SeenOf settings past w changes seen) (caller : ℕ) (x : Entry) →
        IsProper settings (x ∷ []) →
        Apart settings (only_caller caller) (past ++ run.ends) (world_after settings w run.ends) (x ∷ []) →
        told settings (look_in seen) caller x
        ≡ told settings (by_held (world_after settings w run.ends)) caller x }
{
    gate_core::laws::kept_answers_are_verified();
}

/// Where each call is one step on the grid that several gateways share, they are one gateway: so the theorem holds of
/// all their calls, in the order in which they were made.
pub fn gateways_are_one()
    ensures received { (opening : Opening) (all part new : State) (events : List Event) (id : ℕ)
        (held : ConnectionState) (piece : List ℕ) → Came opening all events → IsOneOfThem part all →
        connection_at part id ≡ Some held → held.stage ≡ OpenStage →
        IsReceived part new id held piece →
        IsRoomy all.settings opening (events ++ Bytes id piece ∷ []) →
        NoneFailed part.grid new.grid →
        GoesOnTogether opening all new id events (Bytes id piece) }
    // a connection that no other gateway has
    ensures opened { (opening : Opening) (all part : State) (events : List Event) (id : ℕ)
        (secret : Option (List ℕ)) → Came opening all events → IsOneOfThem part all →
        connection_at all id ≡ None →
        GoesOnTogether opening all (with_held part id (opened secret)) id events
        (Open id (unwrap_or secret all.settings.secret)) }
    ensures taken { (opening : Opening) (all part : State) (events : List Event) (id max : ℕ)
        (held : ConnectionState) → Came opening all events → IsOneOfThem part all →
        connection_at part id ≡ Some held →
        GoesOnTogether opening all (with_held part id (taken max held)) id events
        (Take id (take max held.waiting)) }
    ensures ended { (opening : Opening) (all part : State) (events : List Event) (id : ℕ)
        (held : ConnectionState) → Came opening all events → IsOneOfThem part all →
        connection_at part id ≡ Some held →
        GoesOnTogether opening all (with_held part id (ended_state held)) id events (End id) }
{
    gate_core::laws::came_goes_on();
}
