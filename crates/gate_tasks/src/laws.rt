//! What holds of the words in which scripts are defined.
ghost use Rattle.std.specs.Prelude.{◌≡◌, ◌<◌, ◌+◌, ℕ, List, [], All, Some, true};
ghost use Rattle.std.specs.List.{flat_map};
ghost use Rattle.share_store.specs.Shares.{bytes_of};
ghost use Rattle.grid.specs.Standing.{at_server};
ghost use Rattle.gate_core.specs.Events.{Event};
ghost use Rattle.gate_core.specs.Rooms.{Rooms};
ghost use Rattle.gate_core.specs.Came.{Opening};
ghost use Rattle.gate_core.specs.Uploaded.{IsLeftBy};
ghost use Rattle.gate_tasks.specs.Arguments.{Asks, IsWrong};
ghost use Rattle.gate_tasks.specs.declared.arguments.Task.{Task};
ghost use Rattle.gate_tasks.specs.declared.command.Grid.{Grid};
ghost use Rattle.gate_tasks.specs.declared.fault.UsageFault.{UsageFault};
ghost use Rattle.gate_tasks.specs.Replies.{settings_by, opening_by, are_parameters, room_of, IsOpenedBy, world_by, IsImageAfter};
ghost use Rattle.gate_tasks.specs.Lines.{lines_of, line_bytes};
ghost use Rattle.gate_tasks.specs.Text.{unescaped, escaped};

/// A text that is written is read as the bytes for which it was written.
pub fn texts_are_read_back()
    ensures { (bytes : List ℕ) → All (λ byte. byte < 256) bytes
        → unescaped (escaped bytes) ≡ Some bytes }
{}

/// The lines of a script, each with the LF that ends it, are the script.
pub fn lines_join_to_the_script()
    ensures { (script : List ℕ) → flat_map line_bytes (lines_of script) ≡ script }
{}

/// A gateway that was just set up was left so by no items. So of a run without an image, the written answers to a caller's
/// kept items need nothing but that no two strings of its part collide.
pub fn nothing_was_left_by_no_items()
    ensures { (grid : Grid) → are_parameters grid ≡ true →
        IsLeftBy (settings_by grid) [] (opening_by grid).world }
{}

/// Where the image of a run is restored for as many servers, what stood in that run stands at first, with the room that is
/// left beside it.
pub fn images_bring_what_stood()
    ensures { (grid other : Grid) (opening : Opening) (events : List Event) (bytes : List ℕ)
        (rooms : Rooms) → (image : IsImageAfter grid opening events bytes) →
        other.servers ≡ grid.servers →
        ((s : ℕ) → rooms s + at_server bytes_of image.maps s ≡ room_of other s) →
        IsOpenedBy other bytes
        (record { world = world_by grid opening events; rooms = rooms }) }
{
    grid::laws::image_laws();
}

/// Words of which one is wrong ask for nothing, and what is told of them is decided: it is the first that is wrong.
pub fn usage_laws()
    ensures nothing { (words : List (List ℕ)) (fault : UsageFault) (task : Task) →
        IsWrong words fault → ¬ (Asks words task) }
    ensures decided { (words : List (List ℕ)) (fault other : UsageFault) →
        IsWrong words fault → IsWrong words other → fault ≡ other }
{}
