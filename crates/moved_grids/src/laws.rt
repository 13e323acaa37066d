//! Laws, each on a function that does nothing.
ghost use Rattle.std.specs.Prelude.{◌≡◌, ℕ, List};
ghost use Rattle.share_store.specs.Shares.{Shares};
ghost use Rattle.grid.specs.Standing.{Standing, standing};
ghost use Rattle.chk_file.specs.Marks.{shown};
ghost use Rattle.chk_file.specs.World.{World};
ghost use Rattle.gate_core.specs.Settings.{GatewaySettings};
ghost use Rattle.gate_core.specs.Items.{Entry};
ghost use Rattle.gate_core.specs.Uploaded.{IsLeftBy};
ghost use Rattle.share_moves.specs.Moves.{moved_shares};
ghost use Rattle.moved_grids.specs.MovedRuns.{MovedWorld, IsPartOf, IsLeftMoved};

/// The shares that a run left, laid among another number of servers, are those that a run with that many servers leaves:
/// the same uploads, and the operator's changes of shares in their new places. So a gateway over them starts from its
/// world, and each file is there as it was.
pub fn moved_grids_are_left()
    ensures whole { (settings : GatewaySettings) (count : ℕ) (past : List Entry) (w : World)
        (maps : List Shares) → IsLeftBy settings past w → standing maps ≡ shown w.marks →
        MovedWorld settings count past w (moved_shares count maps) }
    // and where some of them weren't laid, as those whose files are rotten, these are losses
    ensures partly { (settings : GatewaySettings) (count : ℕ) (past : List Entry) (w : World)
        (maps : List Shares) (c : Standing) → IsLeftBy settings past w →
        standing maps ≡ shown w.marks → IsPartOf (moved_shares count maps) c →
        IsLeftMoved settings count past w c }
{
    share_moves::laws::one_share_is_moved();
    gate_core::laws::came_begins();
}
