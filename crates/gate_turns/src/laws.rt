//! Laws of the definitions, each on a function that does nothing.
ghost use Rattle.std.specs.Prelude.{◌≡◌, ◌≤◌, ◌<◌, ◌+◌, ◌*◌, ℕ, List, length};
ghost use Rattle.gate_turns.specs.declared.seat.Lane.{Lane};
ghost use Rattle.gate_turns.specs.Acceptors.{AcceptorsState, acceptors_before};
ghost use Rattle.gate_turns.specs.Lanes.{LanesState, AreBounded, lanes_at_round, turns_due, queued_count};
ghost use Rattle.gate_turns.specs.Before.{StandsBehind, Happening, Course, HasTurnIn, turns_before, turns_in};

/// A connection that has a turn to come is left out by nobody: it has its turn once so many others had theirs.
pub fn turns_come()
    ensures comes { (lane : Lane) (id : ℕ) (ahead : List ℕ) (s t : LanesState)
        (hs : List Happening) → Course hs s t → StandsBehind lane id ahead s →
        turns_before lane (length ahead) s < turns_in hs → HasTurnIn id hs }
    // these are no more than the rooms of as many rounds as stand before it, and two
    ensures bounded { (lane : Lane) (n : ℕ) (s : LanesState) → AreBounded s →
        turns_before lane n s ≤ (n + 2) * s.room }
    // one whose last steps were quick waits for two rounds at most
    ensures quick { (n : ℕ) (s : LanesState) → AreBounded s →
        turns_before Lane.Quick n s ≤ 2 * s.room }
    // no round is empty while somebody has a turn to come
    ensures some { (s : LanesState) → 0 < queued_count s → 0 < turns_due (lanes_at_round s) }
{}

/// The turn of an acceptor comes: fewer others stand before it than there are, and with each attempt that may be made at one, by
/// `Acceptors::next`, there are fewer.
pub fn turns_at_acceptors_come()
    ensures { (place : ℕ) (s : AcceptorsState) → s.first ≤ length s.acceptors → place < length s.acceptors →
        acceptors_before place s < length s.acceptors }
{}
