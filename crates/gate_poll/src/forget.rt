//! How connections that are over are forgotten at their gateway.
ghost use Rattle.std.specs.Prelude.{◌+◌, ℕ};
ghost use Rattle.gate_flow.specs.Hosted.{IsForgotten, IsHosted};

use gate_flow::Lobby;
use share_store::Store;

/// What forgets connections at a gateway. The loop is proved over any of these: so it can only say of a connection that it
/// was forgotten where it called for that.
pub trait Forget {
    /// It was called for this connection.
    ghost forgot: { Self → ℕ → Type 0 };

    /// Lets go of what a gateway holds of a connection that was closed, if memory lasts.
    fn forget<S: Store>(&mut self, lobby: &mut Lobby<S>, id: u64)
        ensures forgot { forgot self.new id }
        ensures still { (other : ℕ) → forgot self.old other → forgot self.new other }
        ensures forgotten { IsForgotten id lobby.old lobby.new }
        ensures hosted { IsHosted id (id + 1) lobby.old lobby.new };
}

/// Forgets connections as a lobby does.
#[derive(Clone, Copy, PartialEq, Eq)]
pub struct Forgetter;

impl Forget for Forgetter {
    ghost forgot = { λ _ _. Unit {0} };

    fn forget<S: Store>(&mut self, lobby: &mut Lobby<S>, id: u64) {
        lobby.forget(id);
    }
}
