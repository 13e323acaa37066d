//! A store whose shares are out of reach.
ghost use Rattle.std.specs.Prelude.{◌≡◌, IsTrue, true};
ghost use Rattle.std.specs.FinMap as map;
ghost use Rattle.share_store.specs.Schedule.{failing_call, fails_for_good};

use share_store::{FailAt, MemStore, Store};
use std::alloc::Global;

/// A store whose shares are out of reach, as those in a folder whose disk is gone: it has nothing and no room, and each call
/// fails, for as long as 64 bits count its failures; after them a put is refused for want of room. It is honest: an empty
/// map that is down. Answers that hold nothing take memory from `alloc`.
pub fn unreachable_store(alloc: Global) -> FailAt
    ensures honest { IsTrue (⟦<FailAt as Store>⟧.honest result) }
    ensures shares { ⟦<FailAt as Store>⟧.shares result ≡ map.empty }
    ensures room { ⟦<FailAt as Store>⟧.room result ≡ 0 }
    ensures failures { ⟦<FailAt as Store>⟧.failures result ≡ 0 }
    ensures next { failing_call result ≡ 1 }
    ensures for_good { fails_for_good result ≡ true }
{
    FailAt::new(alloc, MemStore::new(alloc, 0), 1, true)
}
