//! Telling of stores that fail, and of those that no longer do.
ghost use Rattle.std.specs.Prelude.{◌≡◌, ◌<◌, ◌≤◌, ◌+◌, ◌↔◌};

use gate_core::Gateway;
use log::{Log, info, warn};
use share_store::Store;
use std::alloc::Global;

/// How many looks in turn find no failure before a store that failed is told to fail no more: ten seconds of looks.
const QUIET_LOOKS: u32 = 20;

/// What a look at a store has to tell.
#[derive(Clone, Copy, PartialEq, Eq)]
pub(crate) enum News {
    /// Nothing.
    Nothing,
    /// The store fails, and it is the first failure that is told, or the first since it was told to fail no more.
    Fails,
    /// A store that failed has not for so many looks.
    FailsNoMore,
}

/// What was seen of a store: its count of failures, and how many looks in turn found no other.
#[derive(Clone, Copy)]
pub(crate) struct StoreFailures {
    failures: u64,
    quiet: u32,
}

impl StoreFailures {
    /// A store that never failed.
    fn never_failed() -> StoreFailures
        ensures failures { result.failures ≡ 0 }
        ensures quiet { result.quiet ≡ 20 }
    {
        StoreFailures {
            failures: 0,
            quiet: QUIET_LOOKS,
        }
    }

    /// What its count of failures has to tell now.
    fn look(&mut self, failures: u64) -> News
        ensures fails { (result ≡ News.Fails)
            ↔ ((self.old.failures < failures) × (20 ≤ self.old.quiet)) }
        ensures no_more { (result ≡ News.FailsNoMore)
            ↔ ((failures ≤ self.old.failures) × (self.old.quiet + 1 ≡ 20)) }
        ensures loud { self.old.failures < failures →
            (self.new.failures ≡ failures) × (self.new.quiet ≡ 0) }
        ensures same { failures ≤ self.old.failures → self.new.failures ≡ self.old.failures }
        ensures counts { failures ≤ self.old.failures → self.old.quiet < 20 →
            self.new.quiet ≡ self.old.quiet + 1 }
        ensures stays { failures ≤ self.old.failures → 20 ≤ self.old.quiet →
            self.new.quiet ≡ self.old.quiet }
    {
        if self.failures < failures {
            let was_quiet = self.quiet >= QUIET_LOOKS;
            self.failures = failures;
            self.quiet = 0;
            if was_quiet {
                return News::Fails;
            }
            return News::Nothing;
        }
        if self.quiet >= QUIET_LOOKS {
            return News::Nothing;
        }
        self.quiet += 1;
        if self.quiet == QUIET_LOOKS {
            return News::FailsNoMore;
        }
        News::Nothing
    }
}

/// What was seen of each store.
#[derive(Drop)]
pub struct Watch {
    seen: Vec<StoreFailures>,
}

impl Watch {
    /// None was seen yet.
    pub fn new(alloc: Global) -> Watch {
        Watch {
            seen: Vec::new(alloc),
        }
    }

    /// Looks at each store, and logs one that fails, by its number among the servers, from 0: once when it begins to
    /// fail, and once when it hasn't failed for ten seconds. Where memory is refused the stores that are new are left
    /// for the next time.
    pub fn look<S: Store, R: Log>(&mut self, rt: &R, gateway: &Gateway<S>) {
        for (server, store) in gateway.servers().iter().enumerate() {
            let failures = store.failures();
            if self.seen.len() <= server {
                let Ok(()) = self.seen.push(StoreFailures::never_failed()) else {
                    return;
                };
            }
            if let Some(seen) = self.seen.get_mut(server) {
                tell(rt, server, failures, seen.look(failures));
            }
        }
    }
}

/// Logs the news of a store.
fn tell<R: Log>(rt: &R, server: usize, failures: u64, news: News) {
    match news {
        News::Nothing => {}
        News::Fails => warn!(rt; "store {} fails: {} times so far", server, failures),
        News::FailsNoMore => {
            info!(rt; "store {} no longer fails: {} times so far", server, failures);
        }
    }
}
