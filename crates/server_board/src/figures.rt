//! What is known of stores, connections and replies.
use gate_base::Tally;
use gate_core::Gateway;
use gate_limits::Counts;
use share_store::Store;
use std::alloc::{AllocError, Global};

/// What is known of a store.
#[derive(Clone, Copy, PartialEq, Eq)]
pub struct StoreFigures {
    /// How many bytes it would still take.
    pub room: u64,
    /// How many bytes it holds.
    pub held: u64,
    /// How often it failed.
    pub failures: u64,
}

/// What is known of each store, in the order of the servers.
pub fn store_figures<S: Store>(
    alloc: Global,
    gateway: &Gateway<S>,
) -> Result<Vec<StoreFigures>, AllocError> {
    let mut figures = Vec::new(alloc);
    for store in gateway.servers() {
        figures.push(StoreFigures {
            room: store.room(),
            held: store.held(),
            failures: store.failures(),
        })?;
    }
    Ok(figures)
}

/// A number and what it is called.
#[derive(Clone, Copy, PartialEq, Eq)]
pub struct Named {
    pub name: &'static str,
    pub value: u64,
}

/// A number and what it is called.
fn number(name: &'static str, value: u64) -> Named {
    Named { name, value }
}

/// What happened to connections.
pub fn connection_figures(counts: &Counts) -> [Named; 10] {
    [
        number("open", counts.open),
        number("waiting", counts.waiting),
        number("opened", counts.opened),
        number("over", counts.over),
        number("failed", counts.failed),
        number("late", counts.late),
        number("stopped", counts.stopped),
        number("replaced", counts.replaced),
        number("refused", counts.refused),
        number("accept_paused", counts.starved),
    ]
}

/// How many replies there were of each status, by its code.
pub fn reply_figures(tally: &Tally) -> [Named; 11] {
    [
        number("200", tally.ok),
        number("206", tally.partial_content),
        number("304", tally.not_modified),
        number("400", tally.bad_request),
        number("404", tally.not_found),
        number("405", tally.method_not_allowed),
        number("410", tally.gone),
        number("413", tally.content_too_large),
        number("416", tally.range_not_satisfiable),
        number("501", tally.not_implemented),
        number("503", tally.service_unavailable),
    ]
}
