//! Several connections at once.
ghost use Rattle.std.specs.Prelude.{◌≡◌, ◌≢◌, ◌≤◌, ℕ, length, slice_get, vec_len, IfOk};

use crate::redial::{Dial, Redialing};
use client_core::{Answer, Ask, Exchange, LinkFault};
use std::alloc::{AllocError, Global};

/// A gateway that is asked over several connections at once, each of which is opened when it is needed. A request that is sent
/// ahead on a lane goes over the lane's own connection, and what comes over that is its answer and no other one's. All else
/// goes over the first.
#[derive(Drop)]
pub struct Lanes<'a, D: Dial + Drop> {
    /// The connection of each lane.
    pub links: Vec<Redialing<'a, D>>,
}

impl<'a, D: Dial + Drop> Lanes<'a, D> {
    /// A gateway to which no connection is open, at a host as it stands in its URL. There is a lane for each dialer.
    pub fn new(alloc: Global, host: &'a str, dialers: Vec<D>) -> Result<Self, AllocError>
        ensures { IfOk result (λ gateway. length gateway.links.items ≡ length dialers.items) }
    {
        let mut links = Vec::new(alloc);
        for dial in dialers {
            links.push(Redialing::new(alloc, host, dial))?;
        }
        Ok(Lanes { links })
    }
}

impl<D: Dial + Drop> Exchange for Lanes<'_, D> {
    fn ask(&mut self, ask: &Ask, body: &[u8], most: u64) -> Result<Answer, LinkFault>
        ensures most { IfOk result (λ answer. length answer.body ≤ most) }
        ensures own { (i : ℕ) → i ≢ 0 →
            slice_get self.new.links.items i ≡ slice_get self.old.links.items i }
    {
        match self.links.get_mut(0) {
            Some(link) => link.ask(ask, body, most),
            None => Err(LinkFault::NoConnection),
        }
    }

    fn lanes(&self) -> usize
        ensures { result ≡ vec_len self.now.links }
    {
        self.links.len()
    }

    fn begin(&mut self, lane: usize, ask: &Ask, body: &[u8])
        ensures own { (i : ℕ) → i ≢ lane →
            slice_get self.new.links.items i ≡ slice_get self.old.links.items i }
    {
        if let Some(link) = self.links.get_mut(lane) {
            link.begin(0, ask, body);
        }
    }

    fn finish(
        &mut self,
        lane: usize,
        ask: &Ask,
        body: &[u8],
        most: u64,
    ) -> Result<Answer, LinkFault>
        ensures most { IfOk result (λ answer. length answer.body ≤ most) }
        ensures own { (i : ℕ) → i ≢ lane →
            slice_get self.new.links.items i ≡ slice_get self.old.links.items i }
    {
        match self.links.get_mut(lane) {
            Some(link) => link.finish(0, ask, body, most),
            None => Err(LinkFault::NoConnection),
        }
    }
}
