//! Files that are on their way to a gateway, several at once.
ghost use Rattle.std.specs.Prelude.{◌≡◌, ◌-◌, ◌++◌, ◌∷◌, [], ℕ, List, IfOk, OnOk};
ghost use Rattle.std.specs.VecDeque.{deque_len};
ghost use Rattle.client_tree.specs.Runs.{File};
ghost use Rattle.client_tree.specs.Stored.{IsStoredBelow};
ghost use Rattle.client_tree.specs.UnderWay.{IsInHand, StaysInHand};

use crate::children::{Child, child_of};
use crate::fault::TreeFault;
use client_core::{Exchange, begin_put, lane_at, put_begun};
use octets::{Bytes, Text};
use std::alloc::Global;
use std::collections::VecDeque;

/// A file that is on its way.
#[derive(Drop)]
pub(crate) struct Waiting {
    /// Its name in the folder.
    pub name: Text,
    /// All its bytes.
    pub bytes: Bytes,
}

/// What of a folder is stored, and the files that are on their way, those that went first in front: one for each lane at most.
#[derive(Drop)]
pub(crate) struct Window {
    /// What is stored.
    pub children: Vec<Child>,
    /// What is on its way.
    pub waiting: VecDeque<Waiting>,
    /// How many files came back.
    settled: usize,
}

impl Window {
    /// Of a folder of which nothing is stored.
    pub fn new(alloc: Global) -> Window
        ensures children { result.children.items ≡ [] }
        ensures waiting { result.waiting.items ≡ [] }
    {
        Window {
            children: Vec::new(alloc),
            waiting: VecDeque::new(alloc),
            settled: 0,
        }
    }

    /// Sends a file on its way. Where there is one on each lane, the first that went is waited for.
    pub fn send<E: Exchange>(
        &mut self,
        alloc: Global,
        gateway: &mut E,
        file: Waiting,
    ) -> Result<(), TreeFault>
        ensures { OnOk result (StaysInHand
            self.old.children.items (self.old.waiting.items ++ file ∷ [])
            self.new.children.items self.new.waiting.items) }
    {
        self.send_bytes(alloc, gateway, file.bytes.as_slice())?;
        self.waiting.push_back(file)?;
        Ok(())
    }

    /// Sends bytes ahead: on a lane on which nothing is, or else on that of the file that went first, which is waited for.
    fn send_bytes<E: Exchange>(
        &mut self,
        alloc: Global,
        gateway: &mut E,
        bytes: &[u8],
    ) -> Result<(), TreeFault>
        ensures { OnOk result (StaysInHand
            self.old.children.items self.old.waiting.items
            self.new.children.items self.new.waiting.items) }
    {
        if self.waiting.len() < gateway.lanes() {
            let place = self.settled.wrapping_add(self.waiting.len());
            let lane = lane_at(gateway, place);
            begin_put(gateway, lane, bytes);
            return Ok(());
        }
        self.settle(alloc, gateway, Some(bytes))
    }

    /// Waits for the file that went first, if one is on its way, and sends the next one on its lane.
    fn settle<E: Exchange>(
        &mut self,
        alloc: Global,
        gateway: &mut E,
        next: Option<&[u8]>,
    ) -> Result<(), TreeFault>
        ensures stays { OnOk result (StaysInHand
            self.old.children.items self.old.waiting.items
            self.new.children.items self.new.waiting.items) }
        ensures fewer { OnOk result
            (deque_len self.new.waiting ≡ deque_len self.old.waiting - 1) }
    {
        let Some(file) = self.waiting.pop_front() else {
            return Ok(());
        };
        let lane = lane_at(gateway, self.settled);
        self.settled = self.settled.wrapping_add(1);
        let cap = put_begun(alloc, gateway, lane, file.bytes.as_slice(), next)?;
        self.children.push(child_of(alloc, &file.name, cap)?)?;
        Ok(())
    }

    /// Waits for all that are on their way.
    pub fn settle_all<E: Exchange>(
        &mut self,
        alloc: Global,
        gateway: &mut E,
    ) -> Result<(), TreeFault>
        ensures stays { OnOk result (StaysInHand
            self.old.children.items self.old.waiting.items
            self.new.children.items self.new.waiting.items) }
        ensures none { OnOk result (self.new.waiting.items ≡ []) }
    {
        for _ in 0..self.waiting.len() {
            self.settle(alloc, gateway, None)?;
        }
        Ok(())
    }

    /// All that is stored, once nothing is on its way.
    pub fn finish<E: Exchange>(
        self,
        alloc: Global,
        gateway: &mut E,
    ) -> Result<Vec<Child>, TreeFault>
        ensures { IfOk result (λ children. (path : List (List ℕ)) (files : List File) →
            IsInHand self.children.items self.waiting.items path files →
            IsStoredBelow children.items path files) }
    {
        let mut window = self;
        window.settle_all(alloc, gateway)?;
        let Window { children, .. } = window;
        Ok(children)
    }
}
