//! Calls of a store that change it, and runs of them.
ghost use Rattle.std.specs.Prelude.{◌≡◌, ◌<◌, ◌≤◌, ◌+◌, ◌++◌, List, Bool, length, OnOk};
ghost use Rattle.kept_store.specs.Calls.{done, IsRun};

use crate::KeptStore;
use share_shelf::Shelf;
use share_store::{MemStore, Store, StoreFault};
use std::alloc::AllocError;
use std::rc::RcSlice;

/// A call of a store that changes it, of the share with this storage index and number.
#[derive(Drop)]
pub enum Call {
    /// [`Store::put`], with these bytes.
    Put([u8; 16], u16, RcSlice<u8>),
    /// [`Store::lose`].
    Lose([u8; 16], u16),
    /// [`Store::toggle`], at this place.
    Toggle([u8; 16], u16, u64),
}

impl<H: Shelf> KeptStore<H> {
    ghost use Rattle.kept_store.specs.Changed.{shares_in_memory, DoesOrRefuses, WritesThrough, IsDownOnceFailed};

    /// Makes a call. A put of no bytes is refused.
    fn call(&mut self, call: &Call) -> Result<bool, StoreFault>
        ensures done { DoesOrRefuses (done call.now) result self.old self.new }
        ensures through { WritesThrough (done call.now) self.old self.new }
        ensures failing { IsDownOnceFailed result self.old self.new }
    {
        match call {
            Call::Put(index, number, bytes) => {
                if bytes.is_empty() {
                    return Err(StoreFault::Full);
                }
                let lent = bytes.clone()?;
                self.put_share(*index, *number, lent)
            }
            Call::Lose(index, number) => self.lose_share(*index, *number),
            Call::Toggle(index, number, place) => self.flip_bit(*index, *number, *place),
        }
    }

    /// Makes calls, one after the other, and adds to `answers` whether each was granted; a put of no bytes isn't.
    /// Refused where there was no memory for an answer; the calls up to there were made.
    ///
    /// What stands then is what stood, with the calls done that were granted, and the bytes that fit in all stay as many.
    /// A crash at any moment leaves on an honest shelf what stood after some of them, as they were answered, and the next
    /// one done or not.
    pub fn run(&mut self, calls: &[Call], answers: &mut Vec<bool>) -> Result<(), AllocError>
        ensures ran { (oks : List Bool) × OnOk result ((answers.new.items ≡ answers.old.items ++ oks)
            × (length oks ≡ length calls.now))
            × IsRun H.moment H.left_since H.honest calls.now oks self.old.down self.old.shelf
            self.new.shelf (shares_in_memory self.old) (shares_in_memory self.new) }
        ensures rises { self.old.failures ≤ self.new.failures }
        ensures room { ⟦<MemStore as Store>⟧.room self.new.memory
            + ⟦<MemStore as Store>⟧.held self.new.memory
            ≡ ⟦<MemStore as Store>⟧.room self.old.memory
            + ⟦<MemStore as Store>⟧.held self.old.memory }
    {
        let [call, rest @ ..] = calls else {
            return Ok(());
        };
        let granted = self.call(call).is_ok();
        answers.push(granted)?;
        self.run(rest, answers)
    }
}
