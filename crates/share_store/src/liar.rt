//! A store that gives what it was told to give.
ghost use Rattle.std.specs.Prelude.{◌≡◌, ◌+◌, false, true, None, IfOk, OnOk, OnErr, map as mapped, slice_get};
ghost use Rattle.std.specs.List.{range_with_len};
ghost use Rattle.std.specs.Option.{option_map};
ghost use Rattle.std.specs.Rc.{rc_slice_items};
ghost use Rattle.std.specs.FinMap as map;
ghost use Rattle.share_store.specs.Answering.{answers_of, turn_in, turn_of};

use crate::{Share, Store, StoreFault};
use std::alloc::{AllocError, Global};
use std::rc::RcSlice;

/// A store that says that it has every share with a number below 256, gives its answers in turn, whatever it is asked
/// for, and keeps nothing. It is never honest.
#[derive(Drop)]
pub struct Liar {
    answers: Vec<RcSlice<u8>>,
    next: usize,
    alloc: Global,
}

impl Liar {
    /// A store that gives these answers in turn, from the first again after the last, or nothing where there are none. It
    /// takes memory from `alloc`.
    pub fn new(alloc: Global, answers: Vec<RcSlice<u8>>) -> Self
        ensures honest { ⟦<Liar as Store>⟧.honest result ≡ false }
        ensures room { ⟦<Liar as Store>⟧.room result ≡ 0 }
        ensures held { ⟦<Liar as Store>⟧.held result ≡ 0 }
        ensures failures { ⟦<Liar as Store>⟧.failures result ≡ 0 }
        ensures answers { answers_of result ≡ mapped rc_slice_items answers.items }
        ensures turn { turn_of result ≡ 0 }
    {
        Liar {
            answers,
            next: 0,
            alloc,
        }
    }
}

impl Store for Liar {
    ghost honest = { λ store. false };

    ghost shares = { λ store. map.empty };

    ghost room = { λ store. 0 };

    ghost held = { λ store. 0 };

    ghost failures = { λ store. 0 };

    fn has(&mut self, index: [u8; 16], number: u16) -> Result<bool, AllocError>
        ensures says { result ≡ Ok true }
        ensures same { self.new ≡ self.old }
    {
        Ok(true)
    }

    fn numbers(&mut self, index: [u8; 16]) -> Result<Vec<u16>, AllocError>
        ensures says { IfOk result (λ numbers. numbers.items ≡ range_with_len 0 256) }
        ensures same { self.new ≡ self.old }
    {
        let mut numbers = Vec::new(self.alloc);
        for number in 0..256u16 {
            numbers.push(number)?;
        }
        Ok(numbers)
    }

    fn get(&mut self, index: [u8; 16], number: u16) -> Result<Option<RcSlice<u8>>, AllocError>
        ensures says { IfOk result (λ given.
            option_map rc_slice_items given ≡ slice_get (answers_of self.old) (turn_of self.old)) }
        ensures answers { answers_of self.new ≡ answers_of self.old }
        ensures turn { OnOk result
            (turn_of self.new ≡ turn_in (answers_of self.old) (turn_of self.old + 1)) }
        ensures refused { OnErr result (turn_of self.new ≡ turn_of self.old) }
    {
        if self.next >= self.answers.len() {
            self.next = 0;
        }
        match self.answers.get(self.next) {
            None => Ok(None),
            Some(answer) => {
                let bytes = answer.clone()?;
                self.next += 1;
                Ok(Some(bytes))
            }
        }
    }

    fn nth(&mut self, at: u64) -> Result<Option<Share>, AllocError>
        ensures says { result ≡ Ok None }
        ensures same { self.new ≡ self.old }
    {
        Ok(None)
    }

    fn put(&mut self, index: [u8; 16], number: u16, bytes: RcSlice<u8>) -> Result<bool, StoreFault>
        ensures says { result ≡ Ok false }
        ensures same { self.new ≡ self.old }
    {
        Ok(false)
    }

    fn lose(&mut self, index: [u8; 16], number: u16) -> Result<bool, StoreFault>
        ensures says { result ≡ Ok false }
        ensures same { self.new ≡ self.old }
    {
        Ok(false)
    }

    fn toggle(&mut self, index: [u8; 16], number: u16, place: u64) -> Result<bool, StoreFault>
        ensures says { result ≡ Ok false }
        ensures same { self.new ≡ self.old }
    {
        Ok(false)
    }

    fn room(&self) -> u64 {
        0
    }

    fn held(&self) -> u64 {
        0
    }

    fn failures(&self) -> u64 {
        0
    }

    ghost held_is = { λ store honest. absurd (cc) };

    ghost none_empty = { λ store honest. absurd (cc) };

    ghost fits = { λ store honest. absurd (cc) };
}
