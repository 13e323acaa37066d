//! A store that forgets what it is put.
ghost use Rattle.std.specs.Prelude.{◌≡◌, ◌^◌, ◌-◌, All, IfOk, false, vec_len};
ghost use Rattle.std.specs.FinMap as map;

use share_store::{Share, Store, StoreFault};
use std::alloc::{AllocError, Global};
use std::rc::RcSlice;

/// A store that takes each share and forgets it, with room for any: so an image can be read to its end while no more
/// than one of its shares is in memory. It isn't honest, and never fails.
#[derive(Drop)]
pub struct ForgetfulStore {
    alloc: Global,
}

/// So many stores that forget what they are put.
pub fn forgetful_stores(alloc: Global, count: u16) -> Result<Vec<ForgetfulStore>, AllocError>
    ensures count { IfOk result (λ stores. vec_len stores ≡ count) }
    ensures empty { IfOk result (λ stores.
        All (λ store. ⟦<ForgetfulStore as Store>⟧.held store ≡ 0) stores.items) }
{
    let mut stores = Vec::with_capacity(alloc, usize::from(count))?;
    for _server in 0..count {
        stores.push(ForgetfulStore { alloc })?;
    }
    Ok(stores)
}

impl Store for ForgetfulStore {
    ghost honest = { λ store. false };

    ghost shares = { λ store. map.empty };

    ghost room = { λ store. 2 ^ 64 - 1 };

    ghost held = { λ store. 0 };

    ghost failures = { λ store. 0 };

    fn has(&mut self, index: [u8; 16], number: u16) -> Result<bool, AllocError> {
        Ok(false)
    }

    fn numbers(&mut self, index: [u8; 16]) -> Result<Vec<u16>, AllocError> {
        Ok(Vec::new(self.alloc))
    }

    fn get(&mut self, index: [u8; 16], number: u16) -> Result<Option<RcSlice<u8>>, AllocError> {
        Ok(None)
    }

    fn nth(&mut self, at: u64) -> Result<Option<Share>, AllocError> {
        Ok(None)
    }

    fn put(
        &mut self,
        index: [u8; 16],
        number: u16,
        bytes: RcSlice<u8>,
    ) -> Result<bool, StoreFault> {
        Ok(true)
    }

    fn lose(&mut self, index: [u8; 16], number: u16) -> Result<bool, StoreFault> {
        Ok(false)
    }

    fn toggle(&mut self, index: [u8; 16], number: u16, place: u64) -> Result<bool, StoreFault> {
        Ok(false)
    }

    fn room(&self) -> u64 {
        u64::MAX
    }

    fn held(&self) -> u64 {
        0
    }

    fn failures(&self) -> u64 {
        0
    }

    ghost held_is = { λ store honest. absurd (cc) };

    ghost none_empty = { λ store honest. absurd (cc) };

    ghost fits = { λ store honest. absurd (cc) };
}
