//! The stores of a gateway, in memory.
ghost use Rattle.std.specs.Prelude.{◌≡◌, ℕ, All, replicate, vec_len, IfOk};
ghost use Rattle.grid.specs.GridState.{stores_seen};
ghost use Rattle.gate_tasks.specs.Stores.{fresh};

use share_store::{MemStore, Store};
use std::alloc::{AllocError, Global};

/// So many stores with room for so many bytes each, in which nothing stands.
pub fn make_stores(alloc: Global, count: u16, room: u64) -> Result<Vec<MemStore>, AllocError>
    ensures count { IfOk result (λ stores. vec_len stores ≡ count) }
    ensures empty { IfOk result (λ stores.
        All (λ store. ⟦<MemStore as Store>⟧.held store ≡ 0) stores.items) }
    ensures fresh { IfOk result (λ stores.
        stores_seen ⟦<MemStore as Store>⟧.shares ⟦<MemStore as Store>⟧.room ⟦<MemStore as Store>⟧.held
        ⟦<MemStore as Store>⟧.failures ⟦<MemStore as Store>⟧.honest
        ⟦<MemStore as Store>⟧.history stores.items
        ≡ replicate count (fresh room)) }
{
    let mut stores = Vec::with_capacity(alloc, usize::from(count))?;
    for _server in 0..count {
        stores.push(MemStore::new(alloc, room))?;
    }
    Ok(stores)
}
