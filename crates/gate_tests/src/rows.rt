//! What callers ask and are told.

use gate_base::Prospect;
use gate_core::Gateway;
use share_store::{MemStore, Store};
use std::alloc::Global;
use std::test::Fail;

/// A connection, bytes that come on it, and what it is told then.
pub type Row<'a> = (u64, &'a [u8], &'a [u8]);

/// A gateway of 3 of 10 over one store in memory, with room for so many bytes of shares. Here and below what owns a gateway
/// matches it and hands it on, and leaves at no other place: all else is dear to prove.
pub fn with_room(alloc: Global, room: u64) -> Result<Gateway<MemStore>, Fail> {
    let mut stores = Vec::new(alloc);
    stores.push(MemStore::new(alloc, room))?;
    Ok(Gateway::new(alloc, 3, 10, stores, b"")?)
}

/// Connections are told so, row by row.
pub fn are_told<S: Store>(gateway: &mut Gateway<S>, rows: &[Row<'_>]) -> Result<(), Fail> {
    for row in rows {
        let (id, piece, wanted) = *row;
        gateway.bytes(id, piece)?;
        let told = gateway.take(id, 20_000_000)?;
        holds(told.as_slice() == wanted, "another reply")?;
    }
    Ok(())
}

/// A test goes on where something is so, and else fails with these words.
pub fn holds(is_so: bool, words: &str) -> Result<(), Fail> {
    if is_so {
        Ok(())
    } else {
        Err(Fail::from(words))
    }
}

/// Whether a connection had better wait before these bytes are brought.
pub fn waits<S: Store>(gateway: &mut Gateway<S>, id: u64, next: &[u8]) -> bool {
    gateway.prepare(id, next, true) == Prospect::Waits
}

/// How many steps are left before these bytes are brought, which are taken: 10,000 at most, else 0.
pub fn steps_left<S: Store>(gateway: &mut Gateway<S>, id: u64, next: &[u8]) -> usize {
    for step in 0..10_000 {
        if !waits(gateway, id, next) {
            return step;
        }
    }
    0
}
