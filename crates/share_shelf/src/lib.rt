//! Shelves: shares that outlive the process.
//!
//! A shelf keeps shares under a storage index and a number, as a store does, but beside the process: in files, or on
//! another machine. [`Shelf`] is what a store asks of it, with what a crash at any moment may leave. [`MemShelf`] keeps
//! its shares in memory, remembers what it held, and meets every word of that; [`FailShelf`] fails at a call.
#![tactic(auto)]

// What a shelf is asked, and what it gives.
mod shelf;
// Why a shelf refuses.
mod fault;
// Why a store was not opened over a shelf.
mod open_fault;
// A shelf in memory.
mod mem_shelf;
// A shelf that fails at a call.
mod fail_shelf;

pub use fail_shelf::FailShelf;
pub use fault::ShelfFault;
pub use mem_shelf::MemShelf;
pub use open_fault::OpenFault;
pub use shelf::Shelf;
