//! Memory that was given back.

use std::alloc::Global;

/// A request of so many bytes has glibc's `malloc` join what was given back in small pieces.
const REQUEST_BYTES: usize = 4_096;

/// Has the allocator join the small pieces of memory that were given back since the last call. glibc lays them aside, and
/// else joins all of them in one call once much memory lies free, which took 0.4 s for the values of a million members.
pub(crate) fn join_freed(alloc: Global) {
    let _ = Vec::<u8>::with_capacity(alloc, REQUEST_BYTES);
}
