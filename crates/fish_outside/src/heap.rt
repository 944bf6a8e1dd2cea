//! How the C library's heap keeps what is freed.

use std::alloc::Global;

/// Nearly as large as the largest block that glibc takes from its heap.
const LARGE: usize = 33_000_000;

/// Has the heap keep up to 64 MiB that are freed for what is asked for next.
///
/// glibc maps a block of over 128 KiB anew, and gives it back when it is freed, so that the system clears every page of
/// each new table and buffer. Once a larger block was freed, blocks up to its size come from the heap (mallopt(3),
/// `M_MMAP_THRESHOLD`). The block here is never written, so it takes no memory; where there is no room for it, nothing
/// changes.
pub fn keep_freed_memory(alloc: Global) {
    match Vec::<u8>::with_capacity(alloc, LARGE) {
        Ok(block) => drop(block),
        Err(_) => {}
    }
}
