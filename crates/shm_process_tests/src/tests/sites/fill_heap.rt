//! Heaps that are full but for a hole.
use linked_list_allocator::LocalHeap;
use std::alloc::{AllocError, Global};

/// How often a hole is widened at most.
pub(super) const TRIES: usize = 1600;

/// Blocks of 16 bytes that fill a heap; each that is dropped widens the hole at its end.
pub(super) type Filling<'a> = Vec<Vec<u8, &'a LocalHeap>>;

/// As many blocks as the heap has room for.
pub(super) fn fill_heap(alloc: Global, heap: &LocalHeap) -> Result<Filling<'_>, AllocError> {
    let mut blocks = Vec::new(alloc);
    for _ in 0..heap.free() / 16 {
        let block = Vec::with_capacity(heap, 16)?;
        blocks.push(block)?;
    }
    Ok(blocks)
}
