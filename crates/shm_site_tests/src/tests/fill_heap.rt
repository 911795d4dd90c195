//! Heaps that are full but for a hole.
use linked_list_allocator::LocalHeap;
use std::alloc::AllocError;

/// How many blocks of 16 bytes a page takes.
pub(super) const PAGE_BLOCKS: usize = 256;

/// How often a hole is widened at most.
pub(super) const TRIES: usize = 400;

/// Blocks of 16 bytes that fill a heap; each that is dropped widens the hole at its end.
pub(super) type Blocks<'a> = Vec<Vec<u8, &'a LocalHeap>>;

/// Fills what room there is.
pub(super) fn fill<'a>(heap: &'a LocalHeap, blocks: &mut Blocks<'a>) -> Result<(), AllocError> {
    'blocks: for _ in 0..heap.free() / 16 {
        let block = Vec::with_capacity(heap, 16)?;
        blocks.push(block)?;
    }
    Ok(())
}
