//! Heaps that are full but for a hole.
use linked_list_allocator::LocalHeap;
use std::alloc::{AllocError, Global};

/// Blocks that fill a heap. Of those of 16 bytes each that is dropped widens the hole at its end.
pub(super) type Blocks<'a> = Vec<Vec<u8, &'a LocalHeap>>;

/// Blocks of 16 bytes that fill the heap.
pub(super) fn fill_heap(alloc: Global, heap: &LocalHeap) -> Result<Blocks<'_>, AllocError> {
    let mut blocks = Vec::new(alloc);
    for _ in 0..heap.free() / 16 {
        let block = Vec::with_capacity(heap, 16)?;
        blocks.push(block)?;
    }
    Ok(blocks)
}

/// Blocks that fill the heap but for one hole of so many bytes.
pub(super) fn fill_heap_but<'a>(
    alloc: Global,
    heap: &'a LocalHeap,
    bytes: usize,
) -> Result<Blocks<'a>, AllocError> {
    let hole: Vec<u8, &LocalHeap> = Vec::with_capacity(heap, bytes)?;
    let mut blocks = Vec::new(alloc);
    'sizes: for size in [1 << 14, 1 << 10, 1 << 7, 16] {
        fill_with(heap, size, &mut blocks)?;
    }
    drop(hole);
    Ok(blocks)
}

/// As many blocks of the size as there is room for.
fn fill_with<'a>(
    heap: &'a LocalHeap,
    size: usize,
    blocks: &mut Blocks<'a>,
) -> Result<(), AllocError> {
    'blocks: for _ in 0..heap.free() / 16 {
        let Ok(block) = Vec::with_capacity(heap, size) else {
            return Ok(());
        };
        blocks.push(block)?;
    }
    Ok(())
}
