//! Growths that are refused: in a heap that is full but for one hole, which is widened until it is large enough. No thread is started
//! over such a heap; what a site is sent stands in its channel.
//!
//! Whoever holds a cluster, or the workers of one, drops it by name, and returns nowhere before.

mod clients;
mod start;
mod stop;
mod ticks;
mod worker;

use crate::cluster::site_thread::Worker;
use crate::cluster::start_threads::ready;
use crate::{Cluster, OpenGate};
use linked_list_allocator::LocalHeap;
use shm_place::Sites;
use std::alloc::{AllocError, Global};

/// How many bytes of memory a cluster has here.
const HEAP: usize = 1 << 16;

/// How often a hole is widened at most.
const HOLES: usize = 1 << 12;

/// How many pages segment 0 has.
const PAGES: u32 = 3;

/// Blocks that fill a heap.
type Blocks<'a> = Vec<Vec<u8, &'a LocalHeap>>;

/// A cluster before its threads, and what they would be given.
#[derive(Drop)]
struct Still<'a> {
    cluster: Cluster<&'a LocalHeap>,
    workers: Vec<Worker<&'a LocalHeap>, &'a LocalHeap>,
}

fn opened_in(heap: &LocalHeap, count: u32) -> Result<Still<'_>, AllocError> {
    let Ok(sites) = Sites::new(count) else {
        return Err(AllocError);
    };
    let (cluster, workers, gate) = ready(heap, sites, PAGES, OpenGate)?;
    drop(gate);
    Ok(Still { cluster, workers })
}

/// Blocks that fill the heap but for one hole of so many bytes.
fn fill_heap_but<'a>(
    alloc: Global,
    heap: &'a LocalHeap,
    bytes: usize,
) -> Result<Blocks<'a>, AllocError> {
    let hole: Vec<u8, &LocalHeap> = Vec::with_capacity(heap, bytes)?;
    let mut blocks = Vec::new(alloc);
    for size in [4096, 256, 16] {
        fill_with(heap, size, &mut blocks)?;
    }
    drop(hole);
    Ok(blocks)
}

/// As many blocks of the size as there is room for.
fn fill_with<'a>(
    heap: &'a LocalHeap,
    size: usize,
    blocks: &mut Blocks<'a>,
) -> Result<(), AllocError> {
    for _ in 0..heap.free() / 16 {
        let Ok(block) = Vec::with_capacity(heap, size) else {
            return Ok(());
        };
        blocks.push(block)?;
    }
    Ok(())
}
