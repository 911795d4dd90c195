mod desks;
mod journals;
mod lines;
mod sites;

use shm_place::{SiteId, Sites};
use shm_process::Node;
use std::alloc::{AllocError, Allocator};

/// A site of so many, where segment 0 has 4 pages and is attached.
fn new_node<A: Allocator + Copy>(alloc: A, sites: u32, me: u32) -> Result<Node<A>, AllocError> {
    match Sites::new(sites) {
        Ok(sites) if me < sites.count() => Node::new(alloc, sites, SiteId(me), 4),
        _ => Err(AllocError),
    }
}
