mod desk_counts;
mod hellos;
mod impossible_envelopes;
mod later_steps;

use crate::tests::new_node;
use shm_process::{Desk, Opening, Start};
use shm_seal::Seal;
use std::alloc::{AllocError, Global};

/// The desk of such a site that says how it was begun; its journal has 100 bytes.
fn greeting_desk(
    alloc: Global,
    seal: Seal,
    sites: u32,
    site: u32,
) -> Result<Vec<Desk>, AllocError> {
    let opening = Opening {
        site,
        sites,
        pages: 4,
    };
    let start = Start {
        journal: 100,
        since: 1700000000,
    };
    let desk = Desk::greeting(alloc, seal, new_node(alloc, sites, site)?, opening, start)?;
    in_list(alloc, desk)
}

/// The desk of such a site that says nothing of how it was begun.
fn silent_desk(alloc: Global, sites: u32, site: u32) -> Result<Vec<Desk>, AllocError> {
    in_list(alloc, Desk::new(alloc, new_node(alloc, sites, site)?))
}

/// One desk as a list: a test that holds it so is quickly proved.
fn in_list(alloc: Global, desk: Desk) -> Result<Vec<Desk>, AllocError> {
    let mut desks = Vec::new(alloc);
    desks.push(desk)?;
    Ok(desks)
}
