//! Starts for which there is too little memory. All that a start grows it grows before its first thread.
use super::{HOLES, PAGES};
use crate::cluster::start_threads::ready;
use crate::{Cluster, Gate, OpenGate, StartFault};
use linked_list_allocator::LocalHeap;
use shm_place::{SiteId, Sites};
use std::alloc::Global;
use std::sync::Arc;
use std::test::Fail;
use std_alloc::vec::Lodged;

/// How often 16 bytes the pages alone take.
const PAGE_UNITS: usize = PAGES as usize * 4096 / 16;

/// The heap grows by 16 bytes until it is large enough: each growth is the first that is refused in some of these.
#[test]
fn each_growth_of_a_start_is_refused_in_turn(rt: HostRuntime) -> Result<(), Fail> {
    let sites = Sites::new(3)?;
    let mut refused = 0;
    for units in 1..HOLES {
        if is_ready_within(rt.alloc(), sites, units * 16)? {
            break;
        }
        refused = units;
    }
    assert!(rt; refused >= PAGE_UNITS && refused < HOLES - 1);
    Ok(())
}

/// Whether so many bytes are enough for a cluster before its threads. What a refused one took is given back.
fn is_ready_within(alloc: Global, sites: Sites, bytes: usize) -> Result<bool, Fail> {
    let heap = LocalHeap::new(alloc, bytes)?;
    let made = ready(&heap, sites, PAGES, OpenGate);
    let is_ready = made.is_ok();
    drop(made);
    if heap.used() > 0 {
        return Err(Fail::new("memory was kept"));
    }
    Ok(is_ready)
}

/// A gate that knows what else holds its flag.
#[derive(Drop)]
struct Held {
    flag: Arc<()>,
}

impl Gate for Held {
    fn pass(&self, _site: SiteId) {}
}

/// The allocator has nothing to give, so no thread has the gate.
#[test]
fn a_start_without_memory_has_no_thread(rt: HostRuntime) -> Result<(), Fail> {
    let flag = Arc::new(rt.alloc(), ())?;
    let gate = Held {
        flag: Arc::try_clone(&flag)?,
    };
    let fault = Cluster::start(&rt, Lodged, Sites::new(3)?, PAGES, 1, gate).err();
    assert_eq!(rt; fault, Some(StartFault::OutOfMemory));
    assert_eq!(rt; Arc::strong_count(&flag), 1);
    Ok(())
}

/// What happens to the threads that were started where no further one is given: they have ended, so none has the gate.
#[test]
fn the_threads_of_a_start_that_is_given_up_have_ended(rt: HostRuntime) -> Result<(), Fail> {
    let flag = Arc::new(rt.alloc(), ())?;
    let gate = Held {
        flag: Arc::try_clone(&flag)?,
    };
    let cluster = Cluster::start(&rt, rt.alloc(), Sites::new(3)?, PAGES, 1, gate)?;
    let held = Arc::strong_count(&flag);
    cluster.give_up(&rt);
    assert_eq!(rt; held, 2);
    assert_eq!(rt; Arc::strong_count(&flag), 1);
    Ok(())
}
