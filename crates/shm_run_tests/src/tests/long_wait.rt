//! A client that waits long for its page.
use shm_model::Answer;
use shm_place::{SiteId, Sites};
use shm_sites::{Cluster, Gate};
use std::sync::atomic::{AtomicBool, AtomicU64, Ordering};
use std::sync::{Arc, Wait};
use std::test::Fail;
use std::thread;

/// How often the site beside the others makes a step before the page's manager makes one. A client has each site told of a tick after 64
/// tries in which its own site made no step, so these are thousands of tries.
const STEPS: u64 = 40;

/// How often that is looked at.
const TRIES: u64 = 10_000_000_000;

/// How many steps the site beside the others has made, and whether nobody waits any longer.
#[derive(Drop)]
struct Steps {
    beside: AtomicU64,
    over: AtomicBool,
}

/// Holds site 0's thread until site 2's has made its steps.
#[derive(Drop)]
struct HoldsManager {
    steps: Arc<Steps>,
}

impl Gate for HoldsManager {
    fn pass(&self, site: SiteId) {
        if site.0 == 2 {
            self.steps.beside.fetch_add(1, Ordering::SeqCst);
        }
        if site.0 == 0 {
            wait_for(&self.steps);
        }
    }
}

fn wait_for(steps: &Steps) {
    'tries: for _ in 0..TRIES {
        if steps.over.load(Ordering::SeqCst) || steps.beside.load(Ordering::SeqCst) >= STEPS {
            return;
        }
        thread::yield_now();
    }
}

/// A load waits for a manager that stands still for thousands of tries, and is served then.
#[test]
fn a_load_waits_for_thousands_of_tries(rt: HostRuntime) -> Result<(), Fail> {
    let steps = Arc::new(
        rt.alloc(),
        Steps {
            beside: AtomicU64::new(0),
            over: AtomicBool::new(false),
        },
    )?;
    let gate = HoldsManager {
        steps: Arc::try_clone(&steps)?,
    };
    let cluster = Cluster::start(&rt, rt.alloc(), Sites::new(3)?, 1, 1, gate)?;
    let byte = byte_at_second(&rt, &cluster);
    steps.over.store(true, Ordering::SeqCst);
    let logs = cluster.stop(&rt)?;
    drop(logs);
    drop(steps);
    assert_eq!(rt; byte, Some(0));
    Ok(())
}

/// The byte that site 1 loads, if it is served.
fn byte_at_second<R: Wait>(rt: &R, cluster: &Cluster) -> Option<u8> {
    let Ok(client) = cluster.client(SiteId(1)) else {
        return None;
    };
    let Ok(receipt) = client.load(rt, 0, 0) else {
        return None;
    };
    byte_of(receipt.answer())
}

fn byte_of(answer: Answer) -> Option<u8> {
    match answer {
        Answer::Byte(byte) => Some(byte),
        _ => None,
    }
}
