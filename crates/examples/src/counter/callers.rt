use shm_model::Answer;
use shm_place::{SiteId, Sites};
use shm_sites::{Client, ClientFault, Receipt, Shared};
use std::alloc::{AllocError, Global};
use std::sync::Wait;
use std::thread;
use std::thread::Threads;
use thiserror::Error;

/// How often each caller adds 1.
const TIMES: u32 = 50;

/// A caller's receipts, or why it ended.
pub type Told = Result<Vec<Receipt>, CallerFault>;

/// Why a caller ended early.
#[derive(Clone, Copy, Debug, PartialEq, Eq, Error)]
pub enum CallerFault {
    /// The cluster has no such site.
    #[error("no site {}", .0.0)]
    NoSuchSite(SiteId),
    /// The site answered a load with no byte.
    #[error("no byte: {0:?}")]
    NoByte(Answer),
    /// There was no memory for another receipt.
    #[error("out of memory")]
    OutOfMemory,
    /// The client gave no receipt.
    #[error("{0}")]
    Client(ClientFault),
}

/// Runs a caller for each site, in a thread of its own.
pub fn count_all<R: Threads + Wait + Sync>(
    rt: &R,
    alloc: Global,
    sites: Sites,
    shared: &Shared,
) -> Result<Vec<Told>, AllocError> {
    thread::map_indices(
        rt,
        alloc,
        sites.count() as usize,
        &|number| { count(rt, alloc, shared, SiteId(number as u32)) },
    )
}

/// Adds 1 to the byte whose offset is the site's number, this many times.
fn count<R: Wait>(rt: &R, alloc: Global, shared: &Shared, site: SiteId) -> Told {
    let Ok(client) = shared.client(site) else {
        return Err(CallerFault::NoSuchSite(site));
    };
    let mut receipts = Vec::new(alloc);
    for _ in 0..TIMES {
        let byte = load(rt, &client, site.0, &mut receipts)?;
        store(rt, &client, site.0, byte.wrapping_add(1), &mut receipts)?;
    }
    Ok(receipts)
}

/// Loads each caller's byte, at site 0.
pub fn load_all<R: Wait>(rt: &R, alloc: Global, sites: Sites, shared: &Shared) -> Told {
    let first = SiteId(0);
    let Ok(client) = shared.client(first) else {
        return Err(CallerFault::NoSuchSite(first));
    };
    let mut receipts = Vec::new(alloc);
    for offset in 0..sites.count() {
        load(rt, &client, offset, &mut receipts)?;
    }
    Ok(receipts)
}

/// Loads a byte, and keeps the receipt.
fn load<R: Wait>(
    rt: &R,
    client: &Client<'_>,
    offset: u32,
    receipts: &mut Vec<Receipt>,
) -> Result<u8, CallerFault> {
    if receipts.reserve(1).is_err() {
        return Err(CallerFault::OutOfMemory);
    }
    match client.load(rt, 0, offset) {
        Ok(receipt) => {
            let answer = receipt.answer();
            receipts.push_reserved(receipt);
            byte_of(answer)
        }
        Err(fault) => Err(CallerFault::Client(fault)),
    }
}

/// Stores a byte, and keeps the receipt.
fn store<R: Wait>(
    rt: &R,
    client: &Client<'_>,
    offset: u32,
    byte: u8,
    receipts: &mut Vec<Receipt>,
) -> Result<(), CallerFault> {
    if receipts.reserve(1).is_err() {
        return Err(CallerFault::OutOfMemory);
    }
    match client.store(rt, 0, offset, byte) {
        Ok(receipt) => {
            receipts.push_reserved(receipt);
            Ok(())
        }
        Err(fault) => Err(CallerFault::Client(fault)),
    }
}

fn byte_of(answer: Answer) -> Result<u8, CallerFault> {
    match answer {
        Answer::Byte(byte) => Ok(byte),
        other => Err(CallerFault::NoByte(other)),
    }
}
