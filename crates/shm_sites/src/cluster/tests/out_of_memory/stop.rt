//! Clusters for whose end there is too little memory.
use super::{Blocks, HEAP, HOLES, Still, fill_heap_but, opened_in};
use crate::cluster::site_thread::Worker;
use crate::{Cluster, SiteLog};
use linked_list_allocator::LocalHeap;
use std::alloc::{AllocError, Global};
use std::sync::Wait;
use std::test::Fail;
use std::thread;
use std::thread::Threads;

/// How many of two threads were told to stop, and how many logs there are.
type Outcome = (usize, Option<usize>);

/// First no thread can be told, then only one, then both, but the logs aren't handed out.
const OUTCOMES: [Outcome; 4] = [(0, None), (1, None), (2, None), (2, Some(2))];

#[test]
fn each_growth_of_a_stop_is_refused_in_turn(rt: HostRuntime) -> Result<(), Fail> {
    let mut outcomes = Vec::new(rt.alloc());
    for tries in 0..HOLES {
        let outcome = stopped_within(&rt, rt.alloc(), tries * 16)?;
        if outcomes.last() != Some(&outcome) {
            outcomes.push(outcome)?;
        }
        if outcome.1.is_some() {
            break;
        }
    }
    assert_eq!(rt; outcomes.as_slice(), OUTCOMES.as_slice());
    Ok(())
}

/// Stops a cluster of two sites in a heap with so small a hole. Its threads end by themselves.
fn stopped_within<R: Threads + Wait>(rt: &R, alloc: Global, bytes: usize) -> Result<Outcome, Fail> {
    let heap = LocalHeap::new(alloc, HEAP)?;
    let Still {
        mut cluster,
        workers,
    } = opened_in(&heap, 2)?;
    let blocks = with_threads(rt, alloc, &heap, &mut cluster, bytes);
    let logs = cluster.stop(rt);
    let told = count_told(&workers);
    drop(workers);
    let count = count(logs);
    drop(blocks?);
    Ok((told, count))
}

fn count(logs: Result<Vec<SiteLog<&LocalHeap>, &LocalHeap>, AllocError>) -> Option<usize> {
    logs.ok().map(|logs| logs.len())
}

fn count_told(workers: &[Worker<&LocalHeap>]) -> usize {
    workers
        .iter()
        .filter(|worker| !worker.mail.is_empty())
        .count()
}

/// Gives the cluster two threads, and fills the heap but for a hole of so many bytes.
fn with_threads<'a, R: Threads>(
    rt: &R,
    alloc: Global,
    heap: &'a LocalHeap,
    cluster: &mut Cluster<&'a LocalHeap>,
    bytes: usize,
) -> Result<Blocks<'a>, AllocError> {
    for _ in 0..2 {
        add_thread(rt, cluster)?;
    }
    fill_heap_but(alloc, heap, bytes)
}

/// A thread that does nothing.
fn add_thread<R: Threads>(rt: &R, cluster: &mut Cluster<&LocalHeap>) -> Result<(), AllocError> {
    cluster.threads.reserve(1)?;
    let Ok(thread) = thread::spawn(rt, || ()) else {
        return Err(AllocError);
    };
    cluster.threads.push_reserved(thread);
    Ok(())
}
