//! Merging where memory is refused first.
ghost use Rattle.std.specs.Prelude.{◌≤◌, IfSome, length};
ghost use Rattle.std.specs.List.{sum_by};
ghost use Rattle.shm_logs.specs.Auditing.Logs.{logs_of, LogsRise};
ghost use Rattle.shm_logs.specs.Auditing.Order.{order_of, AllName};
ghost use Rattle.shm_model.specs.Log.{sent_by, LogsMatch};
ghost use Rattle.shm_model.specs.Merge.{IsMerged};
ghost use Rattle.shm_model.specs.Basics.{max_sent};

use super::{EVENTS, ORDER, are_named, both_logs, expect, two_sites};
use crate::tests::fill_heap::{Blocks, fill};
use linked_list_allocator::LocalHeap;
use shm_logs::{Event, SiteLog, StepName, events, logs_match, merge};
use std::alloc::AllocError;
use std::test::Fail;

/// How often a hole is widened at most.
const TRIES: usize = 1000;

#[test]
fn merging_is_refused_until_there_is_memory(rt: HostRuntime) -> Result<(), Fail> {
    let heap = LocalHeap::new(rt.alloc(), 1 << 16)?;
    let logs = both_logs(&heap)?;
    let sites = two_sites()?;
    assert!(rt; logs_match(sites, 4, &logs));
    let mut blocks = Vec::new(rt.alloc());
    expect(&rt, merges_at_last(&heap, &logs, &mut blocks));
    drop(blocks);
    drop(logs);
    Ok(())
}

/// Whether order and events are each refused on a full heap, and are right with room.
fn merges_at_last<'a>(
    heap: &'a LocalHeap,
    logs: &[SiteLog<&'a LocalHeap>],
    blocks: &mut Blocks<'a>,
) -> bool
    requires sites { length logs.now ≤ 16 }
    requires rise { LogsRise (logs_of logs.now) }
    requires matching { LogsMatch (logs_of logs.now) }
    requires few { sum_by sent_by (logs_of logs.now) ≤ max_sent }
{
    let Some(order) = merge_at_last(heap, logs, blocks) else {
        return false;
    };
    let told = tells_at_last(heap, logs, &order, blocks);
    let right = told && are_named(&order, &ORDER);
    drop(order);
    right
}

/// The order, which is refused first.
fn merge_at_last<'a>(
    heap: &'a LocalHeap,
    logs: &[SiteLog<&'a LocalHeap>],
    blocks: &mut Blocks<'a>,
) -> Option<Vec<StepName, &'a LocalHeap>>
    requires sites { length logs.now ≤ 16 }
    requires rise { LogsRise (logs_of logs.now) }
    ensures merged { IfSome result (λ names. IsMerged (logs_of logs.now) (order_of (logs_of logs.now) names.items)) }
    ensures named { IfSome result (λ names. AllName (logs_of logs.now) names.items) }
{
    if fill(heap, blocks).is_err() || is_merged(heap, logs) {
        return None;
    }
    'tries: for _ in 0..TRIES {
        if let Ok(order) = merge(heap, logs) {
            return Some(order);
        }
        drop(blocks.pop());
    }
    None
}

fn is_merged<'a>(heap: &'a LocalHeap, logs: &[SiteLog<&'a LocalHeap>]) -> bool
    requires sites { length logs.now ≤ 16 }
    requires rise { LogsRise (logs_of logs.now) }
{
    match merge(heap, logs) {
        Ok(order) => {
            drop(order);
            true
        }
        Err(AllocError) => false,
    }
}

/// Whether the events are refused first, and are the right ones then.
fn tells_at_last<'a>(
    heap: &'a LocalHeap,
    logs: &[SiteLog<&'a LocalHeap>],
    order: &[StepName],
    blocks: &mut Blocks<'a>,
) -> bool
    requires merged { IsMerged (logs_of logs.now) (order_of (logs_of logs.now) order.now) }
    requires named { AllName (logs_of logs.now) order.now }
    requires matching { LogsMatch (logs_of logs.now) }
    requires few { sum_by sent_by (logs_of logs.now) ≤ max_sent }
{
    if fill(heap, blocks).is_err() || try_events(heap, logs, order).is_some() {
        return false;
    }
    'tries: for _ in 0..TRIES {
        if let Some(right) = try_events(heap, logs, order) {
            return right;
        }
        drop(blocks.pop());
    }
    false
}

/// Whether the events are the right ones, if there is memory for them.
fn try_events<'a>(
    heap: &'a LocalHeap,
    logs: &[SiteLog<&'a LocalHeap>],
    order: &[StepName],
) -> Option<bool>
    requires merged { IsMerged (logs_of logs.now) (order_of (logs_of logs.now) order.now) }
    requires named { AllName (logs_of logs.now) order.now }
    requires matching { LogsMatch (logs_of logs.now) }
    requires few { sum_by sent_by (logs_of logs.now) ≤ max_sent }
{
    match events(heap, logs, order) {
        Ok(told) => {
            let right = are_told(&told);
            drop(told);
            Some(right)
        }
        Err(AllocError) => None,
    }
}

fn are_told(told: &[Event]) -> bool {
    told == &EVENTS[..]
}
