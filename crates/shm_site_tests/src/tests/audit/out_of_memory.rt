//! An audit for which memory is refused first.
use super::{EVENTS, Logs, SEVEN, are_events, audited_alone, expect, fault, one_log};
use crate::tests::fill_heap::{Blocks, TRIES, fill};
use linked_list_allocator::LocalHeap;
use shm_logs::AuditFault;
use std::test::Fail;

/// How often an audit asks for memory at least: for its marks, the steps in their order, and the events.
const GROWTHS: usize = 3;

#[test]
fn an_audit_is_refused_until_there_is_memory(rt: HostRuntime) -> Result<(), Fail> {
    let heap = LocalHeap::new(rt.alloc(), 1 << 16)?;
    let logs = one_log(&heap, &SEVEN)?;
    let mut blocks = Vec::new(rt.alloc());
    expect(&rt, fill(&heap, &mut blocks).is_ok());
    let refusals = refusals(&heap, &logs, &mut blocks);
    expect(&rt, refusals >= Some(GROWTHS));
    drop(blocks);
    drop(logs);
    Ok(())
}

/// How often the audit lacks memory until it accepts the logs, where the hole in the heap is widened each time. None: it said something
/// else, or never accepted them.
fn refusals<'a>(
    heap: &'a LocalHeap,
    logs: &Logs<&'a LocalHeap>,
    blocks: &mut Blocks<'a>,
) -> Option<usize> {
    'tries: for count in 0..TRIES {
        let audited = audited_alone(heap, 1, logs);
        let (accepted, fault) = (are_events(&audited, &EVENTS), fault(&audited));
        drop(audited);
        if accepted {
            return Some(count);
        }
        if fault != Some(AuditFault::OutOfMemory) {
            return None;
        }
        drop(blocks.pop());
    }
    None
}
