//! What the audit says of receipts that claim to be all.
use super::{
    EVENTS, Given, PAGES, SEVEN, Told, Verdict, alone, are_events, audit_all, choose, expect,
    one_caller, one_log, receipts_of, two_logs,
};
use shm_logs::{AuditFault, SiteLog, Stamp, audit_complete, logs_match};
use shm_place::{SiteId, Sites};
use std::alloc::{AllocError, Allocator};
use std::test::Fail;

const LOADS: [(Given, Stamp); 2] = [(Given::Load(0), Stamp::NONE), (Given::Load(0), Stamp::NONE)];

const STORES: [(Given, Stamp); 2] = [
    (Given::Store(0, 7), Stamp::NONE),
    (Given::Store(0, 7), Stamp::NONE),
];

const NOTHING: [(Given, Stamp); 0] = [];

/// The step of this index at site 0 is told by nobody.
const fn untold_at(index: usize) -> Option<AuditFault> {
    Some(AuditFault::Untold {
        site: SiteId(0),
        index,
    })
}

#[test]
fn receipts_of_all_accesses_are_complete(rt: HostRuntime) -> Result<(), Fail> {
    let callers = one_caller(rt.alloc(), 1, 0, &SEVEN)?;
    let complete = complete_seven(rt.alloc(), &callers);
    drop(callers);
    expect(&rt, are_events(&complete?, &EVENTS));
    Ok(())
}

/// What `audit_complete` says where the log is that of `SEVEN`.
fn complete_seven<A: Allocator + Copy>(
    alloc: A,
    callers: &[Told<A>],
) -> Result<Verdict<A>, AllocError> {
    let logs = one_log(alloc, &SEVEN)?;
    let complete = complete(alloc, 1, &logs, callers);
    drop(logs);
    Ok(complete)
}

#[test]
fn an_access_without_a_receipt_is_untold(rt: HostRuntime) -> Result<(), Fail> {
    expect(&rt, says(rt.alloc(), &SEVEN, [0], untold_at(1))?);
    expect(&rt, says(rt.alloc(), &SEVEN, [1], untold_at(0))?);
    expect(&rt, says(rt.alloc(), &SEVEN, [], untold_at(0))?);
    Ok(())
}

/// A receipt of one doesn't count for the other.
#[test]
fn equal_accesses_each_need_a_receipt(rt: HostRuntime) -> Result<(), Fail> {
    expect(&rt, says(rt.alloc(), &LOADS, [0, 1], None)?);
    expect(&rt, says(rt.alloc(), &STORES, [0], untold_at(1))?);
    expect(&rt, says(rt.alloc(), &STORES, [1], untold_at(0))?);
    Ok(())
}

/// Site 1 has no right to page 0: its first load asks for one, and the second waits for the same.
#[test]
fn an_access_that_waits_needs_no_receipt(rt: HostRuntime) -> Result<(), Fail> {
    let logs = two_logs(rt.alloc(), &NOTHING, &LOADS)?;
    let callers = Vec::new(rt.alloc());
    let complete = complete(rt.alloc(), 2, &logs, &callers);
    expect(&rt, is_said(&complete, 2, None));
    drop(complete);
    drop(callers);
    drop(logs);
    Ok(())
}

/// Whether `audit` accepts the log of a box with these inputs and the receipts of these steps of it, and `audit_complete` finds this.
fn says<A: Allocator + Copy, const N: usize>(
    alloc: A,
    given: &[(Given, Stamp)],
    steps: [usize; N],
    cause: Option<AuditFault>,
) -> Result<bool, AllocError> {
    let all = receipts_of(alloc, 1, 0, given)?;
    let some = choose(alloc, &all, &steps);
    drop(all);
    let callers = alone(alloc, some?)?;
    let said = both_say(alloc, given, &callers, cause);
    drop(callers);
    said
}

/// Whether `audit` accepts the log of a box with these inputs, and `audit_complete` finds this.
fn both_say<A: Allocator + Copy>(
    alloc: A,
    given: &[(Given, Stamp)],
    callers: &[Told<A>],
    cause: Option<AuditFault>,
) -> Result<bool, AllocError> {
    let logs = one_log(alloc, given)?;
    let accepted = is_said(&audit_all(alloc, 1, &logs, callers), given.len(), None);
    let found = is_said(&complete(alloc, 1, &logs, callers), given.len(), cause);
    drop(logs);
    Ok(accepted && found)
}

/// Whether this was said: this cause, or where there is none so many events.
fn is_said<A: Allocator + Copy>(
    audited: &Verdict<A>,
    count: usize,
    cause: Option<AuditFault>,
) -> bool {
    match (audited, cause) {
        (Some(Ok(events)), None) => events.len() == count,
        (Some(Err(fault)), Some(cause)) => *fault == cause,
        _ => false,
    }
}

/// What `audit_complete` says, if the logs are those of so many sites.
fn complete<A: Allocator + Copy>(
    alloc: A,
    count: u32,
    logs: &[SiteLog<A>],
    callers: &[Told<A>],
) -> Verdict<A> {
    let Ok(sites) = Sites::new(count) else {
        return None;
    };
    if !logs_match(sites, PAGES, logs) {
        return None;
    }
    Some(audit_complete(alloc, sites, PAGES, logs, callers))
}
