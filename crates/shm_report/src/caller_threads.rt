//! The callers of all sites, each in a thread of its own.
ghost use Rattle.std.specs.Prelude.{◌≡◌, ◌≤◌, ◌<◌, List, vec_capacity, vec_len, IfOk, OnOk};
ghost use Rattle.shm_lines.specs.declared.workload_access.WorkloadAccess.{WorkloadAccess};
ghost use Rattle.shm_report.specs.Callers.{IsToldOf, ServedUnlessEnded};
ghost use Rattle.shm_report.specs.CallerThreads.{AreCallers};

use crate::call_and_run_error::CallFault;
use crate::site_caller::call_all;
use shm_lines::WorkloadAccess;
use shm_place::{SiteId, Sites};
use shm_sites::{Receipt, Shared, StartFault};
use std::alloc::Global;
use std::sync::Wait;
use std::thread;
use std::thread::{Promise, PromisedHandle, Scope, Threads};

/// One caller's receipts, or why it ended.
pub(crate) type CallerTold = Result<Vec<Receipt>, CallFault>;

/// The same of each caller.
pub(crate) type Told = Vec<CallerTold>;

/// The caller of this site, for its part of these accesses.
#[derive(Clone, Copy)]
struct Caller<'a> {
    site: SiteId,
    accesses: &'a [WorkloadAccess],
}

impl<'a> Promise<CallerTold> for Caller<'a> {
    ghost kept_by = { λ caller told. IsToldOf caller.site caller.accesses.now told };
}

/// Runs a caller for each site, in a thread of its own. Where one can't be started, those that were have come to their ends.
pub(crate) fn call<R: Threads + Wait + Sync>(
    rt: &R,
    alloc: Global,
    sites: Sites,
    shared: &Shared,
    accesses: &[WorkloadAccess],
) -> Result<Told, StartFault>
    requires { vec_len shared.now.posts ≡ sites }
    ensures { IfOk result (λ told. ServedUnlessEnded sites accesses.now told.items) }
{
    let count = sites.count();
    thread::scope(
        thread::scope_env(),
        rt,
        move |scope| -> Result<Told, StartFault>
            requires { vec_len shared.now.posts ≡ count }
            ensures { IfOk result (λ told. ServedUnlessEnded count accesses.entry.now told.items) }
        { call_within(rt, alloc, scope, count, shared, accesses) },
    )
}

/// The same in this scope: whatever takes memory comes first, and then the threads.
fn call_within<'s, 'e: 's, R: Threads + Wait + Sync>(
    rt: &'e R,
    alloc: Global,
    scope: &'s Scope<'s, &'e ()>,
    count: u32,
    shared: &'e Shared,
    accesses: &'e [WorkloadAccess],
) -> Result<Told, StartFault>
    requires { vec_len shared.now.posts ≡ count }
    ensures { IfOk result (λ told. ServedUnlessEnded count accesses.now told.items) }
{
    let Ok(mut told) = Vec::with_capacity(alloc, count as usize) else {
        return Err(StartFault::OutOfMemory);
    };
    let Ok(mut callers) = Vec::with_capacity(alloc, count as usize) else {
        return Err(StartFault::OutOfMemory);
    };
    let started = start_callers(rt, alloc, scope, count, shared, accesses, &mut callers);
    join_callers(rt, callers, &mut told);
    match started {
        Ok(()) => Ok(told),
        Err(fault) => Err(fault),
    }
}

/// Starts the caller of each site, as far as the system gives threads.
fn start_callers<'s, 'e: 's, R: Threads + Wait + Sync>(
    rt: &'e R,
    alloc: Global,
    scope: &'s Scope<'s, &'e ()>,
    count: u32,
    shared: &'e Shared,
    accesses: &'e [WorkloadAccess],
    callers: &mut Vec<PromisedHandle<CallerTold, Caller<'e>>>,
) -> Result<(), StartFault>
    requires posts { vec_len shared.now.posts ≡ count }
    requires none { vec_len callers.old ≡ 0 }
    requires room { count ≤ vec_capacity callers.old }
    ensures each { AreCallers accesses.now callers.new.items }
    ensures few { vec_len callers.new ≤ count }
    ensures all { OnOk result (vec_len callers.new ≡ count) }
{
    'sites: for number in 0..count {
        let call = move || -> CallerTold
            requires { number < vec_len shared.now.posts }
            ensures { IsToldOf number accesses.entry.now result }
        { call_site(rt, alloc, shared, SiteId(number), accesses) };
        let site = SiteId(number);
        let Ok(thread) = scope.spawn_with(Caller { site, accesses }, call) else {
            return Err(StartFault::NoThread);
        };
        callers.push_reserved(thread);
    }
    Ok(())
}

/// Waits for these callers, and keeps the receipts of each.
fn join_callers<R: Threads>(
    rt: &R,
    callers: Vec<PromisedHandle<CallerTold, Caller<'_>>>,
    told: &mut Told,
)
    requires none { vec_len told.old ≡ 0 }
    requires room { vec_len callers ≤ vec_capacity told.old }
    ensures { (accesses : List WorkloadAccess) → AreCallers accesses callers.entry.items
        → ServedUnlessEnded (vec_len callers.entry) accesses told.new.items }
{
    'callers: for caller in callers {
        told.push_reserved(caller.join(rt));
    }
}

/// Runs the caller of this site, if there is one.
fn call_site<R: Wait>(
    rt: &R,
    alloc: Global,
    shared: &Shared,
    site: SiteId,
    accesses: &[WorkloadAccess],
) -> CallerTold
    requires { site < vec_len shared.now.posts }
    ensures { IsToldOf site accesses.now result }
{
    match shared.client(site) {
        Ok(client) => call_all(rt, alloc, &client, accesses),
        Err(_) => unreachable!(),
    }
}
