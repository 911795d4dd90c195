ghost use Rattle.std.specs.Prelude.{◌≡◌, ◌≢◌, ◌≤◌, ℕ, List, Err, None, Ok, Some, length, map, vec_len, IfErr, IfOk};
ghost use Rattle.shm_logs.specs.Auditing.Logs.{AreLogsOf};
ghost use Rattle.shm_report.specs.Callers.{AllServed, ServedUnlessEnded};
ghost use Rattle.shm_report.specs.RunFaults as said;
ghost use Rattle.shm_report.specs.RunFaults.{FirstIfAny, NamesAccess, NoneFailed, TellsFirst, TellsOfLogs};
ghost use Rattle.shm_report.specs.declared.call_and_run_error.RunFault.TheVariants as cause;
ghost use Rattle.shm_lines.specs.declared.workload_access.WorkloadAccess.{WorkloadAccess};

use crate::call_and_run_error::{CallFault, RunFault};
use crate::caller_threads::{CallerTold, Told, call};
use crate::refused_run::Refused;
use crate::workload_outcome::Ran;
use shm_lines::Workload;
use shm_place::{PAGES, Sites};
use shm_sites::{Cluster, OpenGate, Receipt, SiteLog, StartFault, logs_match};
use std::alloc::{AllocError, Global};
use std::sync::Wait;
use std::thread::Threads;

/// Runs the workload over these sites, whose network draws its losses and repeats from this seed. One caller for each site runs the site's
/// lines in order, in a thread of its own; at the end the threads have ended. A caller whose thread can't be started comes before any other
/// fault; then, of callers that ended by faults, the first in the order of the lines. Other logs come back with the fault.
pub fn run_workload<R: Threads + Wait + Copy + Send + Sync + 'static>(
    rt: &R,
    alloc: Global,
    sites: Sites,
    seed: u64,
    workload: &Workload,
) -> Result<Ran, Refused<RunFault>>
    requires from { 1 ≤ workload.now.pages }
    requires to { workload.now.pages ≤ PAGES }
    ensures served { IfOk result (λ ran. AllServed sites workload.now.accesses.items ran.callers.items) }
    ensures logs { IfOk result (λ ran. AreLogsOf sites workload.now.pages ran.logs.items) }
    ensures place { IfErr result (λ refused. NamesAccess (length workload.now.accesses.items) refused.fault) }
    ensures unmatched { IfErr result (λ refused. TellsOfLogs sites workload.now.pages workload.now.accesses.items refused.fault refused.ran) }
{
    let cluster = match Cluster::start(rt, alloc, sites, workload.pages, seed, OpenGate) {
        Ok(cluster) => cluster,
        Err(fault) => {
            return Err(Refused {
                fault: RunFault::Start(fault),
                ran: None,
            });
        }
    };
    let told = call(
        rt,
        alloc,
        sites,
        cluster.shared(),
        workload.accesses.as_slice(),
    );
    let logs = cluster.stop(rt);
    run_outcome(alloc, sites, workload.pages, told, logs)
}

/// The result of the workload, where each caller finished, and the logs that were given back are those of these sites.
fn run_outcome(
    alloc: Global,
    sites: Sites,
    pages: u32,
    told: Result<Told, StartFault>,
    logs: Result<Vec<SiteLog>, AllocError>,
) -> Result<Ran, Refused<RunFault>>
    ensures unstarted { IfErr told (λ fault. result ≡ Err (record { fault = cause.Start fault; ran = None })) }
    ensures callers { (count : ℕ) (accesses : List WorkloadAccess) → IfOk told (λ told. ServedUnlessEnded count accesses told.items) →
        IfOk result (λ ran. AllServed count accesses ran.callers.items) }
    ensures logs { IfOk result (λ ran. (logs ≡ Ok ran.logs) × AreLogsOf sites pages ran.logs.items) }
    ensures first { IfOk told (λ told. IfErr result (λ refused. TellsFirst told.items refused.fault)) }
    ensures unmatched { (accesses : List WorkloadAccess) → IfOk told (λ told. ServedUnlessEnded sites accesses told.items) →
        IfOk logs (λ logs. vec_len logs ≡ sites) → IfErr result (λ refused. TellsOfLogs sites pages accesses refused.fault refused.ran) }
    ensures place { (count : ℕ) (accesses : List WorkloadAccess) → IfOk told (λ told. ServedUnlessEnded count accesses told.items) →
        IfErr result (λ refused. NamesAccess (length accesses) refused.fault) }
{
    let told = match told {
        Ok(told) => told,
        Err(fault) => {
            return Err(Refused {
                fault: RunFault::Start(fault),
                ran: None,
            });
        }
    };
    let callers = match receipts(alloc, told) {
        Ok(callers) => callers,
        Err(fault) => return Err(Refused { fault, ran: None }),
    };
    match logs {
        Ok(logs) => if_matching(sites, pages, Ran { callers, logs }),
        Err(_) => Err(Refused {
            fault: RunFault::OutOfMemory,
            ran: None,
        }),
    }
}

/// The same, where its logs are those of these sites.
fn if_matching(sites: Sites, pages: u32, ran: Ran) -> Result<Ran, Refused<RunFault>>
    ensures same { IfOk result (λ matched. matched ≡ ran) }
    ensures logs { IfOk result (λ ran. AreLogsOf sites pages ran.logs.items) }
    ensures fault { IfErr result (λ refused. (refused ≡ record { fault = cause.Logs; ran = Some ran }) × (¬ AreLogsOf sites pages ran.logs.items)) }
{
    if !logs_match(sites, pages, ran.logs.as_slice()) {
        return Err(Refused {
            fault: RunFault::Logs,
            ran: Some(ran),
        });
    }
    Ok(ran)
}

/// The receipts of all callers, or the first fault in the order of the lines.
fn receipts(alloc: Global, told: Told) -> Result<Vec<Vec<Receipt>>, RunFault>
    ensures all { IfOk result (λ callers. told.items ≡ map Ok callers.items) }
    ensures first { IfErr result (TellsFirst told.items) }
    ensures unmatched { IfErr result (λ fault. fault ≢ cause.Logs) }
{
    match first_fault(told.as_slice()) {
        Some(fault) => Err(RunFault::Call(fault)),
        None => gather(alloc, told),
    }
}

/// Of the callers' faults the first in the order of the lines.
fn first_fault(told: &[CallerTold]) -> Option<CallFault>
    ensures { FirstIfAny told.now result }
{
    let mut first = None;
    'callers: for caller in told {
        first = earlier(first, fault_of(caller));
    }
    first
}

/// Why the caller ended, if it did before its last line.
fn fault_of(caller: &CallerTold) -> Option<CallFault>
    ensures { result ≡ said.fault_of caller.now }
{
    match caller {
        Ok(_) => None,
        Err(fault) => Some(*fault),
    }
}

/// The one whose line comes first, and `one` where they have the same.
fn earlier(one: Option<CallFault>, other: Option<CallFault>) -> Option<CallFault>
    ensures { result ≡ said.earlier one other }
{
    match (one, other) {
        (Some(one), Some(other)) if other.place < one.place => Some(other),
        (None, other) => other,
        (one, _) => one,
    }
}

/// The receipts of all callers, where none ended by a fault.
fn gather(alloc: Global, told: Told) -> Result<Vec<Vec<Receipt>>, RunFault>
    requires { NoneFailed told.items }
    ensures all { IfOk result (λ callers. told.items ≡ map Ok callers.items) }
    ensures fault { IfErr result (λ fault. fault ≡ cause.OutOfMemory) }
{
    let mut callers = Vec::new(alloc);
    'callers: for caller in told {
        match caller {
            Ok(receipts) => match callers.push(receipts) {
                Ok(()) => {}
                Err(_) => return Err(RunFault::OutOfMemory),
            },
            Err(fault) => return Err(RunFault::Call(fault)),
        }
    }
    Ok(callers)
}
