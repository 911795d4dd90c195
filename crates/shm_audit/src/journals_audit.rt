//! The audit of the logs that the journals lead to.
ghost use Rattle.std.specs.Prelude.{◌≡◌, ◌⊎◌, IfErr, IfOk, IsOk};
ghost use Rattle.shm_logs.specs.Auditing.Logs.{logs_of, AreLogsOf};
ghost use Rattle.shm_audit.specs.Totals.{totals_of};
ghost use Rattle.shm_audit.specs.OneSet.{AreOneRun, IsWhy};

use crate::count_totals::count;
use crate::journals_error::JournalsFault;
use crate::totals::Totals;
use shm_logs::{AuditFault, Receipt, SiteLog, audit, logs_match};
use shm_place::Sites;
use std::alloc::Allocator;

/// Counts what the sites of these logs did, if they shared one plain memory, or says why they can't have. The logs have to be one for each
/// site, in order. It needs no receipts: a box answers as its site does, so the logs have what callers were told.
///
/// Takes time and memory in proportion to the steps and envelopes.
pub fn audit_journals<A: Allocator + Copy>(
    alloc: A,
    logs: &[SiteLog<A>],
) -> Result<Totals, JournalsFault>
    ensures counts { IfOk result (λ counts. counts ≡ totals_of (logs_of logs.now)) }
    ensures run { IsOk result → AreOneRun logs.now }
    ensures why { IfErr result (IsWhy logs.now) }
{
    let Some(first) = logs.first() else {
        return Err(JournalsFault::NotOneSet);
    };
    let sites = first.sites();
    let pages = first.pages();
    if !logs_match(sites, pages, logs) {
        return Err(JournalsFault::NotOneSet);
    }
    match judge(alloc, sites, pages, logs) {
        Ok(()) => count(logs).ok_or(JournalsFault::OutOfMemory),
        Err(fault) => Err(fault),
    }
}

/// Checks that the sites of these logs shared one plain memory.
fn judge<A: Allocator + Copy>(
    alloc: A,
    sites: Sites,
    pages: u32,
    logs: &[SiteLog<A>],
) -> Result<(), JournalsFault>
    requires { AreLogsOf sites pages logs.now }
    ensures run { IsOk result → AreOneRun logs.now }
    ensures why { IfErr result (IsWhy logs.now) }
{
    let no_callers: Vec<Vec<Receipt, A>, A> = Vec::new(alloc);
    match audit(alloc, sites, pages, logs, no_callers.as_slice()) {
        Ok(events) => {
            drop(events);
            Ok(())
        }
        Err(AuditFault::OutOfMemory) => Err(JournalsFault::OutOfMemory),
        Err(fault) => Err(JournalsFault::Audit(fault)),
    }
}
