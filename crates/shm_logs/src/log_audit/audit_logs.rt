//! The audit of logs and receipts.
ghost use Rattle.std.specs.Prelude.{◌≡◌, ◌≤◌, ◌⊎◌, ℕ, List, length, map, IfErr, IfOk, IsOk};
ghost use Rattle.std.specs.List.{sum_by};
ghost use Rattle.shm_logs.specs.Auditing.Logs.{logs_of, AreLogsOf};
ghost use Rattle.shm_model.specs.Log.{sent_by};
ghost use Rattle.shm_model.specs.Merge.{events_in, IsMerged, SiteStep};
ghost use Rattle.shm_model.specs.Receipt.{of_all, ReceiptsHold};
ghost use Rattle.shm_model.specs.Receipt as model;
ghost use Rattle.shm_model.specs.World.{Preset};
ghost use Rattle.shm_model.specs.Basics.{max_sent};
ghost use Rattle.shm_logs.specs.Auditing.Audit.{IsAudited};
ghost use Rattle.shm_logs.specs.Auditing.Callers.{callers_of};
ghost use Rattle.shm_logs.specs.Auditing.Cause.{AllSound, IsFirstCause, IsForged};
ghost use Rattle.shm_logs.specs.Auditing.Complete.{AllTold, IsFirstCauseOfAll, IsToldAt, IsUntold};
ghost use Rattle.shm_logs.specs.Auditing.Marks.{mark_at, marks_of, unmarked, MarksName};
ghost use Rattle.shm_logs.specs.declared.log_audit.audit_error.AuditFault.TheVariants as fault;

use crate::log_audit::audit_error::AuditFault;
use crate::log_audit::check_receipts::first_forged;
use crate::log_audit::first_wrong_step::first_fault;
use crate::log_audit::laws::matching_logs_fit;
use crate::log_audit::receipt_marks::Marks;
use crate::log_audit::steps_without_receipt::first_untold;
use crate::log_audit::{Event, events, merge};
use crate::site_boxes::{Receipt, SiteLog};
use shm_laws::{every_run_is_legal_and_coherent, merged_logs_are_a_run};
use shm_place::Sites;
use std::alloc::{AllocError, Allocator};

/// The list of events that the sites made together: a run of the world in which memory is one plain memory and every receipt holds; or the
/// first cause why there is none. Each caller's receipts are in the order in which it got them.
///
/// Takes time and memory in proportion to the steps, envelopes and receipts. It fails only by a cause or for memory.
pub fn audit<A: Allocator + Copy>(
    alloc: A,
    sites: Sites,
    pages: u32,
    logs: &[SiteLog<A>],
    callers: &[Vec<Receipt, A>],
) -> Result<Vec<Event, A>, AuditFault>
    requires { AreLogsOf sites pages logs.now }
    ensures fault { IfErr result (λ f. (f ≡ fault.OutOfMemory) ⊎ IsFirstCause (logs_of logs.now) (callers_of callers.now) f) }
    ensures sound { IfOk result (λ events. IsAudited (Preset sites pages) (logs_of logs.now) (callers_of callers.now) events.items) }
{
    // Reading it tells the proof its limits.
    let _count = sites.count();
    if let Err(fault) = cause(alloc, logs, callers) {
        return Err(fault);
    }
    order_events(alloc, sites, pages, logs)
}

/// The same of receipts that claim to be all: one of them names every step that was answered a byte, or that it stored. A step with another
/// answer, such as an access that waits for its page, needs none.
///
/// It looks for missing receipts last, by site and index, where `audit` finds no cause. It takes more time than that, in proportion to the
/// steps.
pub fn audit_complete<A: Allocator + Copy>(
    alloc: A,
    sites: Sites,
    pages: u32,
    logs: &[SiteLog<A>],
    callers: &[Vec<Receipt, A>],
) -> Result<Vec<Event, A>, AuditFault>
    requires { AreLogsOf sites pages logs.now }
    ensures fault { IfErr result (λ f. (f ≡ fault.OutOfMemory) ⊎ IsFirstCauseOfAll (logs_of logs.now) (callers_of callers.now) f) }
    ensures sound { IfOk result (λ events. IsAudited (Preset sites pages) (logs_of logs.now) (callers_of callers.now) events.items) }
    ensures complete { IsOk result → AllTold (logs_of logs.now) (callers_of callers.now) }
{
    let _count = sites.count();
    if let Err(fault) = cause_of_all(alloc, logs, callers) {
        return Err(fault);
    }
    order_events(alloc, sites, pages, logs)
}

/// The first cause, where there is one.
fn cause<A: Allocator + Copy>(
    alloc: A,
    logs: &[SiteLog<A>],
    callers: &[Vec<Receipt, A>],
) -> Result<(), AuditFault>
    requires { length logs.now ≤ 16 }
    ensures sound { IsOk result → AllSound (logs_of logs.now) }
    ensures held { IsOk result → ReceiptsHold (logs_of logs.now) (callers_of callers.now) }
    ensures fault { IfErr result (λ f. (f ≡ fault.OutOfMemory) ⊎ IsFirstCause (logs_of logs.now) (callers_of callers.now) f) }
{
    match named_steps(alloc, logs, callers) {
        Ok(marks) => {
            drop(marks);
            Ok(())
        }
        Err(fault) => Err(fault),
    }
}

/// The first cause, where there is one, if the receipts are all.
fn cause_of_all<A: Allocator + Copy>(
    alloc: A,
    logs: &[SiteLog<A>],
    callers: &[Vec<Receipt, A>],
) -> Result<(), AuditFault>
    requires { length logs.now ≤ 16 }
    ensures sound { IsOk result → AllSound (logs_of logs.now) }
    ensures held { IsOk result → ReceiptsHold (logs_of logs.now) (callers_of callers.now) }
    ensures told { IsOk result → AllTold (logs_of logs.now) (callers_of callers.now) }
    ensures fault { IfErr result (λ f. (f ≡ fault.OutOfMemory) ⊎ IsFirstCauseOfAll (logs_of logs.now) (callers_of callers.now) f) }
{
    match named_steps(alloc, logs, callers) {
        Ok(marks) => check_all_told(logs, marks),
        Err(fault) => Err(fault),
    }
}

/// The steps that the receipts name, where there is no cause.
fn named_steps<A: Allocator + Copy>(
    alloc: A,
    logs: &[SiteLog<A>],
    callers: &[Vec<Receipt, A>],
) -> Result<Marks<A>, AuditFault>
    requires { length logs.now ≤ 16 }
    ensures sound { IsOk result → AllSound (logs_of logs.now) }
    ensures held { IsOk result → ReceiptsHold (logs_of logs.now) (callers_of callers.now) }
    ensures named { IfOk result (λ marks. MarksName (logs_of logs.now) (marks_of marks) (of_all (callers_of callers.now))) }
    ensures fault { IfErr result (λ f. (f ≡ fault.OutOfMemory) ⊎ IsFirstCause (logs_of logs.now) (callers_of callers.now) f) }
{
    if let Some(fault) = first_fault(logs) {
        return Err(fault);
    }
    match Marks::new(alloc, logs) {
        Ok(marks) => name_steps(logs, callers, marks),
        Err(_) => Err(AuditFault::OutOfMemory),
    }
}

/// The steps that the receipts name, where these hold; or the first with which they don't. No step is marked yet.
fn name_steps<A: Allocator + Copy>(
    logs: &[SiteLog<A>],
    callers: &[Vec<Receipt, A>],
    marks: Marks<A>,
) -> Result<Marks<A>, AuditFault>
    requires sites { length logs.now ≤ 16 }
    requires marks { marks_of marks ≡ map unmarked (logs_of logs.now) }
    ensures held { IsOk result → ReceiptsHold (logs_of logs.now) (callers_of callers.now) }
    ensures named { IfOk result (λ marks. MarksName (logs_of logs.now) (marks_of marks) (of_all (callers_of callers.now))) }
    ensures forged { IfErr result (IsForged (logs_of logs.now) (callers_of callers.now)) }
{
    let mut marks = marks;
    match first_forged(logs, callers, &mut marks) {
        Some(fault) => {
            drop(marks);
            Err(fault)
        }
        None => Ok(marks),
    }
}

/// The first step that needs a receipt and isn't marked, where there is one.
fn check_all_told<A: Allocator + Copy>(
    logs: &[SiteLog<A>],
    marks: Marks<A>,
) -> Result<(), AuditFault>
    requires { length logs.now ≤ 16 }
    ensures told { IsOk result → (s i : ℕ) → IsToldAt (logs_of logs.now) (mark_at (marks_of marks)) s i }
    ensures untold { IfErr result (IsUntold (logs_of logs.now) (mark_at (marks_of marks))) }
{
    let untold = first_untold(logs, &marks);
    drop(marks);
    match untold {
        Some(fault) => Err(fault),
        None => Ok(()),
    }
}

/// The events of logs with which nothing is wrong. They are a run in which all receipts hold that hold of the logs.
fn order_events<A: Allocator + Copy>(
    alloc: A,
    sites: Sites,
    pages: u32,
    logs: &[SiteLog<A>],
) -> Result<Vec<Event, A>, AuditFault>
    requires logs { AreLogsOf sites pages logs.now }
    requires sound { AllSound (logs_of logs.now) }
    ensures fault { IfErr result (λ f. f ≡ fault.OutOfMemory) }
    ensures sound { IfOk result (λ events. (callers : List (List model.Receipt)) → ReceiptsHold (logs_of logs.now) callers
        → IsAudited (Preset sites pages) (logs_of logs.now) callers events.items) }
{
    let _count = sites.count();
    matching_logs_fit(sites, pages, logs);
    merged_logs_are_a_run();
    every_run_is_legal_and_coherent();
    in_memory(merge_events(alloc, logs))
}

/// The events of logs with which nothing is wrong, in the one order of their steps.
fn merge_events<A: Allocator + Copy>(
    alloc: A,
    logs: &[SiteLog<A>],
) -> Result<Vec<Event, A>, AllocError>
    requires sites { length logs.now ≤ 16 }
    requires sound { AllSound (logs_of logs.now) }
    requires few { sum_by sent_by (logs_of logs.now) ≤ max_sent }
    ensures { IfOk result (λ events. (order : List SiteStep) × IsMerged (logs_of logs.now) order × (events.items ≡ events_in order)) }
{
    let order = merge(alloc, logs)?;
    events(alloc, logs, order.as_slice())
}

fn in_memory<A: Allocator + Copy>(
    made: Result<Vec<Event, A>, AllocError>,
) -> Result<Vec<Event, A>, AuditFault>
    ensures ok { IfOk result (λ events. made ≡ Ok events) }
    ensures err { IfErr result (λ f. f ≡ fault.OutOfMemory) }
{
    match made {
        Ok(events) => Ok(events),
        Err(_) => Err(AuditFault::OutOfMemory),
    }
}
