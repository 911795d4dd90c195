//! The audit of what was run.
ghost use Rattle.std.specs.Prelude.{◌≡◌, ◌≢◌, None, IfErr, IfOk, IfSome, IsOk};
ghost use Rattle.shm_logs.specs.Auditing.Audit.{IsAudited};
ghost use Rattle.shm_logs.specs.Auditing.Callers.{callers_of};
ghost use Rattle.shm_logs.specs.Auditing.Complete.{AllTold, IsFirstCauseOfAll};
ghost use Rattle.shm_logs.specs.Auditing.Logs.{logs_of, AreLogsOf};
ghost use Rattle.shm_model.specs.World.{Preset};
ghost use Rattle.shm_report.specs.Causes.{audit_cause, given_up, input_cause};
ghost use Rattle.shm_report.specs.declared.report_error.ReportFault.TheVariants as cause;

use crate::Ran;
use crate::report_error::ReportFault;
use shm_place::Sites;
use shm_sites::{Event, audit_complete};
use std::alloc::Global;

/// Puts all steps in one order, where the logs and receipts are those of these sites with one plain memory, and the receipts are all; if
/// not, the first cause.
pub(crate) fn order_steps(
    alloc: Global,
    sites: Sites,
    pages: u32,
    ran: &Ran,
) -> Result<Vec<Event>, ReportFault>
    requires { AreLogsOf sites pages ran.now.logs.items }
    ensures accepted { IfOk result (λ events. IsAudited (Preset sites pages) (logs_of ran.now.logs.items) (callers_of ran.now.callers.items) events.items) }
    ensures complete { IsOk result → AllTold (logs_of ran.now.logs.items) (callers_of ran.now.callers.items) }
    ensures cause { IfErr result (λ fault. IfSome (audit_cause fault) (IsFirstCauseOfAll (logs_of ran.now.logs.items) (callers_of ran.now.callers.items))) }
    ensures input { IfErr result (λ fault. input_cause fault ≡ None) }
    ensures line { IfErr result (λ fault. given_up fault ≡ None) }
    ensures unwritten { IfErr result (λ fault. fault ≢ cause.WriteFault) }
    ensures unmatched { IfErr result (λ fault. fault ≢ cause.Logs) }
{
    match audit_complete(
        alloc,
        sites,
        pages,
        ran.logs.as_slice(),
        ran.callers.as_slice(),
    ) {
        Ok(events) => Ok(events),
        Err(fault) => Err(ReportFault::of_audit(fault)),
    }
}
