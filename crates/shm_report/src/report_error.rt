ghost use Rattle.std.specs.Prelude.{◌≡◌, ◌≢◌, None, Some, false};
ghost use Rattle.shm_logs.specs.declared.log_audit.audit_error.AuditFault.TheVariants as audit;
ghost use Rattle.shm_report.specs.declared.report_error.ReportFault.TheVariants as cause;
ghost use Rattle.shm_lines.specs.declared.workload_error.WorkloadFault.TheVariants as workload;

use crate::RunFault;
use shm_lines::WorkloadFault;
use shm_sites::{AuditFault, ClientFault, StartFault};
use thiserror::Error;

/// Why there is no whole report: at `WriteFault` a front of it was written, else nothing. Lines count from 1.
#[derive(Clone, Copy, Debug, PartialEq, Eq, Error)]
pub enum ReportFault {
    /// An allocation was refused.
    #[error("out of memory")]
    OutOfMemory,
    /// It isn't a line of a workload, or isn't allowed there, or has no line feed.
    #[error("line {0}: bad line")]
    BadLine(u64),
    /// The line has more than 200 bytes before its line feed.
    #[error("line {0}: too long")]
    LineTooLong(u64),
    /// Something follows line 10,000.
    #[error("too many lines")]
    TooManyLines,
    /// The reader answered an error.
    #[error("read fault")]
    ReadFault,
    /// The writer answered an error, or took nothing.
    #[error("write fault")]
    WriteFault,
    /// The system gave no thread.
    #[error("no thread")]
    NoThread,
    /// The line's access was tried for the last time, and its site still waits for the page; or the box at its site was another's.
    #[error("line {0}: gave up")]
    GaveUp(u64),
    /// A site's clock has no further stamp.
    #[error("clock end")]
    ClockEnd,
    /// The logs aren't those of these sites, or the receipts aren't those of this workload.
    #[error("audit: logs")]
    Logs,
    /// The audit found this cause.
    #[error("audit: {0}")]
    Audit(AuditFault),
}

impl ReportFault {
    ghost use Rattle.shm_report.specs.Causes.{audit_cause, fault_of_run, given_up, input_cause, is_after_reading, IsOther};

    /// Why there is no workload.
    pub(crate) fn of_workload(fault: WorkloadFault) -> ReportFault
        ensures memory { fault ≡ workload.OutOfMemory → input_cause result ≡ None }
        ensures cause { fault ≢ workload.OutOfMemory → input_cause result ≡ Some fault }
        ensures audit { audit_cause result ≡ None }
        ensures unread { is_after_reading result ≡ false }
        ensures unwritten { result ≢ cause.WriteFault }
    {
        match fault {
            WorkloadFault::OutOfMemory => ReportFault::OutOfMemory,
            WorkloadFault::BadLine(line) => ReportFault::BadLine(line),
            WorkloadFault::LineTooLong(line) => ReportFault::LineTooLong(line),
            WorkloadFault::TooManyLines => ReportFault::TooManyLines,
        }
    }

    /// Why the workload wasn't run to its end. The first access is that of line 2.
    pub(crate) fn of_run(fault: RunFault) -> ReportFault
        ensures same { result ≡ fault_of_run fault }
        ensures other { IsOther result }
        ensures unwritten { result ≢ cause.WriteFault }
    {
        match fault {
            RunFault::Start(StartFault::NoThread) => ReportFault::NoThread,
            RunFault::Start(StartFault::OutOfMemory) => ReportFault::OutOfMemory,
            RunFault::OutOfMemory => ReportFault::OutOfMemory,
            RunFault::Logs => ReportFault::Logs,
            RunFault::Call(call) => match call.fault {
                ClientFault::OutOfMemory => ReportFault::OutOfMemory,
                ClientFault::ClockEnd => ReportFault::ClockEnd,
                ClientFault::GaveUp => ReportFault::GaveUp((call.place as u64).saturating_add(2)),
            },
        }
    }

    /// The fault that an audit found.
    pub(crate) fn of_audit(fault: AuditFault) -> ReportFault
        ensures memory { fault ≡ audit.OutOfMemory → audit_cause result ≡ None }
        ensures cause { fault ≢ audit.OutOfMemory → audit_cause result ≡ Some fault }
        ensures input { input_cause result ≡ None }
        ensures line { given_up result ≡ None }
        ensures unwritten { result ≢ cause.WriteFault }
        ensures logs { result ≢ cause.Logs }
    {
        match fault {
            AuditFault::OutOfMemory => ReportFault::OutOfMemory,
            cause => ReportFault::Audit(cause),
        }
    }
}
