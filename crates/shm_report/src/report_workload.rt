//! A whole workload, from a reader to a writer.
ghost use Rattle.std.specs.Prelude.{◌≡◌, ◌≢◌, ◌≤◌, ◌⊎◌, ℕ, List, None, Ok, Some, false, true, IfErr, IfOk, IfSome, OnOk};
ghost use Rattle.std.specs.Io.KnownBytes.{Appends};
ghost use Rattle.shm_logs.specs.Auditing.Callers.{callers_of};
ghost use Rattle.shm_logs.specs.Auditing.Complete.{IsFirstCauseOfAll};
ghost use Rattle.shm_logs.specs.Auditing.Logs.{logs_of, AreLogsOf};
ghost use Rattle.shm_report.specs.Audited.{IsAccepted};
ghost use Rattle.shm_report.specs.Callers.{AllServed, AreOf};
ghost use Rattle.shm_lines.specs.Workload.{workload_of};
ghost use Rattle.shm_report.specs.Causes.{audit_cause, fault_of_run, given_up, input_cause, is_after_reading, IsFound, IsLineIn, IsOther, IsRight, IsUnmatchedIn, IsWrongBy, TellsOfRun};
ghost use Rattle.shm_report.specs.Report.{whole_of, IsCutShort, IsReport};
ghost use Rattle.shm_report.specs.declared.report_error.ReportFault.TheVariants as cause;

use crate::audited_run::Audited;
use crate::order_run_steps::order_steps;
use crate::read_input::read_all;
use crate::refused_run::Refused;
use crate::report_error::ReportFault;
use crate::{Ran, RunFault, run_workload};
use shm_lines::{Workload, parse_workload};
use shm_place::{PAGES, Sites};
use std::alloc::Global;
use std::io::{Read, Write};
use std::sync::Wait;
use std::thread::Threads;

/// Runs the workload that is read from `reader` over these sites, whose network draws its losses and repeats from the seed. One caller for
/// each site runs the site's lines in order. When an audit of all logs has accepted them, it writes the answer to each line to `writer`;
/// before that it writes nothing. Any error of the reader or the writer ends it, and nothing is tried again. Where the writer failed, a
/// front of the report was written.
pub fn report<R: Threads + Wait + Copy + Send + Sync + 'static, I: Read, O: Write>(
    rt: &R,
    alloc: Global,
    sites: Sites,
    seed: u32,
    reader: &mut I,
    writer: &mut O,
) -> Result<(), ReportFault>
    ensures quiet { IfErr result (λ fault. (fault ≡ cause.WriteFault) ⊎ (writer.new ≡ writer.old)) }
    ensures told { OnOk result ((text : List ℕ) × Appends (O.contents writer.old) (O.contents writer.new) text
        × IsReport sites (I.remaining reader.old) text) }
    ensures cut { IfErr result (λ fault. fault ≡ cause.WriteFault → (text : List ℕ)
        × IsCutShort (O.contents writer.old) (O.contents writer.new) text × IsReport sites (I.remaining reader.old) text) }
    ensures input { IfErr result (λ fault. IfSome (input_cause fault) (IsWrongBy sites (I.remaining reader.old))) }
    ensures right { IfErr result (λ fault. is_after_reading fault ≡ true → IsRight sites (I.remaining reader.old)) }
    ensures line { IfErr result (λ fault. IfSome (given_up fault) (IsLineIn sites (I.remaining reader.old))) }
    ensures audit { IfErr result (λ fault. IfSome (audit_cause fault) (IsFound sites (I.remaining reader.old))) }
    ensures unmatched { IfErr result (λ fault. fault ≡ cause.Logs → IsUnmatchedIn sites (I.remaining reader.old)) }
{
    match run_audited(rt, alloc, sites, seed, reader) {
        Ok(run) => run.write(alloc, "", writer),
        Err(refused) => Err(refused.fault),
    }
}

/// Runs the workload as `report` does, and audits it. Of what was run, nothing is written yet. A fault of the logs or of the audit comes with
/// the receipts and logs of this run.
pub fn run_audited<R: Threads + Wait + Copy + Send + Sync + 'static, I: Read>(
    rt: &R,
    alloc: Global,
    sites: Sites,
    seed: u32,
    reader: &mut I,
) -> Result<Audited, Refused<ReportFault>>
    ensures accepted { IfOk result IsAccepted }
    ensures sites { IfOk result (λ run. run.sites ≡ sites) }
    ensures read { IfOk result (λ run. IfSome (I.remaining reader.old) (λ bytes. workload_of sites bytes ≡ Ok (whole_of run.workload))) }
    ensures among { IfOk result (λ run. AreOf sites run.workload.accesses.items) }
    ensures unwritten { IfErr result (λ refused. refused.fault ≢ cause.WriteFault) }
    ensures input { IfErr result (λ refused. IfSome (input_cause refused.fault) (IsWrongBy sites (I.remaining reader.old))) }
    ensures right { IfErr result (λ refused. is_after_reading refused.fault ≡ true → IsRight sites (I.remaining reader.old)) }
    ensures line { IfErr result (λ refused. IfSome (given_up refused.fault) (IsLineIn sites (I.remaining reader.old))) }
    ensures audit { IfErr result (λ refused. IfSome (audit_cause refused.fault) (IsFound sites (I.remaining reader.old))) }
    ensures ran { IfErr result (λ refused. TellsOfRun sites (I.remaining reader.old) refused.fault refused.ran) }
{
    let workload = match read_workload(alloc, sites, reader) {
        Ok(workload) => workload,
        Err(fault) => return Err(Refused { fault, ran: None }),
    };
    let ran = match run_workload(rt, alloc, sites, seed as u64, &workload) {
        Ok(ran) => ran,
        Err(refused) => return Err(refused_report(refused)),
    };
    audit_run(alloc, sites, workload, ran)
}

/// Why there is no report of a workload that wasn't run to its end, or whose logs are others.
fn refused_report(refused: Refused<RunFault>) -> Refused<ReportFault>
    ensures same { result.fault ≡ fault_of_run refused.fault }
    ensures ran { result.ran ≡ refused.ran }
    ensures other { IsOther result.fault }
    ensures unwritten { result.fault ≢ cause.WriteFault }
{
    let Refused { fault, ran } = refused;
    let fault = ReportFault::of_run(fault);
    Refused { fault, ran }
}

/// Reads the reader to its end, a workload for this many sites.
pub fn read_workload<I: Read>(
    alloc: Global,
    sites: Sites,
    reader: &mut I,
) -> Result<Workload, ReportFault>
    ensures read { IfOk result (λ workload. IfSome (I.remaining reader.old) (λ bytes.
        workload_of sites bytes ≡ Ok (whole_of workload))) }
    ensures among { IfOk result (λ workload. AreOf sites workload.accesses.items) }
    ensures pages { IfOk result (λ workload. (1 ≤ workload.pages) × (workload.pages ≤ PAGES)) }
    ensures input { IfErr result (λ fault. IfSome (input_cause fault) (IsWrongBy sites (I.remaining reader.old))) }
    ensures unread { IfErr result (λ fault. is_after_reading fault ≡ false) }
    ensures unwritten { IfErr result (λ fault. fault ≢ cause.WriteFault) }
    ensures audit { IfErr result (λ fault. audit_cause fault ≡ None) }
{
    let bytes = match read_all(alloc, reader) {
        Ok(bytes) => bytes,
        Err(fault) => return Err(fault),
    };
    match parse_workload(alloc, sites, bytes.as_slice()) {
        Ok(workload) => Ok(workload),
        Err(fault) => Err(ReportFault::of_workload(fault)),
    }
}

/// The same, where an audit accepts what was run.
fn audit_run(
    alloc: Global,
    sites: Sites,
    workload: Workload,
    ran: Ran,
) -> Result<Audited, Refused<ReportFault>>
    requires served { AllServed sites workload.accesses.items ran.callers.items }
    requires logs { AreLogsOf sites workload.pages ran.logs.items }
    ensures accepted { IfOk result IsAccepted }
    ensures same { IfOk result (λ run. (run.sites ≡ sites) × (run.workload ≡ workload)) }
    ensures unwritten { IfErr result (λ refused. refused.fault ≢ cause.WriteFault) }
    ensures input { IfErr result (λ refused. input_cause refused.fault ≡ None) }
    ensures line { IfErr result (λ refused. given_up refused.fault ≡ None) }
    ensures unmatched { IfErr result (λ refused. refused.fault ≢ cause.Logs) }
    ensures ran { IfErr result (λ refused. refused.ran ≡ Some ran) }
    ensures audit { IfErr result (λ refused. IfSome (audit_cause refused.fault) (IsFirstCauseOfAll (logs_of ran.logs.items) (callers_of ran.callers.items))) }
{
    match order_steps(alloc, sites, workload.pages, &ran) {
        Ok(events) => Ok(Audited {
            sites,
            workload,
            ran,
            events,
        }),
        Err(fault) => Err(Refused {
            fault,
            ran: Some(ran),
        }),
    }
}
