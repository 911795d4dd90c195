//! A run of a workload, and its report.
ghost use Rattle.std.specs.Prelude.{◌≡◌, ◌⊎◌, ℕ, List, false, true, IfErr, IfSome, OnOk};
ghost use Rattle.std.specs.Io.KnownBytes.{Appends};
ghost use Rattle.shm_report.specs.Audited.{TellsRun};
ghost use Rattle.shm_report.specs.Causes.{audit_cause, input_cause, is_after_reading, IsFound, IsOther, IsRight, IsWrongBy};
ghost use Rattle.shm_report.specs.Report.{IsToldReport};
ghost use Rattle.shm_report.specs.declared.report_error.ReportFault.TheVariants as cause;
ghost use Rattle.shm_command.specs.Status.{CutsReport, CutsRun};

use crate::disk_save_file::Disk;
use crate::elapsed_time::milliseconds_since;
use crate::save_run_logs::save_logs;
use shm_place::Sites;
use shm_report::{Audited, ReportFault, run_audited};
use std::alloc::Global;
use std::io::{Read, Write};
use std::rt::{Clock, Files};
use std::sync::Wait;
use std::thread::Threads;
use std::time::Instant;

/// The output beside the report.
#[derive(Clone, Copy)]
pub struct Wanted<'a> {
    /// A summary, behind the report.
    pub summary: bool,
    /// The sites' logs, in this folder.
    pub log: Option<&'a str>,
}

/// Runs the workload, and writes its report. Where they are wanted, it saves the logs before that, and a summary stands behind the report,
/// with the time, if the clock could be read.
pub fn tell_run<
    R: AllocGlobal + Clock + Files + Threads + Wait + Copy + Send + Sync + 'static,
    I: Read,
    O: Write,
>(
    rt: &R,
    sites: Sites,
    seed: u32,
    wanted: &Wanted<'_>,
    reader: &mut I,
    out: &mut O,
) -> Result<(), ReportFault>
    ensures quiet { IfErr result (λ fault. (fault ≡ cause.WriteFault) ⊎ (out.new ≡ out.old)) }
    ensures told { OnOk result ((text : List ℕ) × Appends (O.contents out.old) (O.contents out.new) text
        × IsToldReport wanted.now.summary sites (I.remaining reader.old) text) }
    ensures cut { IfErr result (λ fault. fault ≡ cause.WriteFault → (out.new ≡ out.old)
        ⊎ CutsReport wanted.now.summary sites (I.remaining reader.old) (O.contents out.old) (O.contents out.new)) }
    ensures input { IfErr result (λ fault. IfSome (input_cause fault) (IsWrongBy sites (I.remaining reader.old))) }
    ensures right { IfErr result (λ fault. is_after_reading fault ≡ true → IsRight sites (I.remaining reader.old)) }
    ensures audit { IfErr result (λ fault. IfSome (audit_cause fault) (IsFound sites (I.remaining reader.old))) }
{
    let started = Instant::now(rt).ok();
    match run_audited(rt, rt.alloc(), sites, seed, reader) {
        Ok(run) => tell_wanted(rt, started, wanted, &run, out),
        Err(refused) => Err(refused.fault),
    }
}

/// Tells what is wanted of the run.
fn tell_wanted<R: AllocGlobal + Clock + Files, O: Write>(
    rt: &R,
    started: Option<Instant>,
    wanted: &Wanted<'_>,
    run: &Audited,
    out: &mut O,
) -> Result<(), ReportFault>
    ensures quiet { IfErr result (λ fault. (fault ≡ cause.WriteFault) ⊎ (out.new ≡ out.old)) }
    ensures other { IfErr result IsOther }
    ensures told { OnOk result ((text : List ℕ) × Appends (O.contents out.old) (O.contents out.new) text × TellsRun wanted.now.summary run.now text) }
    ensures cut { IfErr result (λ fault. fault ≡ cause.WriteFault → (out.new ≡ out.old)
        ⊎ CutsRun wanted.now.summary run.now (O.contents out.old) (O.contents out.new)) }
{
    let took = milliseconds_since(rt, started);
    match save_wanted(rt, wanted.log, run) {
        Ok(()) => {}
        Err(fault) => return Err(fault),
    }
    if wanted.summary {
        return tell_with_summary(rt.alloc(), took, run, out);
    }
    tell_plainly(rt.alloc(), run, out)
}

/// Tells the report alone.
fn tell_plainly<O: Write>(alloc: Global, run: &Audited, out: &mut O) -> Result<(), ReportFault>
    ensures quiet { IfErr result (λ fault. (fault ≡ cause.WriteFault) ⊎ (out.new ≡ out.old)) }
    ensures other { IfErr result IsOther }
    ensures told { OnOk result ((text : List ℕ) × Appends (O.contents out.old) (O.contents out.new) text × TellsRun false run.now text) }
    ensures cut { IfErr result (λ fault. fault ≡ cause.WriteFault → (out.new ≡ out.old)
        ⊎ CutsRun false run.now (O.contents out.old) (O.contents out.new)) }
{
    run.write(alloc, "", out)
}

/// Saves the logs, where a folder is named for them.
fn save_wanted<R: AllocGlobal + Files>(
    rt: &R,
    log: Option<&str>,
    run: &Audited,
) -> Result<(), ReportFault>
    ensures other { IfErr result IsOther }
{
    match log {
        Some(folder) => save_logs(rt.alloc(), folder, run.logs(), &mut Disk { rt }),
        None => Ok(()),
    }
}

/// Tells the report and the summary.
fn tell_with_summary<O: Write>(
    alloc: Global,
    took: Option<u64>,
    run: &Audited,
    out: &mut O,
) -> Result<(), ReportFault>
    ensures quiet { IfErr result (λ fault. (fault ≡ cause.WriteFault) ⊎ (out.new ≡ out.old)) }
    ensures other { IfErr result IsOther }
    ensures told { OnOk result ((text : List ℕ) × Appends (O.contents out.old) (O.contents out.new) text × TellsRun true run.now text) }
    ensures cut { IfErr result (λ fault. fault ≡ cause.WriteFault → (out.new ≡ out.old)
        ⊎ CutsRun true run.now (O.contents out.old) (O.contents out.new)) }
{
    let Ok(more) = run.summary(alloc, took) else {
        return Err(ReportFault::OutOfMemory);
    };
    run.write(alloc, more.as_str(), out)
}
