//! A workload that is simulated, and what is told of it.
ghost use Rattle.std.specs.Prelude.{◌≡◌, ◌≢◌, ◌<◌, ◌≤◌, ◌⊎◌, false, IfErr, IfSome, OnErr, OnOk};
ghost use Rattle.std.specs.Io.KnownBytes.{Appends};
ghost use Rattle.shm_report.specs.Causes.{input_cause, is_after_reading, IsRight, IsWrongBy};
ghost use Rattle.shm_report.specs.Report.{IsCutShort};
ghost use Rattle.shm_report.specs.declared.report_error.ReportFault.TheVariants as cause;
ghost use Rattle.shm_command.specs.Around.{streams};
ghost use Rattle.shm_command.specs.Simulated.{text_of, CutsRuns, IsUnwritten, Simulated, Simulates};

use crate::args::Simulation;
use crate::disk_save_file::Disk;
use crate::error_text_and_status;
use crate::outcome_scripts::{open_first, save_outcome_scripts};
use crate::recalling_input::Recalls;
use crate::save_run_logs::Unlogged;
use crate::show_wrong_line::workload_fault;
use shm_place::PAGES;
use shm_report::{ReportFault, read_workload};
use shm_simulate::{Tally, simulate};
use shm_text::write_whole;
use std::io::{Read, Write};
use std::rt::Files;

/// Simulates the workload that is read from `reader` once what is to be kept can be saved, and answers the exit status.
pub fn tell_simulation<R: AllocGlobal + Files, I: Read + Recalls, O: Write, E: Write>(
    rt: &R,
    asked: &Simulation<'_>,
    reader: &mut I,
    out: &mut O,
    errors: &mut E,
) -> u8
    ensures range { result < 4 }
    ensures taken { result ≢ 2 }
    ensures simulated { Simulates asked.now result
        (streams (I.remaining reader.old) (O.contents out.old)) (streams (I.remaining reader.new) (O.contents out.new)) }
    ensures quiet { result ≡ 1 → out.new ≡ out.old }
{
    match open_kept(rt, asked.keep) {
        Ok(()) => match simulate_read(rt, asked, reader, out) {
            Ok(()) => 0,
            Err(fault) => workload_fault(fault, asked.sites, reader, errors),
        },
        Err(unkept) => error_text_and_status::logs_fault(&unkept, errors),
    }
}

/// Makes the first file ready, where a folder is named.
fn open_kept<R: AllocGlobal + Files>(rt: &R, keep: Option<&str>) -> Result<(), Unlogged> {
    match keep {
        Some(folder) => open_first(rt, folder),
        None => Ok(()),
    }
}

/// Simulates the workload that is read from `reader`, saves what is to be kept, and then writes what came of the runs.
fn simulate_read<R: AllocGlobal + Files, I: Read, O: Write>(
    rt: &R,
    asked: &Simulation<'_>,
    reader: &mut I,
    out: &mut O,
) -> Result<(), ReportFault>
    ensures told { OnOk result (Simulated asked.now (I.remaining reader.old) (O.contents out.old) (O.contents out.new)) }
    ensures input { IfErr result (λ fault. IfSome (input_cause fault) (IsWrongBy asked.now.sites (I.remaining reader.old))) }
    ensures kind { IfErr result (λ fault. (is_after_reading fault ≡ false) ⊎ (fault ≡ cause.WriteFault)) }
    ensures right { IfErr result (λ fault. fault ≡ cause.WriteFault → IsRight asked.now.sites (I.remaining reader.old)) }
    ensures quiet { IfErr result (λ fault. (fault ≡ cause.WriteFault) ⊎ (out.new ≡ out.old)) }
    ensures cut { IfErr result (λ fault. fault ≡ cause.WriteFault → (out.new ≡ out.old)
        ⊎ CutsRuns asked.now (I.remaining reader.old) (O.contents out.old) (O.contents out.new)) }
{
    let workload = match read_workload(rt.alloc(), asked.sites, reader) {
        Ok(workload) => workload,
        Err(fault) => return Err(fault),
    };
    let Simulation {
        sites,
        seed,
        runs,
        odds,
        keep: _,
    } = *asked;
    match simulate(rt.alloc(), sites, &workload, odds, seed, runs) {
        Ok(tally) => tell_tally(rt, asked, workload.pages, &tally, out),
        Err(_) => Err(ReportFault::OutOfMemory),
    }
}

/// Saves the outcomes' scripts, where a folder is named for them, and writes the tally.
fn tell_tally<R: AllocGlobal + Files, O: Write>(
    rt: &R,
    asked: &Simulation<'_>,
    pages: u32,
    tally: &Tally,
    out: &mut O,
) -> Result<(), ReportFault>
    requires from { 1 ≤ pages }
    requires to { pages ≤ PAGES }
    ensures told { OnOk result (Appends (O.contents out.old) (O.contents out.new) (text_of tally.now)) }
    ensures fault { IfErr result IsUnwritten }
    ensures quiet { IfErr result (λ fault. (fault ≡ cause.WriteFault) ⊎ (out.new ≡ out.old)) }
    ensures cut { IfErr result (λ fault. fault ≡ cause.WriteFault → (out.new ≡ out.old)
        ⊎ IsCutShort (O.contents out.old) (O.contents out.new) (text_of tally.now)) }
{
    match save_kept(rt, asked, pages, tally) {
        Ok(()) => {}
        Err(fault) => return Err(fault),
    }
    let mut text = String::new(rt.alloc());
    match tally.tell(&mut text) {
        Ok(()) => write_text(text.as_str(), out),
        Err(_) => Err(ReportFault::OutOfMemory),
    }
}

/// Saves the outcomes' scripts, where a folder is named for them.
fn save_kept<R: AllocGlobal + Files>(
    rt: &R,
    asked: &Simulation<'_>,
    pages: u32,
    tally: &Tally,
) -> Result<(), ReportFault>
    requires from { 1 ≤ pages }
    requires to { pages ≤ PAGES }
    ensures { IfErr result IsUnwritten }
{
    match asked.keep {
        Some(folder) => save_outcome_scripts(
            rt.alloc(),
            folder,
            asked.sites,
            pages,
            tally.outcomes.as_slice(),
            &mut Disk { rt },
        ),
        None => Ok(()),
    }
}

/// Writes a text. Any error of the writer, or a write of nothing, ends it; then a front of the text was written.
fn write_text<O: Write>(text: &str, out: &mut O) -> Result<(), ReportFault>
    ensures fault { IfErr result (λ fault. fault ≡ cause.WriteFault) }
    ensures told { OnOk result (Appends (O.contents out.old) (O.contents out.new) text.now) }
    ensures cut { OnErr result (IsCutShort (O.contents out.old) (O.contents out.new) text.now) }
{
    match write_whole(out, text.as_bytes()) {
        Ok(()) => {}
        Err(_) => return Err(ReportFault::WriteFault),
    }
    match out.flush() {
        Ok(()) => Ok(()),
        Err(_) => Err(ReportFault::WriteFault),
    }
}
