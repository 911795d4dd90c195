//! The summary of a journal in a file.
ghost use Rattle.std.specs.Prelude.{◌≡◌, ◌≢◌, ◌<◌, ◌⊎◌, ℕ, List, IfErr, IfOk, OnOk};
ghost use Rattle.std.specs.Io.KnownBytes.{Appends};
ghost use Rattle.shm_journal.specs.Summed.{IsSummary};
ghost use Rattle.shm_command.specs.FileSummary.{file_summary_text};
ghost use Rattle.shm_command.specs.Summarized.{FailsSummary, IsUntold, TellsSummary};
ghost use Rattle.shm_command.specs.declared.audit_failure.Unaudited.TheVariants as cause;

use crate::audit_failure::Unaudited;
use crate::error_text_and_status;
use crate::file_summary::FileSummary;
use crate::whole_journal::{WholeJournal, open_whole};
use shm_journal::read_summary;
use shm_text::write_whole;
use std::alloc::Global;
use std::fs;
use std::io::Write;
use std::rt::Files;

/// Tells what the journal of this name has, and answers the exit status. Nothing is changed.
pub(crate) fn tell_journal<R: AllocGlobal + Files, O: Write, E: Write>(
    rt: &R,
    name: &str,
    out: &mut O,
    errors: &mut E,
) -> u8
    ensures range { result < 4 }
    ensures taken { result ≢ 2 }
    ensures told { result ≡ 0 → TellsSummary (O.contents out.old) (O.contents out.new) }
    ensures failed { result ≢ 0 → FailsSummary result }
    ensures quiet { result ≡ 1 → O.contents out.new ≡ O.contents out.old }
{
    match tell_summary(rt, name, out) {
        Ok(()) => 0,
        Err(fault) => error_text_and_status::audit_fault(fault, None, &[name], errors),
    }
}

/// Tells what the journal of this name has.
fn tell_summary<R: AllocGlobal + Files, O: Write>(
    rt: &R,
    name: &str,
    out: &mut O,
) -> Result<(), Unaudited>
    ensures told { OnOk result (TellsSummary (O.contents out.old) (O.contents out.new)) }
    ensures why { IfErr result IsUntold }
    ensures quiet { IfErr result (λ fault. (fault ≡ cause.WriteFault) ⊎ (out.new ≡ out.old)) }
{
    match read_file(rt, name) {
        Ok(summary) => write_summary(rt.alloc(), summary, out),
        Err(fault) => Err(fault),
    }
}

/// The summary of the journal of this name.
fn read_file<R: AllocGlobal + Files>(rt: &R, name: &str) -> Result<FileSummary, Unaudited>
    ensures ok { IfOk result (λ summary. (journal : List ℕ) × IsSummary journal summary.lines) }
    ensures err { IfErr result IsUntold }
{
    let whole = match open_whole(rt, name) {
        Ok(whole) => whole,
        Err(unwhole) => return Err(unwhole.of_audit(0)),
    };
    let WholeJournal { extent, mut lines } = whole;
    let lines = match read_summary(rt.alloc(), &mut lines) {
        Ok(lines) => lines,
        Err(fault) => return Err(Unaudited::Unread { at: 0, fault }),
    };
    let Ok(found) = fs::metadata(rt, name) else {
        return Err(Unaudited::Unopened { at: 0 });
    };
    Ok(FileSummary {
        lines,
        batches: extent.chain.number(),
        bytes: found.len(),
        behind: found.len().saturating_sub(extent.bytes),
    })
}

fn write_summary<O: Write>(
    alloc: Global,
    summary: FileSummary,
    out: &mut O,
) -> Result<(), Unaudited>
    ensures told { OnOk result (Appends (O.contents out.old) (O.contents out.new) (file_summary_text summary)) }
    ensures untold { IfErr result IsUntold }
    ensures quiet { IfErr result (λ fault. (fault ≡ cause.WriteFault) ⊎ (out.new ≡ out.old)) }
{
    let Ok(text) = format!(in alloc; "{summary}") else {
        return Err(Unaudited::OutOfMemory);
    };
    match write_whole(out, text.as_bytes()) {
        Ok(()) => {}
        Err(_) => return Err(Unaudited::WriteFault),
    }
    match out.flush() {
        Ok(()) => Ok(()),
        Err(_) => Err(Unaudited::WriteFault),
    }
}
