//! The audit of journals that lie in files.
ghost use Rattle.std.specs.Prelude.{◌≡◌, ◌≢◌, ◌<◌, ◌⊎◌, length, IfErr, IfOk, OnOk};
ghost use Rattle.std.specs.Io.KnownBytes.{Appends};
ghost use Rattle.std.specs.List.{AllZip};
ghost use Rattle.shm_logs.specs.Auditing.Logs.{logs_of};
ghost use Rattle.shm_command.specs.Audited.{IsOfSites, IsUnread, IsCauseOf, IsWhyNot, FailsAudit, TellsAudit, audit_text, missing_in};
ghost use Rattle.shm_command.specs.declared.audit_failure.Unaudited.TheVariants as cause;

use crate::audit_failure::Unaudited;
use crate::disk_save_file::Disk;
use crate::error_text_and_status;
use crate::line_of_step::wrong_line;
use crate::log_source::LogSource;
use crate::whole_journal::header_in;
use shm_audit::{JournalsFault, MissingStep, Totals, audit_journals, missing_step};
use shm_place::Sites;
use shm_seal::ClusterName;
use shm_sites::SiteLog;
use shm_text::write_whole;
use std::alloc::Global;
use std::io::Write;
use std::rt::Files;

/// Audits the journals of these names, one for each site, in order, and answers the exit status.
pub(crate) fn audit<R: AllocGlobal + Files, O: Write, E: Write>(
    rt: &R,
    sites: Sites,
    journals: &[&str],
    out: &mut O,
    errors: &mut E,
) -> u8
    ensures range { result < 5 }
    ensures taken { result ≢ 2 }
    ensures audited { result ≡ 0 → TellsAudit sites (O.contents out.old) (O.contents out.new) }
    ensures each { result ≡ 0 → length journals.now ≡ sites }
    ensures failed { result ≢ 0 → FailsAudit (length journals.now) sites result }
    ensures quiet { (result ≡ 1) ⊎ (result ≡ 4) → out.new ≡ out.old }
{
    let mut missing = None;
    match tell_audit(rt, sites, journals, out, &mut missing) {
        Ok(()) => 0,
        Err(fault) => {
            let line = wrong_line(rt, journals, &fault);
            let status = error_text_and_status::audit_fault(fault, line, journals, errors);
            error_text_and_status::missing(missing, errors);
            status
        }
    }
}

/// Audits the journals, and writes the counts. `missing` is the step that one of them lacks, where that is why they aren't accepted.
fn tell_audit<R: AllocGlobal + Files, O: Write>(
    rt: &R,
    sites: Sites,
    journals: &[&str],
    out: &mut O,
    missing: &mut Option<MissingStep>,
) -> Result<(), Unaudited>
    ensures audited { OnOk result (TellsAudit sites (O.contents out.old) (O.contents out.new)) }
    ensures each { OnOk result (length journals.now ≡ sites) }
    ensures why { IfErr result (IsCauseOf (length journals.now) sites) }
    ensures quiet { IfErr result (λ fault. (fault ≡ cause.WriteFault) ⊎ (out.new ≡ out.old)) }
{
    let logs = match read_set(rt, journals) {
        Ok(logs) => logs,
        Err(fault) => return Err(fault),
    };
    match judge(rt.alloc(), sites, logs.as_slice()) {
        Ok(counts) => tell_counts(rt.alloc(), counts, out),
        Err(fault) => {
            *missing = missing_in(logs.as_slice(), &fault);
            Err(fault)
        }
    }
}

/// The step that a log lacks, where the audit found one missing.
fn missing_in(logs: &[SiteLog], fault: &Unaudited) -> Option<MissingStep>
    ensures { result ≡ missing_in (logs_of logs.now) fault.now }
{
    match fault {
        Unaudited::Unaccepted(JournalsFault::Audit(cause)) => missing_step(logs, cause),
        _ => None,
    }
}

/// The logs that the journals of these names lead to, which are all of one cluster.
fn read_set<R: AllocGlobal + Files>(rt: &R, journals: &[&str]) -> Result<Vec<SiteLog>, Unaudited>
    ensures each { IfOk result (λ logs. length logs.items ≡ length journals.now) }
    ensures unread { IfErr result IsUnread }
{
    let logs = match read_logs(rt.alloc(), &Disk { rt }, journals) {
        Ok(logs) => logs,
        Err(fault) => return Err(fault),
    };
    match look_for_other(rt, journals) {
        Some(at) => Err(Unaudited::OtherCluster { at }),
        None => Ok(logs),
    }
}

/// The first journal that is of another cluster than the first of all.
fn look_for_other<R: AllocGlobal + Files>(rt: &R, journals: &[&str]) -> Option<usize> {
    let first = cluster_in(rt, journals.first()?);
    'journals: for (at, name) in journals.iter().enumerate() {
        if cluster_in(rt, name) != first {
            return Some(at);
        }
    }
    None
}

/// The cluster's name in the first line of the journal of this name.
fn cluster_in<R: AllocGlobal + Files>(rt: &R, name: &str) -> Option<ClusterName> {
    header_in(rt, name)?.cluster
}

/// The logs that the journals of these names lead to, one for each, in their order.
fn read_logs<S: LogSource>(
    alloc: Global,
    source: &S,
    journals: &[&str],
) -> Result<Vec<SiteLog>, Unaudited>
    ensures of { IfOk result (λ logs. AllZip (λ name log. S.leads source.now name.now log) journals.now logs.items) }
    ensures each { IfOk result (λ logs. length logs.items ≡ length journals.now) }
    ensures unread { IfErr result IsUnread }
{
    let mut logs = Vec::new(alloc);
    'journals: for (at, name) in journals.iter().enumerate() {
        let log = match source.log_of(at, name) {
            Ok(log) => log,
            Err(fault) => return Err(fault),
        };
        match logs.push(log) {
            Ok(()) => {}
            Err(_) => return Err(Unaudited::OutOfMemory),
        }
    }
    Ok(logs)
}

/// Counts the logs, if they are those of these sites with one plain memory.
fn judge(alloc: Global, sites: Sites, logs: &[SiteLog]) -> Result<Totals, Unaudited>
    ensures accepted { IfOk result (λ counts. IsOfSites sites logs.now counts) }
    ensures why { IfErr result (IsWhyNot sites logs.now) }
{
    if logs.len() != sites.count() as usize {
        return Err(Unaudited::Unaccepted(JournalsFault::NotOneSet));
    }
    match audit_journals(alloc, logs) {
        Ok(counts) => Ok(counts),
        Err(fault) => Err(Unaudited::Unaccepted(fault)),
    }
}

fn tell_counts<O: Write>(alloc: Global, counts: Totals, out: &mut O) -> Result<(), Unaudited>
    ensures told { OnOk result (Appends (O.contents out.old) (O.contents out.new) (audit_text counts)) }
    ensures untold { IfErr result IsUnread }
    ensures quiet { IfErr result (λ fault. (fault ≡ cause.WriteFault) ⊎ (out.new ≡ out.old)) }
{
    let Ok(text) = format!(in alloc; "audit yes\n{counts}") else {
        return Err(Unaudited::OutOfMemory);
    };
    match write_whole(out, text.as_bytes()) {
        Ok(()) => {}
        Err(_) => return Err(Unaudited::WriteFault),
    }
    match out.flush() {
        Ok(()) => Ok(()),
        Err(_) => Err(Unaudited::WriteFault),
    }
}
