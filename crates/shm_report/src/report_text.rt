//! The text of a report.
ghost use Rattle.std.specs.Prelude.{◌≡◌, ◌≢◌, ◌≤◌, ◌⊎◌, ◌+◌, ◌++◌, ◌<◌, length, slice_index, slice_set, true, IfErr, IfNone, IfOk, IfSome, OnErr, OnOk};
ghost use Rattle.std.specs.Io.KnownBytes.{Appends};
ghost use Rattle.shm_report.specs.Callers.{AllServed, AreOf};
ghost use Rattle.shm_report.specs.Causes.{ends_writing, IsOther};
ghost use Rattle.shm_report.specs.Report.{audit_yes, IsCutShort, HasReceipt, LacksReceipt, TellsLines, TellsReceipt};
ghost use Rattle.shm_logs.specs.declared.site_boxes.receipt.Receipt.{Receipt as ReceiptOf};
ghost use Rattle.shm_report.specs.declared.report_error.ReportFault.TheVariants as cause;

use crate::report_error::ReportFault;
use shm_lines::WorkloadAccess;
use shm_place::MAX_SITES;
use shm_sites::Receipt;
use shm_text::{AnswerText, Text, write_whole};
use std::alloc::{AllocError, Global};
use std::io::Write;

/// For each site, how many of its caller's receipts were printed.
type ToldOf = [usize; MAX_SITES as usize];

/// The answer to each line, under its number. Line 1 made the sites ready, and each further line has the next receipt of its site's caller,
/// where the callers have one for each of their sites' lines.
pub(crate) fn answer_lines(
    alloc: Global,
    accesses: &[WorkloadAccess],
    callers: &[Vec<Receipt>],
) -> Result<Text, ReportFault>
    ensures lines { IfOk result (λ text. AllServed (length callers.now) accesses.now callers.now → TellsLines accesses.now callers.now text) }
    ensures fault { IfErr result IsOther }
    ensures ending { IfErr result (λ fault. ends_writing fault ≡ true) }
    ensures unwritten { IfErr result (λ fault. fault ≢ cause.WriteFault) }
    ensures served { IfErr result (λ fault. AllServed (length callers.now) accesses.now callers.now → AreOf (length callers.now) accesses.now
        → length callers.now ≤ MAX_SITES → fault ≡ cause.OutOfMemory) }
{
    let Ok(mut text) = Text::new(alloc, 0, 0) else {
        return Err(ReportFault::OutOfMemory);
    };
    match text.tell(1, "ready") {
        Ok(()) => {}
        Err(_) => return Err(ReportFault::OutOfMemory),
    }
    let mut told_of: ToldOf = [0; MAX_SITES as usize];
    'accesses: for (place, access) in accesses.iter().enumerate() {
        let number = place as u64 + 2;
        match tell(&mut text, &mut told_of, number, access, callers) {
            Ok(()) => {}
            Err(fault) => return Err(fault),
        }
    }
    Ok(text)
}

/// Tells one line's answer.
fn tell(
    text: &mut Text,
    told_of: &mut ToldOf,
    number: u64,
    access: &WorkloadAccess,
    callers: &[Vec<Receipt>],
) -> Result<(), ReportFault>
    ensures fault { IfErr result IsOther }
    ensures ending { IfErr result (λ fault. ends_writing fault ≡ true) }
    ensures unwritten { IfErr result (λ fault. fault ≢ cause.WriteFault) }
    ensures why { IfErr result (λ fault. (fault ≡ cause.OutOfMemory)
        ⊎ ((fault ≡ cause.Logs) × LacksReceipt callers.now access.now.site (slice_index told_of.old access.now.site))) }
    ensures known { OnOk result (access.now.site < length told_of.old) }
    ensures told { OnOk result (TellsReceipt callers.now access.now.site (slice_index told_of.old access.now.site) number text.old text.new) }
    ensures more { OnOk result (told_of.new ≡ slice_set told_of.old access.now.site (slice_index told_of.old access.now.site + 1)) }
{
    let site = access.site.0 as usize;
    let Some(place) = place_of(told_of, site) else {
        return Err(ReportFault::Logs);
    };
    let Some(receipt) = receipt_at(callers, site, place) else {
        return Err(ReportFault::Logs);
    };
    match count_one(told_of, site) {
        Ok(()) => {}
        Err(_) => return Err(ReportFault::OutOfMemory),
    }
    match text.tell(number, AnswerText(receipt.answer())) {
        Ok(()) => Ok(()),
        Err(_) => Err(ReportFault::OutOfMemory),
    }
}

/// The number of the site's receipts that were printed, if there can be such a site.
fn place_of(told_of: &ToldOf, site: usize) -> Option<usize>
    ensures known { IfSome result (λ place. (site < length told_of.now) × (place ≡ slice_index told_of.now site)) }
    ensures none { IfNone result (MAX_SITES ≤ site) }
{
    if site >= told_of.len() {
        return None;
    }
    Some(told_of[site])
}

/// Counts one more. Memory is refused where a number can't hold the count: no memory holds so many receipts.
fn count_one(told_of: &mut ToldOf, site: usize) -> Result<(), AllocError>
    requires { site < length told_of.old }
    ensures { OnOk result (told_of.new ≡ slice_set told_of.old site (slice_index told_of.old site + 1)) }
{
    match told_of[site].checked_add(1) {
        Some(next) => {
            told_of[site] = next;
            Ok(())
        }
        None => Err(AllocError),
    }
}

/// The receipt at this place of the site's caller.
fn receipt_at(callers: &[Vec<Receipt>], site: usize, place: usize) -> Option<Receipt>
    ensures has { IfSome result (HasReceipt callers.now site place) }
    ensures lacks { IfNone result ((receipt : ReceiptOf) → ¬ HasReceipt callers.now site place receipt) }
{
    match callers.get(site) {
        Some(caller) => match caller.get(place) {
            Some(receipt) => Some(*receipt),
            None => None,
        },
        None => None,
    }
}

/// Writes the lines, the audit's yes, and `more`. Any error of the writer, or a write of nothing, ends it; then a front of the text was
/// written.
pub(crate) fn write_report<O: Write>(
    text: &Text,
    more: &str,
    writer: &mut O,
) -> Result<(), ReportFault>
    ensures fault { IfErr result (λ fault. fault ≡ cause.WriteFault) }
    ensures written { OnOk result (Appends (O.contents writer.old) (O.contents writer.new) ((text.now ++ audit_yes) ++ more.now)) }
    ensures cut { OnErr result (IsCutShort (O.contents writer.old) (O.contents writer.new) ((text.now ++ audit_yes) ++ more.now)) }
{
    match write_lines(text, writer) {
        Ok(()) => {}
        Err(fault) => return Err(fault),
    }
    match write_whole(writer, more.as_bytes()) {
        Ok(()) => {}
        Err(_) => return Err(ReportFault::WriteFault),
    }
    match writer.flush() {
        Ok(()) => Ok(()),
        Err(_) => Err(ReportFault::WriteFault),
    }
}

/// Writes the lines, and that the audit found nothing.
fn write_lines<O: Write>(text: &Text, writer: &mut O) -> Result<(), ReportFault>
    ensures fault { IfErr result (λ fault. fault ≡ cause.WriteFault) }
    ensures written { OnOk result (Appends (O.contents writer.old) (O.contents writer.new) (text.now ++ audit_yes)) }
    ensures cut { OnErr result (IsCutShort (O.contents writer.old) (O.contents writer.new) (text.now ++ audit_yes)) }
{
    match write_whole(writer, text.as_bytes()) {
        Ok(()) => {}
        Err(_) => return Err(ReportFault::WriteFault),
    }
    match write_whole(writer, b"audit yes\n") {
        Ok(()) => {}
        Err(_) => return Err(ReportFault::WriteFault),
    }
    Ok(())
}
