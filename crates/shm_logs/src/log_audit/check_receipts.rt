//! Checks that the receipts hold: each names a step, no two name one step, and each caller's steps at one site come in the site's order.
ghost use Rattle.std.specs.Prelude.{◌≡◌, ℕ, ◌+◌, ◌≤◌, ◌<◌, List, [], Some, None, length, map, slice_get, slice_index_or, slice_set, take, true, IfNone, IfSome};
ghost use Rattle.std.specs.Bool.{Decides};
ghost use Rattle.shm_logs.specs.Boxes.Receipt.{receipt_of};
ghost use Rattle.shm_model.specs.Receipt.{asked_of, of_all, IsTrueOf, ReceiptsHold};
ghost use Rattle.shm_logs.specs.Auditing.Cause.{receipts_to, IsForged};
ghost use Rattle.shm_logs.specs.Auditing.Callers.{callers_of, receipts_of};
ghost use Rattle.shm_logs.specs.Auditing.Logs.{logs_of};
ghost use Rattle.shm_logs.specs.Auditing.Marks.{marked, marks_of, next_of, unmarked, IsNext, MarksName};

use crate::log_audit::audit_error::AuditFault;
use crate::log_audit::first_wrong_step::step_at;
use crate::log_audit::receipt_marks::Marks;
use crate::site_boxes::{Answer, Asked, Receipt, SiteLog};
use std::alloc::Allocator;

/// The first receipt with which the receipts don't hold; where they do, the steps that they name are marked.
pub(crate) fn first_forged<A: Allocator + Copy>(
    logs: &[SiteLog<A>],
    callers: &[Vec<Receipt, A>],
    marks: &mut Marks<A>,
) -> Option<AuditFault>
    requires sites { length logs.now ≤ 16 }
    requires marks { marks_of marks.old ≡ map unmarked (logs_of logs.now) }
    ensures held { IfNone result (ReceiptsHold (logs_of logs.now) (callers_of callers.now)) }
    ensures marks { IfNone result (MarksName (logs_of logs.now) (marks_of marks.new) (of_all (callers_of callers.now))) }
    ensures forged { IfSome result (IsForged (logs_of logs.now) (callers_of callers.now)) }
{
    'callers: for caller in 0..callers.len() {
        let fault = forged_of(logs, callers, caller, callers[caller].as_slice(), marks);
        if fault.is_some() {
            return fault;
        }
    }
    None
}

/// The first receipt of this caller with which the receipts don't hold, where those of the callers before it do.
fn forged_of<A: Allocator + Copy>(
    logs: &[SiteLog<A>],
    callers: &[Vec<Receipt, A>],
    caller: usize,
    receipts: &[Receipt],
    marks: &mut Marks<A>,
) -> Option<AuditFault>
    requires sites { length logs.now ≤ 16 }
    requires caller { caller < length callers.now }
    requires receipts { slice_index_or (callers_of callers.now) caller [] ≡ receipts_of receipts.now }
    requires held { ReceiptsHold (logs_of logs.now) (take caller (callers_of callers.now)) }
    requires marks { MarksName (logs_of logs.now) (marks_of marks.old) (of_all (take caller (callers_of callers.now))) }
    ensures held { IfNone result (ReceiptsHold (logs_of logs.now) (take (caller + 1) (callers_of callers.now))) }
    ensures marks { IfNone result (MarksName (logs_of logs.now) (marks_of marks.new) (of_all (take (caller + 1) (callers_of callers.now)))) }
    ensures forged { IfSome result (IsForged (logs_of logs.now) (callers_of callers.now)) }
{
    let mut last = [None; 16];
    'receipts: for receipt in receipts {
        if !is_next(logs, marks, &last, receipt) {
            return Some(AuditFault::Forged {
                site: receipt.site(),
                index: receipt.index(),
            });
        }
        note(marks, &mut last, receipt);
    }
    None
}

/// Checks that the receipt holds too, after those that these marks and last steps are of.
fn is_next<A: Allocator + Copy>(
    logs: &[SiteLog<A>],
    marks: &Marks<A>,
    last: &[Option<usize>],
    receipt: &Receipt,
) -> bool
    ensures { Decides result (IsNext (logs_of logs.now) (marks_of marks.now) last.now (receipt_of receipt.now)) }
{
    tells(logs, receipt)
        && !marks.has(receipt.site(), receipt.index())
        && rises(last, receipt.site().0 as usize, receipt.index())
}

/// Checks that the receipt tells a step of the logs.
fn tells<A: Allocator + Copy>(logs: &[SiteLog<A>], receipt: &Receipt) -> bool
    ensures { Decides result (IsTrueOf (logs_of logs.now) (receipt_of receipt.now)) }
{
    match step_at(logs, receipt.site(), receipt.index()) {
        Some(step) => {
            same_access(step.input.access(), receipt.asked_access())
                && same_answer(step.answer, receipt.answer())
        }
        None => false,
    }
}

fn same_access(asked: Option<Asked>, told: Option<Asked>) -> bool
    ensures { Decides result (asked_of asked ≡ asked_of told) }
{
    asked == told
}

fn same_answer(a: Answer, b: Answer) -> bool
    ensures same { result ≡ true → a ≡ b }
    ensures other { a ≡ b → result ≡ true }
{
    a == b
}

/// Checks that the index is above the last one at this site.
fn rises(last: &[Option<usize>], site: usize, index: usize) -> bool
    ensures { Decides result (next_of (slice_index_or last.now site None) ≤ index) }
{
    match last.get(site) {
        Some(Some(before)) => *before < index,
        _ => true,
    }
}

/// Notes the step that the receipt names.
fn note<A: Allocator + Copy>(marks: &mut Marks<A>, last: &mut [Option<usize>], receipt: &Receipt)
    ensures marks { let r = receipt_of receipt.now in marks_of marks.new ≡ marked (marks_of marks.old) r.site r.index }
    ensures last { let r = receipt_of receipt.now in last.new ≡ slice_set last.old r.site (Some r.index) }
{
    marks.add(receipt.site(), receipt.index());
    let site = receipt.site().0 as usize;
    if site < last.len() {
        last[site] = Some(receipt.index());
    }
}
