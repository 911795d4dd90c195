//! Checks that all steps that need a receipt are marked.
ghost use Rattle.std.specs.Prelude.{◌≡◌, ℕ, ◌≤◌, ◌<◌, false, length, IfNone, IfSome, IsTrue};
ghost use Rattle.shm_logs.specs.Auditing.Logs.{logs_of};
ghost use Rattle.shm_logs.specs.Auditing.Complete.{completes, IsToldAt, IsUntold, IsUntoldAt};
ghost use Rattle.shm_logs.specs.Auditing.Marks.{mark_at, marks_of};

use crate::log_audit::audit_error::AuditFault;
use crate::log_audit::first_wrong_step::{step_at, steps_of_site};
use crate::log_audit::receipt_marks::Marks;
use crate::site_boxes::{Answer, SiteLog};
use shm_place::SiteId;
use std::alloc::Allocator;

/// The first step, by site and index, that needs a receipt and isn't marked.
pub(crate) fn first_untold<A: Allocator + Copy>(
    logs: &[SiteLog<A>],
    marks: &Marks<A>,
) -> Option<AuditFault>
    requires { length logs.now ≤ 16 }
    ensures told { IfNone result ((s i : ℕ) → IsToldAt (logs_of logs.now) (mark_at (marks_of marks.now)) s i) }
    ensures untold { IfSome result (IsUntold (logs_of logs.now) (mark_at (marks_of marks.now))) }
{
    'sites: for number in 0..logs.len() {
        let site = SiteId(number as u32);
        if let Some(index) = untold_at_site(logs, marks, site) {
            return Some(AuditFault::Untold { site, index });
        }
    }
    None
}

/// The index of the first such step of the site.
fn untold_at_site<A: Allocator + Copy>(
    logs: &[SiteLog<A>],
    marks: &Marks<A>,
    site: SiteId,
) -> Option<usize>
    ensures told { IfNone result ((i : ℕ) → IsToldAt (logs_of logs.now) (mark_at (marks_of marks.now)) site i) }
    ensures before { IfSome result (λ i. (j : ℕ) → j < i → IsToldAt (logs_of logs.now) (mark_at (marks_of marks.now)) site j) }
    ensures untold { IfSome result (IsUntoldAt (logs_of logs.now) (mark_at (marks_of marks.now)) site) }
{
    'steps: for index in 0..steps_of_site(logs, site) {
        if is_untold(logs, marks, site, index) {
            return Some(index);
        }
    }
    None
}

/// Checks that the step needs a receipt and isn't marked.
fn is_untold<A: Allocator + Copy>(
    logs: &[SiteLog<A>],
    marks: &Marks<A>,
    site: SiteId,
    index: usize,
) -> bool
    ensures untold { IsTrue result → IsUntoldAt (logs_of logs.now) (mark_at (marks_of marks.now)) site index }
    ensures told { result ≡ false → IsToldAt (logs_of logs.now) (mark_at (marks_of marks.now)) site index }
{
    match step_at(logs, site, index) {
        Some(step) => completes_access(step.answer) && !marks.has(site, index),
        None => false,
    }
}

/// Checks that an access with this answer is completed.
fn completes_access(answer: Answer) -> bool
    ensures { result ≡ completes answer }
{
    matches!(answer, Answer::Byte(_) | Answer::Stored)
}
