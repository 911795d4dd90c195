//! Counts of logs.
ghost use Rattle.std.specs.Prelude.{◌≡◌, ◌+◌, if◌then◌else◌, length, map, IfSome};
ghost use Rattle.shm_logs.specs.Auditing.Complete.{completes};
ghost use Rattle.shm_logs.specs.Auditing.Logs.{logs_of};
ghost use Rattle.shm_logs.specs.Boxes.Logged.{logged_of};
ghost use Rattle.shm_audit.specs.Totals.{totals_of, with_log};

use crate::totals::Totals;
use shm_logs::{Answer, SiteLog, Step};
use std::alloc::Allocator;

/// The counts of these logs. `None`: a number can't hold a count.
pub(crate) fn count<A: Allocator + Copy>(logs: &[SiteLog<A>]) -> Option<Totals>
    ensures { IfSome result (λ counts. counts ≡ totals_of (logs_of logs.now)) }
{
    let mut counts = Totals {
        steps: 0,
        accesses: 0,
        envelopes: 0,
    };
    'logs: for log in logs {
        match count_steps(counts, log.steps()) {
            Some(more) => counts = more,
            None => return None,
        }
    }
    Some(counts)
}

/// So much, and what is counted in these steps.
fn count_steps<A: Allocator + Copy>(before: Totals, steps: &[Step<A>]) -> Option<Totals>
    ensures { IfSome result (λ counts. counts ≡ with_log before (map logged_of steps.now)) }
{
    let mut counts = before;
    'steps: for step in steps {
        match count_step(counts, step) {
            Some(more) => counts = more,
            None => return None,
        }
    }
    Some(counts)
}

/// So much, and one step.
fn count_step<A: Allocator + Copy>(before: Totals, step: &Step<A>) -> Option<Totals>
    ensures { IfSome result (λ counts. counts ≡ record {
      steps = before.steps + 1;
      accesses = before.accesses + (if completes step.now.answer then 1 else 0);
      envelopes = before.envelopes + length step.now.sent.items;
    }) }
{
    let steps = before.steps.checked_add(1)?;
    let accesses = before.accesses.checked_add(completions(step.answer))?;
    let envelopes = before.envelopes.checked_add(step.sent.len() as u64)?;
    Some(Totals {
        steps,
        accesses,
        envelopes,
    })
}

/// 1 for an access that is answered so, if it is completed.
fn completions(answer: Answer) -> u64
    ensures { result ≡ (if completes answer then 1 else 0) }
{
    match answer {
        Answer::Byte(_) | Answer::Stored => 1,
        _ => 0,
    }
}
