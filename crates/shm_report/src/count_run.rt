//! Counts of a run that was audited.
ghost use Rattle.std.specs.Prelude.{◌≡◌, ◌≤◌, ◌+◌, ◌^◌, ◌<◌, ◌==◌, ◌||◌, ℕ, false, count_by, if◌then◌else◌, length, map, slice_index_or, IfNone, IfOk, IfSome};
ghost use Rattle.std.specs.List.{sum_by};
ghost use Rattle.std.specs.Option.{option_map_or};
ghost use Rattle.shm_logs.specs.Auditing.Logs.{logs_of};
ghost use Rattle.shm_logs.specs.Boxes.Logged.{logged_of};
ghost use Rattle.shm_logs.specs.Boxes.SiteLog.{steps_of};
ghost use Rattle.shm_model.specs.Log.{sent_by};
ghost use Rattle.shm_report.specs.Counts as spec;

use crate::run_counts::Counts;
use shm_sites::{Answer, Event, SiteLog, Step};
use std::alloc::{AllocError, Global};

/// The counts of these logs and events. Memory is refused, too, where a number can't hold a count: no memory holds such logs.
pub(crate) fn count_all(
    alloc: Global,
    logs: &[SiteLog],
    events: &[Event],
) -> Result<Counts, AllocError>
    ensures { IfOk result (λ counts. counts ≡ spec.counts_of (logs_of logs.now) events.now) }
{
    let steps = steps_in(logs).ok_or(AllocError)?;
    let faults = faults_in(logs).ok_or(AllocError)?;
    let envelopes = envelopes_in(logs).ok_or(AllocError)?;
    let received = count_received(alloc, envelopes, events)?;
    let receipts = receipts_in(events);
    Ok(Counts {
        steps,
        faults,
        envelopes,
        losses: envelopes.saturating_sub(received),
        repeats: receipts.saturating_sub(received),
    })
}

fn steps_in(logs: &[SiteLog]) -> Option<u64>
    ensures count { IfSome result (λ steps. steps ≡ sum_by length (logs_of logs.now)) }
    ensures none { IfNone result (2 ^ 64 ≤ sum_by length (logs_of logs.now)) }
{
    let mut total = 0u64;
    'logs: for log in logs {
        match total.checked_add(log.len() as u64) {
            Some(sum) => total = sum,
            None => return None,
        }
    }
    Some(total)
}

fn faults_in(logs: &[SiteLog]) -> Option<u64>
    ensures count { IfSome result (λ faults. faults ≡ sum_by spec.faults_of (logs_of logs.now)) }
    ensures none { IfNone result (2 ^ 64 ≤ sum_by spec.faults_of (logs_of logs.now)) }
{
    let mut total = 0u64;
    'logs: for log in logs {
        match faults_with(total, log.steps()) {
            Some(sum) => total = sum,
            None => return None,
        }
    }
    Some(total)
}

/// Adds the accesses among these steps that had to wait for their page.
fn faults_with(before: u64, steps: &[Step]) -> Option<u64>
    ensures count { IfSome result (λ sum. sum ≡ before + spec.faults_of (map logged_of steps.now)) }
    ensures none { IfNone result (2 ^ 64 ≤ before + spec.faults_of (map logged_of steps.now)) }
{
    let mut total = before;
    'steps: for step in steps {
        match total.checked_add(faults_at(step)) {
            Some(sum) => total = sum,
            None => return None,
        }
    }
    Some(total)
}

/// 1 for an access that had to wait for its page.
fn faults_at(step: &Step) -> u64
    ensures { result ≡ if spec.is_fault step.now.answer then 1 else 0 }
{
    match step.answer {
        Answer::Fault => 1,
        _ => 0,
    }
}

fn envelopes_in(logs: &[SiteLog]) -> Option<u64>
    ensures count { IfSome result (λ envelopes. envelopes ≡ sum_by sent_by (logs_of logs.now)) }
    ensures none { IfNone result (2 ^ 64 ≤ sum_by sent_by (logs_of logs.now)) }
{
    let mut total = 0u64;
    'logs: for log in logs {
        match add_sent(total, log.steps()) {
            Some(sum) => total = sum,
            None => return None,
        }
    }
    Some(total)
}

/// Adds what these steps sent.
fn add_sent(before: u64, steps: &[Step]) -> Option<u64>
    ensures count { IfSome result (λ sum. sum ≡ before + sent_by (map logged_of steps.now)) }
    ensures none { IfNone result (2 ^ 64 ≤ before + sent_by (map logged_of steps.now)) }
{
    let mut total = before;
    'steps: for step in steps {
        match total.checked_add(step.sent.len() as u64) {
            Some(sum) => total = sum,
            None => return None,
        }
    }
    Some(total)
}

fn receipts_in(events: &[Event]) -> u64
    ensures { result ≡ count_by spec.is_receipt events.now }
{
    events.iter().filter(|event| is_receipt(*event)).count() as u64
}

fn is_receipt(event: &Event) -> bool
    ensures { result ≡ spec.is_receipt event.now }
{
    matches!(event, Event::Repeat(_))
}

/// Counts which of this many envelopes some site received.
fn count_received(alloc: Global, envelopes: u64, events: &[Event]) -> Result<u64, AllocError>
    ensures { IfOk result (λ count. count ≡ spec.received_of envelopes events.now) }
{
    let mut marks = vec![in alloc; false; envelopes as usize]?;
    'events: for event in events {
        mark(&mut marks, event);
    }
    Ok(count_marks(marks.as_slice()) as u64)
}

fn count_marks(marks: &[bool]) -> usize
    ensures { result ≡ count_by (λ mark. mark) marks.now }
{
    marks.iter().filter(|mark| **mark).count()
}

/// Marks the envelope that was received, if one was.
fn mark(marks: &mut Vec<bool>, event: &Event)
    ensures length { length marks.new.items ≡ length marks.old.items }
    ensures marked { (k : ℕ) → k < length marks.old.items
        → slice_index_or marks.new.items k false ≡ (slice_index_or marks.old.items k false || spec.receives k event.now) }
{
    match received_envelope(event) {
        Some(number) => mark_at(marks, number as usize),
        None => {}
    }
}

/// The envelope that the event hands over, if it does.
fn received_envelope(event: &Event) -> Option<u64>
    ensures { (k : ℕ) → spec.receives k event.now ≡ option_map_or (λ number. number == k) result false }
{
    match event {
        Event::Repeat(number) => Some(*number),
        _ => None,
    }
}

#[tactic(auto, using(crate::proofs::Counted::set_mark, crate::proofs::Counted::no_mark))]
fn mark_at(marks: &mut Vec<bool>, place: usize)
    ensures length { length marks.new.items ≡ length marks.old.items }
    ensures marked { (k : ℕ) → k < length marks.old.items
        → slice_index_or marks.new.items k false ≡ (slice_index_or marks.old.items k false || (place == k)) }
{
    if place < marks.len() {
        marks[place] = true;
    }
}
