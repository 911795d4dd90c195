//! The first fault of the logs' steps, if there is one.
ghost use Rattle.std.specs.Prelude.{◌≡◌, ℕ, ◌≤◌, length, option_map, slice_get, ◌<◌, map, MatchOption, IfNone, IfSome};
ghost use Rattle.std.specs.Bool.{Decides};
ghost use Rattle.shm_logs.specs.Boxes.Logged.{logged_of};
ghost use Rattle.shm_model.specs.Log.{log_of};
ghost use Rattle.shm_parts.specs.Message.{envelope_of};
ghost use Rattle.shm_site.specs.Step.{input_of};
ghost use Rattle.shm_logs.specs.Auditing.Cause.{step_before as before_in, AllSound, HasSent, IsAbove, IsFirstStep, IsSound, IsWrong, IsWrongAt, SoundAt};
ghost use Rattle.shm_logs.specs.Auditing.Logs.{logs_of};

use crate::log_audit::audit_error::AuditFault;
use crate::log_audit::same_envelope::same_envelope;
use crate::site_boxes::{Envelope, Input, SiteLog, Step};
use shm_place::SiteId;
use std::alloc::Allocator;

/// The first step, by site and index, with which something is wrong.
pub(crate) fn first_fault<A: Allocator + Copy>(logs: &[SiteLog<A>]) -> Option<AuditFault>
    requires { length logs.now ≤ 16 }
    ensures { MatchOption result (AllSound (logs_of logs.now)) (IsFirstStep (logs_of logs.now)) }
{
    'sites: for site in 0..logs.len() {
        let fault = fault_at_site(logs, SiteId(site as u32));
        if fault.is_some() {
            return fault;
        }
    }
    None
}

/// The first step of the site with which something is wrong.
fn fault_at_site<A: Allocator + Copy>(logs: &[SiteLog<A>], site: SiteId) -> Option<AuditFault>
    ensures none { IfNone result ((i : ℕ) → SoundAt (logs_of logs.now) site i) }
    ensures some { IfSome result (λ f. (i : ℕ) × IsWrongAt (logs_of logs.now) site i f × ((j : ℕ) → j < i → SoundAt (logs_of logs.now) site j)) }
{
    'steps: for index in 0..steps_of_site(logs, site) {
        let fault = fault_at(logs, site, index);
        if fault.is_some() {
            return fault;
        }
    }
    None
}

/// How many steps the site's log has.
pub(crate) fn steps_of_site<A: Allocator + Copy>(logs: &[SiteLog<A>], site: SiteId) -> usize
    ensures { result ≡ length (log_of (logs_of logs.now) site) }
{
    match logs.get(site.0 as usize) {
        Some(log) => log.len(),
        None => 0,
    }
}

fn fault_at<A: Allocator + Copy>(
    logs: &[SiteLog<A>],
    site: SiteId,
    index: usize,
) -> Option<AuditFault>
    ensures { MatchOption result (SoundAt (logs_of logs.now) site index) (IsWrongAt (logs_of logs.now) site index) }
{
    match step_at(logs, site, index) {
        Some(step) => fault_of(logs, site, index, step),
        None => None,
    }
}

/// The fault of this step, as the step of this index at this site.
fn fault_of<A: Allocator + Copy>(
    logs: &[SiteLog<A>],
    site: SiteId,
    index: usize,
    step: &Step<A>,
) -> Option<AuditFault>
    ensures { MatchOption result (IsSound (logs_of logs.now) site index (logged_of step.now)) (IsWrong (logs_of logs.now) site index (logged_of step.now)) }
{
    if !is_above(step_before(logs, site, index), step.stamp) {
        return Some(AuditFault::StampOrder { site, index });
    }
    match &step.input {
        Input::Deliver(envelope) => {
            let sender = step_at(logs, envelope.from, step.source.index);
            if !has_sent(sender, step.source.place, envelope) {
                return Some(AuditFault::Unsent { site, index });
            }
            if !is_above(sender, step.stamp) {
                return Some(AuditFault::StampOrder { site, index });
            }
            None
        }
        _ => None,
    }
}

/// The step of this index in the site's log, where there is one.
pub(crate) fn step_at<'a, A: Allocator + Copy>(
    logs: &'a [SiteLog<A>],
    site: SiteId,
    index: usize,
) -> Option<&'a Step<A>>
    ensures { option_map (λ step. logged_of step.now) result ≡ slice_get (log_of (logs_of logs.now) site) index }
{
    match logs.get(site.0 as usize) {
        Some(log) => log.steps().get(index),
        None => None,
    }
}

/// The step before that of this index, where there is one.
fn step_before<'a, A: Allocator + Copy>(
    logs: &'a [SiteLog<A>],
    site: SiteId,
    index: usize,
) -> Option<&'a Step<A>>
    ensures { option_map (λ step. logged_of step.now) result ≡ before_in (log_of (logs_of logs.now) site) index }
{
    if index == 0 {
        return None;
    }
    step_at(logs, site, index - 1)
}

/// Checks that the stamp is above that of the step, if there is one.
fn is_above<A: Allocator + Copy>(step: Option<&Step<A>>, stamp: u64) -> bool
    ensures { Decides result (IsAbove (option_map (λ step. logged_of step.now) step.entry) stamp) }
{
    match step {
        Some(step) => step.stamp < stamp,
        None => true,
    }
}

/// Checks that the step sent this envelope, at this place.
fn has_sent<A: Allocator + Copy>(
    step: Option<&Step<A>>,
    place: usize,
    envelope: &Envelope<A>,
) -> bool
    ensures { Decides result (HasSent (option_map (λ step. logged_of step.now) step.entry) place (envelope_of envelope.now)) }
{
    match step {
        Some(step) => is_at(step.sent.as_slice(), place, envelope),
        None => false,
    }
}

/// Checks that this envelope stands at this place.
fn is_at<A: Allocator + Copy>(sent: &[Envelope<A>], place: usize, envelope: &Envelope<A>) -> bool
    ensures { Decides result (slice_get (map envelope_of sent.now) place ≡ Some (envelope_of envelope.now)) }
{
    match sent.get(place) {
        Some(there) => same_envelope(there, envelope),
        None => false,
    }
}
