//! The step that a site's journal lacks: another site's journal has received what it sent.
ghost use Rattle.std.specs.Prelude.{◌≡◌, ◌==◌, option_map, slice_get};
ghost use Rattle.std.specs.List.{list_any};
ghost use Rattle.shm_model.specs.Log.{log_of};
ghost use Rattle.shm_site.specs.Step.{input_of};
ghost use Rattle.shm_logs.specs.Auditing.Logs.{logs_of};
ghost use Rattle.shm_logs.specs.Boxes.Logged.{logged_of};
ghost use Rattle.shm_audit.specs.Missing.{has_clock, missing_at, missing_for, missing_from, missing_step};

use shm_logs::{AuditFault, Input, SiteLog, Step};
use shm_place::SiteId;
use std::alloc::Allocator;
use std::fmt;

/// A step that its site's log doesn't have, and that another site received an envelope of.
#[derive(Clone, Copy, Debug, PartialEq, Eq)]
pub struct MissingStep {
    /// Whose step it is.
    pub site: SiteId,
    /// The clock under which its envelope came.
    pub clock: u64,
}

impl fmt::Display for MissingStep {
    ghost use Rattle.std.specs.Prelude.{Some};
    ghost use Rattle.shm_audit.specs.Missing.{missing_text};

    ghost output = { λ step. Some (missing_text step) };

    /// A line without its line feed.
    fn fmt<W: fmt::Write>(&self, f: &mut fmt::Formatter<W>) -> fmt::Result {
        let MissingStep { site, clock } = *self;
        let site = site.0;
        write!(
            f,
            "site {site} lacks the step at clock {clock}: its journal may be an older copy"
        )
    }
}

/// The step that sent what the step of this cause received, where its site's log has none of its clock. The journal of that site may be an
/// older copy. `None`: the cause is another one, or the site has such a step, which didn't send that.
pub fn missing_step<A: Allocator + Copy>(
    logs: &[SiteLog<A>],
    cause: &AuditFault,
) -> Option<MissingStep>
    ensures { result ≡ missing_step (logs_of logs.now) cause.now }
{
    match *cause {
        AuditFault::Unsent { site, index } => missing_at(logs, site, index),
        _ => None,
    }
}

/// The same of what the step of this index received.
fn missing_at<A: Allocator + Copy>(
    logs: &[SiteLog<A>],
    site: SiteId,
    index: usize,
) -> Option<MissingStep>
    ensures { result ≡ missing_at (logs_of logs.now) site index }
{
    match step_at(logs, site, index) {
        Some(step) => missing_for(logs, step.source.at, &step.input),
        None => None,
    }
}

/// The step of this index in the site's log, where there is one.
fn step_at<'a, A: Allocator + Copy>(
    logs: &'a [SiteLog<A>],
    site: SiteId,
    index: usize,
) -> Option<&'a Step<A>>
    ensures { option_map (λ step. logged_of step.now) result ≡ slice_get (log_of (logs_of logs.now) site) index }
{
    match logs.get(site.0 as usize) {
        Some(log) => log.steps().get(index),
        None => None,
    }
}

fn missing_for<A: Allocator + Copy>(
    logs: &[SiteLog<A>],
    clock: u64,
    input: &Input<A>,
) -> Option<MissingStep>
    ensures { result ≡ missing_for (logs_of logs.now) clock (input_of input.now) }
{
    match input {
        Input::Deliver(envelope) => missing_from(logs, envelope.from, clock),
        _ => None,
    }
}

/// The site's step of this clock, where it has none.
fn missing_from<A: Allocator + Copy>(
    logs: &[SiteLog<A>],
    site: SiteId,
    clock: u64,
) -> Option<MissingStep>
    ensures { result ≡ missing_from (logs_of logs.now) site clock }
{
    if has_clock(logs, site, clock) {
        return None;
    }
    Some(MissingStep { site, clock })
}

/// Checks that a step of the site's log has this clock.
fn has_clock<A: Allocator + Copy>(logs: &[SiteLog<A>], site: SiteId, clock: u64) -> bool
    ensures { result ≡ has_clock (log_of (logs_of logs.now) site) clock }
{
    match logs.get(site.0 as usize) {
        Some(log) => is_among(log.steps(), clock),
        None => false,
    }
}

/// Checks that one of the steps has this clock.
fn is_among<A: Allocator + Copy>(steps: &[Step<A>], clock: u64) -> bool
    ensures { result ≡ list_any (λ step. step.stamp == clock) steps.now }
{
    steps.iter().any(|step| step.stamp == clock)
}
