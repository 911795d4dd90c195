//! All steps of all logs in one order, by stamp and site.
ghost use Rattle.std.specs.Prelude.{◌≡◌, ◌<◌, ◌≤◌, ◌^◌, ◌-◌, IfOk, IfSome, length};
ghost use Rattle.shm_logs.specs.Boxes.SiteLog.{steps_of};
ghost use Rattle.shm_logs.specs.Auditing.Heads.{lesser, IsLeastIf, TellsStepIf};
ghost use Rattle.shm_logs.specs.Auditing.Logs.{logs_of, LogsRise};
ghost use Rattle.shm_logs.specs.Auditing.Order.{order_of, AllName};
ghost use Rattle.shm_model.specs.Merge.{IsMerged};

use crate::log_audit::step_id::StepName;
use crate::site_boxes::SiteLog;
use shm_place::SiteId;
use std::alloc::{AllocError, Allocator};

/// How many sites there are at most.
const SITES: usize = shm_place::MAX_SITES as usize;

/// The first step that a site's log has left.
#[derive(Clone, Copy)]
pub(crate) struct Head {
    pub(crate) site: usize,
    pub(crate) index: usize,
    pub(crate) stamp: u64,
}

/// The names of all steps of the logs in their one order: the step with the lower stamp first, and of two with one stamp that of the
/// lower site. The index of a log is its site's number. Takes memory for one name a step.
pub fn merge<A: Allocator + Copy>(
    alloc: A,
    logs: &[SiteLog<A>],
) -> Result<Vec<StepName, A>, AllocError>
    requires sites { length logs.now ≤ 16 }
    requires rise { LogsRise (logs_of logs.now) }
    ensures merged { IfOk result (λ names. IsMerged (logs_of logs.now) (order_of (logs_of logs.now) names.items)) }
    ensures named { IfOk result (λ names. AllName (logs_of logs.now) names.items) }
{
    let mut names = Vec::with_capacity(alloc, count_steps(logs))?;
    let mut heads = [0; SITES];
    'steps: while let Some(head) = least(logs, &heads) {
        names.push(StepName {
            site: SiteId(head.site as u32),
            index: head.index,
        })?;
        heads[head.site] = head.index + 1;
    }
    Ok(names)
}

fn count_steps<A: Allocator + Copy>(logs: &[SiteLog<A>]) -> usize {
    let mut count = 0usize;
    'logs: for log in logs {
        count = count.saturating_add(log.len());
    }
    count
}

/// Of the logs' first steps, the one that comes first.
fn least<A: Allocator + Copy>(logs: &[SiteLog<A>], heads: &[usize; SITES]) -> Option<Head>
    requires sites { length logs.now ≤ 16 }
    ensures least { IsLeastIf (logs_of logs.now) heads.now (length logs.now) result }
    ensures below { IfSome result (λ head. head.index < 2 ^ 64 - 1) }
{
    let mut least = None;
    'logs: for (site, log) in logs.iter().enumerate() {
        least = lesser(least, first(site, heads[site], log));
    }
    least
}

/// The step of this index, if the site has made that many.
fn first<A: Allocator + Copy>(site: usize, index: usize, log: &SiteLog<A>) -> Option<Head>
    ensures step { TellsStepIf (steps_of log.now) site index result }
    ensures below { IfSome result (λ head. head.index < 2 ^ 64 - 1) }
{
    let step = log.steps().get(index)?;
    Some(Head {
        site,
        index,
        stamp: step.stamp,
    })
}

/// The one with the lower stamp, and `one` where they have the same.
fn lesser(one: Option<Head>, other: Option<Head>) -> Option<Head>
    ensures { result ≡ lesser one other }
{
    match (one, other) {
        (Some(one), Some(other)) if other.stamp < one.stamp => Some(other),
        (None, other) => other,
        (one, _) => one,
    }
}
