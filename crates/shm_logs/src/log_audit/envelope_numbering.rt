ghost use Rattle.std.specs.Prelude.{◌≡◌, ◌≤◌, [], IfOk, length, replicate};
ghost use Rattle.shm_model.specs.Basics.{max_sent};
ghost use Rattle.shm_logs.specs.Auditing.Logs.{logs_of};
ghost use Rattle.shm_logs.specs.Auditing.Order.{order_of, AllName};
ghost use Rattle.shm_logs.specs.Auditing.Rows.{rows_of};

use crate::log_audit::step_id::StepName;
use crate::site_boxes::SiteLog;
use shm_place::SiteId;
use std::alloc::{AllocError, Allocator};

/// The numbers that envelopes get in an order of steps.
#[derive(Drop)]
pub(crate) struct Numbering<A: Allocator + Copy> {
    /// For each step of each site, how many envelopes are sent before it.
    before: Vec<Vec<u64, A>, A>,
    /// How many are sent in all.
    total: u64,
}

impl<A: Allocator + Copy> Numbering<A> {
    ghost use Rattle.shm_logs.specs.Auditing.Numbering.{number_in, sent_in, Numbers};

    /// Numbers the envelopes that these steps send, in this order.
    pub(crate) fn new(
        alloc: A,
        logs: &[SiteLog<A>],
        order: &[StepName],
    ) -> Result<Numbering<A>, AllocError>
        requires named { AllName (logs_of logs.now) order.now }
        requires few { sent_in (order_of (logs_of logs.now) order.now) ≤ max_sent }
        ensures { IfOk result (Numbers (order_of (logs_of logs.now) order.now)) }
    {
        let mut before = empty_rows(alloc, logs)?;
        let mut total = 0;
        'names: for name in order {
            before[name.site.0 as usize].push(total)?;
            total += name.step(logs).sent.len() as u64;
        }
        Ok(Numbering { before, total })
    }

    /// How many envelopes are sent before the site's step of this index; all, where there is no such step.
    pub(crate) fn sent_before(&self, site: SiteId, index: usize) -> u64
        ensures { result ≡ number_in self.now site index }
    {
        match self.before.get(site.0 as usize) {
            Some(row) => row.get(index).copied().unwrap_or(self.total),
            None => self.total,
        }
    }
}

/// A row for each log, with room for a number for each of its steps.
fn empty_rows<A: Allocator + Copy>(
    alloc: A,
    logs: &[SiteLog<A>],
) -> Result<Vec<Vec<u64, A>, A>, AllocError>
    ensures { IfOk result (λ rows. rows_of rows.items ≡ replicate (length logs.now) []) }
{
    let mut rows = Vec::with_capacity(alloc, logs.len())?;
    'logs: for log in logs {
        let row = Vec::with_capacity(alloc, log.len())?;
        rows.push(row)?;
    }
    Ok(rows)
}
