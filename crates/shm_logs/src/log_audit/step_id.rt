use crate::site_boxes::{SiteLog, Step};
use shm_place::SiteId;
use std::alloc::Allocator;

/// Names a step by its site and by its index in that site's log.
#[derive(Clone, Copy, Debug, PartialEq, Eq)]
pub struct StepName {
    pub site: SiteId,
    pub index: usize,
}

impl StepName {
    ghost use Rattle.std.specs.Prelude.{◌≡◌};
    ghost use Rattle.shm_logs.specs.Boxes.Logged.{logged_of};
    ghost use Rattle.shm_logs.specs.Auditing.Logs.{logs_of};
    ghost use Rattle.shm_logs.specs.Auditing.Order.{Names, step_named};

    /// The step that it names.
    pub fn step<A: Allocator + Copy>(self, logs: &[SiteLog<A>]) -> &Step<A>
        requires { Names (logs_of logs.now) self }
        ensures { record { site = self.site; logged = logged_of result.now } ≡ step_named (logs_of logs.now) self }
    {
        let SiteId(site) = self.site;
        let steps = logs[site as usize].steps();
        &steps[self.index]
    }
}
