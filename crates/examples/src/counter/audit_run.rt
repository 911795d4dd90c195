ghost use Rattle.std.specs.Prelude.{List, OnOk};
ghost use Rattle.shm_logs.specs.Auditing.Audit.{IsAudited};
ghost use Rattle.shm_logs.specs.Auditing.Callers.{callers_of};
ghost use Rattle.shm_logs.specs.Auditing.Complete.{AllTold};
ghost use Rattle.shm_logs.specs.Auditing.Logs.{logs_of};
ghost use Rattle.shm_model.specs.World.{Preset};
ghost use Rattle.shm_model.specs.declared.event.Event.{Event};

use anyhow::{Result, bail};
use shm_place::Sites;
use shm_sites::{Receipt, SiteLog, audit_complete, logs_match};
use std::alloc::Global;

/// Where it answers Ok, there is one order of all steps in which memory is one plain memory and each receipt holds, and each access that a
/// site completed has its receipt.
pub fn audit(alloc: Global, sites: Sites, logs: &[SiteLog], callers: &[Vec<Receipt>]) -> Result<()>
    ensures sound { OnOk result ((events : List Event) × IsAudited (Preset sites 1) (logs_of logs.now) (callers_of callers.now) events) }
    ensures complete { OnOk result (AllTold (logs_of logs.now) (callers_of callers.now)) }
{
    if !logs_match(sites, 1, logs) {
        bail!("these aren't the logs of all sites");
    }
    let events = audit_complete(alloc, sites, 1, logs, callers)?;
    drop(events);
    Ok(())
}
