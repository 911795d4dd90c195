ghost use Rattle.std.specs.Prelude.{◌∷◌, [], IfOk, map};
ghost use Rattle.shm_logs.specs.Auditing.Audit.{IsAudited};
ghost use Rattle.shm_logs.specs.Auditing.Callers.{receipts_of};
ghost use Rattle.shm_logs.specs.Auditing.Logs.{logs_of};
ghost use Rattle.shm_model.specs.World.{Preset};

use crate::boxes::network::{Network, kind_of};
use anyhow::{Result, bail};
use shm_place::{SiteId, Sites};
use shm_sites::{Event, Input, Receipt, SiteBox, SiteLog, Stamp, audit_complete, logs_match};
use std::alloc::Global;
use std::io::Write;

/// Sites in their boxes, the network between them, and the receipts of loads and stores.
#[derive(Drop)]
pub struct Simulation {
    alloc: Global,
    sites: Sites,
    boxes: Vec<SiteBox>,
    network: Network,
    receipts: Vec<Receipt>,
}

impl Simulation {
    /// These sites, which share one page. Nothing has happened yet.
    pub fn new(alloc: Global, sites: Sites) -> Result<Simulation> {
        let mut boxes = Vec::new(alloc);
        for site in 0..sites.count() {
            boxes.push(SiteBox::new(alloc, sites, SiteId(site), 1)?)?;
        }
        Ok(Simulation {
            alloc,
            sites,
            boxes,
            network: Network::new(alloc),
            receipts: Vec::new(alloc),
        })
    }

    /// Makes one step of this site. Prints its input, its answer, and how often what it sends will arrive.
    pub fn step<W: Write>(
        &mut self,
        out: &mut W,
        given: &str,
        site: SiteId,
        input: Input,
        source: Stamp,
    ) -> Result<()> {
        let Some(held) = self.boxes.get_mut(site.0 as usize) else {
            bail!("there is no site {}", site.0);
        };
        let receipt = match held.take(input, source) {
            Ok(receipt) => receipt,
            Err(fault) => bail!("site {}: {fault:?}", site.0),
        };
        write!(out, "site {} {given}: {:?}", site.0, receipt.answer())?;
        if receipt.asked_access().is_some() {
            self.receipts.push(receipt)?;
        }
        let (at, index) = (held.clock(), receipt.index());
        for (place, envelope) in held.log().steps()[index].sent.iter().enumerate() {
            let copies = self.network.post(envelope, Stamp { at, index, place })?;
            write!(out, ", {} x {copies}", kind_of(envelope))?;
        }
        writeln!(out)?;
        Ok(())
    }

    /// Hands over what is on its way, the oldest first, until nothing is.
    pub fn settle<W: Write>(&mut self, out: &mut W) -> Result<()> {
        for _ in 0..u64::MAX {
            let Some((envelope, source)) = self.network.next() else {
                break;
            };
            let (site, kind) = (envelope.to, kind_of(&envelope));
            self.step(out, kind, site, Input::Deliver(envelope), source)?;
        }
        Ok(())
    }

    /// Puts the steps of all boxes into one order, in which memory is one plain memory and the receipts of loads and stores hold.
    pub fn audit(self) -> Result<Vec<Event>>
        ensures { IfOk result (λ events. IsAudited (Preset self.sites 1) (logs_of (map (λ held. held.log) self.boxes.items))
            (receipts_of self.receipts.items ∷ []) events.items) }
    {
        let (alloc, sites) = (self.alloc, self.sites);
        let logs: Vec<SiteLog> = self
            .boxes
            .into_iter()
            .map(SiteBox::into_log)
            .collect(alloc)?;
        audit_logs(alloc, sites, logs, self.receipts)
    }
}

/// The same of logs, and of a single caller's receipts.
fn audit_logs(
    alloc: Global,
    sites: Sites,
    logs: Vec<SiteLog>,
    receipts: Vec<Receipt>,
) -> Result<Vec<Event>>
    ensures { IfOk result (λ events. IsAudited (Preset sites 1) (logs_of logs.items) (receipts_of receipts.items ∷ []) events.items) }
{
    if !logs_match(sites, 1, &logs) {
        bail!("these aren't the logs of all sites");
    }
    let callers = vec![in alloc; receipts]?;
    let events = audit_complete(alloc, sites, 1, &logs, &callers)?;
    Ok(events)
}
