use crate::latency::network::Network;
use anyhow::{Result, bail};
use shm_model::{Answer, Asked};
use shm_parts::Envelope;
use shm_place::{SiteId, Sites};
use shm_site::{Input, Site};
use std::alloc::Global;
use std::io::Write;

/// An access that waits for its right, and since when.
#[derive(Clone, Copy)]
struct Wait {
    asked: Asked,
    since: u64,
}

/// A site, and the access that its caller waits for.
#[derive(Drop)]
struct Seat {
    site: Site,
    wait: Option<Wait>,
}

/// Sites, the network between them, and the time in milliseconds.
#[derive(Drop)]
pub struct Simulation {
    seats: Vec<Seat>,
    outbox: Vec<Envelope>,
    network: Network,
    now: u64,
}

impl Simulation {
    /// These sites, which share one page. Nothing has happened yet.
    pub fn new(alloc: Global, sites: Sites) -> Result<Simulation> {
        let mut seats = Vec::new(alloc);
        for me in 0..sites.count() {
            let site = Site::preset(alloc, sites, SiteId(me), 1)?;
            seats.push(Seat { site, wait: None })?;
        }
        Ok(Simulation {
            seats,
            outbox: Vec::new(alloc),
            network: Network::new(alloc),
            now: 0,
        })
    }

    /// A site's caller makes an access, which is answered at once or waits for its right.
    pub fn access<W: Write>(&mut self, out: &mut W, site: SiteId, asked: Asked) -> Result<()> {
        let since = self.now;
        self.attempt(out, site, Wait { asked, since })
    }

    /// Hands over what arrives, in the order of arrival, until nothing is on its way. A site that got an envelope makes the access again
    /// that its caller waits for.
    pub fn run<W: Write>(&mut self, out: &mut W) -> Result<()> {
        for _ in 0..u64::MAX {
            let Some((time, envelope)) = self.network.next() else {
                break;
            };
            self.now = time;
            let site = envelope.to;
            self.step(site, Input::Deliver(envelope))?;
            if let Some(wait) = self.waiting(site) {
                self.attempt(out, site, wait)?;
            }
        }
        Ok(())
    }

    /// The access that this site's caller waits for.
    fn waiting(&self, site: SiteId) -> Option<Wait> {
        self.seats.get(site.0 as usize)?.wait
    }

    /// Makes the access, and keeps it if it has to wait.
    fn attempt<W: Write>(&mut self, out: &mut W, site: SiteId, wait: Wait) -> Result<()> {
        let answer = self.step(site, Input::of(wait.asked))?;
        let waits = matches!(answer, Answer::Fault | Answer::Waiting);
        if let Some(seat) = self.seats.get_mut(site.0 as usize) {
            seat.wait = if waits { Some(wait) } else { None };
        }
        let (now, since) = (self.now, self.now.saturating_sub(wait.since));
        match answer {
            Answer::Waiting => {}
            Answer::Fault => writeln!(out, "{now:>3} ms: site {} has to wait", site.0)?,
            _ => writeln!(
                out,
                "{now:>3} ms: site {}: {answer:?} after {since} ms",
                site.0
            )?,
        }
        Ok(())
    }

    /// Makes one step of this site, and posts what it sends.
    fn step(&mut self, site: SiteId, input: Input) -> Result<Answer> {
        let Some(seat) = self.seats.get_mut(site.0 as usize) else {
            bail!("there is no site {}", site.0);
        };
        let answer = match seat.site.step(input, &mut self.outbox) {
            Ok(answer) => answer,
            Err(error) => bail!("site {}: {:?}", site.0, error.fault),
        };
        for envelope in self.outbox.drain(..) {
            self.network.post(self.now, envelope)?;
        }
        Ok(answer)
    }
}
