//! Two sites in boxes, over a network of one's own: a queue that loses the first page that is sent, and hands the next one over twice.
//! Ticks heal it. At the end the boxes' logs are audited.
mod network;
mod simulation;

use anyhow::{Result, bail};
use shm_place::{SiteId, Sites};
use shm_sites::{Input, Stamp};
use simulation::Simulation;
use std::alloc::Global;
use std::io::Write;

/// Prints a line for each step of the two sites, and what the audit says.
pub fn run<W: Write>(alloc: Global, out: &mut W) -> Result<()> {
    let Ok(sites) = Sites::new(2) else {
        bail!("there are 1 to 16 sites");
    };
    let mut simulation = Simulation::new(alloc, sites)?;
    lost_page(&mut simulation, out)?;
    let events = simulation.audit()?;
    writeln!(out, "audit yes, of {} steps", events.len())?;
    drop(events);
    Ok(())
}

/// Site 1 loads what site 0 stored. Site 0 is the page's manager, and owns it at first.
fn lost_page<W: Write>(simulation: &mut Simulation, out: &mut W) -> Result<()> {
    let store = Input::Store {
        at: 0,
        offset: 0,
        byte: 7,
    };
    simulation.step(out, "store", SiteId(0), store, Stamp::NONE)?;
    simulation.step(out, "load", SiteId(1), load(), Stamp::NONE)?;
    simulation.settle(out)?;
    // The page was lost. At a tick a site sends again what may be lost; here it is the manager's Hand that brings the page.
    simulation.step(out, "load", SiteId(1), load(), Stamp::NONE)?;
    simulation.step(out, "tick", SiteId(1), Input::Tick, Stamp::NONE)?;
    simulation.step(out, "tick", SiteId(0), Input::Tick, Stamp::NONE)?;
    simulation.settle(out)?;
    simulation.step(out, "load", SiteId(1), load(), Stamp::NONE)
}

/// A load of segment 0's first byte, through attachment 0.
fn load() -> Input {
    Input::Load { at: 0, offset: 0 }
}
