//! Three sites under a network with latencies: a small discrete-event loop over `Site` and a `Vec`. Each envelope arrives so many
//! milliseconds after it was sent, by a table of distances, and a line tells when an access is answered.
mod network;
mod simulation;

use anyhow::{Result, bail};
use shm_model::Asked;
use shm_place::{SiteId, Sites};
use simulation::Simulation;
use std::alloc::Global;
use std::io::Write;

/// Prints a line for each access that has to wait, and one for each that is answered.
pub fn run<W: Write>(alloc: Global, out: &mut W) -> Result<()> {
    let Ok(sites) = Sites::new(3) else {
        bail!("there are 1 to 16 sites");
    };
    let mut simulation = Simulation::new(alloc, sites)?;
    // Site 0 is the page's manager, and owns it at first. The others read what it stores.
    simulation.access(out, SiteId(0), store(7))?;
    simulation.access(out, SiteId(1), load())?;
    simulation.access(out, SiteId(2), load())?;
    simulation.run(out)?;
    // Site 1 may write once site 2, which is far away, has given up its copy.
    simulation.access(out, SiteId(1), store(8))?;
    simulation.run(out)?;
    drop(simulation);
    Ok(())
}

/// A load of segment 0's first byte, through attachment 0.
fn load() -> Asked {
    Asked::Load { at: 0, offset: 0 }
}

/// A store to it.
fn store(byte: u8) -> Asked {
    Asked::Store {
        at: 0,
        offset: 0,
        byte,
    }
}
