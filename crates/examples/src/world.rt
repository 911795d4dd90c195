//! A world of two sites that is stepped by hand. A byte that is stored at one site is loaded at another, which has no right to the page,
//! and each envelope that this takes is delivered by its number. Then an envelope is lost.
mod narrated_world;

use anyhow::{Result, bail};
use narrated_world::Story;
use shm_place::{SiteId, Sites};
use shm_world::{Event, World};
use std::alloc::Global;
use std::io::Write;

/// Tells the story of this world, an event a line.
pub fn run<W: Write>(alloc: Global, out: &mut W) -> Result<()> {
    let Ok(sites) = Sites::new(2) else {
        bail!("a world has 1 to 16 sites");
    };
    // Segment 0 has one page, and each site has attached it. Site 0 is the page's manager, and owns it at first.
    let world = World::preset(alloc, sites, 1)?;
    let mut story = Story::new(alloc, world);
    read_fault(&mut story, out)?;
    lost_ask(&mut story, out)?;
    drop(story);
    Ok(())
}

/// Site 1 loads what site 0 stored. Nothing arrives by itself: the story delivers each envelope by its number.
fn read_fault<W: Write>(story: &mut Story, out: &mut W) -> Result<()> {
    story.tell(out, "site 0 stores 7", store(0, 7))?;
    story.tell(out, "site 1 loads, and may not", load(1))?;
    story.tell(out, "the manager is asked", Event::Deliver(0))?;
    story.tell(out, "the owner lends a copy", Event::Deliver(1))?;
    story.tell(out, "site 1 takes it", Event::Deliver(2))?;
    story.tell(out, "the manager closes its book", Event::Deliver(3))?;
    // An access that had no right wasn't made: the caller makes it again.
    story.tell(out, "site 1 loads", load(1))?;
    Ok(())
}

/// Site 1 wants to write, and what it asks is lost. At a tick a site sends again what may be lost.
fn lost_ask<W: Write>(story: &mut Story, out: &mut W) -> Result<()> {
    story.tell(out, "site 1 stores 8, and may not", store(1, 8))?;
    story.tell(out, "its Ask is lost", Event::Lose(4))?;
    story.tell(out, "site 1 is still waiting", store(1, 8))?;
    story.tell(
        out,
        "a tick: it asks again",
        Event::Tick { site: SiteId(1) },
    )?;
    story.tell(out, "the manager is asked", Event::Deliver(5))?;
    story.tell(out, "the owner hands the page over", Event::Deliver(6))?;
    story.tell(out, "site 1 owns the page", Event::Deliver(7))?;
    story.tell(out, "the manager closes its book", Event::Deliver(8))?;
    story.tell(out, "site 1 stores 8", store(1, 8))?;
    story.tell(out, "site 1 loads", load(1))?;
    Ok(())
}

/// A load of the segment's first byte, through attachment 0.
fn load(site: u32) -> Event {
    Event::Load {
        site: SiteId(site),
        at: 0,
        offset: 0,
    }
}

/// A store to it.
fn store(site: u32, byte: u8) -> Event {
    Event::Store {
        site: SiteId(site),
        at: 0,
        offset: 0,
        byte,
    }
}
