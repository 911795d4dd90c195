mod going_back;

use shm_debug::Session;
use shm_model::Opening;
use shm_place::{SiteId, Sites};
use shm_world::Event;
use std::alloc::Allocator;
use std::test::Fail;

fn load(offset: u32) -> Event {
    let site = SiteId(0);
    Event::Load {
        site,
        at: 0,
        offset,
    }
}

fn store(offset: u32, byte: u8) -> Event {
    let site = SiteId(0);
    Event::Store {
        site,
        at: 0,
        offset,
        byte,
    }
}

/// A session of two sites, with segment 0 of one page.
fn preset<A: Allocator + Copy>(alloc: A) -> Result<Session<A>, Fail> {
    let sites = Sites::new(2).ok().ok_or("1 to 16 sites")?;
    Ok(Session::new(alloc, Opening::preset(sites, 1))?)
}
