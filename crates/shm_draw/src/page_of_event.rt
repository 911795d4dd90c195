//! The page that an event is about.
ghost use Rattle.std.specs.Prelude.{◌≡◌, slice_get};
ghost use Rattle.shm_model.specs.World as model;
ghost use Rattle.shm_world.specs.World.{StandsFor};
ghost use Rattle.shm_draw.specs.Picture;

use crate::message_label::page_of;
use shm_model::Event;
use shm_place::{PageId, SiteId};
use shm_world::World;
use std::alloc::Allocator;

/// The page that an event is about, as the world stands before it: an access's page, or that of the envelope that it hands over or loses.
/// Segment calls, ticks, restarts and refused accesses are about none.
pub(crate) fn about<A: Allocator + Copy>(world: &World<A>, event: &Event) -> Option<PageId>
    ensures { (w : model.World) → StandsFor world.now w → result ≡ Picture.about w event.now }
{
    match event {
        Event::Load { site, at, offset } => about_access(world, *site, *at, *offset),
        Event::Store {
            site,
            at,
            offset,
            ..
        } => about_access(world, *site, *at, *offset),
        Event::Begin { .. } | Event::Tick { .. } | Event::Restart { .. } => None,
        Event::Deliver(number) => about_envelope(world, *number),
        Event::Repeat(number) => about_envelope(world, *number),
        Event::Lose(number) => about_envelope(world, *number),
    }
}

fn about_access<A: Allocator + Copy>(
    world: &World<A>,
    site: SiteId,
    at: u32,
    offset: u32,
) -> Option<PageId>
    ensures { (w : model.World) → StandsFor world.now w → result ≡ Picture.about_access (slice_get w.sites site) at offset }
{
    match world.site(site) {
        Some(site) => site.reached(at, offset),
        None => None,
    }
}

fn about_envelope<A: Allocator + Copy>(world: &World<A>, number: u64) -> Option<PageId>
    ensures { (w : model.World) → StandsFor world.now w → result ≡ Picture.about_envelope (model.live w number) }
{
    match world.envelope(number) {
        Some(envelope) => page_of(&envelope.message),
        None => None,
    }
}

/// Checks that an event about that page, or about none, belongs on this page's picture.
pub(crate) fn is_of(page: &PageId, about: Option<PageId>) -> bool
    ensures { result ≡ Picture.is_of page.now about }
{
    match about {
        None => true,
        Some(about) => *page == about,
    }
}
