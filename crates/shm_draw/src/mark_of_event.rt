//! The mark that an event draws, as the world stands before it.
ghost use Rattle.std.specs.Prelude.{◌≡◌};
ghost use Rattle.shm_model.specs.World as model;
ghost use Rattle.shm_world.specs.World.{StandsFor};
ghost use Rattle.shm_draw.specs.Picture;

use crate::envelope_routes::way_of;
use crate::mark_kinds::{End, Mark, Symbol};
use crate::page_of_event::about;
use shm_model::Event;
use shm_place::{PageId, SiteId};
use shm_world::World;
use std::alloc::Allocator;

/// The mark that the event draws on the page's picture. `origins` has the event that sent each envelope.
pub(crate) fn mark_of<A: Allocator + Copy>(
    world: &World<A>,
    origins: &[u64],
    page: &PageId,
    event: &Event,
) -> Mark
    ensures { (w : model.World) → StandsFor world.now w → result ≡ Picture.mark page.now w origins.now event.now }
{
    let own = own_mark(world, origins, event);
    mark_on(page, about(world, event), own)
}

/// On the picture of another page only that page is named.
fn mark_on(page: &PageId, about: Option<PageId>, own: Mark) -> Mark
    ensures { result ≡ Picture.mark_on page.now about own }
{
    match about {
        None => own,
        Some(about) => {
            if *page == about {
                return own;
            }
            Mark::Elsewhere(about)
        }
    }
}

/// The mark that the event draws on the picture of its own page.
fn own_mark<A: Allocator + Copy>(world: &World<A>, origins: &[u64], event: &Event) -> Mark
    ensures { (w : model.World) → StandsFor world.now w → result ≡ Picture.own_mark w origins.now event.now }
{
    match event {
        Event::Load { site, .. } => at_site(world, *site, Symbol::Request),
        Event::Store { site, .. } => at_site(world, *site, Symbol::Request),
        Event::Begin { site, .. } => at_site(world, *site, Symbol::Request),
        Event::Tick { site } => at_site(world, *site, Symbol::Tick),
        Event::Restart { site } => at_site(world, *site, Symbol::Restart),
        Event::Deliver(number) => passed(world, origins, *number, End::HandedOver),
        Event::Repeat(number) => passed(world, origins, *number, End::Repeated),
        Event::Lose(number) => passed(world, origins, *number, End::Lost),
    }
}

/// A symbol at the site, if it is there.
fn at_site<A: Allocator + Copy>(world: &World<A>, site: SiteId, symbol: Symbol) -> Mark
    ensures { (w : model.World) → StandsFor world.now w → result ≡ Picture.at_site w site symbol }
{
    if site.0 < world.sites().count() {
        return Mark::At(site, symbol);
    }
    Mark::Nowhere
}

/// The arrow of the envelope of this number, if it is on its way.
fn passed<A: Allocator + Copy>(world: &World<A>, origins: &[u64], number: u64, end: End) -> Mark
    ensures { (w : model.World) → StandsFor world.now w → result ≡ Picture.passed origins.now number (model.live w number) end }
{
    match world.envelope(number) {
        Some(envelope) => Mark::Arrow(way_of(envelope, origins, number), end),
        None => Mark::Nowhere,
    }
}
