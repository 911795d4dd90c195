//! The manager's book of a page: what `show` tells of it, who has answered a Clear, and who waits for a turn.
ghost use Rattle.std.specs.Prelude.{◌≡◌, ◌++◌, IfSome, OnOk, is_some, option_map, slice_get, string_bytes};
ghost use Rattle.shm_manager.specs.Queue.{waiting_from};
ghost use Rattle.shm_model.specs.Book.{Book};
ghost use Rattle.shm_model.specs.World as model;
ghost use Rattle.shm_place.specs.SiteSet.{has};
ghost use Rattle.shm_site.specs.Site.{site_of};
ghost use Rattle.shm_world.specs.World.{StandsFor};
ghost use Rattle.shm_place.specs.Page as Place;
ghost use Rattle.shm_steps.specs.Section;

use shm_debug::{tell_copies, tell_manager};
use shm_model::Kind;
use shm_place::{PageId, SiteId, SiteSet, in_limits, manager_of};
use shm_site::Site;
use shm_world::World;
use std::alloc::{AllocError, Allocator};

/// So many requests may wait behind a transaction.
const MOST_WAITING: usize = 16;

/// Tells the page's manager, and its book as `show` does.
pub(crate) fn tell_keeper<A: Allocator + Copy>(
    out: &mut String<A>,
    world: &World<A>,
    page: PageId,
) -> Result<(), AllocError>
    ensures { (w : model.World) → StandsFor world.now w → OnOk result (string_bytes out.new ≡ string_bytes out.old ++ Section.keeper_text w page) }
{
    let place = &page;
    if !in_limits(world.sites(), *place) {
        return Ok(());
    }
    let manager = manager_of(world.sites(), *place);
    tell_name(out, manager)?;
    tell_manager(
        out,
        *place,
        world.shown(manager, *place),
        world.book(*place),
    )
}

fn tell_name<A: Allocator + Copy>(out: &mut String<A>, manager: SiteId) -> Result<(), AllocError>
    ensures { OnOk result (string_bytes out.new ≡ string_bytes out.old ++ Section.manager_name manager) }
{
    let number = manager.0;
    write!(out, "{number}:")
}

/// Tells who has answered the Clear of the page's running transaction, and who waits.
pub(crate) fn tell_volatile<A: Allocator + Copy>(
    out: &mut String<A>,
    world: &World<A>,
    page: PageId,
) -> Result<(), AllocError>
    ensures { (w : model.World) → StandsFor world.now w → OnOk result (string_bytes out.new ≡ string_bytes out.old
        ++ Section.volatile_cells (slice_get w.sites (Place.manager_of w.count page)) page) }
{
    let place = &page;
    match world.site(manager_of(world.sites(), *place)) {
        Some(site) => tell_cells(out, site, *place),
        None => Ok(()),
    }
}

fn tell_cells<A: Allocator + Copy>(
    out: &mut String<A>,
    site: &Site<A>,
    page: PageId,
) -> Result<(), AllocError>
    ensures { OnOk result (string_bytes out.new ≡ string_bytes out.old ++ Section.book_cells ((site_of site.now).books page)) }
{
    let place = &page;
    out.push_str("<td>")?;
    tell_cleared(out, site.cleared(*place))?;
    out.push_str("</td><td><ol>")?;
    tell_queue(out, site, *place)?;
    out.push_str("</ol></td>")
}

/// Tells the sites, or where no transaction runs a dash.
fn tell_cleared<A: Allocator + Copy>(
    out: &mut String<A>,
    cleared: Option<SiteSet>,
) -> Result<(), AllocError>
    ensures { (b : Book) → is_some cleared ≡ is_some b.running → IfSome cleared (λ sites. has sites ≡ b.cleared)
        → OnOk result (string_bytes out.new ≡ string_bytes out.old ++ Section.cleared_while b.running b) }
{
    match cleared {
        Some(sites) => tell_copies(out, sites),
        None => out.push_str("-"),
    }
}

/// Tells who waits for a turn, the oldest first.
fn tell_queue<A: Allocator + Copy>(
    out: &mut String<A>,
    site: &Site<A>,
    page: PageId,
) -> Result<(), AllocError>
    ensures { OnOk result (string_bytes out.new ≡ string_bytes out.old ++ Section.queue_text ((site_of site.now).books page)) }
{
    let waiting = &page;
    'places: for place in 0..MOST_WAITING {
        tell_waiting(out, site.waiting(*waiting, place))?;
    }
    Ok(())
}

fn tell_waiting<A: Allocator + Copy>(
    out: &mut String<A>,
    waiting: Option<(SiteId, (u64, Kind))>,
) -> Result<(), AllocError>
    ensures { OnOk result (string_bytes out.new ≡ string_bytes out.old ++ Section.waiting_text (option_map waiting_from waiting)) }
{
    let Some((site, (request, kind))) = waiting else {
        return Ok(());
    };
    let number = site.0;
    let wants = kind_name(kind);
    write!(out, "<li>site {number}{wants}, request {request}</li>")
}

/// What a request asks for.
pub(crate) fn kind_name(kind: Kind) -> &'static str
    ensures { result.now ≡ Section.kind_name kind }
{
    match kind {
        Kind::Read => " to read",
        Kind::Write => " to write",
    }
}
