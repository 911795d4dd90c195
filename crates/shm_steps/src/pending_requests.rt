//! What each site waits for.
ghost use Rattle.std.specs.Prelude.{◌≡◌, ◌++◌, OnOk, slice_get, string_bytes};
ghost use Rattle.std.specs.List.{flat_map};
ghost use Rattle.shm_attach.specs.CallBook.{outstanding_of};
ghost use Rattle.shm_model.specs.World as model;
ghost use Rattle.shm_parts.specs.Pendings.{pendings_of};
ghost use Rattle.shm_site.specs.Site.{site_of};
ghost use Rattle.shm_world.specs.World.{StandsFor};
ghost use Rattle.shm_steps.specs.Section;

use crate::manager_book_html::kind_name;
use shm_model::{Kind, Op};
use shm_parts::Pendings;
use shm_place::{PageId, SiteId};
use shm_site::Site;
use shm_world::World;
use std::alloc::{AllocError, Allocator};

/// Tells what each site waits for.
pub(crate) fn tell_awaits<A: Allocator + Copy>(
    out: &mut String<A>,
    world: &World<A>,
) -> Result<(), AllocError>
    ensures { (w : model.World) → StandsFor world.now w → OnOk result (string_bytes out.new ≡ string_bytes out.old ++ Section.awaits_text w) }
{
    'sites: for site in 0..world.sites().count() {
        tell_site(out, world, site)?;
    }
    Ok(())
}

fn tell_site<A: Allocator + Copy>(
    out: &mut String<A>,
    world: &World<A>,
    number: u32,
) -> Result<(), AllocError>
    ensures { (w : model.World) → StandsFor world.now w → OnOk result (string_bytes out.new ≡ string_bytes out.old ++ Section.site_awaits number (slice_get w.sites number)) }
{
    match world.site(SiteId(number)) {
        Some(site) => tell_requests(out, number, site),
        None => Ok(()),
    }
}

fn tell_requests<A: Allocator + Copy>(
    out: &mut String<A>,
    number: u32,
    site: &Site<A>,
) -> Result<(), AllocError>
    ensures { OnOk result (string_bytes out.new ≡ string_bytes out.old
        ++ (flat_map (Section.pending_text number) (site_of site.now).pending ++ Section.call_text number (site_of site.now).outstanding)) }
{
    tell_pending(out, number, site.pending())?;
    tell_call(out, number, site.outstanding())
}

/// Tells the requests whose pages the site waits for.
fn tell_pending<A: Allocator + Copy>(
    out: &mut String<A>,
    number: u32,
    requests: &Pendings<A>,
) -> Result<(), AllocError>
    ensures { OnOk result (string_bytes out.new ≡ string_bytes out.old ++ flat_map (Section.pending_text number) (pendings_of requests.now)) }
{
    'requests: for (page, pending) in requests.iter() {
        let (request, kind) = *pending;
        tell_request(out, number, *page, request, kind)?;
    }
    Ok(())
}

fn tell_request<A: Allocator + Copy>(
    out: &mut String<A>,
    number: u32,
    page: PageId,
    request: u64,
    kind: Kind,
) -> Result<(), AllocError>
    ensures { OnOk result (string_bytes out.new ≡ string_bytes out.old ++ Section.pending_text number (record { page = page; request = request; kind = kind })) }
{
    let seg = page.seg.0;
    let index = page.index;
    let wants = kind_name(kind);
    write!(
        out,
        "<li>site {number} waits for page {seg} {index}{wants}, request {request}</li>\n"
    )
}

/// Tells the segment call whose reply the site waits for.
fn tell_call<A: Allocator + Copy>(
    out: &mut String<A>,
    number: u32,
    call: Option<(u64, Op)>,
) -> Result<(), AllocError>
    ensures { OnOk result (string_bytes out.new ≡ string_bytes out.old ++ Section.call_text number (outstanding_of call)) }
{
    let Some((place, _)) = call else {
        return Ok(());
    };
    write!(
        out,
        "<li>site {number} waits for the reply to call {place}</li>\n"
    )
}
