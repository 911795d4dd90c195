//! What waits: behind a manager's book who has answered a Clear and who waits for a turn; below a table what each site waits for.
use crate::envelopes_in_flight::verb_of;
use shm_model::{Kind, Op};
use shm_parts::Pendings;
use shm_place::{MAX_SITES, PageId, SiteId, SiteSet};
use shm_site::Site;
use shm_world::World;
use std::alloc::{AllocError, Allocator};

/// So many requests may wait behind a transaction.
const MOST_WAITING: usize = 16;

/// The sites that have answered the Clear of the page's running transaction, if there are any.
pub(crate) fn show_cleared<A: Allocator + Copy>(
    text: &mut String<A>,
    cleared: Option<SiteSet>,
) -> Result<(), AllocError> {
    match cleared {
        None => Ok(()),
        Some(sites) => show_some(text, sites),
    }
}

fn show_some<A: Allocator + Copy>(text: &mut String<A>, sites: SiteSet) -> Result<(), AllocError> {
    if sites == SiteSet::empty() {
        return Ok(());
    }
    text.push_str(" cleared ")?;
    show_copies(text, sites)
}

/// The sites that may have copies, with commas between them; or a dash.
pub(crate) fn show_copies<A: Allocator + Copy>(
    text: &mut String<A>,
    copies: SiteSet,
) -> Result<(), AllocError> {
    let mut mark = "";
    'sites: for site in 0..MAX_SITES {
        if copies.contains(SiteId(site)) {
            write!(text, "{mark}{site}")?;
            mark = ",";
        }
    }
    if mark.is_empty() {
        return text.push_str("-");
    }
    Ok(())
}

/// The requests that wait behind the running transaction, the oldest first.
pub(crate) fn show_waiting<A: Allocator + Copy>(
    text: &mut String<A>,
    site: &Site<A>,
    page: PageId,
) -> Result<(), AllocError> {
    let waiting = &page;
    'places: for place in 0..MOST_WAITING {
        show_turn(text, site.waiting(*waiting, place))?;
    }
    Ok(())
}

fn show_turn<A: Allocator + Copy>(
    text: &mut String<A>,
    turn: Option<(SiteId, (u64, Kind))>,
) -> Result<(), AllocError> {
    let Some((from, (_request, kind))) = turn else {
        return Ok(());
    };
    let site = from.0;
    let verb = verb_of(kind);
    write!(text, " then {verb} {site}")
}

/// Shows what each site waits for: its pending requests, and its segment call.
pub(crate) fn show_requests<A: Allocator + Copy>(
    text: &mut String<A>,
    world: &World<A>,
) -> Result<(), AllocError> {
    let all = None;
    'sites: for number in 0..world.sites().count() {
        if let Some(site) = world.site(SiteId(number)) {
            show_pending(text, number, site.pending(), &all)?;
            show_call(text, number, site.outstanding())?;
        }
    }
    Ok(())
}

/// Shows which sites wait for this page.
pub(crate) fn show_page_requests<A: Allocator + Copy>(
    text: &mut String<A>,
    world: &World<A>,
    page: PageId,
) -> Result<(), AllocError> {
    let wanted = Some(page);
    'sites: for number in 0..world.sites().count() {
        if let Some(site) = world.site(SiteId(number)) {
            show_pending(text, number, site.pending(), &wanted)?;
        }
    }
    Ok(())
}

/// Shows the site's pending requests: all, or that of this page.
fn show_pending<A: Allocator + Copy>(
    text: &mut String<A>,
    number: u32,
    requests: &Pendings<A>,
    only: &Option<PageId>,
) -> Result<(), AllocError> {
    'requests: for (page, pending) in requests.iter() {
        let (request, kind) = *pending;
        if is_wanted(only, page) {
            show_request(text, number, page, request, kind)?;
        }
    }
    Ok(())
}

fn is_wanted(only: &Option<PageId>, page: &PageId) -> bool {
    match only {
        None => true,
        Some(wanted) => *wanted == *page,
    }
}

fn show_request<A: Allocator + Copy>(
    text: &mut String<A>,
    number: u32,
    page: &PageId,
    request: u64,
    kind: Kind,
) -> Result<(), AllocError> {
    let seg = page.seg.0;
    let index = page.index;
    let verb = verb_of(kind);
    writeln!(
        text,
        "site {number} waits for page {seg} {index} to {verb}, request {request}"
    )
}

fn show_call<A: Allocator + Copy>(
    text: &mut String<A>,
    number: u32,
    call: Option<(u64, Op)>,
) -> Result<(), AllocError> {
    let Some((place, _)) = call else {
        return Ok(());
    };
    writeln!(text, "site {number} waits for the reply to call {place}")
}
