//! `sites` and `book`: a row for each page that was asked for, or for one; a column for each site, and the manager's book.
use crate::envelopes_in_flight::pages_in_flight;
use crate::waiting_sites::{
    show_cleared, show_copies, show_page_requests, show_requests, show_waiting,
};
use shm_keys::Segment;
use shm_model::{Kind, Shown, State};
use shm_place::{PAGE_BYTES, PAGES, PageId, SiteId, in_limits, manager_of};
use shm_world::{BookView, World};
use std::alloc::{AllocError, Allocator};

/// Shows each page that some site has asked for, and below what each site waits for.
pub(crate) fn show_pages<A: Allocator + Copy>(
    text: &mut String<A>,
    world: &World<A>,
) -> Result<(), AllocError> {
    let flying = pages_in_flight(*text.allocator(), world)?;
    head(text, world.sites().count())?;
    'homes: for home in 0..world.sites().count() {
        show_home(text, world, flying.as_slice(), SiteId(home))?;
    }
    show_requests(text, world)
}

/// Shows this page, and below it which sites wait for it.
pub(crate) fn show_book<A: Allocator + Copy>(
    text: &mut String<A>,
    world: &World<A>,
    page: PageId,
) -> Result<(), AllocError> {
    let place = &page;
    if !in_limits(world.sites(), *place) {
        return text.push_str("no segment can have that page\n");
    }
    head(text, world.sites().count())?;
    show_row(text, world, place)?;
    show_page_requests(text, world, *place)
}

/// The names of the columns.
fn head<A: Allocator + Copy>(text: &mut String<A>, sites: u32) -> Result<(), AllocError> {
    write!(text, "{:<12}", "page")?;
    'sites: for site in 0..sites {
        write!(text, "site {site:<9}")?;
    }
    text.push_str("manager\n")
}

/// Shows the pages of the segments whose home is this site.
fn show_home<A: Allocator + Copy>(
    text: &mut String<A>,
    world: &World<A>,
    flying: &[PageId],
    home: SiteId,
) -> Result<(), AllocError> {
    let Some(site) = world.site(home) else {
        return Ok(());
    };
    'segments: for segment in site.segments() {
        show_segment(text, world, flying, segment)?;
    }
    Ok(())
}

/// Shows the pages of a segment.
fn show_segment<A: Allocator + Copy>(
    text: &mut String<A>,
    world: &World<A>,
    flying: &[PageId],
    segment: &Segment,
) -> Result<(), AllocError> {
    let pages = segment.size.div_ceil(PAGE_BYTES as u32).min(PAGES);
    'pages: for index in 0..pages {
        let page = PageId {
            seg: segment.id,
            index,
        };
        show_page(text, world, flying, &page)?;
    }
    Ok(())
}

/// Shows a page, if a right to it was asked for.
fn show_page<A: Allocator + Copy>(
    text: &mut String<A>,
    world: &World<A>,
    flying: &[PageId],
    page: &PageId,
) -> Result<(), AllocError> {
    if flying.contains(page) || is_touched(world, page) {
        return show_row(text, world, page);
    }
    Ok(())
}

/// Checks that the page's manager has given a right to it, or that a site has met its number. Then a right was asked for, as where an
/// envelope is about the page.
fn is_touched<A: Allocator + Copy>(world: &World<A>, page: &PageId) -> bool {
    'sites: for site in 0..world.sites().count() {
        if is_met(world.shown(SiteId(site), *page)) {
            return true;
        }
    }
    is_begun(world.book(*page))
}

fn is_met(shown: Option<Shown>) -> bool {
    match shown {
        None => false,
        Some(shown) => shown.seen > 0,
    }
}

fn is_begun(book: Option<BookView>) -> bool {
    match book {
        None => false,
        Some(book) => book.number > 0,
    }
}

fn show_row<A: Allocator + Copy>(
    text: &mut String<A>,
    world: &World<A>,
    page: &PageId,
) -> Result<(), AllocError> {
    let name = format!(in *text.allocator(); "{} {}", page.seg.0, page.index)?;
    write!(text, "{name:<12}")?;
    'sites: for site in 0..world.sites().count() {
        show_cell(text, world.shown(SiteId(site), *page))?;
    }
    let manager = manager_of(world.sites(), *page);
    show_manager(text, manager, world.book(*page))?;
    if let Some(site) = world.site(manager) {
        show_cleared(text, site.cleared(*page))?;
        show_waiting(text, site, *page)?;
    }
    text.push_str("\n")
}

/// The state in which a site has the page, and the number that it met last.
fn show_cell<A: Allocator + Copy>(
    text: &mut String<A>,
    shown: Option<Shown>,
) -> Result<(), AllocError> {
    let Some(shown) = shown else {
        return write!(text, "{:<14}", "-");
    };
    let state = name_of(shown.state);
    let cell = format!(in *text.allocator(); "{state}/{}", shown.seen)?;
    write!(text, "{cell:<14}")
}

fn name_of(state: State) -> &'static str {
    match state {
        State::Nil => "Nil",
        State::Copy => "Copy",
        State::OwnRead => "OwnRead",
        State::OwnWrite => "OwnWrite",
        State::Handed => "Handed",
        State::Purged => "Purged",
    }
}

/// Prints the site that manages the page, and its book.
fn show_manager<A: Allocator + Copy>(
    text: &mut String<A>,
    manager: SiteId,
    book: Option<BookView>,
) -> Result<(), AllocError> {
    write!(text, "{}: ", manager.0)?;
    let Some(book) = book else {
        return text.push_str("purged");
    };
    write!(text, "owner {} copies ", book.owner.0)?;
    show_copies(text, book.copies)?;
    write!(text, " t {}", book.number)?;
    show_running(text, book.running)
}

/// Prints what the running transaction gives, and to which site.
fn show_running<A: Allocator + Copy>(
    text: &mut String<A>,
    running: Option<(Kind, SiteId)>,
) -> Result<(), AllocError> {
    let Some((kind, site)) = running else {
        return text.push_str(" idle");
    };
    match kind {
        Kind::Read => write!(text, " read {}", site.0),
        Kind::Write => write!(text, " write {}", site.0),
    }
}
