//! The text of a page.
ghost use Rattle.std.specs.Prelude.{◌≡◌, ◌++◌, Option, Some, IfSome, OnOk, is_some, string_bytes};
ghost use Rattle.shm_model.specs.Book.{Book, Running};
ghost use Rattle.shm_model.specs.Site.{Site};
ghost use Rattle.shm_model.specs.World as model;
ghost use Rattle.shm_manager.specs.Book.{kind_and_requester};
ghost use Rattle.shm_site.specs.Showing.{Shows};
ghost use Rattle.shm_world.specs.Showing.{keeps_book, shown_at};
ghost use Rattle.shm_world.specs.World.{StandsFor};
ghost use Rattle.shm_debug.specs.Page.{book_text, manager_text, page_text, running_text, state_text, states_text};

use crate::printed_text::copies::tell_copies;
use shm_model::refusal::FOREIGN;
use shm_model::{Answer, Kind};
use shm_place::{PageId, SiteId, in_limits, manager_of};
use shm_text::{AnswerText, state_name};
use shm_world::{BookView, Shown, World};
use std::alloc::{AllocError, Allocator};

/// Tells what each site has of the page, and its manager's book.
pub(crate) fn tell_page<A: Allocator + Copy>(
    out: &mut String<A>,
    world: &World<A>,
    page: PageId,
) -> Result<(), AllocError>
    ensures { (w : model.World) → StandsFor world.now w → OnOk result (string_bytes out.new ≡ string_bytes out.old ++ page_text w page) }
{
    let place = &page;
    if !in_limits(world.sites(), *place) {
        let refused = AnswerText(Answer::Refused(FOREIGN));
        return write!(out, "{refused}");
    }
    out.push_str("page")?;
    tell_states(out, world, *place)?;
    let manager = manager_of(world.sites(), *place);
    tell_manager(
        out,
        *place,
        world.shown(manager, *place),
        world.book(*place),
    )
}

fn tell_states<A: Allocator + Copy>(
    out: &mut String<A>,
    world: &World<A>,
    page: PageId,
) -> Result<(), AllocError>
    ensures { (w : model.World) → StandsFor world.now w → OnOk result (string_bytes out.new ≡ string_bytes out.old ++ states_text w page) }
{
    let place = &page;
    'sites: for site in 0..world.sites().count() {
        tell_state(out, site, world.shown(SiteId(site), *place))?;
    }
    Ok(())
}

/// Tells the state in which a site holds the page, and the number that it met last.
fn tell_state<A: Allocator>(
    out: &mut String<A>,
    site: u32,
    shown: Option<Shown>,
) -> Result<(), AllocError>
    ensures { OnOk result (string_bytes out.new ≡ string_bytes out.old ++ state_text site shown) }
{
    let Some(shown) = shown else {
        return Ok(());
    };
    let state = state_name(shown.state);
    let seen = shown.seen;
    write!(out, " {site}:{state}/{seen}")
}

/// Tells the manager's book, or that the manager has purged the segment. `shown` is what the manager shows of the page.
pub fn tell_manager<A: Allocator>(
    out: &mut String<A>,
    page: PageId,
    shown: Option<Shown>,
    book: Option<BookView>,
) -> Result<(), AllocError>
    ensures { (o : Option Site) → shown ≡ shown_at o page → is_some book ≡ keeps_book o page
        → ((x : Site) → o ≡ Some x → IfSome book (λ view. Shows view (x.books page)))
        → OnOk result (string_bytes out.new ≡ string_bytes out.old ++ manager_text o page) }
{
    let _place = &page;
    if shown.is_none() {
        return Ok(());
    }
    match book {
        Some(book) => tell_book(out, &book),
        None => out.push_str(" purged"),
    }
}

fn tell_book<A: Allocator>(out: &mut String<A>, book: &BookView) -> Result<(), AllocError>
    ensures { (b : Book) → Shows book.now b → OnOk result (string_bytes out.new ≡ string_bytes out.old ++ book_text b) }
{
    let owner = number_of(book.owner);
    write!(out, " owner {owner} copies ")?;
    tell_copies(out, book.copies)?;
    let number = book.number;
    write!(out, " t {number}")?;
    tell_running(out, book.running)
}

fn number_of(site: SiteId) -> u32
    ensures { result ≡ site }
{
    site.0
}

/// Tells what the running transaction gives, and to whom.
fn tell_running<A: Allocator>(
    out: &mut String<A>,
    running: Option<(Kind, SiteId)>,
) -> Result<(), AllocError>
    ensures { (run : Option Running) → running ≡ kind_and_requester run → OnOk result (string_bytes out.new ≡ string_bytes out.old ++ running_text run) }
{
    let Some((kind, requester)) = running else {
        return out.push_str(" idle");
    };
    let site = requester.0;
    match kind {
        Kind::Read => write!(out, " read {site}"),
        Kind::Write => write!(out, " write {site}"),
    }
}
