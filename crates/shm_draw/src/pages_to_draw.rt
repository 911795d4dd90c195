//! The pages to draw.
ghost use Rattle.std.specs.Prelude.{◌≡◌, [], ◌∷◌, Some, IfOk, OnOk};
ghost use Rattle.std.specs.List.{list_any};
ghost use Rattle.shm_place.specs.Page.{same_page};
ghost use Rattle.shm_model.specs.World as model;
ghost use Rattle.shm_world.specs.World.{StandsFor};
ghost use Rattle.shm_draw.specs.Picture;

use crate::page_of_event::about;
use shm_model::Event;
use shm_place::{PageId, SegId};
use shm_world::World;
use std::alloc::{AllocError, Allocator};

/// The page that was asked for; or all that the events touch, in the order in which they are first touched; or, where they touch none, the
/// first page of segment 0.
pub fn pages_drawn<A: Allocator + Copy>(
    alloc: A,
    world: &World<A>,
    events: &[Event],
    asked: Option<PageId>,
) -> Result<Vec<PageId, A>, AllocError>
    ensures { (w : model.World) → StandsFor world.now w → IfOk result (λ pages. pages.items ≡ Picture.pages_drawn asked w events.now) }
{
    match asked {
        Some(page) => one_page(alloc, page),
        None => pages_touched(alloc, world, events),
    }
}

fn one_page<A: Allocator + Copy>(alloc: A, page: PageId) -> Result<Vec<PageId, A>, AllocError>
    ensures { IfOk result (λ pages. pages.items ≡ page ∷ []) }
{
    let mut pages = Vec::new(alloc);
    pages.push(page)?;
    Ok(pages)
}

fn pages_touched<A: Allocator + Copy>(
    alloc: A,
    world: &World<A>,
    events: &[Event],
) -> Result<Vec<PageId, A>, AllocError>
    ensures { (w : model.World) → StandsFor world.now w → IfOk result (λ pages. pages.items ≡ Picture.or_first (Picture.touched w events.now [])) }
{
    let mut pages = Vec::new(alloc);
    let mut world = world.copy()?;
    touch_all(&mut pages, &mut world, events)?;
    put_first(&mut pages)?;
    Ok(pages)
}

/// Runs the events, and notes each page that they are about.
fn touch_all<A: Allocator + Copy>(
    pages: &mut Vec<PageId, A>,
    world: &mut World<A>,
    events: &[Event],
) -> Result<(), AllocError>
    ensures { (w : model.World) → StandsFor world.old w → OnOk result (pages.new.items ≡ Picture.touched w events.now pages.old.items) }
{
    'events: for event in events.iter() {
        touch(pages, about(world, event))?;
        world.step(*event)?;
    }
    Ok(())
}

/// Notes the page, if it isn't noted.
fn touch<A: Allocator + Copy>(
    pages: &mut Vec<PageId, A>,
    about: Option<PageId>,
) -> Result<(), AllocError>
    ensures { OnOk result (pages.new.items ≡ Picture.with_page about pages.old.items) }
{
    match about {
        Some(page) => touch_page(pages, &page),
        None => Ok(()),
    }
}

fn touch_page<A: Allocator + Copy>(
    pages: &mut Vec<PageId, A>,
    page: &PageId,
) -> Result<(), AllocError>
    ensures { OnOk result (pages.new.items ≡ Picture.with_page (Some page.now) pages.old.items) }
{
    if has(pages.as_slice(), page) {
        return Ok(());
    }
    pages.push(*page)?;
    Ok(())
}

fn has(pages: &[PageId], page: &PageId) -> bool
    ensures { result ≡ list_any (same_page page.now) pages.now }
{
    pages.iter().any(|other| *page == *other)
}

/// Where there is no page, notes the first of segment 0.
fn put_first<A: Allocator + Copy>(pages: &mut Vec<PageId, A>) -> Result<(), AllocError>
    ensures { OnOk result (pages.new.items ≡ Picture.or_first pages.old.items) }
{
    if !pages.is_empty() {
        return Ok(());
    }
    pages.push(PageId {
        seg: SegId(0),
        index: 0,
    })?;
    Ok(())
}
