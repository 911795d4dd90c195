//! The table of a step: a row for each page, a column for each site, and the page's manager.
ghost use Rattle.std.specs.Prelude.{◌≡◌, ◌++◌, OnOk, string_bytes};
ghost use Rattle.std.specs.List.{flat_map};
ghost use Rattle.shm_model.specs.World as model;
ghost use Rattle.shm_world.specs.World.{StandsFor};
ghost use Rattle.shm_steps.specs.Section;

use crate::manager_book_html::{tell_keeper, tell_volatile};
use shm_place::{PageId, SiteId, Sites};
use shm_text::state_name;
use shm_world::{Shown, World};
use std::alloc::{AllocError, Allocator};

/// Tells the table's begin, and the names of its columns.
pub(crate) fn tell_table_head<A: Allocator + Copy>(
    out: &mut String<A>,
    sites: Sites,
) -> Result<(), AllocError>
    ensures { OnOk result (string_bytes out.new ≡ string_bytes out.old ++ Section.table_head sites) }
{
    out.push_str("<table>\n<tr><th>page</th>")?;
    tell_sites(out, sites)?;
    out.push_str("<th>manager</th><th>cleared</th><th>waiting</th></tr>\n")
}

fn tell_sites<A: Allocator + Copy>(out: &mut String<A>, sites: Sites) -> Result<(), AllocError>
    ensures { OnOk result (string_bytes out.new ≡ string_bytes out.old ++ Section.site_cells sites) }
{
    'sites: for site in 0..sites.count() {
        tell_site(out, site)?;
    }
    Ok(())
}

fn tell_site<A: Allocator + Copy>(out: &mut String<A>, site: u32) -> Result<(), AllocError>
    ensures { OnOk result (string_bytes out.new ≡ string_bytes out.old ++ Section.site_cell site) }
{
    write!(out, "<th>site {site}</th>")
}

/// Tells the rows of these pages.
pub(crate) fn tell_rows<A: Allocator + Copy>(
    out: &mut String<A>,
    world: &World<A>,
    pages: &[PageId],
) -> Result<(), AllocError>
    ensures { (w : model.World) → StandsFor world.now w → OnOk result (string_bytes out.new ≡ string_bytes out.old ++ flat_map (Section.row_text w) pages.now) }
{
    'pages: for page in pages.iter() {
        tell_row(out, world, *page)?;
    }
    Ok(())
}

fn tell_row<A: Allocator + Copy>(
    out: &mut String<A>,
    world: &World<A>,
    page: PageId,
) -> Result<(), AllocError>
    ensures { (w : model.World) → StandsFor world.now w → OnOk result (string_bytes out.new ≡ string_bytes out.old ++ Section.row_text w page) }
{
    let place = &page;
    tell_page(out, *place)?;
    tell_states(out, world, *place)?;
    out.push_str("<td>")?;
    tell_keeper(out, world, *place)?;
    out.push_str("</td>")?;
    tell_volatile(out, world, *place)?;
    out.push_str("</tr>\n")
}

/// Tells the page's name at the head of its row.
fn tell_page<A: Allocator + Copy>(out: &mut String<A>, page: PageId) -> Result<(), AllocError>
    ensures { OnOk result (string_bytes out.new ≡ string_bytes out.old ++ Section.page_cell page) }
{
    let seg = page.seg.0;
    let index = page.index;
    write!(out, "<tr><th>page {seg} {index}</th>")
}

/// Tells what each site has of the page.
fn tell_states<A: Allocator + Copy>(
    out: &mut String<A>,
    world: &World<A>,
    page: PageId,
) -> Result<(), AllocError>
    ensures { (w : model.World) → StandsFor world.now w → OnOk result (string_bytes out.new ≡ string_bytes out.old ++ Section.state_cells w page) }
{
    let place = &page;
    'sites: for site in 0..world.sites().count() {
        tell_state(out, world.shown(SiteId(site), *place))?;
    }
    Ok(())
}

fn tell_state<A: Allocator + Copy>(
    out: &mut String<A>,
    shown: Option<Shown>,
) -> Result<(), AllocError>
    ensures { OnOk result (string_bytes out.new ≡ string_bytes out.old ++ Section.state_cell shown) }
{
    let Some(shown) = shown else {
        return out.push_str("<td>-</td>");
    };
    let state = state_name(shown.state);
    let seen = shown.seen;
    write!(out, "<td class='{state}'>{state}/{seen}</td>")
}
