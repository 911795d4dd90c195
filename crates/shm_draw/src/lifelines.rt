//! Lifelines: the page, the sites' names, and for each row the state in which each site holds the page.
ghost use Rattle.std.specs.Prelude.{◌≡◌, ◌++◌, OnOk, string_bytes};
ghost use Rattle.shm_model.specs.World as model;
ghost use Rattle.shm_world.specs.World.{StandsFor};
ghost use Rattle.shm_draw.specs.Svg;

use crate::svg_geometry::{x_of, y_of};
use shm_model::State;
use shm_place::{PageId, SiteId, Sites};
use shm_world::{Shown, World};
use std::alloc::{AllocError, Allocator};

/// Tells which page the picture is of.
pub(crate) fn tell_heading<A: Allocator + Copy>(
    out: &mut String<A>,
    page: PageId,
) -> Result<(), AllocError>
    ensures { OnOk result (string_bytes out.new ≡ string_bytes out.old ++ Svg.heading_text page) }
{
    let index = page.index;
    let segment = page.seg.0;
    write!(
        out,
        "<text class='h' x='8' y='70'>page {index} of segment {segment}</text>\n"
    )
}

/// Tells the name of each site.
pub(crate) fn tell_names<A: Allocator + Copy>(
    out: &mut String<A>,
    sites: Sites,
) -> Result<(), AllocError>
    ensures { OnOk result (string_bytes out.new ≡ string_bytes out.old ++ Svg.names_text sites) }
{
    'sites: for site in 0..sites.count() {
        tell_name(out, SiteId(site))?;
    }
    Ok(())
}

fn tell_name<A: Allocator + Copy>(out: &mut String<A>, site: SiteId) -> Result<(), AllocError>
    ensures { OnOk result (string_bytes out.new ≡ string_bytes out.old ++ Svg.name_text site) }
{
    let x = x_of(site);
    let number = site.0;
    write!(out, "<text class='s' x='{x}' y='70'>site {number}</text>\n")
}

/// Tells what each site has of the page from this row on.
pub(crate) fn tell_cells<A: Allocator + Copy>(
    out: &mut String<A>,
    world: &World<A>,
    page: PageId,
    number: u64,
) -> Result<(), AllocError>
    ensures { (w : model.World) → StandsFor world.now w → OnOk result (string_bytes out.new ≡ string_bytes out.old ++ Svg.cells_text w page number) }
{
    let place = &page;
    'sites: for site in 0..world.sites().count() {
        tell_cell(out, number, SiteId(site), world.shown(SiteId(site), *place))?;
    }
    Ok(())
}

fn tell_cell<A: Allocator + Copy>(
    out: &mut String<A>,
    number: u64,
    site: SiteId,
    shown: Option<Shown>,
) -> Result<(), AllocError>
    ensures { OnOk result (string_bytes out.new ≡ string_bytes out.old ++ Svg.cell_text number site shown) }
{
    let Some(shown) = shown else {
        return Ok(());
    };
    let fill = fill_of(shown.state, shown.seen);
    let x = x_of(site);
    let y = y_of(number);
    write!(out, "<use href='#{fill}' x='{x}' y='{y}'/>\n")
}

/// The name of a state's look. A site that never met a transaction of the page has a look of its own.
fn fill_of(state: State, seen: u64) -> &'static str
    ensures { result.now ≡ Svg.fill_name state seen }
{
    match state {
        State::Nil => nil_of(seen),
        State::Copy => "Copy",
        State::OwnRead => "OwnRead",
        State::OwnWrite => "OwnWrite",
        State::Handed => "Handed",
        State::Purged => "Purged",
    }
}

fn nil_of(seen: u64) -> &'static str
    ensures { result.now ≡ Svg.nil_name seen }
{
    if seen == 0 {
        return "Untouched";
    }
    "Nil"
}
