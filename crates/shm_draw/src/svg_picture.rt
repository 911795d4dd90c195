//! The whole picture.
ghost use Rattle.std.specs.Prelude.{◌≡◌, ◌+◌, ◌++◌, IfOk, OnOk, string_bytes};
ghost use Rattle.shm_model.specs.World as model;
ghost use Rattle.shm_world.specs.World.{StandsFor};
ghost use Rattle.shm_draw.specs.Captions.{besides_of};
ghost use Rattle.shm_draw.specs.Svg;
ghost use Rattle.shm_draw.specs.Drawing.{DrewPages};

use crate::caption::Caption;
use crate::caption_svg::{room_for, tell_captions};
use crate::pages_to_draw::pages_drawn;
use crate::right_margin_width::room_of;
use crate::svg_geometry::{next_top, width_of};
use crate::svg_of_page::tell_page;
use crate::svg_style::STYLE;
use shm_model::Event;
use shm_place::PageId;
use shm_world::World;
use std::alloc::{AllocError, Allocator};

/// The picture of the run of these events from the world as it is: of this page, or of each page that the run touches, one below the other,
/// in the order in which they are first touched. Where it touches none it is that of the first page of segment 0. Each caption stands right
/// of everything else in its row, on the picture of each page; those of rows that there aren't are left out.
pub fn picture_of<A: Allocator + Copy>(
    alloc: A,
    world: &World<A>,
    events: &[Event],
    page: Option<PageId>,
    captions: &[Caption<'_>],
) -> Result<String<A>, AllocError>
    ensures { (w : model.World) → StandsFor world.now w → IfOk result (λ text.
        string_bytes text ≡ Svg.svg_text page w events.now (besides_of captions.now)) }
{
    let pages = pages_drawn(alloc, world, events, page)?;
    let right = width_of(world.sites(), room_of(events));
    let mut told = String::new(alloc);
    tell_captions(&mut told, right, events.len() as u64, captions)?;
    let mut body = String::new(alloc);
    let bottom = tell_pages(
        alloc,
        &mut body,
        world,
        events,
        told.as_str(),
        pages.as_slice(),
    )?;
    let mut text = String::new(alloc);
    tell_head(&mut text, right as u128 + room_for(captions), bottom)?;
    text.push_str(STYLE)?;
    text.push_str(body.as_str())?;
    text.push_str("</svg>\n")?;
    Ok(text)
}

/// Tells how wide and high the picture is.
fn tell_head<A: Allocator + Copy>(
    out: &mut String<A>,
    width: u128,
    bottom: u128,
) -> Result<(), AllocError>
    ensures { OnOk result (string_bytes out.new ≡ string_bytes out.old ++ Svg.head_text width bottom) }
{
    write!(
        out,
        "<svg xmlns='http://www.w3.org/2000/svg' width='{width}' height='{bottom}'>\n"
    )
}

/// Tells the pictures of these pages, one below the other, each with the text of its captions, and answers how far they go down.
fn tell_pages<A: Allocator + Copy>(
    alloc: A,
    out: &mut String<A>,
    world: &World<A>,
    events: &[Event],
    captions: &str,
    pages: &[PageId],
) -> Result<u128, AllocError>
    ensures { (w : model.World) → StandsFor world.now w → IfOk result
        (DrewPages pages.now w events.now captions.now (string_bytes out.old) (string_bytes out.new)) }
{
    let mut top = 0u128;
    'pages: for page in pages.iter() {
        let depth = tell_page(alloc, out, world.copy()?, events, page, captions, top)?;
        top = next_top(top, depth)?;
    }
    Ok(top)
}
