//! The picture of one page.
ghost use Rattle.std.specs.Prelude.{◌≡◌, ◌++◌, [], IfOk, OnOk, string_bytes};
ghost use Rattle.shm_model.specs.World as model;
ghost use Rattle.shm_world.specs.World.{StandsFor};
ghost use Rattle.shm_draw.specs.Picture;
ghost use Rattle.shm_draw.specs.Picture.{scene};
ghost use Rattle.shm_draw.specs.Svg;
ghost use Rattle.shm_draw.specs.Drawing.{DrewEvent, DrewEvents, DrewPage, sheet};

use crate::envelope_origins::note_origins;
use crate::envelopes_in_flight::{draw_on_their_way, on_their_way, tell_on_their_way};
use crate::event_row_svg::{tell_line, tell_mark, tell_shape};
use crate::lifelines::{tell_cells, tell_heading, tell_names};
use crate::mark_of_event::mark_of;
use crate::svg_geometry::depth_of;
use shm_model::Event;
use shm_place::PageId;
use shm_world::World;
use std::alloc::{AllocError, Allocator};

/// Tells the picture of the page, so far below the top, of the run of these events, with the text of its captions; and answers how far it
/// goes down.
pub(crate) fn tell_page<A: Allocator + Copy>(
    alloc: A,
    out: &mut String<A>,
    mut world: World<A>,
    events: &[Event],
    page: &PageId,
    captions: &str,
    top: u128,
) -> Result<u128, AllocError>
    ensures { (w : model.World) → StandsFor world w → IfOk result
        (DrewPage page.now w events.now captions.now top (string_bytes out.old) (string_bytes out.new)) }
{
    let sites = world.sites();
    let last = events.len() as u64;
    let mut shapes = String::new(alloc);
    let mut labels = String::new(alloc);
    let mut origins = Vec::new(alloc);
    tell_cells(&mut shapes, &world, *page, 0)?;
    tell_heading(&mut labels, *page)?;
    tell_names(&mut labels, sites)?;
    tell_events(
        &mut shapes,
        &mut labels,
        &mut world,
        &mut origins,
        events,
        page,
    )?;
    let ways = on_their_way(alloc, &world, origins.as_slice(), page)?;
    let flying = ways.as_slice();
    draw_on_their_way(&mut shapes, last, flying)?;
    tell_on_their_way(&mut labels, last, flying)?;
    tell_group(out, top)?;
    out.push_str(shapes.as_str())?;
    out.push_str(labels.as_str())?;
    out.push_str(captions)?;
    out.push_str("</g>\n")?;
    Ok(depth_of(last, flying.len() as u64))
}

fn tell_group<A: Allocator + Copy>(out: &mut String<A>, top: u128) -> Result<(), AllocError>
    ensures { OnOk result (string_bytes out.new ≡ string_bytes out.old ++ Svg.group_text top) }
{
    write!(out, "<g transform='translate(0 {top})'>\n")
}

/// Runs the events, and draws each.
fn tell_events<A: Allocator + Copy>(
    shapes: &mut String<A>,
    labels: &mut String<A>,
    world: &mut World<A>,
    origins: &mut Vec<u64, A>,
    events: &[Event],
    page: &PageId,
) -> Result<(), AllocError>
    requires { origins.old.items ≡ [] }
    ensures { (w : model.World) → StandsFor world.old w → OnOk result
        (DrewEvents page.now (Picture.first_scene w) events.now (sheet (string_bytes shapes.old) (string_bytes labels.old))
        (sheet (string_bytes shapes.new) (string_bytes labels.new)) world.new origins.new.items) }
{
    'events: for (index, event) in events.iter().enumerate() {
        tell_event(
            shapes,
            labels,
            world,
            origins,
            page,
            index as u64 + 1,
            *event,
        )?;
    }
    Ok(())
}

/// Makes the event, and draws it.
fn tell_event<A: Allocator + Copy>(
    shapes: &mut String<A>,
    labels: &mut String<A>,
    world: &mut World<A>,
    origins: &mut Vec<u64, A>,
    page: &PageId,
    number: u64,
    event: Event,
) -> Result<(), AllocError>
    ensures { (w : model.World) → StandsFor world.old w → OnOk result
        (DrewEvent page.now (scene w number origins.old.items) event (sheet (string_bytes shapes.old) (string_bytes labels.old))
        (sheet (string_bytes shapes.new) (string_bytes labels.new)) world.new origins.new.items) }
{
    let mark = mark_of(world, origins.as_slice(), page, &event);
    let answer = world.step(event)?;
    note_origins(origins, world.sent(), number)?;
    tell_cells(shapes, world, *page, number)?;
    tell_shape(shapes, number, &mark)?;
    tell_line(labels, number, event, &mark)?;
    tell_mark(labels, number, &mark, &answer)
}
