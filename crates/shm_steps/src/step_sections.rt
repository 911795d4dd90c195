//! The sections, one for the opening and one for each event.
ghost use Rattle.std.specs.Prelude.{◌≡◌, ◌<◌, ◌++◌, OnOk, string_bytes};
ghost use Rattle.shm_model.specs.Opening.{opening_of};
ghost use Rattle.shm_model.specs.World as model;
ghost use Rattle.shm_world.specs.World.{StandsFor};
ghost use Rattle.shm_steps.specs.Stepping.{ToldStep};
ghost use Rattle.shm_steps.specs.Steps;

use crate::world_section::tell_world;
use shm_debug::write_answer;
use shm_lines::Line;
use shm_model::{Event, Opening};
use shm_place::PageId;
use shm_world::World;
use std::alloc::{AllocError, Allocator};

/// Tells how the world begins, and the world then.
pub(crate) fn tell_first<A: Allocator + Copy>(
    out: &mut String<A>,
    world: &World<A>,
    pages: &[PageId],
    opening: &Opening,
) -> Result<(), AllocError>
    requires { StandsFor world.now (model.opened (opening_of opening.now)) }
    ensures { OnOk result (string_bytes out.new ≡ string_bytes out.old ++ Steps.first_section pages.now (opening_of opening.now)) }
{
    out.push_str("</div>\n<section id='step-0'>\n<h2>")?;
    tell_opening(out, opening)?;
    out.push_str("</h2>\n<pre>1 ready\n</pre>\n")?;
    tell_world(out, world, pages)
}

fn tell_opening<A: Allocator + Copy>(
    out: &mut String<A>,
    opening: &Opening,
) -> Result<(), AllocError>
    ensures { OnOk result (string_bytes out.new ≡ string_bytes out.old ++ Steps.opening_text (opening_of opening.now)) }
{
    let sites = opening.sites.count();
    match (opening.preset, opening.frames) {
        (None, _) => write!(out, "sites {sites}"),
        (Some(pages), None) => write!(out, "sites {sites} preset {pages}"),
        (Some(pages), Some(frames)) => write!(out, "sites {sites} preset {pages} frames {frames}"),
    }
}

/// Makes the events, and tells each.
pub(crate) fn tell_events<A: Allocator + Copy>(
    out: &mut String<A>,
    world: &mut World<A>,
    pages: &[PageId],
    events: &[Event],
) -> Result<(), AllocError>
    ensures { (w : model.World) → StandsFor world.old w → OnOk result
        (string_bytes out.new ≡ string_bytes out.old ++ Steps.sections_text pages.now w 1 events.now) }
{
    'events: for (index, event) in events.iter().enumerate() {
        tell_step(out, world, pages, index as u64 + 1, event)?;
    }
    Ok(())
}

/// Makes the event of this number, and tells it, what was answered, and the world after it.
fn tell_step<A: Allocator + Copy>(
    out: &mut String<A>,
    world: &mut World<A>,
    pages: &[PageId],
    number: u64,
    event: &Event,
) -> Result<(), AllocError>
    requires { number < 18446744073709551615 }
    ensures { (w : model.World) → StandsFor world.old w → OnOk result
        (ToldStep pages.now w number event.now (string_bytes out.old) (string_bytes out.new) world.new) }
{
    let sent = world.sent();
    let answer = world.step(*event)?;
    tell_line(out, number, *event)?;
    write_answer(out, number + 1, &answer, world, sent)?;
    out.push_str("</pre>\n")?;
    tell_world(out, world, pages)
}

/// Tells the event as a script spells it.
fn tell_line<A: Allocator + Copy>(
    out: &mut String<A>,
    number: u64,
    event: Event,
) -> Result<(), AllocError>
    ensures { OnOk result (string_bytes out.new ≡ string_bytes out.old ++ Steps.line_head number event) }
{
    let line = Line::Event(event);
    write!(out, "<section id='step-{number}'>\n<h2>{line}</h2>\n<pre>")
}
