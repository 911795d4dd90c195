//! The lines of events and of pages, at the end of a text.
ghost use Rattle.std.specs.Prelude.{◌≡◌, ◌++◌, OnErr, OnOk, string_bytes};
ghost use Rattle.shm_model.specs.World as model;
ghost use Rattle.shm_world.specs.World.{StandsFor};
ghost use Rattle.shm_text.specs.Text.{line_text};
ghost use Rattle.shm_debug.specs.Page.{page_text};
ghost use Rattle.shm_debug.specs.Sent.{event_text};

use crate::printed_text::envelopes_in_flight::tell_sent;
use crate::printed_text::page::tell_page;
use shm_model::Answer;
use shm_place::PageId;
use shm_text::{Text, push_answer, push_number};
use shm_world::World;
use std::alloc::{AllocError, Allocator};

/// The line of an event: its answer, and the envelopes of the world from number `first` on that aren't gone.
#[inline(always)]
pub fn tell_answer_line<A: Allocator + Copy>(
    text: &mut Text<A>,
    line: u64,
    answer: &Answer,
    world: &World<A>,
    first: u64,
) -> Result<(), AllocError>
    ensures ok { (w : model.World) → StandsFor world.now w → OnOk result (text.new ≡ text.old ++ line_text line (event_text answer.now w first)) }
    ensures err { OnErr result (text.new ≡ text.old) }
{
    let mut out = text.take_line();
    write_answer(&mut out, line, answer, world, first)?;
    text.push_line(out)
}

/// The line that shows a page; one outside the limits is refused.
pub fn tell_page_line<A: Allocator + Copy>(
    text: &mut Text<A>,
    line: u64,
    world: &World<A>,
    page: PageId,
) -> Result<(), AllocError>
    ensures ok { (w : model.World) → StandsFor world.now w → OnOk result (text.new ≡ text.old ++ line_text line (page_text w page)) }
    ensures err { OnErr result (text.new ≡ text.old) }
{
    let mut out = text.take_line();
    write_page(&mut out, line, world, page)?;
    text.push_line(out)
}

/// Appends the line of an event. Where memory is refused a part of it may stand.
pub fn write_answer<A: Allocator + Copy>(
    out: &mut String<A>,
    line: u64,
    answer: &Answer,
    world: &World<A>,
    first: u64,
) -> Result<(), AllocError>
    ensures { (w : model.World) → StandsFor world.now w → OnOk result
        (string_bytes out.new ≡ string_bytes out.old ++ line_text line (event_text answer.now w first)) }
{
    push_number(out, line)?;
    out.push_str(" ")?;
    push_answer(out, answer)?;
    tell_sent(out, world, first)?;
    out.push_str("\n")
}

/// Appends the line that shows a page. Where memory is refused a part of it may stand.
fn write_page<A: Allocator + Copy>(
    out: &mut String<A>,
    line: u64,
    world: &World<A>,
    page: PageId,
) -> Result<(), AllocError>
    ensures { (w : model.World) → StandsFor world.now w → OnOk result (string_bytes out.new ≡ string_bytes out.old ++ line_text line (page_text w page)) }
{
    push_number(out, line)?;
    out.push_str(" ")?;
    tell_page(out, world, page)?;
    out.push_str("\n")
}
