//! The envelopes that are still on their way after the last event.
ghost use Rattle.std.specs.Prelude.{◌≡◌, ◌++◌, Some, IfOk, OnOk, string_bytes};
ghost use Rattle.std.specs.Option.{option_to_list};
ghost use Rattle.shm_model.specs.World as model;
ghost use Rattle.shm_parts.specs.Message.{envelope_of};
ghost use Rattle.shm_world.specs.World.{StandsFor};
ghost use Rattle.shm_draw.specs.Picture;
ghost use Rattle.shm_draw.specs.Svg;

use crate::arrow_svg::{tell_head_label, tell_path};
use crate::envelope_routes::way_of;
use crate::mark_kinds::{End, Way};
use crate::message_label::page_of;
use crate::page_of_event::is_of;
use crate::svg_geometry::row_below;
use shm_model::Answer;
use shm_parts::Envelope;
use shm_place::PageId;
use shm_world::World;
use std::alloc::{AllocError, Allocator};

/// The ways of the envelopes that were sent, aren't gone and are of the page, by their numbers.
pub(crate) fn on_their_way<A: Allocator + Copy>(
    alloc: A,
    world: &World<A>,
    origins: &[u64],
    page: &PageId,
) -> Result<Vec<Way, A>, AllocError>
    ensures { (w : model.World) → StandsFor world.now w → IfOk result (λ ways. ways.items ≡ Picture.on_their_way page.now w origins.now) }
{
    let mut ways = Vec::new(alloc);
    'numbers: for number in 0..world.sent() {
        keep_way(&mut ways, live_way(world, origins, page, number))?;
    }
    Ok(ways)
}

fn keep_way<A: Allocator + Copy>(ways: &mut Vec<Way, A>, way: Option<Way>) -> Result<(), AllocError>
    ensures { OnOk result (ways.new.items ≡ ways.old.items ++ option_to_list way) }
{
    match way {
        Some(way) => {
            ways.push(way)?;
            Ok(())
        }
        None => Ok(()),
    }
}

/// The way of the envelope of this number, if it isn't gone and is of the page.
fn live_way<A: Allocator + Copy>(
    world: &World<A>,
    origins: &[u64],
    page: &PageId,
    number: u64,
) -> Option<Way>
    ensures { (w : model.World) → StandsFor world.now w → result ≡ Picture.live_way page.now origins.now number (model.live w number) }
{
    match world.envelope(number) {
        Some(envelope) => own_way(envelope, origins, page, number),
        None => None,
    }
}

fn own_way<A: Allocator + Copy>(
    envelope: &Envelope<A>,
    origins: &[u64],
    page: &PageId,
    number: u64,
) -> Option<Way>
    ensures { result ≡ Picture.live_way page.now origins.now number (Some (envelope_of envelope.now)) }
{
    let way = way_of(envelope, origins, number);
    if is_of(page, page_of(&envelope.message)) {
        return Some(way);
    }
    None
}

/// Draws the ways in rows of their own, below that of the last event.
pub(crate) fn draw_on_their_way<A: Allocator + Copy>(
    out: &mut String<A>,
    last: u64,
    ways: &[Way],
) -> Result<(), AllocError>
    ensures { OnOk result (string_bytes out.new ≡ string_bytes out.old ++ Svg.flying_text Svg.flying_shape last 1 ways.now) }
{
    'ways: for (index, way) in ways.iter().enumerate() {
        let row = row_below(last, index as u64 + 1)?;
        tell_path(out, way, End::OnItsWay, row)?;
    }
    Ok(())
}

/// Tells their envelopes in these rows.
pub(crate) fn tell_on_their_way<A: Allocator + Copy>(
    out: &mut String<A>,
    last: u64,
    ways: &[Way],
) -> Result<(), AllocError>
    ensures { OnOk result (string_bytes out.new ≡ string_bytes out.old ++ Svg.flying_text Svg.flying_label last 1 ways.now) }
{
    'ways: for (index, way) in ways.iter().enumerate() {
        let row = row_below(last, index as u64 + 1)?;
        tell_head_label(out, way, End::OnItsWay, row, &Answer::Took)?;
    }
    Ok(())
}
