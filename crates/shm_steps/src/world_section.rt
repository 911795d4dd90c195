//! What a step's section says of the world.
ghost use Rattle.std.specs.Prelude.{◌≡◌, ◌++◌, OnOk, string_bytes};
ghost use Rattle.shm_model.specs.World as model;
ghost use Rattle.shm_world.specs.World.{StandsFor};
ghost use Rattle.shm_steps.specs.Section;

use crate::envelopes_in_flight::tell_flights;
use crate::pages_table::{tell_rows, tell_table_head};
use crate::pending_requests::tell_awaits;
use shm_place::PageId;
use shm_world::World;
use std::alloc::{AllocError, Allocator};

/// Tells the table of these pages, what each site waits for, and what is on its way; and ends the section.
pub(crate) fn tell_world<A: Allocator + Copy>(
    out: &mut String<A>,
    world: &World<A>,
    pages: &[PageId],
) -> Result<(), AllocError>
    ensures { (w : model.World) → StandsFor world.now w → OnOk result (string_bytes out.new ≡ string_bytes out.old ++ Section.world_text pages.now w) }
{
    tell_table_head(out, world.sites())?;
    tell_rows(out, world, pages)?;
    out.push_str("</table>\n<h3>waits</h3>\n<ul>\n")?;
    tell_awaits(out, world)?;
    out.push_str("</ul>\n<h3>is on its way</h3>\n<ul>\n")?;
    tell_flights(out, world)?;
    out.push_str("</ul>\n</section>\n")
}
