//! The whole page.
ghost use Rattle.std.specs.Prelude.{◌≡◌, IfOk, string_bytes};
ghost use Rattle.shm_model.specs.Opening.{opening_of};
ghost use Rattle.shm_model.specs.World.{IsOpening};
ghost use Rattle.shm_draw.specs.Captions.{besides_of};
ghost use Rattle.shm_steps.specs.Steps;

use crate::html_head_and_tail::{HEAD, TAIL};
use crate::step_sections::{tell_events, tell_first};
use shm_draw::{Caption, pages_drawn, picture_of};
use shm_model::{Event, Opening};
use shm_place::PageId;
use shm_world::World;
use std::alloc::{AllocError, Allocator};

/// The page of the run of these events from this opening: the picture that [`picture_of`] draws, and below it a section for the opening and
/// one for each event: the script's line, what a replay answers, what each site has of each page that is drawn, its manager's book, what each
/// site waits for, and what is on its way.
pub fn page_of<A: Allocator + Copy>(
    alloc: A,
    opening: &Opening,
    events: &[Event],
    page: Option<PageId>,
    captions: &[Caption<'_>],
) -> Result<String<A>, AllocError>
    requires { IsOpening (opening_of opening.now) }
    ensures { IfOk result (λ text. string_bytes text ≡ Steps.page_text page (opening_of opening.now) events.now (besides_of captions.now)) }
{
    let asked = &page;
    let mut world = World::begin(alloc, opening)?;
    let picture = picture_of(alloc, &world, events, *asked, captions)?;
    let pages = pages_drawn(alloc, &world, events, *asked)?;
    let mut text = String::new(alloc);
    text.push_str(HEAD)?;
    text.push_str(picture.as_str())?;
    tell_first(&mut text, &world, pages.as_slice(), opening)?;
    tell_events(&mut text, &mut world, pages.as_slice(), events)?;
    text.push_str(TAIL)?;
    Ok(text)
}
