//! The same texts, each alone.
ghost use Rattle.std.specs.Prelude.{◌≡◌, IfOk};
ghost use Rattle.shm_model.specs.World as model;
ghost use Rattle.shm_world.specs.World.{StandsFor};
ghost use Rattle.shm_text.specs.Text.{line_text};
ghost use Rattle.shm_debug.specs.Page.{page_text};
ghost use Rattle.shm_debug.specs.Sent.{event_text};

use crate::printed_text::answer_and_page_lines::write_answer;
use crate::printed_text::page::tell_page;
use shm_model::Answer;
use shm_place::PageId;
use shm_world::World;
use std::alloc::{AllocError, Allocator};

/// The whole output line for an answer, with the envelopes of the world from number `first` on that aren't gone.
pub fn print_answer<A: Allocator + Copy>(
    alloc: A,
    line: u64,
    answer: &Answer,
    world: &World<A>,
    first: u64,
) -> Result<Vec<u8, A>, AllocError>
    ensures { (w : model.World) → StandsFor world.now w → IfOk result (λ text. text.items ≡ line_text line (event_text answer.now w first)) }
{
    let mut text = String::new(alloc);
    write_answer(&mut text, line, answer, world, first)?;
    Ok(text.into_bytes())
}

/// The text of a page, without a line's number and its line feed.
pub fn print_page<A: Allocator + Copy>(
    alloc: A,
    world: &World<A>,
    page: PageId,
) -> Result<Vec<u8, A>, AllocError>
    ensures { (w : model.World) → StandsFor world.now w → IfOk result (λ text. text.items ≡ page_text w page) }
{
    let mut text = String::new(alloc);
    tell_page(&mut text, world, page)?;
    Ok(text.into_bytes())
}
