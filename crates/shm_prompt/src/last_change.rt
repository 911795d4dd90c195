//! The last event of a session that changed something.
ghost use Rattle.std.specs.Prelude.{◌≡◌, ◌+◌, IfOk, Some, if◌then◌else◌, length};
ghost use Rattle.shm_model.specs.Opening.{opening_of};
ghost use Rattle.shm_model.specs.World as model;
ghost use Rattle.shm_lines.specs.Spelling.{IsOpened};
ghost use Rattle.shm_debug.specs.Standing.{standing};
ghost use Rattle.shm_world.specs.World.{StandsFor};
ghost use Rattle.shm_prompt.specs.Undo as undo;

use crate::spell_saved_line::is_opened;
use shm_model::{Answer, Event, Opening};
use shm_world::World;
use std::alloc::{AllocError, Allocator};

/// The place of the last of the events that changed something: they happen again in a world of their own.
pub(crate) fn last_change<A: Allocator + Copy>(
    alloc: A,
    opening: Opening,
    events: &[Event],
) -> Result<Option<usize>, AllocError>
    ensures { IfOk result (λ place. place ≡ undo.last_change (standing (opening_of opening) events.now) (length events.now)) }
{
    // Each session's opening is one; no clause says so.
    let begins = &opening;
    if !is_opened(*begins) {
        return Err(AllocError);
    }
    let mut world = first_world(alloc, *begins)?;
    let mut found = None;
    'events: for (place, event) in events.iter().enumerate() {
        let answer = world.step(*event)?;
        found = later(found, place, &answer);
    }
    Ok(found)
}

/// The world before the first event.
fn first_world<A: Allocator + Copy>(alloc: A, opening: Opening) -> Result<World<A>, AllocError>
    requires { IsOpened opening.preset opening.frames }
    ensures { IfOk result (λ world. StandsFor world (model.opened (opening_of opening))) }
{
    World::begin(alloc, &opening)
}

/// The place, if the event that is there was answered by a change, or else the one that was found before.
fn later(found: Option<usize>, place: usize, answer: &Answer) -> Option<usize>
    ensures { result ≡ (if undo.tells_change answer.now then Some place else found) }
{
    if tells_change(answer) {
        return Some(place);
    }
    found
}

/// Checks that the answer tells of a change.
fn tells_change(answer: &Answer) -> bool
    ensures { result ≡ undo.tells_change answer.now }
{
    match *answer {
        Answer::Byte(_) => false,
        Answer::Waiting => false,
        Answer::Refused(_) => false,
        _ => true,
    }
}
