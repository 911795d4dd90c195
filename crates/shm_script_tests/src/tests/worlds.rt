//! Worlds that are stepped and run by events: a world beside its copy, and memory that is refused.

mod cloned_worlds;
mod each_event_out_of_memory;
mod out_of_memory;
mod purged_page;

use super::is_line_feed;
use super::script_fixtures::Script;
use shm_debug::{Line, parse_line};
use shm_place::{PageId, SegId, SiteId};
use shm_world::{Access, Answer, Event, Shown, World};
use std::alloc::{AllocError, Allocator, Global};

/// The first page of segment 0.
const PAGE: PageId = PageId {
    seg: SegId(0),
    index: 0,
};

/// The events of a script, in their order.
fn events_of(alloc: Global, script: &Script) -> Result<Vec<Event>, AllocError> {
    let mut events = Vec::new(alloc);
    for line in script.input.split(is_line_feed) {
        if let Ok(Line::Event(event)) = parse_line(line) {
            events.push(event)?;
        }
    }
    Ok(events)
}

/// Runs the events, and tells their answers.
fn answers_to(
    alloc: Global,
    world: &mut World,
    events: &[Event],
) -> Result<Vec<Answer>, AllocError> {
    let mut answers = Vec::new(alloc);
    world.run(events, &mut answers)?;
    Ok(answers)
}

/// What two sites show of the first page of segment 0, and how many envelopes were sent.
#[derive(Clone, Copy, Debug, PartialEq, Eq)]
struct Picture {
    sent: u64,
    first: (Option<Access>, Option<Shown>),
    second: (Option<Access>, Option<Shown>),
}

fn picture_of<A: Allocator + Copy>(world: &World<A>) -> Picture {
    Picture {
        sent: world.sent(),
        first: shown_at(world, 0),
        second: shown_at(world, 1),
    }
}

fn shown_at<A: Allocator + Copy>(world: &World<A>, site: u32) -> (Option<Access>, Option<Shown>) {
    let access = world.access(SiteId(site), PAGE);
    (access, world.shown(SiteId(site), PAGE))
}
