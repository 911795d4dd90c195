//! Each event of worked scripts is refused at each of its growths in turn. All that can be seen of the world stands as before then, and
//! given again the event is told as in the script.
ghost use Rattle.std.specs.Prelude.{◌≤◌};

mod seen_world;

use self::seen_world::look;
use crate::tests::fill_heap::fill_heap_but;
use crate::tests::script_fixtures::{Script, losses, pages, purges, segments};
use crate::tests::{is_line_feed, preset};
use linked_list_allocator::LocalHeap;
use shm_debug::{Line, parse_line, print_answer};
use shm_place::Sites;
use shm_world::{Answer, Event, World};
use std::alloc::Global;
use std::process::Abort;
use std::test::Fail;

/// How many bytes of memory a world has here.
const HEAP: usize = 1 << 17;

/// How often an event is given at most.
const TRIES: usize = 1 << 12;

/// How often the event is refused in a full heap while a hole in it widens, and its answer. Where a refused event keeps room for the next
/// time, the hole is closed and widens again: so the growth that comes next is refused too, however small it is.
fn refusals<'a>(
    rt: &impl Abort,
    alloc: Global,
    heap: &'a LocalHeap,
    world: &mut World<&'a LocalHeap>,
    event: &Event,
) -> Result<(usize, Answer), Fail> {
    let before = look(alloc, world)?;
    let mut hole = 0usize;
    'tries: for tries in 0..TRIES {
        let used = heap.used();
        let blocks = fill_heap_but(alloc, heap, hole)?;
        let made = world.step(*event);
        drop(blocks);
        if let Ok(answer) = made {
            return Ok((tries, answer));
        }
        assert_eq!(rt; look(alloc, world)?, before, "{event:?}");
        hole = match heap.used() == used {
            true => hole.saturating_add(16),
            false => 0,
        };
    }
    Err(Fail::new("an event was never made"))
}

/// How often the event is refused in turn before it is told so. Before it the world becomes a copy, which has little room to spare.
fn refuse<'a>(
    rt: &impl Abort,
    alloc: Global,
    heap: &'a LocalHeap,
    world: &mut World<&'a LocalHeap>,
    (number, event): (u64, &Event),
    told: &[u8],
) -> Result<usize, Fail> {
    let sent = world.sent();
    *world = world.copy()?;
    let (tries, answer) = refusals(rt, alloc, heap, world, event)?;
    let line = print_answer(heap, number, &answer, world, sent)?;
    assert_eq!(rt; line.as_slice(), told, "{event:?}");
    Ok(tries)
}

/// Each event of the script is refused in turn and is then told so; some of them are refused.
fn refuse_each<'a>(
    rt: &impl Abort,
    alloc: Global,
    heap: &'a LocalHeap,
    world: &mut World<&'a LocalHeap>,
    script: &Script,
) -> Result<(), Fail> {
    let told = script.text.split_inclusive(is_line_feed);
    let lines = script.input.split(is_line_feed);
    let mut refused = 0usize;
    'lines: for (number, (line, told)) in (1..script.lines.saturating_add(1)).zip(lines.zip(told)) {
        if let Ok(Line::Event(event)) = parse_line(line) {
            let tries = refuse(rt, alloc, heap, world, (number, &event), told)?;
            refused = refused.saturating_add(tries);
        }
    }
    assert!(rt; refused > 0, "no event was refused");
    Ok(())
}

/// The same in a new world of so many sites and pages.
fn refuse_all(
    rt: &impl Abort,
    alloc: Global,
    sites: u32,
    pages: u32,
    script: &Script,
) -> Result<(), Fail>
    requires from { 1 ≤ pages }
    requires to { pages ≤ 256 }
{
    let heap = LocalHeap::new(alloc, HEAP)?;
    let mut world = preset(&heap, sites, pages)?;
    refuse_each(rt, alloc, &heap, &mut world, script)
}

/// The same in a new world of so many sites, where no segment is made yet.
fn refuse_calls(rt: &impl Abort, alloc: Global, sites: u32, script: &Script) -> Result<(), Fail> {
    let sites = Sites::new(sites).ok().ok_or("1 to 16 sites")?;
    let heap = LocalHeap::new(alloc, HEAP)?;
    let mut world = World::new(&heap, sites)?;
    refuse_each(rt, alloc, &heap, &mut world, script)
}

#[test]
fn a_reader_that_writes(rt: HostRuntime) -> Result<(), Fail> {
    refuse_all(&rt, rt.alloc(), 2, 1, &pages::READER_BECOMES_WRITER)
}

#[test]
fn reads_that_wait_and_copies_that_are_cleared(rt: HostRuntime) -> Result<(), Fail> {
    refuse_all(&rt, rt.alloc(), 4, 1, &pages::QUEUED_READS_THEN_TWO_CLEARS)
}

#[test]
fn an_owner_that_writes(rt: HostRuntime) -> Result<(), Fail> {
    refuse_all(&rt, rt.alloc(), 3, 1, &pages::OWNER_UPGRADES)
}

#[test]
fn the_ends_of_pages(rt: HostRuntime) -> Result<(), Fail> {
    refuse_all(&rt, rt.alloc(), 2, 2, &pages::PAGES_AT_MANAGERS)
}

#[test]
fn a_page_that_is_lost(rt: HostRuntime) -> Result<(), Fail> {
    refuse_all(&rt, rt.alloc(), 2, 1, &losses::LOST_PAGE)
}

#[test]
fn a_hand_that_comes_twice(rt: HostRuntime) -> Result<(), Fail> {
    refuse_all(&rt, rt.alloc(), 2, 1, &losses::REPEATED_HAND)
}

#[test]
fn a_page_that_comes_twice(rt: HostRuntime) -> Result<(), Fail> {
    refuse_all(&rt, rt.alloc(), 2, 1, &losses::REPEATED_PAGE)
}

#[test]
fn a_copy_that_comes_late(rt: HostRuntime) -> Result<(), Fail> {
    refuse_all(&rt, rt.alloc(), 2, 1, &losses::STALE_PAGE_AFTER_CLEAR)
}

#[test]
fn a_manager_that_restarts(rt: HostRuntime) -> Result<(), Fail> {
    refuse_all(
        &rt,
        rt.alloc(),
        3,
        1,
        &losses::MANAGER_RESTARTS_WHILE_CLEARING,
    )
}

#[test]
fn a_requester_that_restarts(rt: HostRuntime) -> Result<(), Fail> {
    refuse_all(&rt, rt.alloc(), 2, 1, &losses::REQUESTER_RESTARTS)
}

#[test]
fn a_segment_that_is_attached_and_reached(rt: HostRuntime) -> Result<(), Fail> {
    refuse_calls(&rt, rt.alloc(), 1, &segments::SEGMENT_CALLS)
}

#[test]
fn a_segment_that_is_removed(rt: HostRuntime) -> Result<(), Fail> {
    refuse_calls(&rt, rt.alloc(), 2, &purges::REMOVAL)
}
