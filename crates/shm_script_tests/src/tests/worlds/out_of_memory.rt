use super::{Picture, events_of, picture_of};
use crate::tests::fill_heap::{Blocks, fill_heap};
use crate::tests::script_fixtures::pages::FIRST_READ_FAULT;
use crate::tests::{load, preset, store};
use linked_list_allocator::LocalHeap;
use shm_model::{Cred, Op, Request};
use shm_place::{SegId, SiteId};
use shm_world::Answer::{Began, Byte, Fault, Refused, Stored, Took, Waiting};
use shm_world::Event::{Begin, Deliver, Lose, Repeat};
use shm_world::{Answer, Event, World};
use std::alloc::Global;
use std::process::Abort;
use std::test::Fail;

/// How many bytes of memory a world has here.
const HEAP: usize = 1 << 17;

/// How many blocks of 16 bytes a page takes.
const PAGE_BLOCKS: usize = 256;

/// How often a hole is widened at most.
const TRIES: usize = 2000;

/// A world of two pages in which site 1 asked for the first one, and its manager, site 0, told itself to lend it, and again at each of
/// eight ticks: envelopes 1 to 9 are on their way. Being a copy of a copy, it has no room to spare: the first has a place more, as the
/// envelope that was delivered had one.
fn world_with_asks(heap: &LocalHeap) -> Result<World<&LocalHeap>, Fail> {
    let mut world = preset(heap, 2, 2)?;
    world.step(load(1, 0, 0))?;
    world.step(Deliver(0))?;
    for _again in 0..8usize {
        world.step(tick(0))?;
    }
    Ok(world.copy()?.copy()?)
}

/// How often the event is refused while the hole widens, and its answer. Each time the world stands as before.
fn refusals<'a>(
    rt: &impl Abort,
    world: &mut World<&'a LocalHeap>,
    mut blocks: Blocks<'a>,
    event: &Event,
) -> Option<(usize, Answer)> {
    let before = picture_of(world);
    for tries in 0..TRIES {
        if let Some(answer) = world.step(*event).ok() {
            return Some((tries, answer));
        }
        assert_eq!(rt; picture_of(world), before);
        drop(blocks.pop());
    }
    None
}

/// How often the event is refused while a full heap gets room, and its answer.
fn refusals_of(rt: &impl Abort, alloc: Global, event: &Event) -> Result<(usize, Answer), Fail> {
    let heap = LocalHeap::new(alloc, HEAP)?;
    let mut world = world_with_asks(&heap)?;
    let blocks = fill_heap(alloc, &heap)?;
    Ok(refusals(rt, &mut world, blocks, event).ok_or("no step was made")?)
}

fn tick(site: u32) -> Event {
    Event::Tick { site: SiteId(site) }
}

fn restart(site: u32) -> Event {
    Event::Restart { site: SiteId(site) }
}

/// A call at the site.
fn begin(site: u32, request: Request) -> Event {
    Begin {
        site: SiteId(site),
        request,
    }
}

/// What segment 0 is, asked by its owner.
const STAT: Request = Request::Op(Op::Stat {
    cred: Cred { uid: 0, gid: 0 },
    id: SegId(0),
});

#[test]
fn an_event_is_refused_until_there_is_room(rt: HostRuntime) -> Result<(), Fail> {
    let table = [
        (load(0, 0, 4096), Fault),
        (store(1, 0, 0, 1), Fault),
        (begin(1, STAT), Began(1)),
        (tick(0), Took),
        (tick(1), Took),
        (Deliver(1), Took),
        (Repeat(1), Took),
    ];
    for (event, wanted) in table.as_slice() {
        let (tries, answer) = refusals_of(&rt, rt.alloc(), event)?;
        assert_eq!(rt; answer, *wanted);
        assert!(rt; tries > 0, "{event:?}");
    }
    Ok(())
}

#[test]
fn what_takes_no_memory_is_done_on_a_full_heap(rt: HostRuntime) -> Result<(), Fail> {
    let table = [
        (load(0, 0, 0), Byte(0)),
        (store(0, 0, 0, 1), Stored),
        (load(1, 0, 0), Waiting),
        (restart(0), Took),
        (restart(1), Took),
        (Lose(1), Took),
    ];
    for (event, wanted) in table.as_slice() {
        let (tries, answer) = refusals_of(&rt, rt.alloc(), event)?;
        assert_eq!(rt; answer, *wanted);
        assert_eq!(rt; tries, 0, "{event:?}");
    }
    Ok(())
}

#[test]
fn other_refusals_come_before_that_for_memory(rt: HostRuntime) -> Result<(), Fail> {
    let table = [
        (Deliver(99), Refused(15)),
        (Repeat(99), Refused(15)),
        (Deliver(0), Refused(15)),
        (tick(2), Refused(14)),
        (begin(2, STAT), Refused(14)),
        (begin(1, Request::DetachAt(7)), Refused(9)),
        (load(1, 7, 0), Refused(9)),
        (store(1, 0, 8192, 1), Refused(11)),
    ];
    for (event, wanted) in table.as_slice() {
        let (tries, answer) = refusals_of(&rt, rt.alloc(), event)?;
        assert_eq!(rt; answer, *wanted);
        assert_eq!(rt; tries, 0, "{event:?}");
    }
    Ok(())
}

#[test]
fn a_call_at_a_busy_site_is_refused_on_a_full_heap(rt: HostRuntime) -> Result<(), Fail> {
    let heap = LocalHeap::new(rt.alloc(), HEAP)?;
    let mut calling = world_with_asks(&heap)?;
    assert_eq!(rt; calling.step(begin(1, STAT)), Ok(Began(1)));
    let mut world = calling.copy()?;
    let blocks = fill_heap(rt.alloc(), &heap)?;
    let refused = refusals(&rt, &mut world, blocks, &begin(1, STAT));
    assert_eq!(rt; refused, Some((0, Refused(8))));
    Ok(())
}

/// What a world with room shows before the events, and after each of them.
fn pictures(alloc: Global, events: &[Event]) -> Result<Vec<Picture>, Fail> {
    let mut world = preset(alloc, 2, 1)?;
    let mut pictures = Vec::new(alloc);
    pictures.push(picture_of(&world))?;
    for event in events {
        let picture = picture_after(&mut world, event).ok_or("memory was refused")?;
        pictures.push(picture)?;
    }
    Ok(pictures)
}

fn picture_after(world: &mut World, event: &Event) -> Option<Picture> {
    if world.step(*event).is_err() {
        return None;
    }
    Some(picture_of(world))
}

/// How often a run is refused while the hole widens. Each time the world stands after the events whose answers joined, and the run goes
/// on from there.
fn run_refusals<'a>(
    rt: &impl Abort,
    world: &mut World<&'a LocalHeap>,
    mut blocks: Blocks<'a>,
    events: &[Event],
    pictures: &[Picture],
    answers: &mut Vec<Answer, &'a LocalHeap>,
) -> Option<usize> {
    for tries in 0..TRIES {
        let left = events.get(answers.len()..)?;
        if world.run(left, answers).is_ok() {
            return Some(tries);
        }
        assert_eq!(rt; pictures.get(answers.len()), Some(&picture_of(world)));
        drop(blocks.pop());
    }
    None
}

/// How often a run is refused on a heap that is full at first and gets room.
fn count_refusals(
    rt: &impl Abort,
    alloc: Global,
    events: &[Event],
    wanted: &[Answer],
) -> Result<usize, Fail> {
    let pictures = pictures(alloc, events)?;
    let heap = LocalHeap::new(alloc, HEAP)?;
    let mut world = preset(&heap, 2, 1)?;
    let mut answers = Vec::new(&heap);
    let blocks = fill_heap(alloc, &heap)?;
    let tries = run_refusals(rt, &mut world, blocks, events, &pictures, &mut answers);
    assert_eq!(rt; answers.as_slice(), wanted);
    Ok(tries.ok_or("no run was made")?)
}

#[test]
fn a_refused_run_stands_after_what_was_answered(rt: HostRuntime) -> Result<(), Fail> {
    let events = events_of(rt.alloc(), &FIRST_READ_FAULT)?;
    let wanted = [Stored, Fault, Took, Took, Took, Took, Byte(7)];
    let tries = count_refusals(&rt, rt.alloc(), &events, wanted.as_slice())?;
    assert!(rt;
        tries > PAGE_BLOCKS,
        "the copy that is lent was refused too"
    );
    Ok(())
}

/// How often a copy is refused while the hole widens. Each time the world stands as before.
fn copy_refusals<'a>(
    rt: &impl Abort,
    world: &World<&'a LocalHeap>,
    mut blocks: Blocks<'a>,
) -> Option<usize> {
    let before = picture_of(world);
    for tries in 0..TRIES {
        if let Some(copy) = world.copy().ok() {
            assert_eq!(rt; picture_of(&copy), before);
            return Some(tries);
        }
        assert_eq!(rt; picture_of(world), before);
        drop(blocks.pop());
    }
    None
}

#[test]
fn a_copy_is_refused_until_there_is_room(rt: HostRuntime) -> Result<(), Fail> {
    let heap = LocalHeap::new(rt.alloc(), HEAP)?;
    let mut world = world_with_asks(&heap)?;
    let blocks = fill_heap(rt.alloc(), &heap)?;
    let tries = copy_refusals(&rt, &world, blocks).ok_or("no copy was made")?;
    assert!(rt; tries > PAGE_BLOCKS, "the manager's page was refused too");
    assert_eq!(rt; world.step(Deliver(1)), Ok(Took));
    Ok(())
}
