//! Going back keeps copies of the world as it passes, as far as there is memory; what it answers doesn't change.

use super::{Before, PAGE_BYTES};
use crate::tests::fill_heap::fill_heap_but;
use crate::tests::open_session;
use linked_list_allocator::LocalHeap;
use shm_debug::{BackFault, Session};
use shm_place::SiteId;
use shm_world::{Answer, Event};
use std::alloc::Global;
use std::process::Abort;
use std::test::Fail;

/// How many bytes of memory a session has here.
const HEAP: usize = 1 << 19;

/// A hole in which going back finds all the memory that it asks for: for the world, and for each copy of it that is kept.
const ENOUGH: usize = 1 << 17;

/// Going back once: how many events, how many are left, and the byte that was stored last before and after it.
#[derive(Clone, Copy)]
struct Back {
    count: u32,
    left: u64,
    before: u8,
    after: u8,
}

/// Over most of the copies that are kept on the way.
const FAR: Back = Back {
    count: 50,
    left: 1150,
    before: 176,
    after: 126,
};

/// The load that comes between is taken back, too.
const FARTHER: Back = Back {
    count: 1051,
    left: 100,
    before: 126,
    after: 100,
};

fn store(byte: u8) -> Event {
    Event::Store {
        site: SiteId(0),
        at: 0,
        offset: 0,
        byte,
    }
}

fn load() -> Event {
    Event::Load {
        site: SiteId(0),
        at: 0,
        offset: 0,
    }
}

/// 1,200 stores, each of its number's last eight bits.
fn store_all(rt: &impl Abort, session: &mut Session<&LocalHeap>) {
    for number in 1..1201u32 {
        assert_eq!(rt;
            session.apply(store((number % 256) as u8)),
            Ok(Answer::Stored)
        );
    }
}

/// The byte that was stored last is there still. The load that tells so is taken back.
fn expect_byte(rt: &impl Abort, session: &mut Session<&LocalHeap>, byte: u8) {
    let standing = session.len();
    assert_eq!(rt; session.apply(load()), Ok(Answer::Byte(byte)));
    assert_eq!(rt; session.back(1), Ok(standing));
}

/// Goes back on a heap that is full but for so small a hole; how much memory is used then. None: it was refused memory, and nothing
/// changed; with memory it goes back.
fn goes_back(
    rt: &impl Abort,
    alloc: Global,
    heap: &LocalHeap,
    session: &mut Session<&LocalHeap>,
    hole: usize,
    back: &Back,
) -> Result<Option<usize>, Fail> {
    let before = Before::new(alloc, session)?;
    let blocks = fill_heap_but(alloc, heap, hole)?;
    let answer = session.back(back.count);
    drop(blocks);
    match answer {
        Ok(left) => {
            assert_eq!(rt; left, back.left);
            Ok(Some(heap.used()))
        }
        Err(fault) => {
            assert_eq!(rt; fault, BackFault::OutOfMemory);
            before.expect_same(rt, session)?;
            expect_byte(rt, session, back.before);
            assert_eq!(rt; session.back(back.count), Ok(back.left));
            Ok(None)
        }
    }
}

/// How much memory is used each time that a session has gone back; none where it was refused.
#[derive(Clone, Copy, PartialEq, Eq)]
struct Used {
    far: Option<usize>,
    farther: Option<usize>,
}

/// Goes back twice, each time with so small a hole and then a load. The answers are the same, whatever was refused.
fn goes_back_twice(
    rt: &impl Abort,
    alloc: Global,
    heap: &LocalHeap,
    session: &mut Session<&LocalHeap>,
    hole: usize,
) -> Result<Used, Fail> {
    store_all(rt, session);
    let far = goes_back(rt, alloc, heap, session, hole, &FAR)?;
    assert_eq!(rt; session.apply(load()), Ok(Answer::Byte(FAR.after)));
    let farther = goes_back(rt, alloc, heap, session, hole, &FARTHER)?;
    assert_eq!(rt; session.apply(load()), Ok(Answer::Byte(FARTHER.after)));
    Ok(Used { far, farther })
}

/// The same in a new session.
fn used_with(rt: &impl Abort, alloc: Global, hole: usize) -> Result<Used, Fail> {
    let heap = LocalHeap::new(alloc, HEAP)?;
    let mut session = open_session(&heap, 1, true)?;
    let used = goes_back_twice(rt, alloc, &heap, &mut session, hole);
    drop(session);
    used
}

/// In how many holes, each 16 bytes wider than the one before, there wasn't room for the world, and in how many more not for each copy of
/// it that is kept where there is room for all.
fn holes_too_small(rt: &impl Abort, alloc: Global, all: Used) -> Result<(usize, usize), Fail> {
    let mut refused = 0usize;
    for tries in 0..ENOUGH / 16 {
        let used = used_with(rt, alloc, tries * 16)?;
        if used == all {
            return Ok((refused, tries.saturating_sub(refused)));
        }
        if used.far.is_none() {
            refused = refused.saturating_add(1);
        }
    }
    Err(Fail::new("memory was refused in each hole"))
}

#[test]
fn copies_are_kept_as_far_as_there_is_memory(rt: HostRuntime) -> Result<(), Fail> {
    let all = used_with(&rt, rt.alloc(), ENOUGH)?;
    let (worlds, copies) = holes_too_small(&rt, rt.alloc(), all)?;
    assert!(rt; worlds >= PAGE_BYTES / 16, "no world was refused");
    assert!(rt; copies > 4 * PAGE_BYTES / 16, "no five copies were refused");
    Ok(())
}
