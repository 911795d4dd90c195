//! Steps that memory is refused to, and steps that take none.
use super::{Given, Sent, Told, expect, give, look, preset_site, run, run_at};
use crate::tests::fill_heap::{Blocks, fill};
use linked_list_allocator::LocalHeap;
use shm_model::{Attached, Cred, GetFlags, Kind, Mode, Op, Reply, Request};
use shm_place::{Key, SegId};
use shm_site::{Answer, Site, StepFault};
use std::process::Abort;
use std::test::Fail;

/// How often a hole is widened at most.
const TRIES: usize = 1000;

const ROOT: Cred = Cred { uid: 0, gid: 0 };

/// An attach of a segment of two pages is replied to.
const ATTACHED: Reply = Reply::Attached(Attached {
    size: 4097,
    ro: false,
});

/// What needs no memory: accesses with the right, a restart, and what is refused anyway.
const FRUGAL: [(Given, Answer); 5] = [
    (Given::Store(1, 7), Answer::Stored),
    (Given::Load(1), Answer::Byte(7)),
    (Given::Load(16_384), Answer::Refused(11)),
    (Given::Restart, Answer::Took),
    (Given::Begin(Request::DetachAt(9)), Answer::Refused(9)),
];

/// What takes memory, at site 0 of 2.
const GROWING: [(Given, Answer); 11] = [
    (Given::Load(4096), Answer::Fault),
    (Given::Store(12_288, 5), Answer::Fault),
    (Given::Tick, Answer::Took),
    (
        Given::Begin(Request::Op(Op::Attach {
            cred: ROOT,
            id: SegId(2),
            ro: false,
        })),
        Answer::Began(1),
    ),
    (
        Given::Told(0, 0, Told::Reply(1, ATTACHED)),
        Answer::Replied {
            number: 1,
            reply: ATTACHED,
            attachment: Some(1),
        },
    ),
    (
        Given::Begin(Request::Op(Op::Set {
            cred: ROOT,
            id: SegId(2),
            uid: 1,
            gid: 1,
            mode: Mode::OWNER_READ_WRITE,
        })),
        Answer::Began(2),
    ),
    (
        Given::Told(
            1,
            0,
            Told::Call(
                1,
                Op::Get {
                    cred: ROOT,
                    key: Key(2),
                    size: 1,
                    mode: Mode::OWNER_READ_WRITE,
                    flags: GetFlags(0o1000),
                },
            ),
        ),
        Answer::Took,
    ),
    (Given::Told(1, 0, Told::Ask(0, 1, Kind::Read)), Answer::Took),
    (Given::Told(1, 0, Told::Clear(5, 1)), Answer::Took),
    (
        Given::Told(0, 0, Told::Hand(0, 1, Kind::Read, 1)),
        Answer::Took,
    ),
    (Given::Told(0, 0, Told::Purge(4)), Answer::Took),
];

#[test]
fn each_growth_is_refused_in_turn(rt: HostRuntime) -> Result<(), Fail> {
    let heap = LocalHeap::new(rt.alloc(), 1 << 16)?;
    let mut site = preset_site(&heap, 2, 0)?;
    let mut blocks = Vec::new(rt.alloc());
    frugal(&rt, &heap, &mut site, &mut blocks);
    growing(&rt, &heap, &mut site, &mut blocks, &GROWING);
    drop(blocks);
    drop(site);
    Ok(())
}

/// Each input is refused on a full heap, and is taken with room.
fn growing<'a>(
    rt: &impl Abort,
    heap: &'a LocalHeap,
    site: &mut Site<&'a LocalHeap>,
    blocks: &mut Blocks<'a>,
    inputs: &[(Given, Answer)],
) {
    'inputs: for (given, answer) in inputs {
        refused_first(rt, heap, site, blocks, given, *answer);
    }
}

/// Fills the heap; what is given then needs no memory.
fn frugal<'a>(
    rt: &impl Abort,
    heap: &'a LocalHeap,
    site: &mut Site<&'a LocalHeap>,
    blocks: &mut Blocks<'a>,
) {
    expect(rt, fill(heap, blocks).is_ok());
    let mut outbox = Vec::new(heap);
    run(rt, site, &mut outbox, &FRUGAL);
    drop(outbox);
}

/// The step is refused on a full heap, and is made with room.
fn refused_first<'a>(
    rt: &impl Abort,
    heap: &'a LocalHeap,
    site: &mut Site<&'a LocalHeap>,
    blocks: &mut Blocks<'a>,
    given: &Given,
    answer: Answer,
) {
    expect(rt, fill(heap, blocks).is_ok());
    let mut outbox = Vec::new(heap);
    let made = widen(rt, site, &mut outbox, blocks, given);
    expect(rt, made == Some(answer));
    drop(outbox);
}

/// Widens the hole until the step is made. Each refusal leaves site and outbox as they were.
fn widen<'a>(
    rt: &impl Abort,
    site: &mut Site<&'a LocalHeap>,
    outbox: &mut Sent<&'a LocalHeap>,
    blocks: &mut Blocks<'a>,
    given: &Given,
) -> Option<Answer> {
    let before = look(site, outbox);
    expect(rt, give(site, outbox, given).is_err());
    'tries: for _ in 0..TRIES {
        match give(site, outbox, given) {
            Ok(answer) => return Some(answer),
            Err((fault, _)) => expect(rt, fault == StepFault::OutOfMemory),
        }
        expect(rt, look(site, outbox) == before);
        drop(blocks.pop());
    }
    None
}

/// Site 1 hands its page over, though nobody asked.
const HANDED: [(Given, Answer); 2] = [
    (Given::Store(12_288, 7), Answer::Stored),
    (
        Given::Told(1, 1, Told::Hand(3, 1, Kind::Write, 0)),
        Answer::Took,
    ),
];

/// Site 0 may write now.
const OWNED: [(Given, Answer); 2] = [
    (Given::Load(12_288), Answer::Byte(7)),
    (Given::Store(12_288, 8), Answer::Stored),
];

#[test]
fn a_page_is_refused_until_there_is_room(rt: HostRuntime) -> Result<(), Fail> {
    let heap = LocalHeap::new(rt.alloc(), 1 << 16)?;
    let mut site = preset_site(&heap, 2, 0)?;
    let mut outbox = Vec::new(&heap);
    run_at(&rt, preset_site(&heap, 2, 1), &mut outbox, &HANDED);
    let mut blocks = Vec::new(rt.alloc());
    expect(&rt, fill(&heap, &mut blocks).is_ok());
    let made = widen(&rt, &mut site, &mut outbox, &mut blocks, &Given::Last);
    expect(&rt, made == Some(Answer::Took));
    run(&rt, &mut site, &mut outbox, &OWNED);
    drop(blocks);
    drop(outbox);
    drop(site);
    Ok(())
}
