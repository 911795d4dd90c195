//! Inputs for which memory is refused first.
use super::{Given, expect, give, look, preset_box};
use crate::tests::fill_heap::{Blocks, fill};
use linked_list_allocator::LocalHeap;
use shm_logs::{Answer, BoxFault, SiteBox, Stamp};
use std::process::Abort;
use std::test::Fail;

/// How often a hole is widened at most.
const TRIES: usize = 1000;

/// What takes memory, at site 0 of 2.
const GROWING: [(Given, Answer); 4] = [
    (Given::Store(0, 7), Answer::Stored),
    (Given::Load(4096), Answer::Fault),
    (Given::Ask(0), Answer::Took),
    (Given::Tick, Answer::Took),
];

#[test]
fn each_growth_is_refused_in_turn(rt: HostRuntime) -> Result<(), Fail> {
    let heap = LocalHeap::new(rt.alloc(), 1 << 16)?;
    let mut site = preset_box(&heap, 2)?;
    let mut blocks = Vec::new(rt.alloc());
    growing(&rt, &heap, &mut site, &mut blocks);
    expect(&rt, look(&site) == (4, 4));
    drop(blocks);
    drop(site);
    Ok(())
}

/// Each input is refused on a full heap, and is taken with room.
fn growing<'a>(
    rt: &impl Abort,
    heap: &'a LocalHeap,
    site: &mut SiteBox<&'a LocalHeap>,
    blocks: &mut Blocks<'a>,
) {
    'inputs: for (given, answer) in &GROWING {
        expect(rt, fill(heap, blocks).is_ok());
        let made = widen(rt, site, blocks, given);
        expect(rt, made == Some(*answer));
    }
}

/// Widens the hole until the input is taken. Each refusal leaves log and clock as they were.
fn widen<'a>(
    rt: &impl Abort,
    site: &mut SiteBox<&'a LocalHeap>,
    blocks: &mut Blocks<'a>,
    given: &Given,
) -> Option<Answer> {
    let before = look(site);
    expect(
        rt,
        give(site, given, Stamp::NONE) == Err(BoxFault::OutOfMemory),
    );
    'tries: for _ in 0..TRIES {
        match give(site, given, Stamp::NONE) {
            Ok((_, _, _, answer)) => return Some(answer),
            Err(fault) => expect(rt, fault == BoxFault::OutOfMemory),
        }
        expect(rt, look(site) == before);
        drop(blocks.pop());
    }
    None
}
