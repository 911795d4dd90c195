use super::expect_bytes;
use crate::tests::fill_heap::{Blocks, fill_heap};
use crate::tests::{load, preset};
use linked_list_allocator::LocalHeap;
use shm_debug::tell_answer_line;
use shm_model::Answer;
use shm_text::Text;
use shm_world::World;
use std::alloc::{AllocError, Global};
use std::process::Abort;
use std::test::Fail;

/// How often a line is refused while the hole widens. Each time the text is as before.
fn refusals<'a>(
    rt: &impl Abort,
    text: &mut Text<&'a LocalHeap>,
    world: &World<&'a LocalHeap>,
    mut blocks: Blocks<'a>,
) -> Option<usize> {
    for tries in 0..100 {
        if tell_answer_line(text, 2, &Answer::Fault, world, 0).is_ok() {
            return Some(tries);
        }
        expect_bytes(rt, text.as_bytes(), "1 ready\n");
        drop(blocks.pop());
    }
    None
}

/// How often the second line of a text is refused on a heap that is full at first and gets room.
fn tries_of<'a>(
    rt: &impl Abort,
    alloc: Global,
    heap: &'a LocalHeap,
    world: &mut World<&'a LocalHeap>,
) -> Result<Option<usize>, AllocError> {
    world.step(load(1, 0, 0))?;
    let mut text = Text::new(heap, 8, 8)?;
    let blocks = told_on_full_heap(alloc, heap, &mut text)?;
    let tries = refusals(rt, &mut text, world, blocks);
    expect_bytes(rt, text.as_bytes(), "1 ready\n2 fault m0>0:Ask\n");
    drop(text);
    Ok(tries)
}

fn told_on_full_heap<'a>(
    alloc: Global,
    heap: &'a LocalHeap,
    text: &mut Text<&'a LocalHeap>,
) -> Result<Blocks<'a>, AllocError> {
    text.tell(1, "ready")?;
    fill_heap(alloc, heap)
}

#[test]
fn a_refused_line_leaves_the_text(rt: HostRuntime) -> Result<(), Fail> {
    let heap = LocalHeap::new(rt.alloc(), 1 << 16)?;
    let mut world = preset(&heap, 2, 1)?;
    let tries = tries_of(&rt, rt.alloc(), &heap, &mut world)?;
    drop(world);
    assert!(rt; tries.ok_or("no line was told")? > 0);
    Ok(())
}
