use super::{Lone, expect_answer, expect_gone, expect_made, make_lone};
use crate::tests::expect;
use crate::tests::fill_heap::{Blocks, fill};
use linked_list_allocator::LocalHeap;
use shm_keys::{Cred, GetFault};
use shm_place::SegId;
use std::test::Fail;

const ROOT: Cred = Cred { uid: 0, gid: 0 };

/// How often a hole is widened at most.
const TRIES: usize = 1000;

#[test]
fn a_get_is_refused_until_there_is_room(rt: HostRuntime) -> Result<(), Fail> {
    let heap = LocalHeap::new(rt.alloc(), 1 << 14)?;
    let mut table = make_lone(&heap)?;
    let mut blocks = Vec::new(rt.alloc());
    expect(&rt, fill(&heap, &mut blocks).is_ok());
    expect(&rt, made_after(&mut table, &mut blocks) > Some(2));
    expect_gone(&rt, table.remove(ROOT, 0), Ok(Some(SegId(0))));
    drop(blocks);
    drop(table);
    Ok(())
}

/// How often the segment is refused memory while the hole widens. None: it is there nevertheless, or a call answered otherwise.
fn made_after<'a>(table: &mut Lone<&'a LocalHeap>, blocks: &mut Blocks<'a>) -> Option<usize> {
    'tries: for tries in 0..TRIES {
        let answer = table.get(ROOT, 5, 1, 0o600, 0o1000);
        if answer == Ok(0) {
            return Some(tries);
        }
        if answer != Err(GetFault::OutOfMemory) || table.stat(ROOT, 0).is_ok() {
            return None;
        }
        drop(blocks.pop());
    }
    None
}

#[test]
fn what_was_made_goes_on_without_memory(rt: HostRuntime) -> Result<(), Fail> {
    let heap = LocalHeap::new(rt.alloc(), 1 << 14)?;
    let mut table = make_lone(&heap)?;
    expect_made(&rt, table.get(ROOT, 5, 1, 0o600, 0o1000), Ok(0));
    let mut blocks = Vec::new(rt.alloc());
    expect(&rt, fill(&heap, &mut blocks).is_ok());
    expect(&rt, !is_copied(&table));
    expect_made(&rt, table.get(ROOT, 5, 1, 0o600, 0o1000), Ok(0));
    expect(&rt, table.attach(ROOT, 0, false).is_ok());
    expect_answer(&rt, table.set(ROOT, 0, 1, 1, 0o600), Ok(()));
    expect_gone(&rt, table.remove(ROOT, 0), Ok(None));
    expect_gone(&rt, table.detach(0), Ok(Some(SegId(0))));
    expect(&rt, table.next_purge(None).is_some());
    expect(&rt, table.on_purged(0));
    drop(blocks);
    drop(table);
    Ok(())
}

/// Whether there is memory for a copy.
fn is_copied<'a>(table: &Lone<&'a LocalHeap>) -> bool {
    table.table.copy().is_ok()
}
