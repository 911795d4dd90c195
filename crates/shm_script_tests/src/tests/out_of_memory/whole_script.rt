//! A whole script is replayed on a heap that is full but for a hole.

use crate::tests::script_fixtures::{Script, going_back, pages, segments};
use crate::tests::{first_lines, lines_within, summary_of};
use linked_list_allocator::LocalHeap;
use shm_debug::{DebugFault, Summary, replay};
use std::alloc::{AllocError, Global};
use std::process::Abort;
use std::test::Fail;

/// How many bytes of memory a replay has here.
const HEAP: usize = 1 << 18;

/// What a script answers on a heap where all but so many bytes are taken; its text.
fn replayed_in(
    alloc: Global,
    heap: &LocalHeap,
    hole: usize,
    script: &[u8],
) -> Result<(Result<Summary, DebugFault>, Vec<u8>), AllocError> {
    let taken: Vec<u8, &LocalHeap> = Vec::with_capacity(heap, heap.free().saturating_sub(hole))?;
    let mut reader = script;
    let mut text = Vec::new(alloc);
    let result = replay(heap, &mut reader, &mut text);
    drop(taken);
    Ok((result, text))
}

/// All lines before the one that is refused memory were told: these lines alone play in the same hole, and with one more line they are
/// refused.
fn expect_all_told(
    rt: &impl Abort,
    alloc: Global,
    heap: &LocalHeap,
    hole: usize,
    script: &Script,
    text: &[u8],
) -> Result<(), AllocError> {
    let lines = lines_within(text, text.len());
    let more = first_lines(script.input, lines.saturating_add(1));
    let (refused, told) = replayed_in(alloc, heap, hole, more)?;
    assert_eq!(rt; refused, Err(DebugFault::OutOfMemory));
    assert_eq!(rt; told.as_slice(), text);
    if lines > 0 {
        let (played, told) = replayed_in(alloc, heap, hole, first_lines(script.input, lines))?;
        assert!(rt; played.is_ok(), "line {lines} is the one that is refused");
        assert_eq!(rt; told.as_slice(), text);
    }
    Ok(())
}

/// The script is refused memory while the hole widens, after a front of its lines; then it plays. Answers the longest text of a refused
/// one.
fn longest_refused(rt: &impl Abort, alloc: Global, script: &Script) -> Result<usize, Fail> {
    let heap = LocalHeap::new(alloc, HEAP)?;
    let mut longest = 0;
    for hole in (0..HEAP).step_by(16) {
        let (result, text) = replayed_in(alloc, &heap, hole, script.input)?;
        if result == Ok(summary_of(script)) {
            assert_eq!(rt; text.as_slice(), script.text);
            return Ok(longest);
        }
        assert_eq!(rt; result, Err(DebugFault::OutOfMemory));
        assert!(rt; script.text.starts_with(&text));
        assert!(rt; text.is_empty() || text.ends_with(b"\n".as_slice()));
        assert!(rt; text.len() >= longest);
        if hole == 0 || text.len() > longest {
            expect_all_told(rt, alloc, &heap, hole, script, &text)?;
        }
        longest = text.len();
    }
    Err(Fail::new("no script was played"))
}

#[test]
fn each_growth_of_a_replay(rt: HostRuntime) -> Result<(), Fail> {
    let longest = longest_refused(&rt, rt.alloc(), &pages::QUEUED_READS_THEN_TWO_CLEARS)?;
    assert!(rt; longest > 0);
    let longest = longest_refused(&rt, rt.alloc(), &segments::SEGMENT_CALLS)?;
    assert!(rt; longest > 0);
    let longest = longest_refused(&rt, rt.alloc(), &going_back::BACK)?;
    assert!(rt; longest > 0);
    Ok(())
}
