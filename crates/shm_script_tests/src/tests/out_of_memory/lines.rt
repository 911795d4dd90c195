//! Each line of a script is refused until there is room for it, and is then told as it stands in the script.

use super::{Before, PAGE_BYTES};
use crate::tests::fill_heap::fill_heap_but;
use crate::tests::script_fixtures::{Script, going_back, pages, purges, segments};
use crate::tests::{is_line_feed, open_session};
use linked_list_allocator::LocalHeap;
use shm_debug::{BackFault, Line, Session, parse_line, print_answer};
use shm_place::PageId;
use shm_world::{Answer, Event};
use std::alloc::{AllocError, Global};
use std::process::Abort;
use std::test::Fail;

/// How many bytes of memory a session has here.
const HEAP: usize = 1 << 17;

/// How often a hole is widened at most.
const TRIES: usize = 4000;

/// How often the event is refused while the hole widens, and its answer.
fn apply_at_last(
    rt: &impl Abort,
    alloc: Global,
    heap: &LocalHeap,
    session: &mut Session<&LocalHeap>,
    event: &Event,
) -> Result<(usize, Answer), Fail> {
    let before = Before::new(alloc, session)?;
    for tries in 0..TRIES {
        let blocks = fill_heap_but(alloc, heap, tries * 16)?;
        let answer = session.apply(*event).ok();
        drop(blocks);
        if let Some(answer) = answer {
            return Ok((tries, answer));
        }
        before.expect_same(rt, session)?;
    }
    Err(Fail::new("no step was made"))
}

/// How often going back is refused while the hole widens, and what it answers.
fn gone_back(
    rt: &impl Abort,
    alloc: Global,
    heap: &LocalHeap,
    session: &mut Session<&LocalHeap>,
    count: u32,
) -> Result<(usize, Option<u64>), Fail> {
    let before = Before::new(alloc, session)?;
    for tries in 0..TRIES {
        let blocks = fill_heap_but(alloc, heap, tries * 16)?;
        let answer = session.back(count);
        drop(blocks);
        match answer {
            Ok(left) => return Ok((tries, Some(left))),
            Err(BackFault::PastBeginning) => return Ok((tries, None)),
            Err(BackFault::OutOfMemory) => before.expect_same(rt, session)?,
        }
    }
    Err(Fail::new("the session didn't go back"))
}

/// How often a page is refused to be shown while the hole widens, and what is shown.
fn shown(
    alloc: Global,
    heap: &LocalHeap,
    session: &Session<&LocalHeap>,
    page: &PageId,
) -> Result<(usize, Vec<u8>), Fail> {
    for tries in 0..TRIES {
        if let Some(text) = shown_within(alloc, heap, session, page, tries * 16).ok() {
            return Ok((tries, text));
        }
    }
    Err(Fail::new("no page was shown"))
}

/// What is shown where the heap is full but for a hole of so many bytes.
fn shown_within(
    alloc: Global,
    heap: &LocalHeap,
    session: &Session<&LocalHeap>,
    page: &PageId,
    bytes: usize,
) -> Result<Vec<u8>, AllocError> {
    let blocks = fill_heap_but(alloc, heap, bytes)?;
    let text = session.show(*page)?;
    drop(blocks);
    text.as_slice().to_vec(alloc)
}

/// An event happens on a heap that is full at first. What is told of it joins the text. Answers how often it was refused.
fn happens<'a>(
    rt: &impl Abort,
    alloc: Global,
    heap: &'a LocalHeap,
    session: &mut Session<&'a LocalHeap>,
    (number, event): (u64, &Event),
    text: &mut Vec<u8>,
) -> Result<usize, Fail> {
    let first = session.world().sent();
    let (tries, answer) = apply_at_last(rt, alloc, heap, session, event)?;
    let line = print_answer(heap, number, &answer, session.world(), first)?;
    text.extend_from_slice(&line)?;
    Ok(tries)
}

/// The same of a page that is shown.
fn shows(
    alloc: Global,
    heap: &LocalHeap,
    session: &Session<&LocalHeap>,
    (number, page): (u64, &PageId),
    text: &mut Vec<u8>,
) -> Result<usize, Fail> {
    let (tries, page) = shown(alloc, heap, session, page)?;
    text.extend_from_slice(format!(in alloc; "{number} ")?.as_bytes())?;
    text.extend_from_slice(&page)?;
    text.push(b'\n')?;
    Ok(tries)
}

/// The same of going back.
fn goes_back(
    rt: &impl Abort,
    alloc: Global,
    heap: &LocalHeap,
    session: &mut Session<&LocalHeap>,
    (number, count): (u64, u32),
    text: &mut Vec<u8>,
) -> Result<usize, Fail> {
    let (tries, left) = gone_back(rt, alloc, heap, session, count)?;
    let line = told_back(alloc, number, left)?;
    text.extend_from_slice(line.as_bytes())?;
    Ok(tries)
}

fn told_back(alloc: Global, number: u64, left: Option<u64>) -> Result<String, AllocError> {
    match left {
        Some(left) => format!(in alloc; "{number} back {left}\n"),
        None => format!(in alloc; "{number} refused 28\n"),
    }
}

/// Plays a line on a heap that is full at first.
fn play_line<'a>(
    rt: &impl Abort,
    alloc: Global,
    heap: &'a LocalHeap,
    session: &mut Session<&'a LocalHeap>,
    (number, line): (u64, &Line),
    text: &mut Vec<u8>,
) -> Result<usize, Fail> {
    match line {
        Line::Event(event) => happens(rt, alloc, heap, session, (number, event), text),
        Line::Show(page) => shows(alloc, heap, session, (number, page), text),
        Line::Back(count) => goes_back(rt, alloc, heap, session, (number, *count), text),
        Line::Sites(_) => Err(Fail::new("only the first line is one of sites")),
    }
}

/// Plays a script on a heap that is full before each line. Answers how often a line was refused at most.
fn refusals<'a>(
    rt: &impl Abort,
    alloc: Global,
    heap: &'a LocalHeap,
    session: &mut Session<&'a LocalHeap>,
    script: &Script,
) -> Result<usize, Fail> {
    let mut text = b"1 ready\n".to_vec(alloc)?;
    let mut most = 0;
    let lines = script.input.split(is_line_feed).skip(1);
    for (number, line) in (2..script.lines.saturating_add(1)).zip(lines) {
        let line = parse_line(line).ok().ok_or("a bad line")?;
        let tries = play_line(rt, alloc, heap, session, (number, &line), &mut text)?;
        most = most.max(tries);
    }
    assert_eq!(rt; text.as_slice(), script.text, "{}", script.name);
    Ok(most)
}

/// Plays a script in a session of so many sites, on a heap that is full before each line.
fn plays_in_little_memory(
    rt: &impl Abort,
    alloc: Global,
    sites: u32,
    preset: bool,
    script: &Script,
) -> Result<usize, Fail> {
    let heap = LocalHeap::new(alloc, HEAP)?;
    let mut session = open_session(&heap, sites, preset)?;
    let most = refusals(rt, alloc, &heap, &mut session, script)?;
    drop(session);
    Ok(most)
}

#[test]
fn each_growth_for_pages(rt: HostRuntime) -> Result<(), Fail> {
    let script = &pages::QUEUED_READS_THEN_TWO_CLEARS;
    let most = plays_in_little_memory(&rt, rt.alloc(), 4, true, script)?;
    assert!(rt; most >= PAGE_BYTES / 16, "no copy was refused");
    Ok(())
}

#[test]
fn each_growth_for_segments(rt: HostRuntime) -> Result<(), Fail> {
    let most = plays_in_little_memory(&rt, rt.alloc(), 1, false, &segments::SEGMENT_CALLS)?;
    assert!(rt; most > 0);
    let most = plays_in_little_memory(&rt, rt.alloc(), 2, false, &purges::PURGE)?;
    assert!(rt; most > 0);
    Ok(())
}

#[test]
fn each_growth_for_going_back(rt: HostRuntime) -> Result<(), Fail> {
    let most = plays_in_little_memory(&rt, rt.alloc(), 2, true, &going_back::BACK)?;
    assert!(rt; most >= PAGE_BYTES / 16, "no world was refused");
    Ok(())
}
