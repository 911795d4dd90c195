//! A script is drawn from a reader and to a writer of which one call fails, and on a heap that is full but for a hole.
use super::failing_streams::{Giver, NEVER, Taker};
use linked_list_allocator::LocalHeap;
use shm_debug::DebugFault;
use shm_draw::{Caption, draw};
use std::alloc::{AllocError, Global};
use std::io::ErrorKind;
use std::process::Abort;
use std::test::Fail;

/// A read fault that brings a copy of the page.
const SCRIPT: &[u8] =
    b"sites 2 preset 1\nstore 0 0 0 7\nload 1 0 0\ndeliver 0\ndeliver 1\ndeliver 2\ndeliver 3\nload 1 0 0\n";

/// What stands beside the first load.
const CAPTIONS: [Caption<'static>; 1] = [Caption {
    line: 3,
    text: "asks & waits",
}];

/// How many bytes of memory a drawing has here.
const HEAP: usize = 1 << 19;

/// What a drawing answers, and what was written.
type Drawn = (Result<(), DebugFault>, Vec<u8>);

/// What the drawing answers where the write after so many fails, and what was written.
fn drawn_to(alloc: Global, writes: usize, kind: Option<ErrorKind>) -> Drawn {
    let mut reader = SCRIPT;
    let mut writer = Taker {
        text: Vec::new(alloc),
        calls: writes,
        kind,
    };
    let answer = draw(alloc, &mut reader, &mut writer, None, &CAPTIONS);
    (answer, writer.text)
}

/// The whole picture.
fn picture(rt: &impl Abort, alloc: Global) -> Vec<u8> {
    let (answer, picture) = drawn_to(alloc, NEVER, None);
    assert_eq!(rt; answer, Ok(()));
    picture
}

/// The drawing has this fault, where the call of this number fails, and this was written.
fn expect(rt: &impl Abort, drawn: Drawn, fault: DebugFault, call: usize, text: &[u8]) {
    assert_eq!(rt; drawn.0, Err(fault), "at call {call}");
    assert_eq!(rt; drawn.1.as_slice(), text);
}

/// A write fails: what was taken before it is a front of the picture. The flush comes after the whole picture.
#[test]
fn one_write_of_a_picture_fails(rt: HostRuntime) -> Result<(), Fail> {
    let picture = picture(&rt, rt.alloc());
    for kind in [Some(ErrorKind::WouldBlock), None] {
        for writes in (0..picture.len()).step_by(1_500) {
            let drawn = drawn_to(rt.alloc(), writes, kind);
            let front = &picture[..writes];
            expect(&rt, drawn, DebugFault::WriteFault, writes, front);
        }
    }
    let drawn = drawn_to(rt.alloc(), picture.len(), None);
    let whole = picture.as_slice();
    expect(&rt, drawn, DebugFault::WriteFault, whole.len(), whole);
    Ok(())
}

/// What it answers where the read after so many fails, and what was written.
fn drawn_from(alloc: Global, calls: usize) -> Drawn {
    let mut reader = Giver {
        rest: SCRIPT,
        calls,
        kind: ErrorKind::Interrupted,
    };
    let mut text = Vec::new(alloc);
    let answer = draw(alloc, &mut reader, &mut text, None, &CAPTIONS);
    (answer, text)
}

/// Where reading fails nothing is written.
#[test]
fn one_read_of_a_drawing_fails(rt: HostRuntime) -> Result<(), Fail> {
    for calls in (0..=SCRIPT.len()).step_by(10) {
        let drawn = drawn_from(rt.alloc(), calls);
        expect(&rt, drawn, DebugFault::ReadFault, calls, b"");
    }
    Ok(())
}

/// What the drawing answers on a heap where all but so many bytes are taken, and what was written.
fn drawn_in(alloc: Global, heap: &LocalHeap, hole: usize) -> Result<Drawn, AllocError> {
    let taken: Vec<u8, &LocalHeap> = Vec::with_capacity(heap, heap.free().saturating_sub(hole))?;
    let mut reader = SCRIPT;
    let mut text = Vec::new(alloc);
    let answer = draw(heap, &mut reader, &mut text, None, &CAPTIONS);
    drop(taken);
    Ok((answer, text))
}

/// What was written, if the script was drawn. Else memory was refused, and nothing was written.
fn written(rt: &impl Abort, drawn: Drawn) -> Option<Vec<u8>> {
    let (answer, text) = drawn;
    if answer == Ok(()) {
        return Some(text);
    }
    assert_eq!(rt; answer, Err(DebugFault::OutOfMemory));
    assert!(rt; text.is_empty());
    None
}

/// The size of the hole in which the script is drawn at last, and what is written then.
fn drawn_at_last(
    rt: &impl Abort,
    alloc: Global,
    heap: &LocalHeap,
) -> Result<Option<(usize, Vec<u8>)>, AllocError> {
    for hole in (0..HEAP).step_by(256) {
        if let Some(text) = written(rt, drawn_in(alloc, heap, hole)?) {
            return Ok(Some((hole, text)));
        }
    }
    Ok(None)
}

/// The drawing is refused memory while the hole widens, and nothing is written; then it is made as ever.
#[test]
fn each_growth_of_a_drawing(rt: HostRuntime) -> Result<(), Fail> {
    let heap = LocalHeap::new(rt.alloc(), HEAP)?;
    let Some((hole, text)) = drawn_at_last(&rt, rt.alloc(), &heap)? else {
        return Err(Fail::new("no script was drawn"));
    };
    assert!(rt; hole > 0);
    assert_eq!(rt; text.as_slice(), picture(&rt, rt.alloc()).as_slice());
    Ok(())
}
