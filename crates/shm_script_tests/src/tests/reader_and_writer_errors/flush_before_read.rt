//! What is told of a line is written and flushed before the next read: a reader looks, at each read, whether that was done.

use super::failing_streams::Giver;
use crate::tests::script_fixtures::Script;
use crate::tests::script_fixtures::pages::{FIRST_READ_FAULT, QUEUED_READS_THEN_TWO_CLEARS};
use crate::tests::{first_lines, lines_within};
use shm_debug::replay;
use std::alloc::{AllocError, Global};
use std::cell::Cell;
use std::io::{self, ErrorKind, Read, Write};
use std::process::Abort;
use std::test::Fail;

/// What a reader and a writer both see.
#[derive(Drop)]
struct Seen {
    /// How many bytes were taken before the last flush.
    flushed: Cell<usize>,
    reads: Cell<usize>,
    /// The reads before which some text was missing, or text came too early.
    wrong: Cell<usize>,
}

impl Seen {
    fn new() -> Seen {
        Seen {
            flushed: Cell::new(0),
            reads: Cell::new(0),
            wrong: Cell::new(0),
        }
    }
}

/// How much a read gives.
#[derive(Clone, Copy)]
enum Piece {
    Line,
    Bytes(usize),
}

/// Gives a script in pieces. At each read it looks whether the text of all whole lines that were given was flushed.
#[derive(Drop)]
struct Watching<'a> {
    script: &'a [u8],
    text: &'a [u8],
    giver: Giver<'a>,
    piece: Piece,
    seen: &'a Seen,
}

impl Watching<'_> {
    fn look(&self) {
        let given = self.script.len().saturating_sub(self.giver.bytes.len());
        let told = first_lines(self.text, lines_within(self.script, given));
        if self.seen.flushed.get() != told.len() {
            count(&self.seen.wrong);
        }
        count(&self.seen.reads);
    }
}

impl Read for Watching<'_> {
    fn read(&mut self, buf: &mut [u8]) -> io::Result<usize> {
        self.look();
        self.giver.most = match self.piece {
            Piece::Line => first_lines(self.giver.bytes, 1).len(),
            Piece::Bytes(most) => most,
        };
        self.giver.read(buf)
    }
}

fn count(cell: &Cell<usize>) {
    cell.set(cell.get().saturating_add(1));
}

/// Takes all that is written, and tells at each flush how much that is.
#[derive(Drop)]
struct Telling<'a> {
    text: Vec<u8>,
    seen: &'a Seen,
}

impl Write for Telling<'_> {
    fn write(&mut self, buf: &[u8]) -> io::Result<usize> {
        match self.text.extend_from_slice(buf) {
            Ok(()) => Ok(buf.len()),
            Err(_) => Err(io::Error::from(ErrorKind::OutOfMemory)),
        }
    }

    fn flush(&mut self) -> io::Result<()> {
        self.seen.flushed.set(self.text.len());
        Ok(())
    }
}

/// A script is given in such pieces: at each read the text of the lines before is there. Answers how many reads there were.
fn reads_of(rt: &impl Abort, alloc: Global, script: &[u8], text: &[u8], piece: Piece) -> usize {
    let seen = Seen::new();
    let mut reader = Watching {
        script,
        text,
        giver: Giver {
            bytes: script,
            most: 0,
            calls: None,
            kind: ErrorKind::Other,
        },
        piece,
        seen: &seen,
    };
    let mut writer = Telling {
        text: Vec::new(alloc),
        seen: &seen,
    };
    let result = replay(alloc, &mut reader, &mut writer);
    assert!(rt; result.is_ok());
    assert!(rt; writer.text.as_slice() == text);
    assert_eq!(rt; seen.wrong.get(), 0);
    assert_eq!(rt; seen.flushed.get(), text.len());
    seen.reads.get()
}

/// One line a read: each is answered before the next, and before the end.
fn each_line_is_answered(rt: &impl Abort, alloc: Global, script: &Script) {
    let reads = reads_of(rt, alloc, script.input, script.text, Piece::Line);
    assert_eq!(rt; reads as u64, script.lines.saturating_add(1));
}

#[test]
fn each_line_is_answered_at_once(rt: HostRuntime) {
    each_line_is_answered(&rt, rt.alloc(), &FIRST_READ_FAULT);
    each_line_is_answered(&rt, rt.alloc(), &QUEUED_READS_THEN_TWO_CLEARS);
}

#[test]
fn each_piece_is_answered_at_once(rt: HostRuntime) {
    let Script { input, text, .. } = FIRST_READ_FAULT;
    for most in [1, 2, 7, 64] {
        let reads = reads_of(&rt, rt.alloc(), input, text, Piece::Bytes(most));
        assert!(rt; reads > input.len() / 64);
    }
}

/// A script of so many lines, and its text.
fn long_script(alloc: Global, lines: u64) -> Result<(Vec<u8>, String), AllocError> {
    let mut script = b"sites 1 preset 1\n".to_vec(alloc)?;
    let mut told = String::from_str(alloc, "1 ready\n")?;
    for number in 2..=lines {
        script.extend_from_slice(b"load 0 0 4095\n".as_slice())?;
        writeln!(told, "{number} byte 0")?;
    }
    Ok((script, told))
}

/// Also where a read gives as much as was asked for, which tells nothing of what is at hand.
#[test]
fn each_block_is_answered_at_once(rt: HostRuntime) -> Result<(), Fail> {
    let (script, told) = long_script(rt.alloc(), 4000)?;
    let whole = Piece::Bytes(script.len());
    let reads = reads_of(&rt, rt.alloc(), &script, told.as_bytes(), whole);
    assert!(rt; reads > 2, "one read gave all");
    Ok(())
}
