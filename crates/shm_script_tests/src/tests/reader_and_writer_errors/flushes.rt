//! One flush or one write fails, and the writer would take everything after it: nothing more is read or written.

use super::failing_streams::{Failure, Giver, Taker};
use crate::tests::script_fixtures::pages::FIRST_READ_FAULT;
use crate::tests::{first_lines, lines_within, summary_of};
use shm_debug::{DebugFault, Summary, replay};
use std::alloc::{AllocError, Global};
use std::io::ErrorKind;
use std::process::Abort;
use std::test::Fail;

/// How many bytes a read gives: fewer than any line has, so that a write has one line at most.
const PIECE: usize = 5;

/// The writes and the flushes before the one that fails, if one does.
#[derive(Clone, Copy)]
struct Failing {
    writes: Option<usize>,
    flushes: Option<usize>,
}

/// What a replay answers, what was written, and how many bytes the reader has left.
#[derive(Drop)]
struct Outcome {
    result: Result<Summary, DebugFault>,
    text: Vec<u8>,
    left: usize,
}

/// Replays a script of which each read gives so many bytes.
fn replay_script(alloc: Global, script: &[u8], most: usize, failing: Failing) -> Outcome {
    let mut reader = Giver {
        bytes: script,
        most,
        calls: None,
        kind: ErrorKind::Other,
    };
    let mut writer = Taker {
        text: Vec::new(alloc),
        most: 1000,
        calls: failing.writes,
        failure: Failure::Answers(ErrorKind::Interrupted),
        flushes: failing.flushes,
    };
    let result = replay(alloc, &mut reader, &mut writer);
    Outcome {
        result,
        text: writer.text,
        left: reader.bytes.len(),
    }
}

/// The replay ended by a write fault after so many lines were written, and so many bytes read.
fn expect_write_fault(rt: &impl Abort, outcome: &Outcome, lines: usize, given: usize) {
    let script = FIRST_READ_FAULT.input;
    let told = first_lines(FIRST_READ_FAULT.text, lines);
    assert_eq!(rt; outcome.result, Err(DebugFault::WriteFault));
    assert_eq!(rt; outcome.text.as_slice(), told);
    assert_eq!(rt; outcome.left, script.len().saturating_sub(given));
}

/// How many reads give a script in pieces.
fn pieces(script: &[u8]) -> usize {
    (0..script.len()).step_by(PIECE).count()
}

/// After each read there is a flush.
#[test]
fn one_flush_fails(rt: HostRuntime) {
    let script = FIRST_READ_FAULT.input;
    for (reads, start) in (0..script.len()).step_by(PIECE).enumerate() {
        let failing = Failing {
            writes: None,
            flushes: Some(reads),
        };
        let outcome = replay_script(rt.alloc(), script, PIECE, failing);
        let given = start.saturating_add(PIECE);
        expect_write_fault(&rt, &outcome, lines_within(script, given), given);
    }
}

/// The writer takes everything but one line.
#[test]
fn one_line_is_not_taken(rt: HostRuntime) {
    let script = FIRST_READ_FAULT.input;
    for start in (0..script.len()).step_by(PIECE) {
        let lines = lines_within(script, start);
        let given = start.saturating_add(PIECE);
        if lines_within(script, given) > lines {
            let failing = Failing {
                writes: Some(lines),
                flushes: None,
            };
            let outcome = replay_script(rt.alloc(), script, PIECE, failing);
            expect_write_fault(&rt, &outcome, lines, given);
        }
    }
}

/// The flush at the end belongs to success: where it fails, the whole text was written, and the replay failed.
#[test]
fn the_last_flush_fails(rt: HostRuntime) {
    let script = FIRST_READ_FAULT.input;
    for (most, reads) in [(PIECE, pieces(script)), (script.len(), 1)] {
        for (flushes, result) in [
            (reads, Err(DebugFault::WriteFault)),
            (reads.saturating_add(1), Ok(summary_of(&FIRST_READ_FAULT))),
        ] {
            let failing = Failing {
                writes: None,
                flushes: Some(flushes),
            };
            let outcome = replay_script(rt.alloc(), script, most, failing);
            assert_eq!(rt; outcome.result, result);
            assert_eq!(rt; outcome.text.as_slice(), FIRST_READ_FAULT.text);
        }
    }
}

/// A script, and a line after it that is none.
fn broken_script(alloc: Global) -> Result<Vec<u8>, AllocError> {
    let mut script = FIRST_READ_FAULT.input.to_vec(alloc)?;
    script.extend_from_slice(b"nonsense\n".as_slice())?;
    Ok(script)
}

/// Where the script was wrong before the flush that fails, that is told.
#[test]
fn a_flush_fails_after_a_bad_line(rt: HostRuntime) -> Result<(), Fail> {
    let script = broken_script(rt.alloc())?;
    let before = pieces(&script).saturating_sub(1);
    for (most, flushes) in [(PIECE, before), (script.len(), 0)] {
        let failing = Failing {
            writes: None,
            flushes: Some(flushes),
        };
        let outcome = replay_script(rt.alloc(), &script, most, failing);
        assert_eq!(rt;
            outcome.result,
            Err(DebugFault::BadLine(FIRST_READ_FAULT.lines + 1))
        );
        assert_eq!(rt; outcome.text.as_slice(), FIRST_READ_FAULT.text);
    }
    Ok(())
}
