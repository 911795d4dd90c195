ghost use Rattle.std.specs.Prelude.{◌<◌};

use super::failing_streams::{Failure, Giver, Taker};
use crate::tests::script_fixtures::pages::FIRST_READ_FAULT;
use crate::tests::{first_lines, lines_within, summary_of};
use shm_debug::{DebugFault, Summary, replay};
use std::alloc::Global;
use std::io::ErrorKind;
use std::process::Abort;

/// What a script answers and writes whose reader gives so many bytes a call, where one call fails so.
fn read_in_pieces(
    alloc: Global,
    most: usize,
    calls: Option<usize>,
    kind: ErrorKind,
) -> (Result<Summary, DebugFault>, Vec<u8>) {
    let mut reader = Giver {
        bytes: FIRST_READ_FAULT.input,
        most,
        calls,
        kind,
    };
    let mut writer = Taker {
        text: Vec::new(alloc),
        most: 1000,
        calls: None,
        failure: Failure::TakesNothing,
        // after each read that didn't fail it flushes; that the last flush fails changes no other fault
        flushes: calls,
    };
    let result = replay(alloc, &mut reader, &mut writer);
    (result, writer.text)
}

/// Each read fails in turn: the script ends there, with the text of the lines before.
fn each_read_fails(rt: &impl Abort, alloc: Global, most: usize, kind: ErrorKind)
    requires some { 0 < most }
    requires few { most < 100 }
{
    let script = FIRST_READ_FAULT.input;
    for (calls, given) in (0..script.len() + most).step_by(most).enumerate() {
        let (result, text) = read_in_pieces(alloc, most, Some(calls), kind);
        assert_eq!(rt;
            result,
            Err(DebugFault::ReadFault),
            "at read {calls} of {most} bytes"
        );
        let told = first_lines(FIRST_READ_FAULT.text, lines_within(script, given));
        assert_eq!(rt; text.as_slice(), told, "at read {calls} of {most} bytes");
    }
}

fn no_read_fails(rt: &impl Abort, alloc: Global, most: usize) {
    let (result, text) = read_in_pieces(alloc, most, None, ErrorKind::Other);
    assert_eq!(rt; result, Ok(summary_of(&FIRST_READ_FAULT)));
    assert_eq!(rt; text.as_slice(), FIRST_READ_FAULT.text);
}

#[test]
fn pieces_of_a_script(rt: HostRuntime) {
    no_read_fails(&rt, rt.alloc(), 1);
    no_read_fails(&rt, rt.alloc(), 2);
    no_read_fails(&rt, rt.alloc(), 7);
    no_read_fails(&rt, rt.alloc(), 64);
}

#[test]
fn one_read_fails(rt: HostRuntime) {
    each_read_fails(&rt, rt.alloc(), 1, ErrorKind::Interrupted);
    each_read_fails(&rt, rt.alloc(), 2, ErrorKind::Interrupted);
    each_read_fails(&rt, rt.alloc(), 7, ErrorKind::WouldBlock);
    each_read_fails(&rt, rt.alloc(), 17, ErrorKind::UnexpectedEof);
    each_read_fails(&rt, rt.alloc(), 64, ErrorKind::Other);
}
