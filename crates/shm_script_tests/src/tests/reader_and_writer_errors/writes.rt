ghost use Rattle.std.specs.Prelude.{◌<◌};

use super::failing_streams::{Failure, Giver, Taker};
use crate::tests::script_fixtures::pages::FIRST_READ_FAULT;
use crate::tests::summary_of;
use shm_debug::{DebugFault, Summary, replay};
use std::alloc::{AllocError, Global};
use std::io::{ErrorKind, Read};
use std::process::Abort;
use std::test::Fail;

/// A writer that takes so many bytes a call, where one call fails so.
fn taker(alloc: Global, most: usize, calls: Option<usize>, failure: Failure) -> Taker {
    Taker {
        text: Vec::new(alloc),
        most,
        calls,
        failure,
        flushes: None,
    }
}

fn written_to(alloc: Global, script: &[u8], writer: &mut Taker) -> Result<Summary, DebugFault> {
    let mut reader = script;
    replay(alloc, &mut reader, writer)
}

/// Each write fails in turn: what was taken before is a front of the text, and the writer's fault goes before that of a line further on.
fn each_write_fails(rt: &impl Abort, alloc: Global, most: usize, failure: Failure)
    requires { 0 < most }
{
    let text = FIRST_READ_FAULT.text;
    for (calls, taken) in (0..text.len()).step_by(most).enumerate() {
        let mut writer = taker(alloc, most, Some(calls), failure);
        let mut reader = FIRST_READ_FAULT.input.chain(b"nonsense\n".as_slice());
        let result = replay(alloc, &mut reader, &mut writer);
        assert_eq!(rt;
            result,
            Err(DebugFault::WriteFault),
            "at write {calls} of {most} bytes"
        );
        assert_eq!(rt; Some(writer.text.as_slice()), text.get(..taken));
    }
}

#[test]
fn one_write_fails(rt: HostRuntime) {
    let interrupted = Failure::Answers(ErrorKind::Interrupted);
    let blocked = Failure::Answers(ErrorKind::WouldBlock);
    each_write_fails(&rt, rt.alloc(), 1, interrupted);
    each_write_fails(&rt, rt.alloc(), 1, Failure::TakesNothing);
    each_write_fails(&rt, rt.alloc(), 2, interrupted);
    each_write_fails(&rt, rt.alloc(), 7, Failure::TakesNothing);
    each_write_fails(&rt, rt.alloc(), 17, blocked);
    each_write_fails(&rt, rt.alloc(), 64, Failure::TakesNothing);
}

#[test]
fn pieces_of_a_text(rt: HostRuntime) {
    for most in [1, 3] {
        let mut writer = taker(rt.alloc(), most, None, Failure::TakesNothing);
        let result = written_to(rt.alloc(), FIRST_READ_FAULT.input, &mut writer);
        assert_eq!(rt; result, Ok(summary_of(&FIRST_READ_FAULT)));
        assert_eq!(rt; writer.text.as_slice(), FIRST_READ_FAULT.text);
    }
}

/// The text of the lines before a read fault is written first.
#[test]
fn a_write_fails_before_a_read(rt: HostRuntime) {
    let mut reader = Giver {
        bytes: FIRST_READ_FAULT.input,
        most: 64,
        calls: Some(2),
        kind: ErrorKind::Interrupted,
    };
    let mut writer = taker(rt.alloc(), 64, Some(0), Failure::TakesNothing);
    let result = replay(rt.alloc(), &mut reader, &mut writer);
    assert_eq!(rt; result, Err(DebugFault::WriteFault));
    assert!(rt; writer.text.is_empty());
}

/// A script of many lines, and its text, which is more than is gathered before it is written.
fn long_script(alloc: Global) -> Result<(Vec<u8>, String), AllocError> {
    let mut script = b"sites 16 preset 1\n".to_vec(alloc)?;
    let mut told = String::from_str(alloc, "1 ready\n")?;
    for number in 2..500 {
        script.extend_from_slice(b"show 0 0\n".as_slice())?;
        write!(
            told,
            "{number} page 0:OwnWrite/0 1:Nil/0 2:Nil/0 3:Nil/0 4:Nil/0 5:Nil/0 6:Nil/0 7:Nil/0"
        )?;
        write!(
            told,
            " 8:Nil/0 9:Nil/0 10:Nil/0 11:Nil/0 12:Nil/0 13:Nil/0 14:Nil/0 15:Nil/0"
        )?;
        writeln!(told, " owner 0 copies - t 0 idle")?;
    }
    Ok((script, told))
}

/// Each write of a long text fails in turn, also while the script is being read. Where none fails it is written whole, byte by byte.
#[test]
fn one_write_of_a_long_text_fails(rt: HostRuntime) -> Result<(), Fail> {
    let (script, told) = long_script(rt.alloc())?;
    let text = told.as_bytes();
    assert!(rt; text.len() > 1 << 16);
    for calls in 0..text.len() / 2000 {
        let mut writer = taker(rt.alloc(), 2000, Some(calls), Failure::TakesNothing);
        let result = written_to(rt.alloc(), &script, &mut writer);
        assert_eq!(rt; result, Err(DebugFault::WriteFault), "at write {calls}");
        assert!(rt; text.starts_with(writer.text.as_slice()));
        assert!(rt; writer.text.len() > calls * 1000 || calls == 0);
    }
    let mut writer = taker(rt.alloc(), 1, None, Failure::TakesNothing);
    assert!(rt; written_to(rt.alloc(), &script, &mut writer).is_ok());
    assert!(rt; writer.text.as_slice() == text);
    Ok(())
}
