//! What a replay may read at most, and what is told of its faults.

use super::replay_script;
use shm_debug::{DebugFault, Summary};
use std::test::Fail;

#[test]
fn lines_of_many_bytes(rt: HostRuntime) -> Result<(), Fail> {
    for (letters, fault) in [
        (200, DebugFault::BadLine(2)),
        (201, DebugFault::LineTooLong(2)),
    ] {
        let mut script = b"sites 2 preset 1\n".to_vec(rt.alloc())?;
        for _ in 0..letters {
            script.push(b'a')?;
        }
        let (result, text) = replay_script(rt.alloc(), script.as_slice());
        assert_eq!(rt; result, Err(fault), "open, {letters}");
        assert_eq!(rt; text.as_slice(), b"1 ready\n".as_slice());
        script.push(b'\n')?;
        let (result, text) = replay_script(rt.alloc(), script.as_slice());
        assert_eq!(rt; result, Err(fault), "ended, {letters}");
        assert_eq!(rt; text.as_slice(), b"1 ready\n".as_slice());
    }
    Ok(())
}

#[test]
fn as_many_lines_as_may_be(rt: HostRuntime) -> Result<(), Fail> {
    let mut script = b"sites 1 preset 1\n".to_vec(rt.alloc())?;
    let mut told = String::from_str(rt.alloc(), "1 ready\n")?;
    for number in 2..100_001 {
        script.extend_from_slice(b"load 0 0 0\n".as_slice())?;
        writeln!(told, "{number} byte 0")?;
    }
    let (result, text) = replay_script(rt.alloc(), script.as_slice());
    assert_eq!(rt;
        result,
        Ok(Summary {
            lines: 100_000,
            events: 99_999,
            sent: 0
        })
    );
    assert!(rt; text.as_slice() == told.as_bytes());
    script.push(b'x')?;
    let (result, text) = replay_script(rt.alloc(), script.as_slice());
    assert_eq!(rt; result, Err(DebugFault::TooManyLines));
    assert!(rt; text.as_slice() == told.as_bytes());
    Ok(())
}

#[test]
fn what_is_told_of_faults(rt: HostRuntime) -> Result<(), Fail> {
    let texts = [
        (DebugFault::OutOfMemory, "out of memory"),
        (DebugFault::BadLine(2), "line 2: bad line"),
        (DebugFault::LineTooLong(100_000), "line 100000: too long"),
        (DebugFault::TooManyLines, "too many lines"),
        (DebugFault::ReadFault, "read fault"),
        (DebugFault::WriteFault, "write fault"),
    ];
    for (fault, text) in texts {
        let shown = fault.to_string(rt.alloc())?;
        assert_eq!(rt; shown.as_str(), text);
    }
    Ok(())
}
