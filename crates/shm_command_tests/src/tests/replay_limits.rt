use super::{expect, replay_bytes};
use std::test::Fail;

const BOUNDARIES: &[u8] = b"sites 2 preset 2
store 0 0 4095 1
store 0 0 4096 2
store 1 0 4096 2
load 1 0 8191
load 1 0 8192
load 1 1 0
load 2 0 0
";

const BOUNDARIES_TEXT: &[u8] = b"1 ready
2 stored
3 fault m0>1:Ask
4 stored
5 byte 0
6 refused 11
7 refused 9
8 refused 14
";

const SMALLEST: &[u8] = b"sites 1 preset 1\nload 0 0 0\n";

#[test]
fn where_pages_begin_and_end(rt: HostRuntime) {
    let ran = replay_bytes(&rt, BOUNDARIES);
    expect(&rt, &ran, 0, BOUNDARIES_TEXT, b"");
}

/// The smallest world, cut off after each of its bytes.
#[test]
fn cut_off(rt: HostRuntime) {
    for end in 0..=SMALLEST.len() {
        let ran = replay_bytes(&rt, &SMALLEST[..end]);
        match end {
            0..=16 => expect(&rt, &ran, 1, b"", b"shmdbg: line 1: bad line\n"),
            17 => expect(&rt, &ran, 0, b"1 ready\n", b""),
            18..=27 => expect(&rt, &ran, 1, b"1 ready\n", b"shmdbg: line 2: bad line\n"),
            _ => expect(&rt, &ran, 0, b"1 ready\n2 byte 0\n", b""),
        }
    }
}

#[test]
fn too_many_sites(rt: HostRuntime) {
    let ran = replay_bytes(&rt, b"sites 17\n");
    expect(&rt, &ran, 1, b"", b"shmdbg: line 1: bad line\n");
}

/// A line of 200 bytes is read and then refused; at 201 the next byte is refused at once, also at the end.
#[test]
fn long_lines(rt: HostRuntime) -> Result<(), Fail> {
    for (count, end, errors) in [
        (200, "", b"shmdbg: line 2: bad line\n".as_slice()),
        (200, "\n", b"shmdbg: line 2: bad line\n".as_slice()),
        (201, "", b"shmdbg: line 2: too long\n".as_slice()),
        (201, "\n", b"shmdbg: line 2: too long\n".as_slice()),
    ] {
        let mut script = String::from_str(rt.alloc(), "sites 1 preset 1\n")?;
        for _ in 0..count {
            script.push('a')?;
        }
        script.push_str(end)?;
        let ran = replay_bytes(&rt, script.as_bytes());
        expect(&rt, &ran, 1, b"1 ready\n", errors);
    }
    Ok(())
}

/// 100,000 lines are read to their end; one byte more is refused, whatever it is.
#[test]
fn as_many_lines_as_may_be(rt: HostRuntime) -> Result<(), Fail> {
    let mut script = String::from_str(rt.alloc(), "sites 1 preset 1\n")?;
    let mut text = String::from_str(rt.alloc(), "1 ready\n")?;
    for line in 2..=100_000 {
        script.push_str("load 0 0 0\n")?;
        writeln!(text, "{line} byte 0")?;
    }
    let ran = replay_bytes(&rt, script.as_bytes());
    expect(&rt, &ran, 0, text.as_bytes(), b"");
    script.push('x')?;
    let ran = replay_bytes(&rt, script.as_bytes());
    expect(&rt, &ran, 1, text.as_bytes(), b"shmdbg: too many lines\n");
    Ok(())
}
