//! What a site makes of its own envelopes: it notes the first of a step that it doesn't have.
use crate::tests::desks::silent_desk;
use shm_process::Desk;
use std::alloc::AllocError;
use std::test::Fail;

/// Lines to site 1, and the later step that it has noted after each. They are its first step, what that step may have sent, what another site
/// sent, what no site can have sent yet, and envelopes of two later steps.
const LINES: [(&str, Option<u64>); 6] = [
    ("ask 1 a tick\n", None),
    ("env 1 0 1 0 0 ask 0 0 1 read\n", None),
    ("env 2 0 7 3 0 ask 0 0 1 read\n", None),
    ("env 1 0 4294967299 3 0 ask 0 0 1 read\n", None),
    ("env 1 0 2 1 0 ask 0 0 1 read\n", Some(2)),
    ("env 1 0 9 3 0 ask 0 0 2 read\n", Some(2)),
];

/// The later step that the site has noted once it took the line.
fn later(desks: &mut [Desk], line: &str) -> Result<Option<u64>, AllocError> {
    let Some(desk) = desks.first_mut() else {
        return Ok(None);
    };
    desk.take(line.as_bytes())?;
    Ok(desk.later())
}

#[test]
fn the_first_later_step_of_its_own_is_noted(rt: HostRuntime) -> Result<(), Fail> {
    let mut desks = silent_desk(rt.alloc(), 3, 1)?;
    for (line, noted) in &LINES {
        assert!(rt; later(desks.as_mut_slice(), line)? == *noted);
    }
    Ok(())
}
