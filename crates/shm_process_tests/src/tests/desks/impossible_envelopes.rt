//! Envelopes that no site can have sent: from too far ahead, or with a number above the clock of their step.
use crate::tests::desks::silent_desk;
use shm_process::Desk;
use std::alloc::{AllocError, Global};
use std::test::Fail;

/// Site 0 of two is told these. The first two are of another time altogether; each of the others names the number 6 at the clock 5.
const BEYOND: &str = "env 1 0 18446744073709551595 9999 0 confirm 0 0 4294967295\n\
    env 1 0 5 9999 0 ask 0 0 18446744073709551615 write\n\
    env 1 0 5 4 0 ask 0 0 6 read\n\
    env 1 0 5 4 0 clear 0 1 6\n\
    env 1 0 5 4 0 cleared 0 0 6\n\
    env 1 0 5 4 0 hand 0 1 6 read 1\n\
    env 1 0 5 4 0 confirm 0 0 6\n\
    env 1 0 5 4 0 call 6 detach id 0\n\
    env 1 0 5 4 0 reply 6 ok\n";

/// The same with the number 5.
const FITTING: &str = "env 1 0 5 4 0 ask 0 0 5 read\n\
    env 1 0 5 4 0 clear 0 1 5\n\
    env 1 0 5 4 0 cleared 0 0 5\n\
    env 1 0 5 4 0 hand 0 1 5 read 1\n\
    env 1 0 5 4 0 confirm 0 0 5\n\
    env 1 0 5 4 0 call 5 detach id 0\n\
    env 1 0 5 4 0 reply 5 ok\n";

/// The envelope that brings page 1 of zeros, under this number.
fn page_line(alloc: Global, number: u32) -> Result<String, AllocError> {
    let mut line = format!(in alloc; "env 1 0 5 4 0 page 0 1 {number} read ")?;
    'groups: for _ in 0..1365 {
        line.push_str("AAAA")?;
    }
    line.push_str("AA==\n")?;
    Ok(line)
}

/// The clock of a desk's node, how many steps it made, and how many lines it took and passed over, once it took these lines.
fn state_after(
    desks: &mut [Desk],
    lines: &str,
) -> Result<Option<(u64, u64, u64, u64)>, AllocError> {
    let Some(desk) = desks.first_mut() else {
        return Ok(None);
    };
    desk.take(lines.as_bytes())?;
    let node = desk.node();
    let state = (
        node.clock(),
        node.steps(),
        node.lines_taken(),
        node.lines_passed(),
    );
    Ok(Some(state))
}

#[test]
fn what_no_site_can_have_sent_is_passed_over(rt: HostRuntime) -> Result<(), Fail> {
    let alloc = rt.alloc();
    let mut desks = silent_desk(alloc, 2, 0)?;
    assert_eq!(rt;
        state_after(desks.as_mut_slice(), BEYOND)?,
        Some((0, 0, 0, 9))
    );
    let page = page_line(alloc, 6)?;
    assert_eq!(rt;
        state_after(desks.as_mut_slice(), page.as_str())?,
        Some((0, 0, 0, 10))
    );
    let is_quiet = desks.iter().all(|desk| desk.output().is_empty());
    assert!(rt; is_quiet);
    Ok(())
}

#[test]
fn what_fits_its_clock_is_taken(rt: HostRuntime) -> Result<(), Fail> {
    let alloc = rt.alloc();
    let mut desks = silent_desk(alloc, 2, 0)?;
    assert_eq!(rt;
        state_after(desks.as_mut_slice(), FITTING)?,
        Some((12, 7, 7, 0))
    );
    let page = page_line(alloc, 5)?;
    assert_eq!(rt;
        state_after(desks.as_mut_slice(), page.as_str())?,
        Some((13, 8, 8, 0))
    );
    Ok(())
}

/// At the clock 13 a clock of 13 + 2^32 is taken, and none above it.
#[test]
fn a_clock_is_taken_up_to_its_bound(rt: HostRuntime) -> Result<(), Fail> {
    let mut desks = silent_desk(rt.alloc(), 2, 0)?;
    let beyond = "env 1 0 12 0 0 ask 0 0 1 read\nenv 1 0 4294967310 2 0 confirm 0 0 1\n";
    assert_eq!(rt;
        state_after(desks.as_mut_slice(), beyond)?,
        Some((13, 1, 1, 1))
    );
    let within = "env 1 0 4294967309 2 0 confirm 0 0 1\n";
    assert_eq!(rt;
        state_after(desks.as_mut_slice(), within)?,
        Some((4294967310, 2, 2, 1))
    );
    Ok(())
}
