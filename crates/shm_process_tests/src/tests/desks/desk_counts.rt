//! What a desk counts, as a site's caller is told it.
use crate::tests::desks::greeting_desk;
use shm_process::Desk;
use shm_seal::Seal;
use std::alloc::AllocError;
use std::test::Fail;

/// The desk takes these lines, and then tells this, whether its output is written between or not.
fn tells(desks: &mut [Desk], lines: &str, ask: &str, told: &str) -> Result<bool, AllocError> {
    let Some(desk) = desks.first_mut() else {
        return Ok(false);
    };
    desk.take(lines.as_bytes())?;
    desk.clear();
    desk.take(ask.as_bytes())?;
    Ok(desk.output() == told)
}

/// The journal's bytes and the envelopes sent, once this is recorded.
fn counted(desks: &mut [Desk], line: &[u8]) -> Result<Option<(u64, u64)>, AllocError> {
    let Some(desk) = desks.first_mut() else {
        return Ok(None);
    };
    desk.record(line)?;
    let counts = desk.counts();
    Ok(Some((counts.journal, counts.sent)))
}

/// A step of a caller's that sends an envelope, and is recorded in 24 bytes.
#[test]
fn what_a_step_sends_is_counted(rt: HostRuntime) -> Result<(), Fail> {
    let mut desks = greeting_desk(rt.alloc(), Seal::Bare, 2, 1)?;
    assert!(rt;
        tells(
            desks.as_mut_slice(),
            "",
            "ask 1 a health\n",
            "tell 1 a health steps 0 clock 0 taken 0 passed 0 waiting 0 received 0 sent 0 journal 100 since 1700000000 other-cluster 0 no-digest 0 wrong-digest 0\n"
        )?
    );
    assert!(rt;
        tells(
            desks.as_mut_slice(),
            "ask 1 b load 0 5\n",
            "ask 1 a health\n",
            "tell 1 a health steps 1 clock 1 taken 1 passed 1 waiting 1 received 0 sent 1 journal 124 since 1700000000 other-cluster 0 no-digest 0 wrong-digest 0\n"
        )?
    );
    Ok(())
}

/// Two envelopes, recorded in 36 bytes and in 39, each of which sends one; and one that is passed over.
#[test]
fn envelopes_that_make_a_step_are_counted(rt: HostRuntime) -> Result<(), Fail> {
    let mut desks = greeting_desk(rt.alloc(), Seal::Bare, 2, 0)?;
    let lines =
        "env 1 0 1 0 0 ask 0 0 1 read\nenv 0 0 2 0 0 hand 0 0 1 read 1\nenv 1 1 1 0 0 ask 0 0 1 read\n";
    assert!(rt;
        tells(
            desks.as_mut_slice(),
            lines,
            "ask 0 a health\n",
            "tell 0 a health steps 2 clock 3 taken 2 passed 1 waiting 0 received 2 sent 2 journal 175 since 1700000000 other-cluster 0 no-digest 0 wrong-digest 0\n"
        )?
    );
    Ok(())
}

/// What is recorded beside steps counts for the journal alone.
#[test]
fn what_is_recorded_is_counted(rt: HostRuntime) -> Result<(), Fail> {
    let mut desks = greeting_desk(rt.alloc(), Seal::Bare, 2, 0)?;
    assert_eq!(rt;
        counted(desks.as_mut_slice(), b"journal 2 0 4\n")?,
        Some((114, 0))
    );
    Ok(())
}
