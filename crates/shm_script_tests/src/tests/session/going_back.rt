use super::{load, preset, store};
use shm_debug::{BackFault, Session};
use shm_world::Answer;
use std::process::Abort;
use std::test::Fail;

/// So many stores, each of a byte to the next place of the first 1,000; store number n stores n modulo 251.
fn store_many(rt: &impl Abort, session: &mut Session, from: u32, to: u32) {
    for number in from..to {
        store_one(rt, session, number);
    }
}

fn store_one(rt: &impl Abort, session: &mut Session, number: u32) {
    let event = store(number % 1000, (number % 251) as u8);
    assert_eq!(rt; session.apply(event), Ok(Answer::Stored));
}

/// Goes back, and loads from a place. The load is taken back again.
fn expect_after(
    rt: &impl Abort,
    session: &mut Session,
    count: u32,
    left: u64,
    (offset, byte): (u32, u8),
) -> Result<(), Fail> {
    assert_eq!(rt; session.back(count), Ok(left));
    assert_eq!(rt; session.len(), left);
    assert_eq!(rt; session.apply(load(offset)), Ok(Answer::Byte(byte)));
    assert_eq!(rt; session.back(1), Ok(left));
    Ok(())
}

/// Over checkpoints, from before the first of them, and from where none is left.
fn go_back(rt: &impl Abort, session: &mut Session) -> Result<(), Fail> {
    store_many(rt, session, 0, 1200);
    expect_after(rt, session, 0, 1200, (199, 195))?;
    expect_after(rt, session, 50, 1150, (199, 199))?;
    expect_after(rt, session, 1, 1149, (148, 144))?;
    store_many(rt, session, 1149, 1200);
    expect_after(rt, session, 1, 1199, (198, 194))?;
    expect_after(rt, session, 1051, 148, (147, 147))?;
    expect_after(rt, session, 0, 148, (148, 0))?;
    Ok(())
}

#[test]
fn going_back_gives_the_bytes_of_before(rt: HostRuntime) -> Result<(), Fail> {
    let mut session = preset(rt.alloc())?;
    go_back(&rt, &mut session)?;
    drop(session);
    Ok(())
}

#[test]
fn going_back_past_the_beginning_changes_nothing(rt: HostRuntime) -> Result<(), Fail> {
    let mut session = preset(rt.alloc())?;
    assert_eq!(rt; session.is_empty(), true);
    assert_eq!(rt; session.back(1), Err(BackFault::PastBeginning));
    store_many(&rt, &mut session, 0, 3);
    assert_eq!(rt; session.back(4), Err(BackFault::PastBeginning));
    expect_after(&rt, &mut session, 0, 3, (2, 2))?;
    expect_after(&rt, &mut session, 3, 0, (2, 0))?;
    drop(session);
    Ok(())
}
