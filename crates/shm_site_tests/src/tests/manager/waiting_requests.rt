use super::{LENT_TO_1, Ordered, Step, Told, expect_seen, run};
use shm_manager::Book;
use shm_model::Kind;
use shm_place::SiteId;
use std::process::Abort;
use std::test::Fail;

/// A seventeenth request is ignored, and so is one that waits. Once one is served there is room.
const NO_ROOM: [Step; 3] = [
    (2, Told::Ask(17, Kind::Read), Ordered::Ignored),
    (2, Told::Ask(16, Kind::Read), Ordered::Ignored),
    (1, Told::Confirm(1), Ordered::Hand(2, Kind::Read)),
];

const ROOM: [Step; 1] = [(2, Told::Ask(17, Kind::Read), Ordered::Nothing)];

#[test]
fn sixteen_requests_wait(rt: HostRuntime) -> Result<(), Fail> {
    let mut book = Book::new(rt.alloc(), SiteId(0))?;
    run(&rt, &mut book, &LENT_TO_1);
    ask_sixteen_times(&rt, &mut book);
    run(&rt, &mut book, &NO_ROOM);
    expect_seen(&rt, &book, (2, 0, Some((Kind::Read, SiteId(2)))));
    run(&rt, &mut book, &ROOM);
    drop(book);
    Ok(())
}

/// Site 2 asks sixteen times, and each request waits.
fn ask_sixteen_times(rt: &impl Abort, book: &mut Book) {
    'requests: for request in 1..=16 {
        let step = (2, Told::Ask(request, Kind::Read), Ordered::Nothing);
        run(rt, book, &[step]);
    }
}

/// Site 2 asks under 5 and then under 3, which is served by the first.
const SERVED: [Step; 6] = [
    (1, Told::Ask(1, Kind::Read), Ordered::Hand(1, Kind::Read)),
    (2, Told::Ask(5, Kind::Read), Ordered::Nothing),
    (2, Told::Ask(3, Kind::Read), Ordered::Nothing),
    (3, Told::Ask(1, Kind::Read), Ordered::Nothing),
    (1, Told::Confirm(1), Ordered::Hand(2, Kind::Read)),
    (2, Told::Confirm(2), Ordered::Hand(3, Kind::Read)),
];

#[test]
fn what_was_served_meanwhile_is_dropped(rt: HostRuntime) -> Result<(), Fail> {
    let mut book = Book::new(rt.alloc(), SiteId(0))?;
    run(&rt, &mut book, &SERVED);
    expect_seen(&rt, &book, (3, 0, Some((Kind::Read, SiteId(3)))));
    drop(book);
    Ok(())
}

const NO_NUMBER: [Step; 1] = [(1, Told::Ask(1, Kind::Read), Ordered::UsedUp)];

#[test]
fn no_number_follows_the_greatest(rt: HostRuntime) -> Result<(), Fail> {
    let mut book = Book::at(rt.alloc(), SiteId(0), u64::MAX)?;
    run(&rt, &mut book, &NO_NUMBER);
    expect_seen(&rt, &book, (u64::MAX, 0, None));
    drop(book);
    Ok(())
}

/// Site 2 waits until the greatest number is given, and no longer.
const LAST_NUMBER: [Step; 3] = [
    (1, Told::Ask(1, Kind::Read), Ordered::Hand(1, Kind::Read)),
    (2, Told::Ask(1, Kind::Read), Ordered::Nothing),
    (1, Told::Confirm(u64::MAX), Ordered::Nothing),
];

const NONE_LEFT: [Step; 2] = [
    (0, Told::Resend, Ordered::Nothing),
    (2, Told::Ask(1, Kind::Read), Ordered::UsedUp),
];

#[test]
fn nobody_waits_for_a_number_that_never_comes(rt: HostRuntime) -> Result<(), Fail> {
    let mut book = Book::at(rt.alloc(), SiteId(0), u64::MAX - 1)?;
    run(&rt, &mut book, &LAST_NUMBER);
    expect_seen(&rt, &book, (u64::MAX, 0, None));
    run(&rt, &mut book, &NONE_LEFT);
    drop(book);
    Ok(())
}
