use super::{LENT_TO_1, Ordered, Step, Told, expect_seen, has_copy, run};
use crate::tests::expect;
use shm_manager::Book;
use shm_model::Kind;
use shm_place::SiteId;
use std::alloc::{AllocError, Global};
use std::process::Abort;
use std::test::Fail;

const CONFIRMED: [Step; 4] = [
    (0, Told::Resend, Ordered::Hand(1, Kind::Read)),
    (2, Told::Confirm(1), Ordered::Ignored),
    (1, Told::Confirm(2), Ordered::Ignored),
    (1, Told::Confirm(1), Ordered::Nothing),
];

#[test]
fn readers_get_copies(rt: HostRuntime) -> Result<(), Fail> {
    let mut book = Book::new(rt.alloc(), SiteId(0))?;
    run(&rt, &mut book, &LENT_TO_1);
    expect_seen(&rt, &book, (1, 0, Some((Kind::Read, SiteId(1)))));
    run(&rt, &mut book, &CONFIRMED);
    expect_seen(&rt, &book, (1, 0, None));
    expect(&rt, has_copy(&book, 1) && !has_copy(&book, 0));
    drop(book);
    Ok(())
}

/// After these notes sites 1 and 2 have copies.
const READ_BY_TWO: [Step; 4] = [
    (1, Told::Ask(1, Kind::Read), Ordered::Hand(1, Kind::Read)),
    (1, Told::Confirm(1), Ordered::Nothing),
    (2, Told::Ask(1, Kind::Read), Ordered::Hand(2, Kind::Read)),
    (2, Told::Confirm(2), Ordered::Nothing),
];

const WRITTEN: [Step; 7] = [
    (3, Told::Ask(1, Kind::Write), Ordered::Clear(1, 2)),
    (2, Told::Cleared(3), Ordered::Nothing),
    (2, Told::Cleared(3), Ordered::Ignored),
    (0, Told::Resend, Ordered::Clear(1, 1)),
    (1, Told::Cleared(3), Ordered::Hand(3, Kind::Write)),
    (0, Told::Resend, Ordered::Hand(3, Kind::Write)),
    (3, Told::Confirm(3), Ordered::Nothing),
];

#[test]
fn a_writer_waits_for_each_copy(rt: HostRuntime) -> Result<(), Fail> {
    let mut book = Book::new(rt.alloc(), SiteId(0))?;
    run(&rt, &mut book, &READ_BY_TWO);
    run(&rt, &mut book, &WRITTEN);
    expect_seen(&rt, &book, (3, 3, None));
    expect(&rt, !has_copy(&book, 1));
    drop(book);
    Ok(())
}

/// Site 4 waits behind site 3, for which site 2 gave its copy up.
const WAITING: [Step; 3] = [
    (3, Told::Ask(1, Kind::Write), Ordered::Clear(1, 2)),
    (2, Told::Cleared(3), Ordered::Nothing),
    (4, Told::Ask(1, Kind::Read), Ordered::Nothing),
];

const FORGOTTEN: [Step; 1] = [(0, Told::Resend, Ordered::Clear(1, 2))];

const REMEMBERED: [Step; 1] = [(0, Told::Resend, Ordered::Clear(1, 1))];

const WAITING_AGAIN: [Step; 1] = [(4, Told::Ask(1, Kind::Read), Ordered::Nothing)];

#[test]
fn a_restart_forgets_who_cleared_and_who_waits(rt: HostRuntime) -> Result<(), Fail> {
    let mut book = Book::new(rt.alloc(), SiteId(0))?;
    run(&rt, &mut book, &READ_BY_TWO);
    run(&rt, &mut book, &WAITING);
    expect(&rt, restart_beside_copy(&rt, &mut book).is_ok());
    run(&rt, &mut book, &WAITING_AGAIN);
    drop(book);
    Ok(())
}

/// The book restarts, and its copy doesn't.
fn restart_beside_copy(rt: &impl Abort, book: &mut Book<Global>) -> Result<(), AllocError> {
    let mut copy = book.copy()?;
    book.forget_volatile();
    run(rt, book, &FORGOTTEN);
    run(rt, &mut copy, &REMEMBERED);
    drop(copy);
    Ok(())
}
