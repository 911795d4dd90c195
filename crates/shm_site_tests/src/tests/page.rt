//! Each call once on its happy path, and once with each of its growths refused.
ghost use Rattle.std.specs.Prelude.{◌≡◌, IfOk};

use shm_page::{Entry, OwnReadPage, OwnWritePage, ReadGrant};
use std::alloc::{AllocError, Allocator};
use std::process::Abort;

mod out_of_memory;
mod states;

/// A page at its owner, with 7 stored at its first place and 9 at its last.
fn written_page<A: Allocator + Copy>(alloc: A) -> Result<OwnWritePage<A>, AllocError>
    ensures { IfOk result (λ page. page.seen ≡ 0) }
{
    match Entry::opening(alloc, true)? {
        Entry::OwnWrite(mut page) => {
            store_at_both_ends(&mut page);
            Ok(page)
        }
        other => {
            drop(other);
            Err(AllocError)
        }
    }
}

/// Stores 7 at the page's first place and 9 at its last.
fn store_at_both_ends<A: Allocator + Copy>(page: &mut OwnWritePage<A>)
    ensures { page.new.seen ≡ page.old.seen }
{
    page.store(0, 7);
    page.store(4095, 9);
}

/// An owner that lent one copy, and that copy.
fn lent_page<A: Allocator + Copy>(
    alloc: A,
    number: u64,
) -> Result<(OwnReadPage<A>, ReadGrant<A>), AllocError>
    ensures owner { IfOk result (λ r. r.0.seen ≡ number) }
    ensures grant { IfOk result (λ r. r.1.number ≡ number) }
{
    match written_page(alloc)?.downgrade(number) {
        Ok(lent) => Ok(lent),
        Err((back, error)) => {
            drop(back);
            Err(error)
        }
    }
}

/// Stops the test where a page was found otherwise: its number, and its first and last byte.
fn expect_page(rt: &impl Abort, found: (u64, u8, u8), wanted: (u64, u8, u8)) {
    assert_eq!(rt; found, wanted);
}

/// Stops the test where a grant isn't that of the written page under this number.
fn expect_grant(rt: &impl Abort, number: u64, bytes: &[u8], wanted: u64) {
    assert_eq!(rt; (number, bytes.len()), (wanted, 4096));
    assert_eq!(rt; bytes.first(), Some(&7));
    assert_eq!(rt; bytes.last(), Some(&9));
}

/// Stops the test where a number was found otherwise.
fn expect_number(rt: &impl Abort, found: u64, wanted: u64) {
    assert_eq!(rt; found, wanted);
}

/// The number of an owner's page, and its first and last byte.
fn of_owner<A: Allocator + Copy>(page: &OwnWritePage<A>) -> (u64, u8, u8) {
    (page.seen(), page.load(0), page.load(4095))
}

/// The same of a page that was lent.
fn of_lender<A: Allocator + Copy>(page: &OwnReadPage<A>) -> (u64, u8, u8) {
    (page.seen(), page.load(0), page.load(4095))
}
