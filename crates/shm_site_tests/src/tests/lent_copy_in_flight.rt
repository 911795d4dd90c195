//! A lent copy on its way.
use shm_page::{Entry, NilPage, Out, ReadGrant, lend_to, take_copy};
use shm_place::SiteId;
use std::alloc::{AllocError, Global};
use std::test::Fail;

/// The copy that site 0 lends to site 2 under number 1.
fn lent_copy(alloc: Global) -> Result<ReadGrant, AllocError> {
    match lend_to(Entry::opening(alloc, true)?, 1, SiteId(0), SiteId(2)) {
        Ok((owner, out)) => {
            drop(owner);
            copy_in(out)
        }
        Err((owner, error)) => {
            drop(owner);
            Err(error)
        }
    }
}

fn copy_in(out: Out) -> Result<ReadGrant, AllocError> {
    match out {
        Out::Read(_, grant) => Ok(grant),
        other => {
            drop(other);
            Err(AllocError)
        }
    }
}

#[test]
fn a_copy_is_lent_and_taken(rt: HostRuntime) -> Result<(), Fail> {
    let grant = lent_copy(rt.alloc())?;
    let sent = (grant.number(), grant.bytes().len());
    let (reader, out) = take_copy(Entry::Nil(NilPage::after(0)), grant);
    let confirms = matches!(out, Out::Confirm(1));
    let has_copy = matches!(reader, Entry::Copy(_));
    let number = reader.seen();
    drop(out);
    drop(reader);
    assert_eq!(rt; sent, (1, 4096));
    assert_eq!(rt; (confirms, has_copy, number), (true, true, 1));
    Ok(())
}
