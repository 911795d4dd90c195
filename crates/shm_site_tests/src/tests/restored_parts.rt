//! The parts of a site that are read and made anew.
use shm_attach::{CallBook, Home};
use shm_keys::SegTable;
use shm_manager::{Book, Kind};
use shm_number::{Counter, KeptReply, Served};
use shm_page::Entry;
use shm_parts::{Books, Holdings};
use shm_place::{SegId, SiteId, SiteSet, Sites};
use shm_site::Site;
use std::alloc::{AllocError, Global};
use std::test::Fail;

/// One of four entries of a page of sevens, each of which met number 5.
fn entry(alloc: Global, which: usize) -> Result<Entry, AllocError> {
    let bytes = vec![in alloc; 7u8; 4096]?;
    if bytes.len() != 4096 {
        return Err(AllocError);
    }
    match which {
        0 => Entry::restored_copy(alloc, 5, bytes.as_slice()),
        1 => Entry::restored_own_read(alloc, 5, bytes.as_slice()),
        2 => Entry::restored_own_write(alloc, 5, bytes.as_slice()),
        _ => Entry::restored_handed(alloc, 5, SiteId(3), bytes.as_slice()),
    }
}

/// The number that an entry met, and its first and last byte.
fn met(alloc: Global, entry: Entry) -> Result<(u64, Option<u8>, Option<u8>), AllocError> {
    let seen = entry.seen();
    let bytes = entry.bytes(alloc)?;
    drop(entry);
    Ok((seen, bytes.first().copied(), bytes.last().copied()))
}

#[test]
fn entries_have_their_numbers_and_bytes(rt: HostRuntime) -> Result<(), Fail> {
    for which in 0..4 {
        let told = met(rt.alloc(), entry(rt.alloc(), which)?)?;
        assert_eq!(rt; told, (5, Some(7), Some(7)));
    }
    Ok(())
}

#[test]
fn a_book_goes_on(rt: HostRuntime) -> Result<(), Fail> {
    let mut served = Served::new();
    served.take(SiteId(2), 9);
    let running = Some((Kind::Write, SiteId(2)));
    let book = Book::restored(rt.alloc(), SiteId(1), SiteSet::empty(), 4, running, served)?;
    let told = (book.owner(), book.served().greatest(SiteId(2)));
    drop(book);
    assert_eq!(rt; told, (SiteId(1), 9));
    Ok(())
}

/// A single site that may hold two copies and purged segment 3.
fn purged_site(alloc: Global) -> Result<Site, AllocError> {
    let Ok(sites) = Sites::new(1) else {
        return Err(AllocError);
    };
    let me = SiteId(0);
    let mut holdings = Holdings::limited(alloc, sites, me, Some(2));
    let _ = holdings.restore_purged(SegId(3))?;
    let home = Home::restored(SegTable::new(alloc, me, sites), KeptReply::new());
    let requests = Counter::after(3);
    let calls = CallBook::new();
    Ok(Site::restored(
        alloc,
        sites,
        me,
        holdings,
        Books::new(alloc),
        requests,
        calls,
        home,
    ))
}

#[test]
fn a_site_is_made_of_its_parts(rt: HostRuntime) -> Result<(), Fail> {
    let site = purged_site(rt.alloc())?;
    let holdings = site.holdings();
    let counts = (
        holdings.stored_count(),
        holdings.purged().count(),
        site.books().count(),
    );
    let purged = holdings.purged().at_place(0);
    let told = (site.me(), site.requests().last(), site.calls().begun());
    drop(site);
    assert_eq!(rt; counts, (0, 1, 0));
    assert_eq!(rt; purged, Some(SegId(3)));
    assert_eq!(rt; told, (SiteId(0), 3, 0));
    Ok(())
}
