//! A page stands in a list: the proof writes out the drop of a page, and not that of a list.
use super::{
    expect_grant, expect_number, expect_page, lent_page, of_lender, of_owner, written_page,
};
use crate::tests::expect;
use crate::tests::fill_heap::{Blocks, PAGE_BLOCKS, TRIES, fill};
use linked_list_allocator::LocalHeap;
use shm_page::{Entry, NilPage, OwnWritePage, WriteGrant};
use shm_place::SiteId;
use std::alloc::{AllocError, Global};
use std::process::Abort;
use std::test::Fail;

#[test]
fn an_opening_page_is_refused(rt: HostRuntime) -> Result<(), Fail> {
    let heap = LocalHeap::new(rt.alloc(), 1 << 13)?;
    let mut blocks = Vec::new(rt.alloc());
    expect(&rt, fill(&heap, &mut blocks).is_ok());
    expect(&rt, opens(&heap, false));
    let tries = opened_after(&heap, &mut blocks);
    drop(blocks);
    assert_eq!(rt; tries, Some(PAGE_BLOCKS));
    Ok(())
}

/// Whether there is memory for the first entry.
fn opens(heap: &LocalHeap, is_manager: bool) -> bool {
    match Entry::opening(heap, is_manager) {
        Ok(entry) => {
            drop(entry);
            true
        }
        Err(AllocError) => false,
    }
}

/// How often the manager's page is refused while the hole widens.
fn opened_after<'a>(heap: &'a LocalHeap, blocks: &mut Blocks<'a>) -> Option<usize> {
    'tries: for tries in 0..TRIES {
        if opens(heap, true) {
            return Some(tries);
        }
        drop(blocks.pop());
    }
    None
}

/// The written page in a list.
fn written_pages(
    alloc: Global,
    heap: &LocalHeap,
) -> Result<Vec<OwnWritePage<&LocalHeap>>, AllocError> {
    let mut pages = Vec::new(alloc);
    let page = written_page(heap)?;
    pages.push(page)?;
    Ok(pages)
}

/// Whether the page is handed over, else whether its first copy is lent.
#[derive(Clone, Copy)]
enum Way {
    Lent,
    Handed,
}

#[test]
fn a_first_copy_and_a_handing_are_refused(rt: HostRuntime) -> Result<(), Fail> {
    for way in [Way::Lent, Way::Handed] {
        let tries = gone_in_a_heap(&rt, rt.alloc(), way)?;
        assert!(rt;
            tries > Some(PAGE_BLOCKS),
            "the count of owners was refused too"
        );
    }
    Ok(())
}

fn gone_in_a_heap(rt: &impl Abort, alloc: Global, way: Way) -> Result<Option<usize>, AllocError> {
    let heap = LocalHeap::new(alloc, 1 << 14)?;
    let mut pages = written_pages(alloc, &heap)?;
    let mut blocks = Vec::new(alloc);
    expect(rt, fill(&heap, &mut blocks).is_ok());
    let tries = gone_after(rt, &mut pages, &mut blocks, way);
    drop(blocks);
    drop(pages);
    Ok(tries)
}

/// How often the page is refused memory while the hole widens. Each time it is back as it was.
fn gone_after<'a>(
    rt: &impl Abort,
    pages: &mut Vec<OwnWritePage<&'a LocalHeap>>,
    blocks: &mut Blocks<'a>,
    way: Way,
) -> Option<usize> {
    'tries: for tries in 0..TRIES {
        let gone = match way {
            Way::Lent => is_lent(rt, pages),
            Way::Handed => is_handed(rt, pages),
        };
        if gone {
            return Some(tries);
        }
        expect_page(rt, of_first(pages), (0, 7, 9));
        drop(blocks.pop());
    }
    None
}

fn of_first<'a>(pages: &[OwnWritePage<&'a LocalHeap>]) -> (u64, u8, u8) {
    match pages.first() {
        Some(page) => of_owner(page),
        None => (9, 0, 0),
    }
}

/// Whether the first copy is lent. Where memory is refused the page is back.
fn is_lent<'a>(rt: &impl Abort, pages: &mut Vec<OwnWritePage<&'a LocalHeap>>) -> bool {
    let Some(page) = pages.pop() else {
        return false;
    };
    if page.seen() > 1 {
        drop(page);
        return false;
    }
    match page.downgrade(1) {
        Ok((owner, grant)) => {
            let found = of_lender(&owner);
            drop(owner);
            drop(grant);
            expect_page(rt, found, (1, 7, 9));
            true
        }
        Err((back, _)) => {
            let _ = pages.push(back);
            false
        }
    }
}

/// Whether the page is handed over. Where memory is refused it is back.
fn is_handed<'a>(rt: &impl Abort, pages: &mut Vec<OwnWritePage<&'a LocalHeap>>) -> bool {
    let Some(page) = pages.pop() else {
        return false;
    };
    if page.seen() >= 1 {
        drop(page);
        return false;
    }
    match page.hand(1, SiteId(2)) {
        Ok((former, grant)) => {
            drop(former);
            expect_grant(rt, grant.number(), grant.bytes(), 1);
            drop(grant);
            true
        }
        Err((back, _)) => {
            let _ = pages.push(back);
            false
        }
    }
}

/// The written page on its way to its new owner, in a list.
fn on_its_way(alloc: Global, heap: &LocalHeap) -> Result<Vec<WriteGrant<&LocalHeap>>, AllocError> {
    let mut grants = Vec::new(alloc);
    match written_page(heap)?.hand(1, SiteId(2)) {
        Ok((former, grant)) => {
            drop(former);
            grants.push(grant)?;
            Ok(grants)
        }
        Err((back, error)) => {
            drop(back);
            Err(error)
        }
    }
}

#[test]
fn an_ownership_is_refused(rt: HostRuntime) -> Result<(), Fail> {
    let heap = LocalHeap::new(rt.alloc(), 1 << 15)?;
    let mut grants = on_its_way(rt.alloc(), &heap)?;
    let mut blocks = Vec::new(rt.alloc());
    expect(&rt, fill(&heap, &mut blocks).is_ok());
    let tries = installed_after(&rt, &mut grants, &mut blocks);
    drop(blocks);
    drop(grants);
    assert_eq!(rt; tries, Some(PAGE_BLOCKS));
    Ok(())
}

/// How often the new owner's page is refused while the hole widens. Each time page and grant are back as they were.
fn installed_after<'a>(
    rt: &impl Abort,
    grants: &mut Vec<WriteGrant<&'a LocalHeap>>,
    blocks: &mut Blocks<'a>,
) -> Option<usize> {
    'tries: for tries in 0..TRIES {
        if is_installed(rt, grants) {
            return Some(tries);
        }
        expect(rt, grants.len() == 1);
        drop(blocks.pop());
    }
    None
}

fn is_installed<'a>(rt: &impl Abort, grants: &mut Vec<WriteGrant<&'a LocalHeap>>) -> bool {
    let Some(grant) = grants.pop() else {
        return false;
    };
    let page = NilPage::after(0);
    if page.seen() >= grant.number() {
        drop(grant);
        return false;
    }
    match page.install_write(grant) {
        Ok(owner) => {
            let found = of_owner(&owner);
            drop(owner);
            expect_page(rt, found, (1, 7, 9));
            true
        }
        Err((back, unused, _)) => {
            expect_number(rt, back.seen(), 0);
            expect_grant(rt, unused.number(), unused.bytes(), 1);
            let _ = grants.push(unused);
            false
        }
    }
}

#[test]
fn a_copy_of_an_owners_page_is_refused(rt: HostRuntime) -> Result<(), Fail> {
    for is_lent in [false, true] {
        let tries = copied_in_a_heap(&rt, rt.alloc(), is_lent)?;
        assert_eq!(rt; tries, Some(PAGE_BLOCKS));
    }
    Ok(())
}

/// How often the copy of an owner's entry is refused, in a heap of its own.
fn copied_in_a_heap(
    rt: &impl Abort,
    alloc: Global,
    is_lent: bool,
) -> Result<Option<usize>, AllocError> {
    let heap = LocalHeap::new(alloc, 1 << 14)?;
    let entries = owners_entries(alloc, &heap, is_lent)?;
    let mut blocks = Vec::new(alloc);
    expect(rt, fill(&heap, &mut blocks).is_ok());
    let tries = copied_after(&entries, &mut blocks);
    drop(blocks);
    drop(entries);
    Ok(tries)
}

fn owners_entries(
    alloc: Global,
    heap: &LocalHeap,
    is_lent: bool,
) -> Result<Vec<Entry<&LocalHeap>>, AllocError> {
    let mut entries = Vec::new(alloc);
    let entry = owners_entry(heap, is_lent)?;
    entries.push(entry)?;
    Ok(entries)
}

fn owners_entry(heap: &LocalHeap, is_lent: bool) -> Result<Entry<&LocalHeap>, AllocError> {
    if !is_lent {
        return Ok(Entry::OwnWrite(written_page(heap)?));
    }
    let (owner, grant) = lent_page(heap, 1)?;
    drop(grant);
    Ok(Entry::OwnRead(owner))
}

fn copied_after<'a>(entries: &[Entry<&'a LocalHeap>], blocks: &mut Blocks<'a>) -> Option<usize> {
    let entry = entries.first()?;
    'tries: for tries in 0..TRIES {
        if is_copied(entry) {
            return Some(tries);
        }
        drop(blocks.pop());
    }
    None
}

fn is_copied<'a>(entry: &Entry<&'a LocalHeap>) -> bool {
    match entry.copy() {
        Ok(copy) => {
            drop(copy);
            true
        }
        Err(AllocError) => false,
    }
}
