//! A page on its way to its new owner, and how its bytes are refused for memory.
//!
//! Entries and grants stand in lists: the proof writes out their drop, and not that of a list.
use super::expect;
use crate::tests::fill_heap::{Blocks, PAGE_BLOCKS, TRIES, fill};
use linked_list_allocator::LocalHeap;
use shm_page::{Entry, Out, WriteGrant, hand_to, take_ownership};
use shm_place::SiteId;
use std::alloc::{AllocError, Allocator, Global};
use std::process::Abort;
use std::test::Fail;

/// The page that site 0 hands over to site 2 under number 1.
fn handed_page<A: Allocator + Copy>(
    listed: Global,
    alloc: A,
) -> Result<Vec<WriteGrant<A>>, AllocError> {
    let mut grants = Vec::new(listed);
    match hand_to(Entry::opening(alloc, true)?, 1, SiteId(0), SiteId(2)) {
        Ok((former, out)) => {
            drop(former);
            keep_page(&mut grants, out)?;
            Ok(grants)
        }
        Err((owner, error)) => {
            drop(owner);
            Err(error)
        }
    }
}

fn keep_page<A: Allocator + Copy>(
    grants: &mut Vec<WriteGrant<A>>,
    out: Out<A>,
) -> Result<(), AllocError> {
    match out {
        Out::Write(_, grant) => {
            grants.push(grant)?;
            Ok(())
        }
        other => {
            drop(other);
            Err(AllocError)
        }
    }
}

/// The entry of a site that has nothing of the page.
fn nil_entry<A: Allocator + Copy>(listed: Global, alloc: A) -> Result<Vec<Entry<A>>, AllocError> {
    let mut entries = Vec::new(listed);
    let entry = Entry::opening(alloc, false)?;
    entries.push(entry)?;
    Ok(entries)
}

/// Whether the page is taken, and confirmed. Where memory is refused, entry and grant are back.
fn takes<A: Allocator + Copy>(
    entries: &mut Vec<Entry<A>>,
    grants: &mut Vec<WriteGrant<A>>,
) -> Option<bool> {
    let grant = grants.pop()?;
    let Some(entry) = entries.pop() else {
        drop(grant);
        return None;
    };
    match take_ownership(entry, grant) {
        Ok((owner, out)) => {
            let confirms = matches!(out, Out::Confirm(1));
            drop(out);
            let _ = entries.push(owner);
            Some(confirms)
        }
        Err((back, unused, _)) => {
            let _ = entries.push(back);
            let _ = grants.push(unused);
            None
        }
    }
}

fn is_owner<A: Allocator + Copy>(entries: &[Entry<A>]) -> bool {
    match entries.first() {
        Some(Entry::OwnWrite(page)) => page.seen() == 1,
        _ => false,
    }
}

/// Whether nothing of the page is here, and all of it is on its way still.
fn is_on_its_way<A: Allocator + Copy>(entries: &[Entry<A>], grants: &[WriteGrant<A>]) -> bool {
    match (entries.first(), grants.first()) {
        (Some(entry), Some(grant)) => {
            (entry.seen(), grant.number(), grant.bytes().len()) == (0, 1, 4096)
        }
        _ => false,
    }
}

#[test]
fn a_page_comes_to_its_new_owner(rt: HostRuntime) -> Result<(), Fail> {
    let mut grants = handed_page(rt.alloc(), rt.alloc())?;
    let mut entries = nil_entry(rt.alloc(), rt.alloc())?;
    let taken = takes(&mut entries, &mut grants) == Some(true) && is_owner(&entries);
    drop(entries);
    drop(grants);
    expect(&rt, taken);
    Ok(())
}

#[test]
fn an_ownership_is_refused(rt: HostRuntime) -> Result<(), Fail> {
    let heap = LocalHeap::new(rt.alloc(), 1 << 15)?;
    let mut grants = handed_page(rt.alloc(), &heap)?;
    let mut entries = nil_entry(rt.alloc(), &heap)?;
    let mut blocks = Vec::new(rt.alloc());
    expect(&rt, fill(&heap, &mut blocks).is_ok());
    let tries = refusals(&rt, &mut entries, &mut grants, &mut blocks);
    let taken = is_owner(&entries);
    drop(blocks);
    drop(entries);
    drop(grants);
    assert_eq!(rt; (tries, taken), (Some(PAGE_BLOCKS), true));
    Ok(())
}

/// How often memory for the page is refused while the hole widens.
fn refusals<'a>(
    rt: &impl Abort,
    entries: &mut Vec<Entry<&'a LocalHeap>>,
    grants: &mut Vec<WriteGrant<&'a LocalHeap>>,
    blocks: &mut Blocks<'a>,
) -> Option<usize> {
    'tries: for tries in 0..TRIES {
        if let Some(confirms) = takes(entries, grants) {
            expect(rt, confirms);
            return Some(tries);
        }
        expect(rt, is_on_its_way(entries, grants));
        drop(blocks.pop());
    }
    None
}
