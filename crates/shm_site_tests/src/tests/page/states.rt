ghost use Rattle.std.specs.Prelude.{◌≡◌, ◌<◌, IfOk};

use super::{
    expect_grant, expect_number, expect_page, lent_page, of_lender, of_owner, written_page,
};
use shm_page::{CopyPage, Entry, HandedPage, NilPage, ReadGrant, WriteGrant};
use shm_place::SiteId;
use std::alloc::{AllocError, Global};
use std::test::Fail;

/// A copy that an owner lent.
fn a_copy(alloc: Global, number: u64) -> Result<ReadGrant, AllocError>
    ensures { IfOk result (λ grant. grant.number ≡ number) }
{
    let (owner, grant) = lent_page(alloc, number)?;
    drop(owner);
    Ok(grant)
}

/// A page that was handed to site 3, and its grant.
fn handed_page(alloc: Global, number: u64) -> Result<(HandedPage, WriteGrant), AllocError>
    requires { 0 < number }
    ensures page { IfOk result (λ r. r.0.seen ≡ number) }
    ensures grant { IfOk result (λ r. r.1.number ≡ number) }
{
    match written_page(alloc)?.hand(number, SiteId(3)) {
        Ok(handed) => Ok(handed),
        Err((back, error)) => {
            drop(back);
            Err(error)
        }
    }
}

/// What is left of a page that was handed over.
fn what_is_left(alloc: Global, number: u64) -> Result<HandedPage, AllocError>
    requires { 0 < number }
    ensures { IfOk result (λ page. page.seen ≡ number) }
{
    let (page, grant) = handed_page(alloc, number)?;
    drop(grant);
    Ok(page)
}

/// A page on its way to its new owner.
fn on_its_way(alloc: Global, number: u64) -> Result<WriteGrant, AllocError>
    requires { 0 < number }
    ensures { IfOk result (λ grant. grant.number ≡ number) }
{
    let (page, grant) = handed_page(alloc, number)?;
    drop(page);
    Ok(grant)
}

/// The number of a copy, and its first and last byte.
fn of_copy(page: &CopyPage) -> (u64, u8, u8) {
    (page.seen(), page.load(0), page.load(4095))
}

#[test]
fn an_opening_page_is_zero_at_its_manager(rt: HostRuntime) -> Result<(), Fail> {
    let Entry::OwnWrite(page) = Entry::opening(rt.alloc(), true)? else {
        return Err(Fail::new("the manager owns the page at first"));
    };
    expect_page(&rt, of_owner(&page), (0, 0, 0));
    Ok(())
}

#[test]
fn an_opening_page_is_nowhere_else(rt: HostRuntime) -> Result<(), Fail> {
    let Entry::Nil(page) = Entry::opening(rt.alloc(), false)? else {
        return Err(Fail::new("nobody else has the page at first"));
    };
    expect_number(&rt, page.copy().seen(), 0);
    Ok(())
}

#[test]
fn an_owner_lends(rt: HostRuntime) -> Result<(), Fail> {
    let (owner, grant) = lent_page(rt.alloc(), 1)?;
    expect_page(&rt, of_lender(&owner), (1, 7, 9));
    expect_grant(&rt, grant.number(), grant.bytes(), 1);
    Ok(())
}

#[test]
fn an_owner_lends_once_more(rt: HostRuntime) -> Result<(), Fail> {
    let (mut owner, _) = lent_page(rt.alloc(), 1)?;
    let grant = owner.lend(2)?;
    expect_page(&rt, of_lender(&owner), (2, 7, 9));
    expect_grant(&rt, grant.number(), grant.bytes(), 2);
    Ok(())
}

#[test]
fn a_lent_page_meets_a_number(rt: HostRuntime) -> Result<(), Fail> {
    let (mut owner, _) = lent_page(rt.alloc(), 1)?;
    owner.meet(3);
    let copy = owner.copy()?;
    expect_page(&rt, of_lender(&copy), (3, 7, 9));
    Ok(())
}

#[test]
fn a_store_leaves_earlier_grants(rt: HostRuntime) -> Result<(), Fail> {
    let (owner, grant) = lent_page(rt.alloc(), 1)?;
    let mut owner = owner.upgrade(2);
    owner.store(0, 8);
    expect_page(&rt, of_owner(&owner), (2, 8, 9));
    expect_grant(&rt, grant.number(), grant.bytes(), 1);
    Ok(())
}

#[test]
fn an_owner_meets_numbers(rt: HostRuntime) -> Result<(), Fail> {
    let mut owner = written_page(rt.alloc())?;
    owner.meet(1);
    let owner = owner.upgrade(2);
    let copy = owner.copy()?;
    expect_page(&rt, of_owner(&copy), (2, 7, 9));
    Ok(())
}

#[test]
fn a_copy_comes(rt: HostRuntime) -> Result<(), Fail> {
    let grant = a_copy(rt.alloc(), 1)?;
    let again = grant.copy()?;
    expect_grant(&rt, again.number(), again.bytes(), 1);
    let page = NilPage::after(0).install_read(grant);
    expect_page(&rt, of_copy(&page), (1, 7, 9));
    Ok(())
}

#[test]
fn a_copy_goes(rt: HostRuntime) -> Result<(), Fail> {
    let page = NilPage::after(0).install_read(a_copy(rt.alloc(), 1)?);
    let copy = page.copy()?;
    expect_number(&rt, copy.forget().seen(), 1);
    expect_number(&rt, page.clear(2).clear(3).seen(), 3);
    Ok(())
}

#[test]
fn a_newer_copy_comes(rt: HostRuntime) -> Result<(), Fail> {
    let first = a_copy(rt.alloc(), 1)?;
    let second = a_copy(rt.alloc(), 2)?;
    let page = NilPage::after(0).install_read(first).install_read(second);
    expect_page(&rt, of_copy(&page), (2, 7, 9));
    Ok(())
}

#[test]
fn a_page_is_handed_over_again(rt: HostRuntime) -> Result<(), Fail> {
    let page = what_is_left(rt.alloc(), 1)?;
    expect_number(&rt, page.to().0 as u64, 3);
    let grant = page.again()?;
    let again = grant.copy()?;
    expect_grant(&rt, again.number(), again.bytes(), 1);
    Ok(())
}

#[test]
fn a_handed_page_is_cleared(rt: HostRuntime) -> Result<(), Fail> {
    let page = what_is_left(rt.alloc(), 1)?.copy()?;
    expect_number(&rt, page.seen(), 1);
    expect_number(&rt, page.clear(2).seen(), 2);
    Ok(())
}

#[test]
fn a_handed_page_comes_back_to_read(rt: HostRuntime) -> Result<(), Fail> {
    let page = what_is_left(rt.alloc(), 1)?;
    let page = page.install_read(a_copy(rt.alloc(), 2)?);
    expect_page(&rt, of_copy(&page), (2, 7, 9));
    Ok(())
}

#[test]
fn a_handed_page_comes_back_to_write(rt: HostRuntime) -> Result<(), Fail> {
    let page = what_is_left(rt.alloc(), 1)?;
    let Ok(owner) = page.install_write(on_its_way(rt.alloc(), 2)?) else {
        return Err(Fail::new("memory was refused"));
    };
    expect_page(&rt, of_owner(&owner), (2, 7, 9));
    Ok(())
}

#[test]
fn a_page_comes_to_its_new_owner(rt: HostRuntime) -> Result<(), Fail> {
    let grant = on_its_way(rt.alloc(), 1)?;
    let Ok(owner) = NilPage::after(0).install_write(grant) else {
        return Err(Fail::new("memory was refused"));
    };
    expect_page(&rt, of_owner(&owner), (1, 7, 9));
    Ok(())
}

#[test]
fn a_page_comes_to_its_reader(rt: HostRuntime) -> Result<(), Fail> {
    let page = NilPage::after(0).install_read(a_copy(rt.alloc(), 1)?);
    let Ok(owner) = page.install_write(on_its_way(rt.alloc(), 2)?) else {
        return Err(Fail::new("memory was refused"));
    };
    expect_page(&rt, of_owner(&owner), (2, 7, 9));
    Ok(())
}

#[test]
fn a_lent_page_is_handed_over(rt: HostRuntime) -> Result<(), Fail> {
    let (owner, _) = lent_page(rt.alloc(), 1)?;
    let Ok((page, grant)) = owner.hand(2, SiteId(1)) else {
        return Err(Fail::new("memory was refused"));
    };
    expect_number(&rt, page.seen(), 2);
    expect_number(&rt, page.to().0 as u64, 1);
    expect_grant(&rt, grant.number(), grant.bytes(), 2);
    Ok(())
}

#[test]
fn an_entry_is_copied(rt: HostRuntime) -> Result<(), Fail> {
    let mut entries = Vec::new(rt.alloc());
    let page = written_page(rt.alloc())?;
    entries.push(Entry::OwnWrite(page))?;
    expect_page(&rt, of_copied(&entries)?, (0, 7, 9));
    Ok(())
}

/// The number of the copy of an owner's entry, and its first and last byte.
fn of_copied(entries: &[Entry]) -> Result<(u64, u8, u8), AllocError> {
    let Some(entry) = entries.first() else {
        return Err(AllocError);
    };
    let copy = entry.copy()?;
    let found = match &copy {
        Entry::OwnWrite(page) => of_owner(page),
        _ => (9, 0, 0),
    };
    drop(copy);
    Ok(found)
}
