ghost use Rattle.std.specs.Prelude.{◌≡◌, IsTrue, IfOk};
ghost use Rattle.shm_model.specs.Site.{blank};
ghost use Rattle.shm_page.specs.State.{nil_of, page_of};

use crate::copy_page::CopyPage;
use crate::handed_page::HandedPage;
use crate::nil_page::NilPage;
use crate::own_read_page::OwnReadPage;
use crate::own_write_page::OwnWritePage;
use std::alloc::{AllocError, Allocator, Global};

/// One page at one site.
#[derive(Drop)]
pub enum Entry<A: Allocator + Copy = Global> {
    Nil(NilPage),
    Copy(CopyPage<A>),
    OwnRead(OwnReadPage<A>),
    OwnWrite(OwnWritePage<A>),
    Handed(HandedPage<A>),
}

impl<A: Allocator + Copy> Entry<A> {
    ghost use Rattle.shm_model.specs.Entry as model;
    ghost use Rattle.shm_page.specs.Entry.{entry_of};

    /// A page's entry before anything has happened: the page's manager owns the page. At other sites this takes no memory.
    pub fn opening(alloc: A, is_manager: bool) -> Result<Entry<A>, AllocError>
        ensures here { IsTrue is_manager
            → IfOk result (λ entry. entry ≡ Entry.OwnWrite (page_of 0 blank)) }
        ensures elsewhere { ¬ IsTrue is_manager → result ≡ Ok (Entry.Nil (nil_of 0)) }
    {
        if !is_manager {
            return Ok(Entry::Nil(NilPage::after(0)));
        }
        let page = OwnWritePage::blank(alloc)?;
        Ok(Entry::OwnWrite(page))
    }

    /// The greatest transaction number that the site has met for this page.
    pub fn seen(&self) -> u64
        ensures { result ≡ model.seen (entry_of self.now) }
    {
        match self {
            Entry::Nil(page) => page.seen(),
            Entry::Copy(page) => page.seen(),
            Entry::OwnRead(page) => page.seen(),
            Entry::OwnWrite(page) => page.seen(),
            Entry::Handed(page) => page.seen(),
        }
    }

    /// The bytes that the site has of the page, copied; none where it has none.
    pub fn bytes(&self, alloc: A) -> Result<Vec<u8, A>, AllocError>
        ensures { IfOk result (λ bytes. bytes.items ≡ model.bytes (entry_of self.now)) }
    {
        match self {
            Entry::Nil(_) => Ok(Vec::new(alloc)),
            Entry::Copy(page) => page.bytes(alloc),
            Entry::OwnRead(page) => page.bytes(alloc),
            Entry::OwnWrite(page) => page.bytes(alloc),
            Entry::Handed(page) => page.bytes(alloc),
        }
    }

    /// An equal entry.
    pub fn copy(&self) -> Result<Entry<A>, AllocError>
        ensures { IfOk result (λ entry. entry ≡ self.now) }
    {
        match self {
            Entry::Nil(page) => Ok(Entry::Nil(page.copy())),
            Entry::Copy(page) => Ok(Entry::Copy(page.copy()?)),
            Entry::OwnRead(page) => Ok(Entry::OwnRead(page.copy()?)),
            Entry::OwnWrite(page) => Ok(Entry::OwnWrite(page.copy()?)),
            Entry::Handed(page) => Ok(Entry::Handed(page.copy()?)),
        }
    }
}
