//! Entries that are made anew from what was read of them: the number that the site has met, and the page's bytes.
ghost use Rattle.std.specs.Prelude.{◌≡◌, length, IfOk};
ghost use Rattle.shm_place.specs.Limits.{page_bytes};

use crate::copy_page::CopyPage;
use crate::entry::Entry;
use crate::handed_page::HandedPage;
use crate::lent_copy::ReadGrant;
use crate::own_read_page::OwnReadPage;
use crate::own_write_page::OwnWritePage;
use bytes::Bytes;
use shm_place::{PAGE_BYTES, SiteId};
use std::alloc::{AllocError, Allocator};

impl<A: Allocator + Copy> Entry<A> {
    ghost use Rattle.shm_model.specs.Entry as model;
    ghost use Rattle.shm_page.specs.Entry.{entry_of};

    /// A copy of the page, with these bytes.
    pub fn restored_copy(alloc: A, number: u64, bytes: &[u8]) -> Result<Entry<A>, AllocError>
        requires { length bytes.now ≡ page_bytes }
        ensures { IfOk result (λ entry. entry_of entry ≡ model.Copy number bytes.now) }
    {
        let shared = Bytes::copy_from_slice(alloc, bytes)?;
        let grant = ReadGrant::holding(number, shared);
        Ok(Entry::Copy(CopyPage::from_grant(grant)))
    }

    /// The owner's page while others may have copies, with these bytes.
    pub fn restored_own_read(alloc: A, number: u64, bytes: &[u8]) -> Result<Entry<A>, AllocError>
        requires { length bytes.now ≡ page_bytes }
        ensures { IfOk result (λ entry. entry_of entry ≡ model.OwnRead number bytes.now) }
    {
        let room = Vec::with_capacity(alloc, PAGE_BYTES)?;
        let shared = Bytes::copy_from_slice(alloc, bytes)?;
        Ok(Entry::OwnRead(OwnReadPage::of(number, room, shared)))
    }

    /// The owner's page while nobody else has a copy, with these bytes.
    pub fn restored_own_write(alloc: A, number: u64, bytes: &[u8]) -> Result<Entry<A>, AllocError>
        requires { length bytes.now ≡ page_bytes }
        ensures { IfOk result (λ entry. entry_of entry ≡ model.OwnWrite number bytes.now) }
    {
        let room = Vec::with_capacity(alloc, PAGE_BYTES)?;
        let given = Bytes::copy_from_slice(alloc, bytes)?;
        Ok(Entry::OwnWrite(OwnWritePage::of(number, given, room)))
    }

    /// The page that was handed to this site, with the bytes that are kept.
    pub fn restored_handed(
        alloc: A,
        number: u64,
        to: SiteId,
        bytes: &[u8],
    ) -> Result<Entry<A>, AllocError>
        requires { length bytes.now ≡ page_bytes }
        ensures { IfOk result (λ entry. entry_of entry ≡ model.Handed number to bytes.now) }
    {
        let kept = Bytes::copy_from_slice(alloc, bytes)?;
        let sent = kept.clone()?;
        let (page, _) = HandedPage::with_grant(number, to, kept, sent, alloc);
        Ok(Entry::Handed(page))
    }
}
