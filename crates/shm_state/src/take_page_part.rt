//! What a site has of pages, as it is told.
ghost use Rattle.std.specs.Prelude.{◌≡◌, ◌<◌, ◌++◌, [], ◌∷◌, false, true, not, ◌&&◌, is_some, nat_lt, OnErr, OnOk};
ghost use Rattle.shm_place.specs.Limits.{pages};
ghost use Rattle.shm_attach.specs.Attachments.{attachments_of, with_attachments};
ghost use Rattle.shm_model.specs.Site.{Site, is_attached, max_attachments};
ghost use Rattle.std.specs.List.{list_any};
ghost use Rattle.indexmap.specs.IndexSet.{spare};
ghost use Rattle.shm_place.specs.Page.{same_page};
ghost use Rattle.shm_model.specs.Calls.{is_size};
ghost use Rattle.shm_parts.specs.Purged.{purged_of};
ghost use Rattle.shm_state.specs.Part.{Attachment, Book as BookOf, Entry as EntryOf, Purged};
ghost use Rattle.shm_state.specs.PartOf.{book_in, entry_in};
ghost use Rattle.shm_state.specs.Told.{Told as Said, is_filled, misfit, told_with};
ghost use Rattle.shm_state.specs.ToldOf.{SameSeat, Takes, Tells};

use crate::part::{BookPart, EntryPart};
use crate::take_fault::TakeFault;
use crate::told_page::{is_filled, restored, restored_book};
use crate::told_stage::Stage;
use crate::told_state::Told;
use indexmap::IndexSet;
use shm_attach::MAX_ATTACHMENTS;
use shm_place::{MAX_SEGMENT_BYTES, PAGES, PageId, SegId};
use std::alloc::{AllocError, Allocator};
use std::hash::{BuildHasherDefault, FoldHasher};

impl<A: Allocator + Copy> Told<A> {
    /// Takes a segment as purged.
    pub(crate) fn take_purged(&mut self, id: SegId) -> Result<(), TakeFault>
        ensures told { (said : Said) → Tells self.old said
            → Takes (Purged id) said (misfit self.old.sites self.old.me (Purged id) said.state) result self.new }
        ensures seat { SameSeat self.old self.new }
    {
        if self.is_attached(id) {
            return Err(TakeFault::Unfit);
        }
        if self.is_purged(id) {
            return Err(TakeFault::Twice);
        }
        let Ok(_done) = self.holdings.restore_purged(id) else {
            return Err(TakeFault::OutOfMemory);
        };
        self.last = Stage::Purged;
        Ok(())
    }

    /// Takes what there is of a page.
    pub(crate) fn take_entry(&mut self, page: PageId, entry: EntryPart<A>) -> Result<(), TakeFault>
        ensures told { (said : Said) → Tells self.old said
            → Takes (EntryOf page (entry_in entry)) said (misfit self.old.sites self.old.me (EntryOf page (entry_in entry)) said.state) result self.new }
        ensures seat { SameSeat self.old self.new }
    {
        if !self.fits_entry(&page, &entry) {
            return Err(TakeFault::Unfit);
        }
        if self.pages.contains(&page) {
            return Err(TakeFault::Twice);
        }
        match self.store_entry(page, &entry) {
            Ok(()) => Ok(()),
            Err(_) => Err(TakeFault::OutOfMemory),
        }
    }

    /// Checks that there may be such a page, that its segment wasn't purged, and that it has all bytes.
    fn fits_entry(&self, page: &PageId, entry: &EntryPart<A>) -> bool
        ensures { result ≡ (nat_lt page.now.index pages && not (purged_of self.now.holdings.purged page.now.seg) && is_filled (entry_in entry.now)) }
    {
        page.index < PAGES && !self.is_purged(page.seg) && is_filled(entry)
    }

    fn is_purged(&self, id: SegId) -> bool
        ensures { result ≡ purged_of self.now.holdings.purged id }
    {
        self.holdings.purged().contains(id)
    }

    fn is_attached(&self, id: SegId) -> bool
        ensures { (site : Site) → result ≡ is_attached (with_attachments (attachments_of self.now.holdings.attachments) site) id }
    {
        self.holdings.attachments().names(id)
    }

    fn has_attachment(&self, number: u32) -> bool
        ensures { result ≡ is_some (attachments_of self.now.holdings.attachments number) }
    {
        self.holdings.attachments().get(number).is_some()
    }

    /// Checks that there is such a number, that a segment can have the size, and that the segment wasn't purged.
    fn fits_attachment(&self, number: u32, id: SegId, size: u32) -> bool
        ensures { result ≡ (nat_lt number max_attachments && is_size size && not (purged_of self.now.holdings.purged id)) }
    {
        number < MAX_ATTACHMENTS as u32 && is_size(size) && !self.is_purged(id)
    }

    /// Stores the entry of a page that has none.
    fn store_entry(&mut self, page: PageId, entry: &EntryPart<A>) -> Result<(), AllocError>
        requires filled { is_filled (entry_in entry.now) ≡ true }
        requires alive { purged_of self.old.holdings.purged page.seg ≡ false }
        requires fresh { list_any (same_page page) self.old.pages.keys ≡ false }
        ensures stored { OnOk result ((said : Said) → Tells self.old said → Tells self.new (told_with (EntryOf page (entry_in entry.now)) said)) }
        ensures refused { OnErr result ((said : Said) → Tells self.old said → Tells self.new said) }
        ensures seat { SameSeat self.old self.new }
    {
        let entry = restored(self.alloc, entry)?;
        self.pages.reserve(1)?;
        self.holdings.restore_entry(page, entry)?;
        note(&mut self.pages, &page);
        self.last = Stage::Entries;
        Ok(())
    }

    /// Takes what is attached at a number.
    pub(crate) fn take_attachment(
        &mut self,
        number: u32,
        id: SegId,
        size: u32,
        ro: bool,
    ) -> Result<(), TakeFault>
        ensures told { (said : Said) → Tells self.old said
            → Takes (Attachment number (record { id = id; size = size; ro = ro })) said
            (misfit self.old.sites self.old.me (Attachment number (record { id = id; size = size; ro = ro })) said.state) result self.new }
        ensures seat { SameSeat self.old self.new }
    {
        if !self.fits_attachment(number, id, size) {
            return Err(TakeFault::Unfit);
        }
        if self.has_attachment(number) {
            return Err(TakeFault::Twice);
        }
        let Ok(()) = self.holdings.restore_attachment(number, id, size, ro) else {
            return Err(TakeFault::OutOfMemory);
        };
        self.last = Stage::Attachments;
        Ok(())
    }

    /// Takes the book of a page.
    pub(crate) fn take_book(&mut self, page: PageId, book: BookPart) -> Result<(), TakeFault>
        ensures told { (said : Said) → Tells self.old said
            → Takes (BookOf page (book_in book)) said (misfit self.old.sites self.old.me (BookOf page (book_in book)) said.state) result self.new }
        ensures seat { SameSeat self.old self.new }
    {
        if page.index >= PAGES {
            return Err(TakeFault::Unfit);
        }
        let Ok(book) = restored_book(self.alloc, book) else {
            return Err(TakeFault::OutOfMemory);
        };
        let Ok(joins) = self.books.restore(page, book) else {
            return Err(TakeFault::OutOfMemory);
        };
        if !joins {
            return Err(TakeFault::Twice);
        }
        self.last = Stage::Books;
        Ok(())
    }
}

/// Checks that a segment can have this size.
fn is_size(size: u32) -> bool
    ensures { result ≡ is_size size }
{
    1 <= size && size <= MAX_SEGMENT_BYTES
}

/// Puts a page behind those that are noted. There is room for it, and it isn't among them.
fn note<A: Allocator + Copy>(
    pages: &mut IndexSet<PageId, BuildHasherDefault<FoldHasher>, A>,
    page: &PageId,
)
    requires room { 0 < spare pages.old }
    requires fresh { list_any (same_page page.now) pages.old.keys ≡ false }
    ensures { pages.new.keys ≡ pages.old.keys ++ page.now ∷ [] }
{
    let Ok(_) = pages.insert(*page) else {
        unreachable!()
    };
}
