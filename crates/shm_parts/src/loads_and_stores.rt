//! Loads and stores through attachments.
ghost use Rattle.std.specs.Prelude.{◌≡◌, ◌<◌, false, true, Ok};
ghost use Rattle.shm_place.specs.Limits.{page_bytes};
ghost use Rattle.shm_model.specs.Access.{load, load_at, store, store_at};
ghost use Rattle.shm_model.specs.Site.{Site};
ghost use Rattle.shm_page.specs.Entry.{entry_of};
ghost use Rattle.shm_parts.specs.Entries.{is_stored};
ghost use Rattle.shm_parts.specs.Holdings.{SameSeat, stored_step, loaded_step, read_of, with_holdings};
ghost use Rattle.shm_parts.specs.Purged.{purged_of};
ghost use Rattle.shm_parts.specs.Reach.{manages};

use crate::access_outcome::{LoadOutcome, StoreOutcome};
use crate::holdings::Holdings;
use shm_attach::{Denied, right};
use shm_page::Entry;
use shm_place::PageId;
use std::alloc::Allocator;

impl<A: Allocator + Copy> Holdings<A> {
    /// A load through an attachment. It takes no memory.
    #[inline(always)]
    pub fn load(&self, at: u32, offset: u32) -> Result<LoadOutcome, Denied>
        ensures { (site : Site) → load self.now.sites self.now.me at offset (with_holdings self.now.sites self.now.me self.now site)
            ≡ loaded_step self.now.sites self.now.me result (with_holdings self.now.sites self.now.me self.now site) }
    {
        match right(&self.attachments, at, offset, false) {
            Ok((page, within)) => {
                let place = self.first_places.likely(at, page.index);
                Ok(self.load_at(place, &page, within))
            }
            Err(denied) => Err(denied),
        }
    }

    /// A store through an attachment. It takes no memory.
    #[inline(always)]
    pub fn store(&mut self, at: u32, offset: u32, byte: u8) -> Result<StoreOutcome, Denied>
        ensures step { (site : Site) → store self.old.sites self.old.me at offset byte (with_holdings self.old.sites self.old.me self.old site)
            ≡ stored_step self.old.sites self.old.me result (with_holdings self.old.sites self.old.me self.new site) }
        ensures seat { SameSeat self.old self.new }
    {
        match right(&self.attachments, at, offset, true) {
            Ok((page, within)) => {
                let place = self.first_places.likely(at, page.index);
                Ok(self.store_at(place, &page, within, byte))
            }
            Err(denied) => Err(denied),
        }
    }

    /// The byte of a page whose entry probably stands at this place. A page of which nothing is stored is untouched, and another site's.
    fn load_at(&self, place: usize, page: &PageId, within: usize) -> LoadOutcome
        requires within { within < page_bytes }
        requires stored { manages self.now.sites self.now.me page.now ≡ true → is_stored self.now.entries page.now ≡ true }
        requires alive { purged_of self.now.purged page.now.seg ≡ false }
        ensures { (site : Site) → load_at self.now.sites self.now.me (record { page = page.now; within = within })
            (with_holdings self.now.sites self.now.me self.now site)
            ≡ loaded_step self.now.sites self.now.me (Ok result) (with_holdings self.now.sites self.now.me self.now site) }
    {
        match self.entries.get_near(place, *page) {
            Some(entry) => read(entry, page, within),
            None => LoadOutcome::Absent(*page),
        }
    }

    /// Stores the byte in a page whose entry probably stands at this place. A page of which nothing is stored is untouched, and another
    /// site's.
    #[inline(always)]
    fn store_at(&mut self, place: usize, page: &PageId, within: usize, byte: u8) -> StoreOutcome
        requires within { within < page_bytes }
        requires stored { manages self.old.sites self.old.me page.now ≡ true → is_stored self.old.entries page.now ≡ true }
        requires alive { purged_of self.old.purged page.now.seg ≡ false }
        ensures step { (site : Site) → store_at self.old.sites self.old.me (record { page = page.now; within = within }) byte
            (with_holdings self.old.sites self.old.me self.old site)
            ≡ stored_step self.old.sites self.old.me (Ok result) (with_holdings self.old.sites self.old.me self.new site) }
        ensures seat { SameSeat self.old self.new }
    {
        if self.entries.store_near(place, *page, within, byte) {
            return StoreOutcome::Stored;
        }
        StoreOutcome::Absent(*page)
    }
}

/// The byte at this offset in the page, if the page may be read.
fn read<A: Allocator + Copy>(entry: &Entry<A>, page: &PageId, within: usize) -> LoadOutcome
    requires { within < page_bytes }
    ensures { result ≡ read_of page.now within (entry_of entry.now) }
{
    match entry {
        Entry::Copy(copy) => LoadOutcome::Byte(copy.load(within)),
        Entry::OwnRead(own) => LoadOutcome::Byte(own.load(within)),
        Entry::OwnWrite(own) => LoadOutcome::Byte(own.load(within)),
        Entry::Nil(_) | Entry::Handed(_) => LoadOutcome::Absent(*page),
    }
}
