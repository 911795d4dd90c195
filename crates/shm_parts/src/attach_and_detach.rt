//! Attachments, and the pages that they reach.
ghost use Rattle.std.specs.Prelude.{◌≡◌, ℕ, ◌+◌, ◌%◌, ◌<◌, None, Some, false, true, is_none, IfOk, OnOk, OnErr};
ghost use Rattle.shm_place.specs.declared.page_id.PageId.{PageId as Page};
ghost use Rattle.shm_place.specs.Page as place;
ghost use Rattle.shm_model.specs.Basics.{at};
ghost use Rattle.shm_model.specs.Site.{Site, least_free, untouched};
ghost use Rattle.shm_attach.specs.Attachments.{attachments_of, put_at, with_attachments};
ghost use Rattle.shm_parts.specs.Entries.{entries_of, is_stored};
ghost use Rattle.shm_parts.specs.Holdings.{SameSeat, with_holdings};
ghost use Rattle.shm_parts.specs.Purged.{purged_of};
ghost use Rattle.shm_parts.specs.Reach.{manages};
ghost use Rattle.shm_parts.specs.Restored.{StillStored};

use crate::holdings::Holdings;
use crate::page_entries::Entries;
use shm_place::{PAGE_BYTES, PageId, SegId, SiteId, Sites, manager_of, rounded};
use std::alloc::{AllocError, Allocator};

impl<A: Allocator + Copy> Holdings<A> {
    /// Attaches the segment at the least free number, and answers that number. First it stores the entries of those of its pages that the
    /// site manages, so that an access with the right takes no memory. None: no number is free, and nothing changes.
    pub fn attach(&mut self, id: SegId, size: u32, ro: bool) -> Result<Option<u32>, AllocError>
        requires { purged_of self.old.purged id ≡ false }
        ensures number { IfOk result (λ number. number ≡ least_free (attachments_of self.old.attachments)) }
        ensures after { IfOk result (λ number. (site : Site)
            → with_holdings self.old.sites self.old.me self.new site
            ≡ with_attachments (put_at number (record { id = id; size = size; ro = ro }) (attachments_of self.old.attachments))
            (with_holdings self.old.sites self.old.me self.old site)) }
        ensures refused { OnErr result ((site : Site) → with_holdings self.old.sites self.old.me self.new site
            ≡ with_holdings self.old.sites self.old.me self.old site) }
        ensures seat { SameSeat self.old self.new }
    {
        let pages = (rounded(size) / PAGE_BYTES as u64) as u32;
        match store_pages(
            &mut self.entries,
            self.alloc,
            self.sites,
            self.me,
            id,
            pages,
        ) {
            Err(error) => Err(error),
            Ok(first) => {
                let number = self.attachments.put(id, size, ro);
                self.first_places.note(number, first);
                Ok(number)
            }
        }
    }

    /// Attaches the segment at this number, in place of what was attached there. First it stores entries as [`Holdings::attach`] does. Where
    /// memory is refused nothing changes.
    pub fn restore_attachment(
        &mut self,
        number: u32,
        id: SegId,
        size: u32,
        ro: bool,
    ) -> Result<(), AllocError>
        requires number { number < 64 }
        requires alive { purged_of self.old.purged id ≡ false }
        ensures after { OnOk result ((site : Site)
            → with_holdings self.old.sites self.old.me self.new site
            ≡ with_attachments (at (attachments_of self.old.attachments) number (Some (record { id = id; size = size; ro = ro })))
            (with_holdings self.old.sites self.old.me self.old site)) }
        ensures refused { OnErr result ((site : Site) → with_holdings self.old.sites self.old.me self.new site
            ≡ with_holdings self.old.sites self.old.me self.old site) }
        ensures stays { StillStored self.old self.new }
        ensures seat { SameSeat self.old self.new }
    {
        let bytes = rounded(size);
        let pages = (bytes / PAGE_BYTES as u64) as u32;
        match store_pages(
            &mut self.entries,
            self.alloc,
            self.sites,
            self.me,
            id,
            pages,
        ) {
            Err(error) => Err(error),
            Ok(first) => {
                self.attachments.restore(number, id, size, ro);
                self.first_places.note(Some(number), first);
                Ok(())
            }
        }
    }

    /// Removes what is attached at the number, if anything.
    pub fn detach(&mut self, number: u32)
        ensures taken { (sites me : ℕ) → (site : Site) → with_holdings sites me self.new site
            ≡ with_attachments (at (attachments_of self.old.attachments) number None) (with_holdings sites me self.old site) }
        ensures seat { SameSeat self.old self.new }
    {
        self.attachments.take(number);
    }

    /// Checks that no attachment number is free.
    pub fn is_full(&self) -> bool
        ensures { result ≡ is_none (least_free (attachments_of self.now.attachments)) }
    {
        self.attachments.is_full()
    }
}

/// Stores the entries of those of the segment's first pages that the site manages, and answers the place of the first one's, if there is
/// one.
fn store_pages<A: Allocator + Copy>(
    entries: &mut Entries<A>,
    alloc: A,
    sites: Sites,
    me: SiteId,
    id: SegId,
    pages: u32,
) -> Result<Option<usize>, AllocError>
    ensures same { entries_of (untouched sites me) entries.new ≡ entries_of (untouched sites me) entries.old }
    ensures stored { OnOk result ((index : ℕ) → index < pages → manages sites me (record { seg = id; index = index }) ≡ true
        → is_stored entries.new (record { seg = id; index = index }) ≡ true) }
    ensures others { (other : Page) → is_stored entries.old other ≡ true → is_stored entries.new other ≡ true }
{
    let mut first = None;
    let mut manager = manager_of(sites, PageId { seg: id, index: 0 });
    'pages: for index in 0..pages {
        let page = PageId { seg: id, index };
        let place = store_managed(entries, alloc, sites, me, page, manager)?;
        if first.is_none() {
            first = place;
        }
        manager = behind(sites, manager);
    }
    Ok(first)
}

/// The site behind this one: the first one behind the last.
fn behind(sites: Sites, site: SiteId) -> SiteId
    requires { site < sites }
    ensures next { result ≡ (site + 1) % sites }
    ensures below { result < sites }
{
    let count = sites.count();
    let next = site.0 + 1;
    if next < count {
        return SiteId(next);
    }
    SiteId(0)
}

/// Stores the page's entry if the site manages it, and answers its place.
fn store_managed<A: Allocator + Copy>(
    entries: &mut Entries<A>,
    alloc: A,
    sites: Sites,
    me: SiteId,
    page: PageId,
    manager: SiteId,
) -> Result<Option<usize>, AllocError>
    requires { manager ≡ place.manager_of sites page }
    ensures same { entries_of (untouched sites me) entries.new ≡ entries_of (untouched sites me) entries.old }
    ensures stored { OnOk result (manages sites me page ≡ true → is_stored entries.new page ≡ true) }
    ensures others { (other : Page) → is_stored entries.old other ≡ true → is_stored entries.new other ≡ true }
{
    if manager != me {
        return Ok(None);
    }
    match entries.ensure(alloc, sites, me, page) {
        Ok(place) => Ok(Some(place)),
        Err(error) => Err(error),
    }
}
