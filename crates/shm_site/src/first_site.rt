//! How sites begin.
ghost use Rattle.std.specs.Prelude.{◌≡◌, ◌<◌, ◌≤◌, option_map, IfOk};
ghost use Rattle.shm_keys.specs.Table.{missing_of};
ghost use Rattle.shm_model.specs.Site.{new_site};
ghost use Rattle.shm_model.specs.World.{opened_site, preset_site, New, Preset, Framed};
ghost use Rattle.shm_parts.specs.Holdings.{framed, with_holdings};
ghost use Rattle.shm_site.specs.Site.{SameSeat, site_of};

use crate::site::Site;
use shm_attach::{CallBook, Home};
use shm_keys::SegTable;
use shm_number::Counter;
use shm_parts::{Books, Holdings, Pendings};
use shm_place::{MAX_FRAMES, PAGES, SiteId, Sites};
use std::alloc::{AllocError, Allocator};

impl<A: Allocator + Copy> Site<A> {
    /// A site at which nothing has happened.
    pub fn new(alloc: A, sites: Sites, me: SiteId) -> Site<A>
        requires { me < sites }
        ensures site { site_of result ≡ opened_site (New sites) me }
        ensures seat { (result.sites ≡ sites) × (result.me ≡ me) }
    {
        let holdings = Holdings::new(alloc, sites, me);
        let table = SegTable::new(alloc, me, sites);
        Site::of_parts(alloc, sites, me, holdings, table)
    }

    /// A site where segment 0 has this number of pages and is attached, to read and write, as attachment 0. The segment's home is site 0.
    pub fn preset(alloc: A, sites: Sites, me: SiteId, pages: u32) -> Result<Site<A>, AllocError>
        requires below { me < sites }
        requires from { 1 ≤ pages }
        requires to { pages ≤ PAGES }
        ensures site { IfOk result (λ site. site_of site ≡ opened_site (Preset sites pages) me) }
        ensures seat { IfOk result (λ site. (site.sites ≡ sites) × (site.me ≡ me)) }
    {
        Site::with_segment(alloc, sites, me, pages, None)
    }

    /// The same with at most this many pages held as copies.
    pub fn framed(
        alloc: A,
        sites: Sites,
        me: SiteId,
        pages: u32,
        frames: u32,
    ) -> Result<Site<A>, AllocError>
        requires below { me < sites }
        requires from { 1 ≤ pages }
        requires to { pages ≤ PAGES }
        requires one { 1 ≤ frames }
        requires most { frames ≤ MAX_FRAMES }
        ensures site { IfOk result (λ site. site_of site ≡ opened_site (Framed sites pages frames) me) }
        ensures seat { IfOk result (λ site. (site.sites ≡ sites) × (site.me ≡ me)) }
    {
        Site::with_segment(alloc, sites, me, pages, Some(frames))
    }

    fn with_segment(
        alloc: A,
        sites: Sites,
        me: SiteId,
        pages: u32,
        limit: Option<u32>,
    ) -> Result<Site<A>, AllocError>
        requires below { me < sites }
        requires from { 1 ≤ pages }
        requires to { pages ≤ PAGES }
        ensures site { IfOk result (λ site. site_of site ≡ record (preset_site sites pages me) { frames = option_map framed limit }) }
        ensures seat { IfOk result (λ site. (site.sites ≡ sites) × (site.me ≡ me)) }
    {
        let holdings = Holdings::preset(alloc, sites, me, pages, limit)?;
        let table = SegTable::preset(alloc, me, sites, pages)?;
        Ok(Site::of_parts(alloc, sites, me, holdings, table))
    }

    /// A site that holds this, and whose segments are those of the table.
    fn of_parts(
        alloc: A,
        sites: Sites,
        me: SiteId,
        holdings: Holdings<A>,
        table: SegTable<A>,
    ) -> Site<A>
        requires below { me < sites }
        requires held_sites { holdings.sites ≡ sites }
        requires held_me { holdings.me ≡ me }
        requires own_home { table.home ≡ me }
        requires all_sites { table.sites ≡ sites }
        ensures site { site_of result ≡ with_holdings sites me holdings (record (new_site sites me) { table = table.segments; missing = missing_of table }) }
        ensures seat { (result.sites ≡ sites) × (result.me ≡ me) }
    {
        Site {
            sites,
            me,
            holdings,
            books: Books::new(alloc),
            requests: Counter::new(),
            pending: Pendings::new(alloc),
            calls: CallBook::new(),
            home: Home::new(table),
            alloc,
        }
    }

    /// An equal site, which goes on alone.
    pub fn copy(&self) -> Result<Site<A>, AllocError>
        ensures site { IfOk result (λ copy. site_of copy ≡ site_of self.now) }
        ensures seat { IfOk result (λ copy. SameSeat self.now copy) }
    {
        let holdings = self.holdings.copy()?;
        let books = self.books.copy()?;
        let pending = self.pending.copy()?;
        let home = self.home.copy()?;
        Ok(Site {
            sites: self.sites,
            me: self.me,
            holdings,
            books,
            requests: self.requests.copy(),
            pending,
            calls: self.calls.copy(),
            home,
            alloc: self.alloc,
        })
    }
}
