//! Shows a world. Nothing here takes memory.
ghost use Rattle.std.specs.Prelude.{◌≡◌, ◌&&◌, Some, is_some, length, slice_get, IfSome};
ghost use Rattle.std.specs.Option.{option_copied};
ghost use Rattle.shm_place.specs.Page.{in_limits, manager_of};
ghost use Rattle.shm_model.specs.Site as site;
ghost use Rattle.shm_model.specs.World as model;
ghost use Rattle.shm_world.specs.Network.{envelope_at};
ghost use Rattle.shm_site.specs.Showing.{Shows};
ghost use Rattle.shm_world.specs.Members.{seen_by};
ghost use Rattle.shm_world.specs.Showing.{access, keeps_book, shown};
ghost use Rattle.shm_world.specs.World.{StandsFor};

use crate::world::World;
use shm_model::{Access, Shown};
use shm_parts::Envelope;
use shm_place::{PageId, SiteId, Sites, manager_of};
use shm_site::{BookView, Site};
use std::alloc::Allocator;

impl<A: Allocator + Copy> World<A> {
    /// How many sites there are.
    pub fn sites(&self) -> Sites
        ensures { (w : model.World) → StandsFor self.now w → result ≡ w.count }
    {
        self.members.count
    }

    /// How many envelopes were ever sent. The next one has this number.
    pub fn sent(&self) -> u64
        ensures { (w : model.World) → StandsFor self.now w → result ≡ length w.sent }
    {
        self.network.sent()
    }

    /// The envelope of this number, if it was sent and isn't gone.
    pub fn envelope(&self, number: u64) -> Option<&Envelope<A>>
        ensures { (w : model.World) → StandsFor self.now w → envelope_at (option_copied result) ≡ model.live w number }
    {
        self.network.envelope(number)
    }

    /// The site of this number, if there is one.
    pub fn site(&self, site: SiteId) -> Option<&Site<A>>
        ensures { (w : model.World) → StandsFor self.now w → seen_by (option_copied result) ≡ slice_get w.sites site }
    {
        self.members.get(site)
    }

    /// The access that the site has to the page (Li and Hudak 1989, §3). None: there is no such site, or no such page.
    pub fn access(&self, site: SiteId, page: PageId) -> Option<Access>
        ensures { (w : model.World) → StandsFor self.now w → result ≡ access w site page }
    {
        match self.members.get(site) {
            Some(member) => member.access(page),
            None => None,
        }
    }

    /// The state in which the site holds the page, and the greatest transaction number that it met there. None: there is no such
    /// site, or no such page.
    pub fn shown(&self, site: SiteId, page: PageId) -> Option<Shown>
        ensures { (w : model.World) → StandsFor self.now w → result ≡ shown w site page }
    {
        match self.members.get(site) {
            Some(member) => member.shown(page),
            None => None,
        }
    }

    /// The page's book, at its manager. None: there is no such page, or its manager has purged its segment.
    pub fn book(&self, page: PageId) -> Option<BookView>
        ensures found { (w : model.World) → StandsFor self.now w
            → is_some result ≡ (in_limits w.count page && keeps_book (slice_get w.sites (manager_of w.count page)) page) }
        ensures book { (w : model.World) (x : site.Site) → StandsFor self.now w → slice_get w.sites (manager_of w.count page) ≡ Some x
            → IfSome result (λ view. Shows view (x.books page)) }
    {
        let page = &page;
        let manager = manager_of(self.members.count, *page);
        match self.members.get(manager) {
            Some(member) => member.book(*page),
            None => None,
        }
    }
}
