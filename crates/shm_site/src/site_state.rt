//! A site's state: the parts that it keeps over a restart, to be read, and the site that such parts make.
ghost use Rattle.std.specs.Prelude.{◌≡◌, ◌<◌, [], length};
ghost use Rattle.shm_model.specs.Step.{restart};
ghost use Rattle.shm_attach.specs.Attachments.{attachments_of};
ghost use Rattle.shm_attach.specs.Home.{kept_of};
ghost use Rattle.shm_keys.specs.Table.{missing_of};
ghost use Rattle.shm_parts.specs.Books.{booked_of, books_of};
ghost use Rattle.shm_parts.specs.Holdings.{held_entries, held_frames};
ghost use Rattle.shm_parts.specs.Purged.{purged_of};
ghost use Rattle.shm_site.specs.Site.{site_of};
ghost use Rattle.shm_site.specs.State.{IsState, site_from, state_of};

use crate::site::Site;
use shm_attach::{CallBook, Home};
use shm_number::Counter;
use shm_parts::{Books, Holdings, Pendings};
use shm_place::{SiteId, Sites};
use std::alloc::Allocator;

impl<A: Allocator + Copy> Site<A> {
    /// How many sites there are.
    pub fn sites(&self) -> Sites
        ensures { result ≡ self.now.sites }
    {
        self.sites
    }

    /// The site's number.
    pub fn me(&self) -> SiteId
        ensures { result ≡ self.now.me }
    {
        self.me
    }

    /// The pages that the site has, its attachments, and the segments that it purged.
    pub fn holdings(&self) -> &Holdings<A>
        ensures { result.now ≡ self.now.holdings }
    {
        &self.holdings
    }

    /// The books of the pages that the site manages.
    pub fn books(&self) -> &Books<A>
        ensures { result.now ≡ self.now.books }
    {
        &self.books
    }

    /// The counter of the site's requests.
    pub fn requests(&self) -> &Counter
        ensures { result.now ≡ self.now.requests }
    {
        &self.requests
    }

    /// The site's segment calls.
    pub fn calls(&self) -> &CallBook
        ensures { result.now ≡ self.now.calls }
    {
        &self.calls
    }

    /// What the site keeps as a home of segments.
    pub fn home(&self) -> &Home<A>
        ensures { result.now ≡ self.now.home }
    {
        &self.home
    }

    /// How many entries the site's state has. The state makes the site that a restart leaves.
    pub fn stored_count(&self) -> usize
        ensures count { result ≡ length (state_of self.now).entries }
        ensures state { IsState (state_of self.now) }
        ensures law { site_from self.now.sites self.now.me (state_of self.now) ≡ (restart (site_of self.now)).site }
    {
        let _books = self.books.count();
        self.holdings.stored_count()
    }

    /// The site that holds this, has these books, goes on from these requests and calls and keeps this as a home. No request is pending.
    pub fn restored(
        alloc: A,
        sites: Sites,
        me: SiteId,
        holdings: Holdings<A>,
        books: Books<A>,
        requests: Counter,
        calls: CallBook,
        home: Home<A>,
    ) -> Site<A>
        requires below { me < sites }
        requires held_sites { holdings.sites ≡ sites }
        requires held_me { holdings.me ≡ me }
        requires own_home { home.table.home ≡ me }
        requires all_sites { home.table.sites ≡ sites }
        ensures site { site_of result ≡ record {
          entries = held_entries sites me holdings;
          books = books_of me books;
          booked = booked_of books;
          requests = requests;
          calls = calls.begun;
          outstanding = calls.outstanding;
          attachments = attachments_of holdings.attachments;
          table = home.table.segments;
          kept = kept_of home.kept;
          missing = missing_of home.table;
          purged = purged_of holdings.purged;
          frames = held_frames holdings.frames;
          pending = [];
        } }
        ensures seat { (result.sites ≡ sites) × (result.me ≡ me) }
    {
        Site {
            sites,
            me,
            holdings,
            books,
            requests,
            pending: Pendings::new(alloc),
            calls,
            home,
            alloc,
        }
    }
}
