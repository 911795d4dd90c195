//! Shows a site's segments, and its view of a page. A page outside the limits has nothing to show.
ghost use Rattle.std.specs.Prelude.{◌≡◌, ◌==◌, ◌&&◌, false, Some, None, if◌then◌else◌, is_some, not, IfOk, IfSome};
ghost use Rattle.shm_place.specs.Page.{in_limits, manager_of};
ghost use Rattle.shm_model.specs.Access.{right};
ghost use Rattle.shm_model.specs.Book.{untouched_book};
ghost use Rattle.shm_model.specs.Entry as model;
ghost use Rattle.shm_manager.specs.Book.{book_of};
ghost use Rattle.shm_parts.specs.Holdings.{access_of, shown_of};
ghost use Rattle.shm_parts.specs.Reached.{page_reached};
ghost use Rattle.shm_site.specs.Showing.{Shows};
ghost use Rattle.shm_site.specs.Site.{site_of};

use crate::book_view::BookView;
use crate::site::Site;
use shm_keys::Segment;
use shm_manager::Book;
use shm_model::{Access, Shown};
use shm_place::{PageId, SiteId, SiteSet, in_limits, manager_of};
use std::alloc::{AllocError, Allocator};

impl<A: Allocator + Copy> Site<A> {
    /// All segments whose home is this site, the destroyed ones too, in the order of making.
    pub fn segments(&self) -> &[Segment]
        ensures { result.now ≡ (site_of self.now).table }
    {
        self.home.segments()
    }

    /// The access that the site has to the page (Li and Hudak 1989, §3). None: no segment can have the page.
    pub fn access(&self, page: PageId) -> Option<Access>
        ensures { result ≡ (if in_limits self.now.sites page then Some (access_of ((site_of self.now).entries page)) else None) }
    {
        let page = &page;
        if !in_limits(self.sites, *page) {
            return None;
        }
        Some(self.holdings.access(*page))
    }

    /// The page's state at the site, and the greatest transaction number that it met there. None: no segment can have the page.
    pub fn shown(&self, page: PageId) -> Option<Shown>
        ensures { result ≡ (if in_limits self.now.sites page then Some
            (shown_of ((site_of self.now).purged page.seg) ((site_of self.now).entries page)) else None) }
    {
        let page = &page;
        if !in_limits(self.sites, *page) {
            return None;
        }
        Some(self.holdings.shown(*page))
    }

    /// The bytes that the site has of the page, copied, whatever its access to it; none where it has none.
    pub fn bytes(&self, page: PageId) -> Result<Vec<u8, A>, AllocError>
        ensures { IfOk result (λ bytes. bytes.items ≡ model.bytes ((site_of self.now).entries page)) }
    {
        self.holdings.bytes(page)
    }

    /// The page that a load through this attachment at this offset goes to. None: it is refused (`shmop(2)`).
    pub fn reached(&self, attachment: u32, offset: u32) -> Option<PageId>
        ensures { result ≡ page_reached (right (site_of self.now).attachments attachment offset false) }
    {
        self.holdings.reached(attachment, offset)
    }

    /// The page's book, at its manager. None: this site isn't the page's manager, or has purged its segment, or no segment can have
    /// the page.
    pub fn book(&self, page: PageId) -> Option<BookView>
        ensures found { is_some result ≡ (in_limits self.now.sites page && (manager_of self.now.sites page == self.now.me)
            && not ((site_of self.now).purged page.seg)) }
        ensures book { IfSome result (λ view. Shows view ((site_of self.now).books page)) }
    {
        let page = &page;
        if !in_limits(self.sites, *page) || manager_of(self.sites, *page) != self.me {
            return None;
        }
        if self.holdings.is_purged(page.seg) {
            return None;
        }
        match self.books.get(*page) {
            Some(book) => Some(view_of(book)),
            None => Some(untouched_view(self.me)),
        }
    }
}

fn view_of<A: Allocator + Copy>(book: &Book<A>) -> BookView
    ensures { Shows result (book_of book.now) }
{
    BookView {
        owner: book.owner(),
        copies: book.copies(),
        number: book.number(),
        running: book.running(),
    }
}

/// The view of a page's book before the first request.
fn untouched_view(me: SiteId) -> BookView
    ensures { Shows result (untouched_book me) }
{
    BookView {
        owner: me,
        copies: SiteSet::empty(),
        number: 0,
        running: None,
    }
}
