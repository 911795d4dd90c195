//! What a site waits for, and what waits at it: its pending requests and its outstanding call; and of a page that it manages, who has
//! answered a Clear and who waits for a turn. Nothing here takes memory.
ghost use Rattle.std.specs.Prelude.{◌≡◌, is_some, option_map, slice_get, IfSome};
ghost use Rattle.shm_attach.specs.CallBook.{outstanding_of};
ghost use Rattle.shm_manager.specs.Book.{book_of};
ghost use Rattle.shm_manager.specs.Queue.{waiting_from};
ghost use Rattle.shm_parts.specs.Pendings.{pendings_of};
ghost use Rattle.shm_place.specs.SiteSet.{has};
ghost use Rattle.shm_site.specs.Site.{site_of};

use crate::site::Site;
use shm_manager::Book;
use shm_model::{Kind, Op};
use shm_parts::Pendings;
use shm_place::{PageId, SiteId, SiteSet};
use std::alloc::Allocator;

impl<A: Allocator + Copy> Site<A> {
    /// The requests whose pages the site waits for.
    pub fn pending(&self) -> &Pendings<A>
        ensures { pendings_of result.now ≡ (site_of self.now).pending }
    {
        &self.pending
    }

    /// The segment call whose reply the site waits for, and its number.
    pub fn outstanding(&self) -> Option<(u64, Op)>
        ensures { outstanding_of result ≡ (site_of self.now).outstanding }
    {
        self.calls.outstanding()
    }

    /// The sites that have answered the Clear of the page's running transaction. None: none runs.
    pub fn cleared(&self, page: PageId) -> Option<SiteSet>
        ensures running { is_some result ≡ is_some ((site_of self.now).books page).running }
        ensures cleared { IfSome result (λ sites. has sites ≡ ((site_of self.now).books page).cleared) }
    {
        match self.books.get(page) {
            Some(book) => cleared_of(book),
            None => None,
        }
    }

    /// The request that waits for its turn in this place of the page's book, that of the oldest in place 0: its site, its number and what
    /// it asks for.
    pub fn waiting(&self, page: PageId, place: usize) -> Option<(SiteId, (u64, Kind))>
        ensures { option_map waiting_from result ≡ slice_get ((site_of self.now).books page).waiting place }
    {
        match self.books.get(page) {
            Some(book) => book.waiting(place),
            None => None,
        }
    }
}

fn cleared_of<A: Allocator + Copy>(book: &Book<A>) -> Option<SiteSet>
    ensures running { is_some result ≡ is_some (book_of book.now).running }
    ensures cleared { IfSome result (λ sites. has sites ≡ (book_of book.now).cleared) }
{
    match book.running() {
        Some(_) => Some(book.cleared_sites()),
        None => None,
    }
}
