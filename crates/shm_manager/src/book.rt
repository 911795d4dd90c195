ghost use Rattle.std.specs.Prelude.{◌≡◌, IfOk, option_map, slice_get};
ghost use Rattle.shm_model.specs.Book as model;
ghost use Rattle.shm_manager.specs.Book.{book_of, kind_and_requester, untouched_at};
ghost use Rattle.shm_manager.specs.Queue.{waiting_from};
ghost use Rattle.shm_place.specs.SiteSet.{has};

use crate::request_queue::Queue;
use shm_model::Kind;
use shm_number::Served;
use shm_place::{SiteId, SiteSet};
use std::alloc::{AllocError, Allocator, Global};

/// The book that a page's manager keeps. One transaction runs at a time; up to 16 requests wait behind it.
#[derive(Drop)]
pub struct Book<A: Allocator = Global> {
    pub(crate) owner: SiteId,
    pub(crate) copies: SiteSet,
    pub(crate) number: u64,
    pub(crate) running: Option<(Kind, SiteId)>,
    pub(crate) cleared: SiteSet,
    pub(crate) served: Served,
    pub(crate) waiting: Queue<A>,
}

impl<A: Allocator> Book<A> {
    /// The book of a page that was never asked for: its manager owns it. Room for all that may wait is made here.
    pub fn new(alloc: A, manager: SiteId) -> Result<Book<A>, AllocError>
        ensures { IfOk result (λ book. book_of book ≡ model.untouched_book manager) }
    {
        Book::at(alloc, manager, 0)
    }

    /// The same after this many transactions that left nothing but their number. For tests near the greatest number.
    pub fn at(alloc: A, manager: SiteId, number: u64) -> Result<Book<A>, AllocError>
        ensures { IfOk result (λ book. book_of book ≡ untouched_at manager number) }
    {
        let waiting = Queue::new(alloc)?;
        Ok(Book {
            owner: manager,
            copies: SiteSet::empty(),
            number,
            running: None,
            cleared: SiteSet::empty(),
            served: Served::new(),
            waiting,
        })
    }

    /// The site that owns the page.
    pub fn owner(&self) -> SiteId
        ensures { result ≡ (book_of self.now).owner }
    {
        self.owner
    }

    /// The sites that may have a copy beside the owner's.
    pub fn copies(&self) -> SiteSet
        ensures { has result ≡ (book_of self.now).copies }
    {
        self.copies
    }

    /// The number of the last transaction that started; 0 before the first.
    pub fn number(&self) -> u64
        ensures { result ≡ (book_of self.now).number }
    {
        self.number
    }

    /// What the running transaction gives, and to which site.
    pub fn running(&self) -> Option<(Kind, SiteId)>
        ensures { result ≡ kind_and_requester (book_of self.now).running }
    {
        self.running
    }

    /// The sites that have answered the running transaction's Clear.
    pub fn cleared_sites(&self) -> SiteSet
        ensures { has result ≡ (book_of self.now).cleared }
    {
        self.cleared
    }

    /// The request that waits in this place, that of the oldest in place 0: its site, its number and what it asks for.
    pub fn waiting(&self, place: usize) -> Option<(SiteId, (u64, Kind))>
        ensures { option_map waiting_from result ≡ slice_get (book_of self.now).waiting place }
    {
        self.waiting.get(place)
    }

    /// Forgets what a restart of the manager loses: who has answered a Clear, and who waits.
    pub fn forget_volatile(&mut self)
        ensures { book_of self.new ≡ model.without_volatile (book_of self.old) }
    {
        self.cleared = SiteSet::empty();
        self.waiting.clear();
    }
}

impl<A: Allocator + Copy> Book<A> {
    /// An equal book, which goes on alone.
    pub fn copy(&self) -> Result<Book<A>, AllocError>
        ensures { IfOk result (λ book. book_of book ≡ book_of self.now) }
    {
        let waiting = self.waiting.copy()?;
        Ok(Book {
            owner: self.owner,
            copies: self.copies,
            number: self.number,
            running: self.running,
            cleared: self.cleared,
            served: self.served.copy(),
            waiting,
        })
    }
}
