//! A manager's books: their changes at each message, at a restart and at a purge.
ghost use Rattle.std.specs.Prelude.{◌≡◌, ℕ, ◌<◌, ◌≤◌, ◌==◌, false, true, cond, if◌then◌else◌, not, [], ◌∷◌, ◌++◌, length, None, option_copied, IfNone, IfOk, IfSome, OnErr, OnOk};
ghost use Rattle.shm_parts.specs.Booked.{IsBooked};
ghost use Rattle.std.specs.List.{AllByRecursion, IsDistinct, list_any};
ghost use Rattle.std.specs.Map.{lookup};
ghost use Rattle.shm_place.specs.declared.page_id.PageId.{PageId as Page};
ghost use Rattle.shm_place.specs.Limits.{pages};
ghost use Rattle.shm_place.specs.Page.{same_page};
ghost use Rattle.shm_manager.specs.Book.{book_of, due_of, is_ignored, starts};
ghost use Rattle.shm_model.specs.Basics.{at_page};
ghost use Rattle.shm_model.specs.Book as model;
ghost use Rattle.shm_model.specs.SegmentCalls.{of_segment, without_segment};
ghost use Rattle.shm_model.specs.Site.{Site};
ghost use Rattle.shm_model.specs.Transfer.{to_book, without_page};

use crate::book_outcome::Outcome;
use crate::change_one_book::{ask_in, cleared_in, confirm_in, ending_in, runs};
use crate::forget_or_copy_books::{copy_all, forget_all};
use crate::message::Envelope;
use crate::outbox::Outbox;
use crate::page_map_helpers::{end_of, put};
use crate::pages_with_books::Bookings;
use crate::stored_entry_and_book::StoredBook;
use indexmap::IndexMap;
use shm_manager::{Book, Due, Kind, MOST_ORDERS};
use shm_place::{PageId, SegId, SiteId};
use std::alloc::{AllocError, Allocator, Global};
use std::hash::{BuildHasherDefault, FoldHasher};

/// The books of the pages that a site manages and that were asked for, in the order of their first transactions.
#[derive(Drop)]
pub struct Books<A: Allocator + Copy = Global> {
    pub(crate) map: IndexMap<PageId, StoredBook<A>, BuildHasherDefault<FoldHasher>, A>,
    pub(crate) bookings: Bookings<A>,
    ghost booked: { IsBooked map.entries bookings },
}

impl<A: Allocator + Copy> Books<A> {
    ghost use Rattle.shm_parts.specs.Listed.{booked_list, filled};
    ghost use Rattle.shm_parts.specs.Books.{book_or, booked_after, booked_of, booked_step, books_of, orders_in, with_books, AllIdle, HasRoom, IsNextRunning};

    /// No page was asked for.
    pub fn new(alloc: A) -> Books<A>
        ensures books { (me : ℕ) → books_of me result ≡ (λ _. model.untouched_book me) }
        ensures booked { booked_of result ≡ [] }
    {
        Books {
            map: IndexMap::new(alloc),
            bookings: Bookings::new(alloc),
        }
    }

    /// A request for a right to the page, which a segment may have. One that starts a transaction takes memory: room for its orders, and
    /// for the page's mark, and the page's first one for its book. Where that is refused nothing changes.
    pub fn on_ask<O: Outbox<Envelope<A>>>(
        &mut self,
        alloc: A,
        me: SiteId,
        page: PageId,
        from: SiteId,
        request: u64,
        kind: Kind,
        outbox: &mut O,
    ) -> Result<Outcome, AllocError>
        requires site { from < 16 }
        requires index { page.index < pages }
        ensures step { IfOk result (λ outcome. (site : Site)
            → to_book me page (model.on_ask from request kind (books_of me self.old page)) (with_books me self.old site)
            ≡ booked_step me page outcome (with_books me self.new site)) }
        ensures refused { OnErr result (((me : ℕ) → books_of me self.new ≡ books_of me self.old) × (booked_of self.new ≡ booked_of self.old)) }
        ensures starts { OnErr result (starts (due_of (model.on_ask from request kind (books_of me self.old page))
            (books_of me self.old page).running) ≡ true) }
        ensures room { IfOk result (λ outcome. HasRoom outcome (O.room outbox.new)) }
        ensures same { O.posted outbox.old outbox.new [] }
    {
        let Some(book) = self.map.get_mut(&page) else {
            return self.first(alloc, me, page, from, request, kind, outbox);
        };
        let due = book.book.due(from, request);
        if !due.starts() {
            return Ok(ask_in(book, due, from, request, kind));
        }
        outbox.reserve(MOST_ORDERS)?;
        self.bookings.mark(&page)?;
        Ok(ask_in(book, due, from, request, kind))
    }

    /// The page's first request. Memory comes first here too, then the row.
    fn first<O: Outbox<Envelope<A>>>(
        &mut self,
        alloc: A,
        me: SiteId,
        page: PageId,
        from: SiteId,
        request: u64,
        kind: Kind,
        outbox: &mut O,
    ) -> Result<Outcome, AllocError>
        requires site { from < 16 }
        requires index { page.index < pages }
        requires absent { lookup (same_page page) self.old.map.entries ≡ None }
        ensures step { IfOk result (λ outcome. (site : Site)
            → to_book me page (model.on_ask from request kind (books_of me self.old page)) (with_books me self.old site)
            ≡ booked_step me page outcome (with_books me self.new site)) }
        ensures refused { OnErr result ((self.new.map.entries ≡ self.old.map.entries) × (booked_of self.new ≡ booked_of self.old)) }
        ensures fresh { OnErr result (0 < request) }
        ensures room { IfOk result (λ outcome. HasRoom outcome (O.room outbox.new)) }
        ensures same { O.posted outbox.old outbox.new [] }
    {
        let due = Due::of_first(request);
        if !due.starts() {
            return Ok(Outcome::Ignored);
        }
        outbox.reserve(MOST_ORDERS)?;
        self.map.reserve(1)?;
        let book = Book::new(alloc, me)?;
        self.bookings.add(&page)?;
        let mut book = StoredBook { book };
        let outcome = ask_in(&mut book, due, from, request, kind);
        put(&mut self.map, page, book);
        Ok(outcome)
    }

    /// A site has given up its copy of the page.
    pub fn on_cleared(&mut self, page: PageId, from: SiteId, number: u64) -> Outcome
        requires { from < 16 }
        ensures step { (me : ℕ) (site : Site) → to_book me page (model.on_cleared from number (books_of me self.old page)) (with_books me self.old site)
            ≡ booked_step me page result (with_books me self.new site) }
        ensures one { length (orders_in result) ≤ 1 }
    {
        match self.map.get_mut(&page) {
            None => Outcome::Ignored,
            Some(book) => cleared_in(book, from, number),
        }
    }

    /// A site has what it asked for. Where that ends the transaction that runs it takes memory: room for the orders of the next. Where
    /// that is refused nothing changes. Where the Confirm is ignored the page's mark stays as it is.
    pub fn on_confirm<O: Outbox<Envelope<A>>>(
        &mut self,
        page: PageId,
        from: SiteId,
        number: u64,
        outbox: &mut O,
    ) -> Result<Outcome, AllocError>
        requires { from < 16 }
        ensures step { IfOk result (λ outcome. (me : ℕ) (site : Site)
            → to_book me page (model.on_confirm from number (books_of me self.old page)) (with_books me self.old site)
            ≡ booked_step me page outcome (with_books me self.new site)) }
        ensures refused { OnErr result (((me : ℕ) → books_of me self.new ≡ books_of me self.old) × (booked_of self.new ≡ booked_of self.old)) }
        ensures ends { OnErr result ((me : ℕ) → is_ignored (model.on_confirm from number (books_of me self.old page)) ≡ false) }
        ensures room { IfOk result (λ outcome. HasRoom outcome (O.room outbox.new)) }
        ensures same { O.posted outbox.old outbox.new [] }
    {
        let Some(book) = self.map.get_mut(&page) else {
            return Ok(Outcome::Ignored);
        };
        let Some(kind) = ending_in(book, from, number) else {
            return Ok(Outcome::Ignored);
        };
        outbox.reserve(MOST_ORDERS)?;
        let outcome = confirm_in(book, kind, from);
        let runs = runs(book);
        self.bookings.settle(&page, runs);
        Ok(outcome)
    }

    /// Forgets what a restart of the manager loses of each book.
    pub fn forget_volatile(&mut self)
        ensures books { (me : ℕ) → books_of me self.new ≡ (λ page. model.without_volatile (books_of me self.old page)) }
        ensures booked { booked_of self.new ≡ booked_of self.old }
    {
        forget_all(&mut self.map);
    }

    /// Drops the books of a segment's pages. The others keep their order.
    pub fn remove_segment(&mut self, id: SegId)
        ensures books { (me : ℕ) → books_of me self.new ≡ of_segment id (model.untouched_book me) (books_of me self.old) }
        ensures booked { booked_of self.new ≡ without_segment id (booked_of self.old) }
    {
        let end = end_of(&self.map, id);
        'pages: for index in 0..end {
            self.remove(PageId { seg: id, index });
        }
    }

    /// Drops the page's book.
    fn remove(&mut self, page: PageId)
        ensures books { (other : Page) → lookup (same_page other) self.new.map.entries
            ≡ cond (same_page page other) None (lookup (same_page other) self.old.map.entries) }
        ensures booked { booked_of self.new ≡ without_page page (booked_of self.old) }
    {
        let _ = self.map.swap_remove(&page);
        self.bookings.remove(&page);
    }

    /// The page's book, if the page was asked for.
    pub fn get(&self, page: PageId) -> Option<&Book<A>>
        ensures { (me : ℕ) → book_or (model.untouched_book me) (option_copied result) ≡ books_of me self.now page }
    {
        let stored = self.map.get(&page)?;
        Some(&stored.book)
    }

    /// The next page, in the order of the first transactions, whose transaction may run, with its place in that order and its book.
    /// `last`: the place behind which it is looked for, if any. No transaction of a page that is passed over runs.
    pub fn running_after(&self, last: Option<u64>) -> Option<(u64, PageId, &Book<A>)>
        ensures next { IfSome result (λ r. IsNextRunning last self.now r.0 r.1) }
        ensures rest { IfNone result (AllIdle self.now (booked_after last self.now)) }
        ensures book { IfSome result (λ r. (me : ℕ) → book_of r.2.now ≡ books_of me self.now r.1) }
    {
        let Some((place, page)) = self.bookings.next_marked(last) else {
            return None;
        };
        let Some(stored) = self.map.get(&page) else {
            unreachable!()
        };
        Some((place, page, &stored.book))
    }

    /// How many pages have books.
    pub fn count(&self) -> usize
        ensures count { result ≡ length self.now.map.entries }
        ensures listed { (me : ℕ) → filled (λ _. model.untouched_book me) (booked_list me self.now) ≡ (λ page. model.without_volatile (books_of me self.now page)) }
        ensures apart { IsDistinct same_page (booked_of self.now) }
        ensures within { AllByRecursion (λ page. page.index < pages) (booked_of self.now) }
    {
        self.map.len()
    }

    /// The pages that have books, in the order of their first transactions.
    pub fn list(&self) -> Result<Vec<PageId, A>, AllocError>
        ensures { IfOk result (λ list. list.items ≡ booked_of self.now) }
    {
        self.bookings.list()
    }

    /// Gives a page without a book this one, as the last in the order of the first transactions. Ok(false): it has a book, and nothing
    /// changes. An error: memory is refused, or pages joined 2^64 - 1 times; then nothing changes either.
    pub fn restore(&mut self, page: PageId, book: Book<A>) -> Result<bool, AllocError>
        requires { page.index < pages }
        ensures joins { IfOk result (λ joins. joins ≡ not (list_any (same_page page) (booked_of self.old))) }
        ensures books { IfOk result (λ joins. (me : ℕ) → books_of me self.new
            ≡ (if joins then at_page (books_of me self.old) page (book_of book) else books_of me self.old)) }
        ensures booked { IfOk result (λ joins. booked_of self.new ≡ (if joins then booked_of self.old ++ page ∷ [] else booked_of self.old)) }
        ensures refused { OnErr result (((me : ℕ) → books_of me self.new ≡ books_of me self.old) × (booked_of self.new ≡ booked_of self.old)) }
    {
        if self.map.contains_key(&page) {
            return Ok(false);
        }
        match self.join(page, book) {
            Err(error) => Err(error),
            Ok(()) => Ok(true),
        }
    }

    /// Gives a page without a book this one. Memory comes first.
    fn join(&mut self, page: PageId, book: Book<A>) -> Result<(), AllocError>
        requires index { page.index < pages }
        requires absent { lookup (same_page page) self.old.map.entries ≡ None }
        ensures books { OnOk result ((me : ℕ) → books_of me self.new ≡ at_page (books_of me self.old) page (book_of book)) }
        ensures booked { OnOk result (booked_of self.new ≡ booked_of self.old ++ page ∷ []) }
        ensures refused { OnErr result ((self.new.map.entries ≡ self.old.map.entries) × (booked_of self.new ≡ booked_of self.old)) }
    {
        self.map.reserve(1)?;
        self.bookings.add(&page)?;
        put(&mut self.map, page, StoredBook { book });
        Ok(())
    }

    /// Equal books in equal order.
    pub fn copy(&self) -> Result<Books<A>, AllocError>
        ensures books { IfOk result (λ copy. (me : ℕ) → books_of me copy ≡ books_of me self.now) }
        ensures booked { IfOk result (λ copy. booked_of copy ≡ booked_of self.now) }
    {
        let map = copy_all(&self.map)?;
        let bookings = self.bookings.copy()?;
        Ok(Books { map, bookings })
    }
}
