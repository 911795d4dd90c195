//! Notes of a page to its manager's book: each is a row of the book's table (Li and Hudak 1989, §3.2).
ghost use Rattle.std.specs.Prelude.{◌≡◌, ◌<◌, false, IfOk, OnErr};
ghost use Rattle.shm_place.specs.Limits.{pages};
ghost use Rattle.shm_model.specs.Book as book;
ghost use Rattle.shm_model.specs.Site as model;
ghost use Rattle.shm_model.specs.Transfer.{on_note, to_book};
ghost use Rattle.shm_parts.specs.Books.{booked_step, HasRoom};
ghost use Rattle.shm_parts.specs.Message.{book_note_of};
ghost use Rattle.shm_site.specs.Site.{Makes, StepsTo, Unchanged, site_of};
ghost use Rattle.shm_site.specs.Step.{is_refused};

use crate::send_page_orders::send_orders;
use crate::site::Site;
use shm_model::refusal::NUMBERS_USED_UP;
use shm_model::{Answer, Kind};
use shm_parts::{BookNote, Envelope, Outbox, Outcome};
use shm_place::{PageId, SiteId};
use std::alloc::{AllocError, Allocator};

impl<A: Allocator + Copy> Site<A> {
    /// Takes a note to the book of a page: one row of its table.
    pub(crate) fn to_book<O: Outbox<Envelope<A>>>(
        &mut self,
        from: SiteId,
        page: &PageId,
        told: &BookNote,
        outbox: &mut O,
    ) -> Result<Answer, AllocError>
        requires from { from < 16 }
        requires index { page.now.index < pages }
        ensures step { IfOk result (λ answer. StepsTo O.posted self.old self.new outbox.old outbox.new answer
            (on_note self.old.sites self.old.me from page.now (book_note_of told.now) (site_of self.old))) }
        ensures memory { OnErr result (is_refused
            (on_note self.old.sites self.old.me from page.now (book_note_of told.now) (site_of self.old)).answer ≡ false) }
        ensures refused { OnErr result (Unchanged O.posted self.old self.new outbox.old outbox.new) }
    {
        match told {
            &BookNote::Ask { request, kind } => self.on_ask(page, from, request, kind, outbox),
            &BookNote::Cleared(number) => self.on_cleared(page, from, number, outbox),
            &BookNote::Confirm(number) => self.on_confirm(page, from, number, outbox),
        }
    }

    /// A site asks for a right to the page. An Ask that starts no transaction takes no memory.
    fn on_ask<O: Outbox<Envelope<A>>>(
        &mut self,
        page: &PageId,
        from: SiteId,
        request: u64,
        kind: Kind,
        outbox: &mut O,
    ) -> Result<Answer, AllocError>
        requires from { from < 16 }
        requires index { page.now.index < pages }
        ensures step { IfOk result (λ answer. StepsTo O.posted self.old self.new outbox.old outbox.new answer
            (to_book self.old.me page.now (book.on_ask from request kind ((site_of self.old).books page.now)) (site_of self.old))) }
        ensures memory { OnErr result (is_refused (to_book self.old.me page.now (book.on_ask from request kind ((site_of self.old).books page.now))
            (site_of self.old)).answer ≡ false) }
        ensures refused { OnErr result (Unchanged O.posted self.old self.new outbox.old outbox.new) }
    {
        let outcome = self
            .books
            .on_ask(self.alloc, self.me, *page, from, request, kind, outbox)?;
        Ok(answer_row(self.me, page, outcome, outbox))
    }

    /// A site has given up its copy of the page. After the last one a Hand may go out.
    fn on_cleared<O: Outbox<Envelope<A>>>(
        &mut self,
        page: &PageId,
        from: SiteId,
        number: u64,
        outbox: &mut O,
    ) -> Result<Answer, AllocError>
        requires { from < 16 }
        ensures step { IfOk result (λ answer. StepsTo O.posted self.old self.new outbox.old outbox.new answer
            (to_book self.old.me page.now (book.on_cleared from number ((site_of self.old).books page.now)) (site_of self.old))) }
        ensures refused { OnErr result (Unchanged O.posted self.old self.new outbox.old outbox.new) }
    {
        outbox.reserve(1)?;
        let outcome = self.books.on_cleared(*page, from, number);
        Ok(answer_row(self.me, page, outcome, outbox))
    }

    /// A site has what it asked for. A Confirm that ends no transaction takes no memory.
    fn on_confirm<O: Outbox<Envelope<A>>>(
        &mut self,
        page: &PageId,
        from: SiteId,
        number: u64,
        outbox: &mut O,
    ) -> Result<Answer, AllocError>
        requires { from < 16 }
        ensures step { IfOk result (λ answer. StepsTo O.posted self.old self.new outbox.old outbox.new answer
            (to_book self.old.me page.now (book.on_confirm from number ((site_of self.old).books page.now)) (site_of self.old))) }
        ensures refused { OnErr result (Unchanged O.posted self.old self.new outbox.old outbox.new) }
    {
        let outcome = self.books.on_confirm(*page, from, number, outbox)?;
        Ok(answer_row(self.me, page, outcome, outbox))
    }
}

/// Sends what a row of the page's book calls for, and answers.
fn answer_row<A: Allocator + Copy, O: Outbox<Envelope<A>>>(
    me: SiteId,
    page: &PageId,
    outcome: Outcome,
    outbox: &mut O,
) -> Answer
    requires { HasRoom outcome (O.room outbox.old) }
    ensures { (site : model.Site) → Makes O.posted outbox.old outbox.new site result (booked_step me page.now outcome site) }
{
    match outcome {
        Outcome::Ignored => Answer::Dropped,
        Outcome::UsedUp => Answer::Refused(NUMBERS_USED_UP),
        Outcome::Taken { number, orders } => {
            send_orders(me, page, number, orders, outbox);
            Answer::Took
        }
    }
}
