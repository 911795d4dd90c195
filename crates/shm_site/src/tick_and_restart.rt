//! Ticks and restarts: what a site sends again, and what it loses.
ghost use Rattle.std.specs.Prelude.{◌≡◌, ◌≤◌, ◌++◌, [], length, map, filter, IfOk, OnOk, OnErr};
ghost use Rattle.std.specs.List.{flat_map, range_with_len};
ghost use Rattle.shm_place.specs.SiteSet.{has};
ghost use Rattle.shm_manager.specs.Book.{book_of};
ghost use Rattle.shm_model.specs.Book.{orders};
ghost use Rattle.shm_model.specs.SegmentCalls.{purge_envelope};
ghost use Rattle.shm_model.specs.Step as model;
ghost use Rattle.shm_model.specs.Transfer as transfer;
ghost use Rattle.shm_parts.specs.Books.{booked_of};
ghost use Rattle.shm_parts.specs.Message.{envelope_of};
ghost use Rattle.shm_parts.specs.Pendings.{pendings_of};
ghost use Rattle.shm_site.specs.Site.{SameSeat, StepsTo, site_of, stepped};

use crate::home_of_segment_call::op_home;
use crate::send_page_orders::send_orders;
use crate::site::Site;
use shm_manager::{Book, MOST_ORDERS};
use shm_model::{Answer, Kind};
use shm_parts::{BookNote, Envelope, Message, Outbox, to_manager};
use shm_place::{PageId, SegId, SiteId, SiteSet, Sites};
use std::alloc::{AllocError, Allocator};

/// The envelope of a pending request's Ask.
fn ask_envelope<A: Allocator + Copy>(
    sites: Sites,
    me: SiteId,
    page: &PageId,
    request: u64,
    kind: Kind,
) -> Envelope<A>
    ensures { envelope_of result ≡ model.ask_again sites me (record { page = page.now; request = request; kind = kind }) }
{
    to_manager(sites, me, page, BookNote::Ask { request, kind })
}

impl<A: Allocator + Copy> Site<A> {
    /// Sends again, in this order: the pending requests, the orders of the running transactions, the outstanding call, the purges. It lists
    /// all first, and then makes room for exactly that. Where memory is refused nothing is sent.
    pub(crate) fn tick<O: Outbox<Envelope<A>>>(&self, outbox: &mut O) -> Result<Answer, AllocError>
        ensures step { IfOk result (λ answer. StepsTo O.posted self.now self.now outbox.old outbox.new answer
            (model.tick self.now.sites self.now.me (site_of self.now))) }
        ensures refused { OnErr result (O.posted outbox.old outbox.new []) }
    {
        let again = self.list_again()?;
        outbox.reserve(again.len())?;
        post_all(again, outbox);
        Ok(Answer::Took)
    }

    /// All that a tick sends again.
    fn list_again(&self) -> Result<Vec<Envelope<A>, A>, AllocError>
        ensures { IfOk result (λ list. map envelope_of list.items ≡ model.tick_envelopes self.now.sites self.now.me (site_of self.now)) }
    {
        let mut list = Vec::new(self.alloc);
        self.ask_again(&mut list)?;
        self.order_again(&mut list)?;
        self.call_again(&mut list)?;
        self.purge_again(&mut list)?;
        Ok(list)
    }

    /// The pending requests.
    fn ask_again(&self, list: &mut Vec<Envelope<A>, A>) -> Result<(), AllocError>
        ensures { OnOk result (map envelope_of list.new.items
            ≡ map envelope_of list.old.items ++ map (model.ask_again self.now.sites self.now.me) (pendings_of self.now.pending)) }
    {
        'requests: for (page, pending) in self.pending.iter() {
            let (request, kind) = *pending;
            list.push(ask_envelope(self.sites, self.me, page, request, kind))?;
        }
        Ok(())
    }

    /// Lists the orders of all running transactions.
    fn order_again(&self, list: &mut Vec<Envelope<A>, A>) -> Result<(), AllocError>
        ensures { OnOk result (map envelope_of list.new.items
            ≡ map envelope_of list.old.items ++ flat_map (model.orders_again self.now.me (site_of self.now)) (booked_of self.now.books)) }
    {
        let mut last = None;
        'pages: while let Some((place, page, book)) = self.books.running_after(last) {
            self.resend(&page, book, list)?;
            last = Some(place);
        }
        Ok(())
    }

    /// Lists the orders of the book's running transaction.
    fn resend(
        &self,
        page: &PageId,
        book: &Book<A>,
        list: &mut Vec<Envelope<A>, A>,
    ) -> Result<(), AllocError>
        ensures { OnOk result (map envelope_of list.new.items
            ≡ map envelope_of list.old.items ++ transfer.order_envelopes self.now.me page.now (book_of book.now) (orders (book_of book.now))) }
    {
        Outbox::reserve(list, MOST_ORDERS)?;
        send_orders(self.me, page, book.number(), book.resend(), list);
        Ok(())
    }

    /// The outstanding call.
    fn call_again(&self, list: &mut Vec<Envelope<A>, A>) -> Result<(), AllocError>
        ensures { OnOk result (map envelope_of list.new.items
            ≡ map envelope_of list.old.items ++ model.call_again self.now.sites self.now.me self.now.calls.outstanding) }
    {
        match self.calls.outstanding() {
            None => Ok(()),
            Some((number, op)) => {
                let to = op_home(self.sites, self.me, &op);
                list.push(Envelope {
                    from: self.me,
                    to,
                    message: Message::Call { number, op },
                })?;
                Ok(())
            }
        }
    }

    /// The purges of this home's destroyed segments.
    fn purge_again(&self, list: &mut Vec<Envelope<A>, A>) -> Result<(), AllocError>
        ensures { OnOk result (map envelope_of list.new.items
            ≡ map envelope_of list.old.items ++ flat_map (model.purges_again self.now.sites self.now.me (site_of self.now)) self.now.home.table.segments) }
    {
        let mut last = None;
        'segments: while let Some((id, missing)) = self.home.next_purge(last) {
            self.list_purges(id, missing, list)?;
            last = Some(id);
        }
        Ok(())
    }

    fn list_purges(
        &self,
        id: SegId,
        missing: SiteSet,
        list: &mut Vec<Envelope<A>, A>,
    ) -> Result<(), AllocError>
        ensures { OnOk result (map envelope_of list.new.items
            ≡ map envelope_of list.old.items ++ map (purge_envelope self.now.me id) (filter (has missing) (range_with_len 0 self.now.sites))) }
    {
        'sites: for site in 0..self.sites.count() {
            let to = SiteId(site);
            if !missing.contains(to) {
                continue;
            }
            list.push(Envelope {
                from: self.me,
                to,
                message: Message::Purge { id },
            })?;
        }
        Ok(())
    }

    /// A restart keeps what is stable. It takes no memory.
    pub(crate) fn restart(&mut self) -> Answer
        ensures step { model.restart (site_of self.old) ≡ stepped self.new result [] }
        ensures seat { SameSeat self.old self.new }
    {
        self.pending.clear();
        self.books.forget_volatile();
        Answer::Took
    }
}

/// Posts all of the list, for which there is room.
fn post_all<A: Allocator + Copy, O: Outbox<Envelope<A>>>(list: Vec<Envelope<A>, A>, outbox: &mut O)
    requires { length list.items ≤ O.room outbox.old }
    ensures { O.posted outbox.old outbox.new list.items }
{
    'envelopes: for envelope in list {
        outbox.push(envelope);
    }
}
