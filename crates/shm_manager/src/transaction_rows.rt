//! A manager's rows: what it does at each message, and what it sends again at a tick.
ghost use Rattle.std.specs.Prelude.{◌≡◌, ◌<◌, ◌≤◌, ◌==◌, false, [], ◌∷◌, length, Some, IfOk, IfNone, IfSome, OnErr};
ghost use Rattle.shm_number.specs.Served.{served_of};
ghost use Rattle.shm_model.specs.Book as model;
ghost use Rattle.shm_model.specs.declared.request_kind.Kind.{Kind};
ghost use Rattle.shm_place.specs.SiteSet.{has_none};
ghost use Rattle.shm_manager.specs.Book.{book_of, run_of, row_of, asked_row_of, behind, due_of};
ghost use Rattle.shm_manager.specs.Orders.{members, orders_of};

use crate::book::Book;
use crate::manager_messages::Orders;
use crate::request_decision::Due;
use crate::waiting_request::Ask;
use shm_model::Kind;
use shm_number::UsedUp;
use shm_place::{SiteId, SiteSet};
use std::alloc::Allocator;

impl<A: Allocator> Book<A> {
    /// What the book will do with a request, for either right. Changes nothing yet.
    pub fn due(&self, from: SiteId, request: u64) -> Due
        requires { from < 16 }
        ensures { (kind : Kind) → result ≡ due_of (model.on_ask from request kind (book_of self.now)) (book_of self.now).running }
    {
        if !self.served.fresh(from, request) {
            return Due::Ignored;
        }
        if self.running.is_some() {
            return self.due_behind(from, request);
        }
        if self.number == u64::MAX {
            return Due::UsedUp;
        }
        Due::Starts
    }

    fn due_behind(&self, from: SiteId, request: u64) -> Due
        requires { from < 16 }
        ensures { (kind : Kind) (run : model.Running) → result ≡ due_of (model.ask_behind from request kind (book_of self.now)) (Some run) }
    {
        if self.waiting.contains(from, request) {
            return Due::Ignored;
        }
        if self.waiting.is_full() {
            return Due::Ignored;
        }
        Due::Waits
    }

    /// A request for a right. None: it was served, or waits already, or there is no room to wait.
    pub fn ask(&mut self, from: SiteId, request: u64, kind: Kind) -> Result<Option<Orders>, UsedUp>
        requires { from < 16 }
        ensures row { asked_row_of result (book_of self.new) ≡ model.on_ask from request kind (book_of self.old) }
        ensures ignored { IfOk result (λ answer. IfNone answer (book_of self.new ≡ book_of self.old)) }
        ensures refused { OnErr result (book_of self.new ≡ book_of self.old) }
    {
        let due = self.due(from, request);
        self.ask_due(due, from, request, kind)
    }

    /// The same, where it was found out before what becomes of the request.
    pub fn ask_due(
        &mut self,
        due: Due,
        from: SiteId,
        request: u64,
        kind: Kind,
    ) -> Result<Option<Orders>, UsedUp>
        requires site { from < 16 }
        requires due { due ≡ due_of (model.on_ask from request kind (book_of self.old)) (book_of self.old).running }
        ensures row { asked_row_of result (book_of self.new) ≡ model.on_ask from request kind (book_of self.old) }
        ensures ignored { IfOk result (λ answer. IfNone answer (book_of self.new ≡ book_of self.old)) }
        ensures refused { OnErr result (book_of self.new ≡ book_of self.old) }
    {
        match due {
            Due::Ignored => Ok(None),
            Due::UsedUp => Err(UsedUp),
            Due::Waits => Ok(Some(self.wait(from, request, kind))),
            Due::Starts => Ok(Some(self.start(from, request, kind))),
        }
    }

    fn wait(&mut self, from: SiteId, request: u64, kind: Kind) -> Orders
        requires site { from < 16 }
        requires room { length self.old.waiting < 16 }
        ensures book { book_of self.new ≡ behind from request kind (book_of self.old) }
        ensures orders { orders_of result ≡ [] }
    {
        self.waiting.push(Ask {
            from,
            request,
            kind,
        });
        Orders::Nothing
    }

    fn start(&mut self, from: SiteId, request: u64, kind: Kind) -> Orders
        requires site { from < 16 }
        requires fresh { served_of self.old.served from < request }
        requires number_left { (self.old.number == u64.MAX) ≡ false }
        ensures book { book_of self.new ≡ model.started from request kind (book_of self.old) }
        ensures orders { orders_of result ≡ model.orders (model.started from request kind (book_of self.old)) }
    {
        self.number += 1;
        self.running = Some((kind, from));
        self.cleared = SiteSet::empty();
        self.served.take(from, request);
        self.orders_for(kind, from)
    }

    /// A site has given up its copy. None: nobody waits for that.
    pub fn cleared(&mut self, from: SiteId, number: u64) -> Option<Orders>
        requires { from < 16 }
        ensures row { row_of result (book_of self.new) ≡ model.on_cleared from number (book_of self.old) }
        ensures ignored { IfNone result (book_of self.new ≡ book_of self.old) }
        ensures one { IfSome result (λ orders. length (orders_of orders) ≤ 1) }
    {
        let Some((kind, requester)) = self.running else {
            return None;
        };
        if number != self.number {
            return None;
        }
        if !self.awaits(kind, requester, from) {
            return None;
        }
        self.cleared.insert(from);
        Some(self.hand_if_cleared(kind, requester))
    }

    fn hand_if_cleared(&self, kind: Kind, requester: SiteId) -> Orders
        requires { self.now.running ≡ Some (kind, requester) }
        ensures orders { orders_of result
            ≡ model.hand_if_cleared (book_of self.now) (run_of kind requester) (model.awaited (book_of self.now) (run_of kind requester)) }
        ensures one { length (orders_of result) ≤ 1 }
    {
        if self.awaited(kind, requester).is_empty() {
            return self.hand(kind, requester);
        }
        Orders::Nothing
    }

    /// The requester has what it asked for. None: it doesn't end the running transaction.
    pub fn confirm(&mut self, from: SiteId, number: u64) -> Option<Orders>
        requires { from < 16 }
        ensures row { row_of result (book_of self.new) ≡ model.on_confirm from number (book_of self.old) }
        ensures ignored { IfNone result (book_of self.new ≡ book_of self.old) }
    {
        let kind = self.ending(from, number)?;
        Some(self.confirm_ending(kind, from))
    }

    /// What the transaction that a Confirm ends gives, if the Confirm ends the running one. Changes nothing yet.
    pub fn ending(&self, from: SiteId, number: u64) -> Option<Kind>
        ensures runs { IfSome result (λ kind. (book_of self.now).running ≡ Some (run_of kind from)) }
        ensures row { IfSome result (λ kind. model.on_confirm from number (book_of self.now)
            ≡ model.serve_next (model.ended (run_of kind from) (book_of self.now))) }
        ensures ignored { IfNone result (model.on_confirm from number (book_of self.now) ≡ model.Ignored) }
    {
        let Some((kind, requester)) = self.running else {
            return None;
        };
        if number != self.number || from != requester {
            return None;
        }
        Some(kind)
    }

    /// Takes a Confirm that was found to end the running transaction.
    pub fn confirm_ending(&mut self, kind: Kind, from: SiteId) -> Orders
        requires { from < 16 }
        ensures { model.Taken (book_of self.new) (orders_of result) ≡ model.serve_next (model.ended (run_of kind from) (book_of self.old)) }
    {
        self.end(kind, from);
        self.serve_next()
    }

    fn end(&mut self, kind: Kind, requester: SiteId)
        requires { requester < 16 }
        ensures { book_of self.new ≡ model.ended (run_of kind requester) (book_of self.old) }
    {
        self.running = None;
        match kind {
            Kind::Write => {
                self.owner = requester;
                self.copies = SiteSet::empty();
            }
            Kind::Read => {
                if requester != self.owner {
                    self.copies.insert(requester);
                }
            }
        }
    }

    fn serve_next(&mut self) -> Orders
        ensures { model.Taken (book_of self.new) (orders_of result) ≡ model.serve_next (book_of self.old) }
    {
        if self.number == u64::MAX {
            self.waiting.clear();
            return Orders::Nothing;
        }
        let Some(ask) = self.waiting.next_unserved(&self.served) else {
            return Orders::Nothing;
        };
        self.start(ask.from, ask.request, ask.kind)
    }

    /// The messages that the running transaction still waits for, to be sent again at a tick.
    pub fn resend(&self) -> Orders
        ensures { orders_of result ≡ model.orders (book_of self.now) }
    {
        let Some((kind, requester)) = self.running else {
            return Orders::Nothing;
        };
        self.orders_for(kind, requester)
    }

    fn orders_for(&self, kind: Kind, requester: SiteId) -> Orders
        ensures { orders_of result ≡ model.orders_to (book_of self.now) (run_of kind requester) (model.awaited (book_of self.now) (run_of kind requester)) }
    {
        let missing = self.awaited(kind, requester);
        if missing.is_empty() {
            return self.hand(kind, requester);
        }
        Orders::Clear(missing)
    }

    /// The owner is to hand the page.
    fn hand(&self, kind: Kind, requester: SiteId) -> Orders
        ensures { orders_of result ≡ model.HandTo (book_of self.now).owner requester kind ∷ [] }
    {
        Orders::Hand {
            owner: self.owner,
            requester,
            kind,
        }
    }

    /// The sites that the transaction still waits for.
    fn awaited(&self, kind: Kind, requester: SiteId) -> SiteSet
        ensures sites { members result ≡ model.awaited (book_of self.now) (run_of kind requester) }
        ensures none { has_none result ≡ (length (model.awaited (book_of self.now) (run_of kind requester)) == 0) }
    {
        let mut missing = SiteSet::empty();
        'sites: for site in 0..16u32 {
            if self.awaits(kind, requester, SiteId(site)) {
                missing.insert(SiteId(site));
            }
        }
        missing
    }

    fn awaits(&self, kind: Kind, requester: SiteId, site: SiteId) -> bool
        requires { site < 16 }
        ensures { result ≡ model.awaits (book_of self.now) (run_of kind requester) site }
    {
        matches!(kind, Kind::Write)
            && self.copies.contains(site)
            && site != requester
            && !self.cleared.contains(site)
    }
}
