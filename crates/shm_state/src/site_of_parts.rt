//! A site that is made of its state, as the parts are told one after another.
ghost use Rattle.std.specs.Prelude.{◌≡◌, ◌<◌, is_ok, IfOk};
ghost use Rattle.shm_site.specs.Site.{site_of};
ghost use Rattle.shm_site.specs.State.{site_from};
ghost use Rattle.shm_state.specs.Part.{Calls, Outstanding, Requests};
ghost use Rattle.shm_state.specs.PartOf.{part_in};
ghost use Rattle.shm_state.specs.Stage.{is_whole};
ghost use Rattle.shm_state.specs.Told.{Told as Said, misfit, told_nothing, wrong};
ghost use Rattle.shm_state.specs.ToldOf.{SameSeat, Takes, Tells};

use crate::part::Part;
use crate::take_fault::TakeFault;
use crate::told_stage::Stage;
use crate::told_state::Told;
use indexmap::IndexSet;
use shm_attach::{CallBook, Home};
use shm_keys::SegTable;
use shm_model::Op;
use shm_number::{Counter, KeptReply, Number};
use shm_parts::{Books, Holdings};
use shm_place::{SiteId, Sites};
use shm_site::Site;
use std::alloc::Allocator;

/// The requests and the calls weren't told.
#[derive(Clone, Copy, Debug, PartialEq, Eq)]
pub struct Unfinished;

impl<A: Allocator + Copy> Told<A> {
    /// Nothing was told so far of site `me` of so many.
    pub fn new(alloc: A, sites: Sites, me: SiteId) -> Told<A>
        requires { me < sites }
        ensures told { Tells result told_nothing }
        ensures seat { (result.sites ≡ sites) × (result.me ≡ me) }
    {
        Told {
            sites,
            me,
            last: Stage::Nothing,
            requests: 0,
            begun: 0,
            outstanding: None,
            table: SegTable::new(alloc, me, sites),
            kept: KeptReply::new(),
            pages: IndexSet::new(alloc),
            holdings: Holdings::new(alloc, sites, me),
            books: Books::new(alloc),
            alloc,
        }
    }

    /// Takes the next part of the state. Where it isn't taken nothing changes.
    pub fn take(&mut self, part: Part<A>) -> Result<(), TakeFault>
        ensures told { (said : Said) → Tells self.old said
            → Takes (part_in part) said (wrong self.old.sites self.old.me (part_in part) said) result self.new }
        ensures seat { SameSeat self.old self.new }
    {
        if !self.last.lets(part.stage()) {
            return Err(TakeFault::OutOfOrder);
        }
        self.take_due(part)
    }

    /// Takes a part in its order.
    fn take_due(&mut self, part: Part<A>) -> Result<(), TakeFault>
        ensures told { (said : Said) → Tells self.old said
            → Takes (part_in part) said (misfit self.old.sites self.old.me (part_in part) said.state) result self.new }
        ensures seat { SameSeat self.old self.new }
    {
        match part {
            Part::Requests(number) => self.take_requests(number),
            Part::Calls(number) => self.take_calls(number),
            Part::Outstanding { number, op } => self.take_outstanding(number, op),
            Part::Segment(segment) => self.take_segment(segment),
            Part::Missing { id, missing } => self.take_missing(id, missing),
            Part::Kept {
                site,
                number,
                reply,
            } => self.take_kept(site, number, reply),
            Part::Entry { page, entry } => self.take_entry(page, entry),
            Part::Purged(id) => self.take_purged(id),
            Part::Attachment {
                number,
                id,
                size,
                ro,
            } => self.take_attachment(number, id, size, ro),
            Part::Book { page, book } => self.take_book(page, book),
        }
    }

    fn take_requests(&mut self, number: Number) -> Result<(), TakeFault>
        ensures told { (said : Said) → Tells self.old said
            → Takes (Requests number) said (misfit self.old.sites self.old.me (Requests number) said.state) result self.new }
        ensures seat { SameSeat self.old self.new }
    {
        self.requests = number;
        self.last = Stage::Requests;
        Ok(())
    }

    fn take_calls(&mut self, number: Number) -> Result<(), TakeFault>
        ensures told { (said : Said) → Tells self.old said
            → Takes (Calls number) said (misfit self.old.sites self.old.me (Calls number) said.state) result self.new }
        ensures seat { SameSeat self.old self.new }
    {
        self.begun = number;
        self.last = Stage::Calls;
        Ok(())
    }

    fn take_outstanding(&mut self, number: Number, op: Op) -> Result<(), TakeFault>
        ensures told { (said : Said) → Tells self.old said
            → Takes (Outstanding number op) said (misfit self.old.sites self.old.me (Outstanding number op) said.state) result self.new }
        ensures seat { SameSeat self.old self.new }
    {
        self.outstanding = Some((number, op));
        self.last = Stage::Outstanding;
        Ok(())
    }

    /// The site that has this state, and no pending requests.
    pub fn into_site(self) -> Result<Site<A>, Unfinished>
        ensures whole { is_ok result ≡ is_whole self.last }
        ensures site { IfOk result (λ site. (said : Said) → Tells self said → site_of site ≡ site_from self.sites self.me said.state) }
        ensures seat { IfOk result (λ site. (site.sites ≡ self.sites) × (site.me ≡ self.me)) }
    {
        if !self.last.is_whole() {
            return Err(Unfinished);
        }
        Ok(self.made())
    }

    fn made(self) -> Site<A>
        ensures site { (said : Said) → Tells self said → site_of result ≡ site_from self.sites self.me said.state }
        ensures seat { (result.sites ≡ self.sites) × (result.me ≡ self.me) }
    {
        let Told {
            sites,
            me,
            last: _,
            requests,
            begun,
            outstanding,
            table,
            kept,
            pages: _,
            holdings,
            books,
            alloc,
        } = self;
        let requests = Counter::after(requests);
        let calls = CallBook::restored(begun, outstanding);
        let home = Home::restored(table, kept);
        Site::restored(alloc, sites, me, holdings, books, requests, calls, home)
    }
}
