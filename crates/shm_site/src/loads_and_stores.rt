//! Loads and stores: with the right they complete at once, without it the page's manager is asked.
ghost use Rattle.std.specs.Prelude.{◌≡◌, IfOk, OnErr};
ghost use Rattle.shm_model.specs.Access as model;
ghost use Rattle.shm_model.specs.declared.answer.Answer.TheVariants as answer;
ghost use Rattle.shm_site.specs.Site.{StepsTo, Unchanged, site_of};

use crate::site::Site;
use shm_model::refusal::NUMBERS_USED_UP;
use shm_model::{Answer, Kind, Numbered};
use shm_parts::{BookNote, Envelope, LoadOutcome, Outbox, StoreOutcome, to_manager};
use shm_place::PageId;
use std::alloc::{AllocError, Allocator};

impl<A: Allocator + Copy> Site<A> {
    /// Loads a byte through an attachment. Where the right is here this takes no memory.
    #[inline(always)]
    pub fn load<O: Outbox<Envelope<A>>>(
        &mut self,
        at: u32,
        offset: u32,
        outbox: &mut O,
    ) -> Result<Answer, AllocError>
        ensures step { IfOk result (λ answer. StepsTo O.posted self.old self.new outbox.old outbox.new answer
            (model.load self.old.sites self.old.me at offset (site_of self.old))) }
        ensures refused { OnErr result (Unchanged O.posted self.old self.new outbox.old outbox.new) }
        ensures memory { OnErr result ((model.load self.old.sites self.old.me at offset (site_of self.old)).answer ≡ answer.Fault) }
    {
        match self.holdings.load(at, offset) {
            Ok(LoadOutcome::Byte(byte)) => Ok(Answer::Byte(byte)),
            Ok(LoadOutcome::Absent(page)) => self.ask_for(Kind::Read, &page, outbox),
            Err(denied) => Ok(Answer::Refused(denied.number())),
        }
    }

    /// Stores a byte through an attachment. Where the right is here this takes no memory.
    #[inline(always)]
    pub fn store<O: Outbox<Envelope<A>>>(
        &mut self,
        at: u32,
        offset: u32,
        byte: u8,
        outbox: &mut O,
    ) -> Result<Answer, AllocError>
        ensures step { IfOk result (λ answer. StepsTo O.posted self.old self.new outbox.old outbox.new answer
            (model.store self.old.sites self.old.me at offset byte (site_of self.old))) }
        ensures refused { OnErr result (Unchanged O.posted self.old self.new outbox.old outbox.new) }
        ensures memory { OnErr result ((model.store self.old.sites self.old.me at offset byte (site_of self.old)).answer ≡ answer.Fault) }
    {
        match self.holdings.store(at, offset, byte) {
            Ok(StoreOutcome::Stored) => Ok(Answer::Stored),
            Ok(StoreOutcome::Absent(page)) => self.ask_for(Kind::Write, &page, outbox),
            Err(denied) => Ok(Answer::Refused(denied.number())),
        }
    }

    /// An access without the right: it waits for what is pending, or asks the manager.
    // Out of line, so that an access with the right stays short.
    #[inline(never)]
    fn ask_for<O: Outbox<Envelope<A>>>(
        &mut self,
        kind: Kind,
        page: &PageId,
        outbox: &mut O,
    ) -> Result<Answer, AllocError>
        ensures step { IfOk result (λ answer. StepsTo O.posted self.old self.new outbox.old outbox.new answer
            (model.ask_for self.old.sites self.old.me kind page.now (site_of self.old))) }
        ensures refused { OnErr result (Unchanged O.posted self.old self.new outbox.old outbox.new) }
        ensures memory { OnErr result ((model.ask_for self.old.sites self.old.me kind page.now (site_of self.old)).answer ≡ answer.Fault) }
    {
        if self.pending.serves(kind, *page) {
            return Ok(Answer::Waiting);
        }
        let mut requests = self.requests.copy();
        let Ok(request) = requests.next() else {
            return Ok(Answer::Refused(NUMBERS_USED_UP));
        };
        outbox.reserve(1)?;
        self.pending.put(*page, request, kind)?;
        self.requests = requests;
        outbox.push(to_manager(self.sites, self.me, page, BookNote::Ask { request, kind }));
        Ok(Answer::Fault)
    }
}
