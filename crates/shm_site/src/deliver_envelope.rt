//! Envelopes that are handed to a site: one case for each kind of message, and of note.
ghost use Rattle.std.specs.Prelude.{◌≡◌, ◌<◌, true, false, IfOk, IfErr, OnErr};
ghost use Rattle.shm_place.specs.Limits.{pages};
ghost use Rattle.shm_model.specs.Message.{Of};
ghost use Rattle.shm_model.specs.Step.{deliver, foreign, is_proper, on_message};
ghost use Rattle.shm_model.specs.Transfer.{on_note, on_note_of};
ghost use Rattle.shm_parts.specs.Message.{envelope_of, message_of, note_of};
ghost use Rattle.shm_parts.specs.Purged.{purged_of};
ghost use Rattle.shm_site.specs.Site.{StepsTo, Unchanged, site_of};
ghost use Rattle.shm_site.specs.Step.{is_refused};

use crate::foreign_envelopes::{is_foreign, is_improper};
use crate::site::Site;
use shm_model::Answer;
use shm_model::refusal::FOREIGN;
use shm_parts::{Envelope, Message, Note, Outbox};
use shm_place::{PageId, SiteId};
use std::alloc::Allocator;

impl<A: Allocator + Copy> Site<A> {
    /// Checks that the envelope can't be for this site: it names another one or comes from none, or its message can't be this site's.
    pub fn foreign(&self, envelope: &Envelope<A>) -> bool
        ensures { result ≡ foreign self.now.sites self.now.me (envelope_of envelope.now) }
    {
        is_foreign(self.sites, self.me, envelope)
    }

    /// Checks that the envelope, which names this site, still can't be for it: it comes from no site, or its message can't be this site's.
    pub fn is_improper(&self, envelope: &Envelope<A>) -> bool
        requires { envelope.now.to ≡ self.now.me }
        ensures { result ≡ foreign self.now.sites self.now.me (envelope_of envelope.now) }
    {
        is_improper(self.sites, self.me, envelope)
    }

    /// Takes an envelope that names this site; one that can't be for it all the same is refused. Where memory is refused it comes back.
    #[inline(always)]
    pub fn deliver_addressed<O: Outbox<Envelope<A>>>(
        &mut self,
        envelope: Envelope<A>,
        outbox: &mut O,
    ) -> Result<Answer, Envelope<A>>
        requires { envelope.to ≡ self.old.me }
        ensures step { IfOk result (λ answer. StepsTo O.posted self.old self.new outbox.old outbox.new answer
            (deliver self.old.sites self.old.me (envelope_of envelope) (site_of self.old))) }
        ensures memory { OnErr result (is_refused (deliver self.old.sites self.old.me (envelope_of envelope) (site_of self.old)).answer ≡ false) }
        ensures back { IfErr result (λ back. envelope_of back ≡ envelope_of envelope) }
        ensures refused { OnErr result (Unchanged O.posted self.old self.new outbox.old outbox.new) }
    {
        if self.is_improper(&envelope) {
            return Ok(Answer::Refused(FOREIGN));
        }
        self.deliver_proper(envelope, outbox)
    }

    /// Takes an envelope that can be for this site. Where memory is refused it comes back.
    #[inline(always)]
    pub(crate) fn deliver_proper<O: Outbox<Envelope<A>>>(
        &mut self,
        envelope: Envelope<A>,
        outbox: &mut O,
    ) -> Result<Answer, Envelope<A>>
        requires { foreign self.old.sites self.old.me (envelope_of envelope) ≡ false }
        ensures step { IfOk result (λ answer. StepsTo O.posted self.old self.new outbox.old outbox.new answer
            (deliver self.old.sites self.old.me (envelope_of envelope) (site_of self.old))) }
        ensures memory { OnErr result (is_refused (deliver self.old.sites self.old.me (envelope_of envelope) (site_of self.old)).answer ≡ false) }
        ensures back { IfErr result (λ back. envelope_of back ≡ envelope_of envelope) }
        ensures refused { OnErr result (Unchanged O.posted self.old self.new outbox.old outbox.new) }
    {
        // Reading it tells the proof its limits.
        let _count = self.sites.count();
        let Envelope { from, to, message } = envelope;
        match self.on_message(from, message, outbox) {
            Ok(answer) => Ok(answer),
            Err(message) => Err(Envelope { from, to, message }),
        }
    }

    /// Takes a message. Where memory is refused it comes back.
    fn on_message<O: Outbox<Envelope<A>>>(
        &mut self,
        from: SiteId,
        message: Message<A>,
        outbox: &mut O,
    ) -> Result<Answer, Message<A>>
        requires from { from < 16 }
        requires proper { is_proper self.old.sites self.old.me from (message_of message) ≡ true }
        ensures step { IfOk result (λ answer. StepsTo O.posted self.old self.new outbox.old outbox.new answer
            (on_message self.old.sites self.old.me from (message_of message) (site_of self.old))) }
        ensures memory { OnErr result (is_refused (on_message self.old.sites self.old.me from (message_of message) (site_of self.old)).answer ≡ false) }
        ensures back { IfErr result (λ back. message_of back ≡ message_of message) }
        ensures refused { OnErr result (Unchanged O.posted self.old self.new outbox.old outbox.new) }
    {
        match message {
            Message::Of { page, note } => self.on_note_of(from, &page, note, outbox),
            // The call and the reply are handed on as copies: what was passed by value can't go back.
            Message::Call { number, op } => {
                let call = op;
                match self.on_call(from, number, call, outbox) {
                    Ok(answer) => Ok(answer),
                    Err(_) => Err(Message::Call { number, op }),
                }
            }
            Message::Reply { number, reply } => {
                let told = reply;
                match self.on_reply(number, told) {
                    Ok(answer) => Ok(answer),
                    Err(_) => Err(Message::Reply { number, reply }),
                }
            }
            Message::Purge { id } => match self.on_purge(id, outbox) {
                Ok(answer) => Ok(answer),
                Err(_) => Err(Message::Purge { id }),
            },
            Message::Purged { id } => Ok(self.on_purged(from, id)),
        }
    }

    /// Takes a note of a page, or drops it where the page's segment was purged. Where memory is refused it comes back.
    fn on_note_of<O: Outbox<Envelope<A>>>(
        &mut self,
        from: SiteId,
        page: &PageId,
        note: Note<A>,
        outbox: &mut O,
    ) -> Result<Answer, Message<A>>
        requires from { from < 16 }
        requires index { page.now.index < pages }
        ensures step { IfOk result (λ answer. StepsTo O.posted self.old self.new outbox.old outbox.new answer
            (on_note_of self.old.sites self.old.me from page.now (note_of note) (site_of self.old))) }
        ensures memory { OnErr result (is_refused (on_note_of self.old.sites self.old.me from page.now (note_of note) (site_of self.old)).answer ≡ false) }
        ensures back { IfErr result (λ back. message_of back ≡ Of page.now (note_of note)) }
        ensures refused { OnErr result (Unchanged O.posted self.old self.new outbox.old outbox.new) }
    {
        if self.holdings.is_purged(page.seg) {
            return Ok(Answer::Dropped);
        }
        match self.on_note(from, page, note, outbox) {
            Ok(answer) => Ok(answer),
            Err(note) => Err(Message::Of { page: *page, note }),
        }
    }

    /// Takes a note of a page that wasn't purged, to its manager's book or to its entry. Where memory is refused it comes back.
    fn on_note<O: Outbox<Envelope<A>>>(
        &mut self,
        from: SiteId,
        page: &PageId,
        note: Note<A>,
        outbox: &mut O,
    ) -> Result<Answer, Note<A>>
        requires from { from < 16 }
        requires index { page.now.index < pages }
        requires alive { purged_of self.old.holdings.purged page.now.seg ≡ false }
        ensures step { IfOk result (λ answer. StepsTo O.posted self.old self.new outbox.old outbox.new answer
            (on_note self.old.sites self.old.me from page.now (note_of note) (site_of self.old))) }
        ensures memory { OnErr result (is_refused (on_note self.old.sites self.old.me from page.now (note_of note) (site_of self.old)).answer ≡ false) }
        ensures back { IfErr result (λ back. note_of back ≡ note_of note) }
        ensures refused { OnErr result (Unchanged O.posted self.old self.new outbox.old outbox.new) }
    {
        match note {
            Note::ToBook(told) => match self.to_book(from, page, &told, outbox) {
                Ok(answer) => Ok(answer),
                Err(_) => Err(Note::ToBook(told)),
            },
            Note::ToEntry(told) => match self.to_entry(page, told, outbox) {
                Ok(answer) => Ok(answer),
                Err(told) => Err(Note::ToEntry(told)),
            },
        }
    }
}
