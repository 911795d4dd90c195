//! Notes of a page to its entry: each is a row of the entry's table (Li and Hudak 1989, §3.2).
ghost use Rattle.std.specs.Prelude.{◌≡◌, ◌<◌, false, IfErr, IfOk, OnErr};
ghost use Rattle.shm_model.specs.Transfer.{to_entry};
ghost use Rattle.shm_parts.specs.Entries.{row};
ghost use Rattle.shm_parts.specs.Holdings.{turned_step};
ghost use Rattle.shm_parts.specs.Message.{entry_note_of};
ghost use Rattle.shm_parts.specs.Purged.{purged_of};
ghost use Rattle.shm_site.specs.Site.{StepsTo, Unchanged, site_of};

use crate::site::Site;
use shm_model::Answer;
use shm_parts::{Change, EntryNote, Envelope, Outbox};
use shm_place::PageId;
use std::alloc::Allocator;

impl<A: Allocator + Copy> Site<A> {
    /// A note that turns the page's entry. Where memory is refused it comes back and nothing changes.
    pub(crate) fn to_entry<O: Outbox<Envelope<A>>>(
        &mut self,
        page: &PageId,
        told: EntryNote<A>,
        outbox: &mut O,
    ) -> Result<Answer, EntryNote<A>>
        requires alive { purged_of self.old.holdings.purged page.now.seg ≡ false }
        ensures step { IfOk result (λ answer. StepsTo O.posted self.old self.new outbox.old outbox.new answer
            (to_entry self.old.sites self.old.me page.now (row self.old.me (entry_note_of told) ((site_of self.old).entries page.now)) (site_of self.old))) }
        ensures back { IfErr result (λ back. entry_note_of back ≡ entry_note_of told) }
        ensures refused { OnErr result (Unchanged O.posted self.old self.new outbox.old outbox.new) }
    {
        if outbox.reserve(1).is_err() {
            return Err(told);
        }
        let sent = match self.holdings.turn(page, told) {
            Ok(sent) => sent,
            Err(told) => return Err(told),
        };
        Ok(self.answer_turn(page, sent, outbox))
    }

    /// Answers, once the page's entry has taken the note.
    fn answer_turn<O: Outbox<Envelope<A>>>(
        &mut self,
        page: &PageId,
        sent: Option<(Envelope<A>, Change)>,
        outbox: &mut O,
    ) -> Answer
        requires { 0 < O.room outbox.old }
        ensures { StepsTo O.posted self.old self.new outbox.old outbox.new result (turned_step page.now sent (λ site. site) (site_of self.old)) }
    {
        let Some((envelope, change)) = sent else {
            return Answer::Dropped;
        };
        self.pending.settle(change.readable, change.writable, *page);
        outbox.push(envelope);
        Answer::Took
    }
}
