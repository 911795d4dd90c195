//! How a site gives up what it holds of a destroyed segment.
ghost use Rattle.std.specs.Prelude.{◌≡◌, IfOk, OnErr};
ghost use Rattle.shm_model.specs.SegmentCalls.{on_purge};
ghost use Rattle.shm_site.specs.Site.{StepsTo, Unchanged, site_of};

use crate::site::Site;
use shm_model::Answer;
use shm_parts::{Envelope, Message, Outbox};
use shm_place::{SegId, home_of_id};
use std::alloc::{AllocError, Allocator};

impl<A: Allocator + Copy> Site<A> {
    /// The home of a destroyed segment tells the site to give it up.
    pub(crate) fn on_purge<O: Outbox<Envelope<A>>>(
        &mut self,
        id: SegId,
        outbox: &mut O,
    ) -> Result<Answer, AllocError>
        ensures step { IfOk result (λ answer. StepsTo O.posted self.old self.new outbox.old outbox.new answer
            (on_purge self.old.sites self.old.me id (site_of self.old))) }
        ensures refused { OnErr result (Unchanged O.posted self.old self.new outbox.old outbox.new) }
    {
        if !self.holdings.purge(id, outbox)? {
            return Ok(Answer::Dropped);
        }
        self.books.remove_segment(id);
        self.pending.remove_segment(id);
        outbox.push(Envelope {
            from: self.me,
            to: home_of_id(self.sites, id),
            message: Message::Purged { id },
        });
        Ok(Answer::Took)
    }
}
