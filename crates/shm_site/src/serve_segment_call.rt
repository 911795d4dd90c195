//! Segment calls at their home: what is executed there, and what goes out for it.
ghost use Rattle.std.specs.Prelude.{◌≡◌, ◌<◌, ◌≤◌, [], length, map, if◌then◌else◌, IfOk, OnErr};
ghost use Rattle.std.specs.List.{range_with_len};
ghost use Rattle.shm_model.specs.Calls.{op_home};
ghost use Rattle.shm_model.specs.SegmentCalls.{on_call, on_purged, purge_envelope};
ghost use Rattle.shm_attach.specs.Home.{answered, may_destroy, sent_for};
ghost use Rattle.shm_site.specs.Site.{SameSeat, StepsTo, Told, Unchanged, site_of, stepped};

use crate::site::Site;
use shm_attach::Done;
use shm_model::{Answer, Op};
use shm_parts::{Envelope, Message, Outbox};
use shm_place::{SegId, SiteId};
use std::alloc::{AllocError, Allocator};

/// How many envelopes a call has go out at most that destroys a segment: its reply, and a purge to each of 16 sites.
const MOST_FOR_A_CALL: usize = 17;

impl<A: Allocator + Copy> Site<A> {
    /// A segment call at its home, which executes it once, however often it comes.
    pub(crate) fn on_call<O: Outbox<Envelope<A>>>(
        &mut self,
        from: SiteId,
        number: u64,
        op: Op,
        outbox: &mut O,
    ) -> Result<Answer, AllocError>
        requires site { from < 16 }
        requires home { op_home self.old.sites from op ≡ self.old.me }
        ensures step { IfOk result (λ answer. StepsTo O.posted self.old self.new outbox.old outbox.new answer
            (on_call self.old.sites self.old.me from number op (site_of self.old))) }
        ensures refused { OnErr result (Unchanged O.posted self.old self.new outbox.old outbox.new) }
    {
        outbox.reserve(most_sent(&op))?;
        let served = self.home.serve(from, number, op)?;
        Ok(tell(self.sites.count(), self.me, from, number, served, outbox))
    }

    /// A site tells the home that it has purged the segment. It takes no memory.
    pub(crate) fn on_purged(&mut self, from: SiteId, id: SegId) -> Answer
        ensures step { on_purged from id (site_of self.old) ≡ stepped self.new result [] }
        ensures seat { SameSeat self.old self.new }
    {
        if self.home.on_purged(id, from) {
            Answer::Took
        } else {
            Answer::Dropped
        }
    }
}

/// How many envelopes this call has go out at most. Only a detach or a removal can destroy a segment.
fn most_sent(op: &Op) -> usize
    ensures { result ≡ (if may_destroy op.now then 17 else 1) }
{
    match op {
        Op::Detach { .. } | Op::Remove { .. } => MOST_FOR_A_CALL,
        Op::Get { .. } | Op::Attach { .. } | Op::Set { .. } | Op::Stat { .. } => 1,
    }
}

/// Sends a home's answer to a call: the reply, and a purge to every site where the call destroyed a segment.
fn tell<A: Allocator + Copy, O: Outbox<Envelope<A>>>(
    sites: u32,
    me: SiteId,
    from: SiteId,
    number: u64,
    served: Option<Done>,
    outbox: &mut O,
) -> Answer
    requires room { length (sent_for sites me from number served) ≤ O.room outbox.old }
    ensures answer { result ≡ answered served }
    ensures sent { Told O.posted outbox.old outbox.new (sent_for sites me from number served) }
{
    let Some(done) = served else {
        return Answer::Dropped;
    };
    outbox.push(Envelope {
        from: me,
        to: from,
        message: Message::Reply {
            number,
            reply: done.reply,
        },
    });
    match done.destroyed {
        None => Answer::Took,
        Some(id) => {
            send_purges(sites, me, id, outbox);
            Answer::Took
        }
    }
}

/// Tells every site to purge the segment.
fn send_purges<A: Allocator + Copy, O: Outbox<Envelope<A>>>(
    sites: u32,
    me: SiteId,
    id: SegId,
    outbox: &mut O,
)
    requires { sites ≤ O.room outbox.old }
    ensures { Told O.posted outbox.old outbox.new (map (purge_envelope me id) (range_with_len 0 sites)) }
{
    'sites: for to in 0..sites {
        outbox.push(Envelope {
            from: me,
            to: SiteId(to),
            message: Message::Purge { id },
        });
    }
}
