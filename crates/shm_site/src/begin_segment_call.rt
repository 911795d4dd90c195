//! Segment calls at the site that begins them: how a call goes out, and what its reply ends.
ghost use Rattle.std.specs.Prelude.{◌≡◌, ◌≤◌, Bool, [], None, false, true, is_ok, IfOk, IsSome, OnErr, OnOk};
ghost use Rattle.shm_model.specs.declared.call.Cred.{Cred};
ghost use Rattle.shm_model.specs.declared.call.Op.TheVariants.{Attach as AttachOp};
ghost use Rattle.shm_model.specs.declared.call.Reply.TheVariants.{Attached as AttachedReply};
ghost use Rattle.shm_model.specs.Site.{Step};
ghost use Rattle.shm_model.specs.SegmentCalls as model;
ghost use Rattle.shm_attach.specs.CallBook.{begun_number, call_ended_by};
ghost use Rattle.shm_site.specs.Site.{SameSeat, StepsTo, Unchanged, site_of, stepped};
ghost use Rattle.shm_site.specs.Step.{is_refused};

use crate::home_of_segment_call::op_home;
use crate::site::Site;
use shm_attach::{Attached, Op, Reply, Request};
use shm_model::refusal::{BUSY, NO_ATTACHMENT, TOO_MANY_ATTACHMENTS};
use shm_model::{Answer, Numbered};
use shm_parts::{Envelope, Message, Outbox};
use shm_place::SegId;
use std::alloc::{AllocError, Allocator};

impl<A: Allocator + Copy> Site<A> {
    /// Begins a segment call. A detach takes its attachment away at once. A call that is refused takes no memory.
    pub(crate) fn begin<O: Outbox<Envelope<A>>>(
        &mut self,
        request: Request,
        outbox: &mut O,
    ) -> Result<Answer, AllocError>
        ensures step { IfOk result (λ answer. StepsTo O.posted self.old self.new outbox.old outbox.new answer
            (model.begin self.old.sites self.old.me request (site_of self.old))) }
        ensures memory { OnErr result (is_refused (model.begin self.old.sites self.old.me request (site_of self.old)).answer ≡ false) }
        ensures refused { OnErr result (Unchanged O.posted self.old self.new outbox.old outbox.new) }
    {
        if self.calls.outstanding().is_some() {
            return Ok(Answer::Refused(BUSY));
        }
        match request {
            Request::Op(op) => self.begin_op(op, outbox),
            Request::DetachAt(number) => self.begin_detach(number, outbox),
        }
    }

    fn begin_op<O: Outbox<Envelope<A>>>(
        &mut self,
        op: Op,
        outbox: &mut O,
    ) -> Result<Answer, AllocError>
        requires { self.old.calls.outstanding ≡ None }
        ensures step { IfOk result (λ answer. StepsTo O.posted self.old self.new outbox.old outbox.new answer
            (model.begin_op self.old.sites self.old.me op (site_of self.old))) }
        ensures memory { OnErr result (is_refused (model.begin_op self.old.sites self.old.me op (site_of self.old)).answer ≡ false) }
        ensures refused { OnErr result (Unchanged O.posted self.old self.new outbox.old outbox.new) }
    {
        match op {
            Op::Detach { .. } => Ok(Answer::Refused(NO_ATTACHMENT)),
            Op::Attach { .. } => {
                if self.holdings.is_full() {
                    return Ok(Answer::Refused(TOO_MANY_ATTACHMENTS));
                }
                self.call(op, outbox)
            }
            _ => self.call(op, outbox),
        }
    }

    fn begin_detach<O: Outbox<Envelope<A>>>(
        &mut self,
        number: u32,
        outbox: &mut O,
    ) -> Result<Answer, AllocError>
        requires { self.old.calls.outstanding ≡ None }
        ensures step { IfOk result (λ answer. StepsTo O.posted self.old self.new outbox.old outbox.new answer
            (model.begin_detach self.old.sites self.old.me number ((site_of self.old).attachments number) (site_of self.old))) }
        ensures memory { OnErr result (is_refused (model.begin_detach self.old.sites self.old.me number ((site_of self.old).attachments number)
            (site_of self.old)).answer ≡ false) }
        ensures refused { OnErr result (Unchanged O.posted self.old self.new outbox.old outbox.new) }
    {
        let Some(id) = self.holdings.segment(number) else {
            return Ok(Answer::Refused(NO_ATTACHMENT));
        };
        match self.call(Op::Detach { id }, outbox)? {
            Answer::Began(call) => {
                self.holdings.detach(number);
                Ok(Answer::Began(call))
            }
            refused => Ok(refused),
        }
    }

    /// Notes the call as outstanding and sends it to its home, where a number is left for it.
    fn call<O: Outbox<Envelope<A>>>(&mut self, op: Op, outbox: &mut O) -> Result<Answer, AllocError>
        requires { self.old.calls.outstanding ≡ None }
        ensures step { IfOk result (λ answer. StepsTo O.posted self.old self.new outbox.old outbox.new answer
            (model.numbered (site_of self.old) (model.call_begun self.old.sites self.old.me op (site_of self.old)))) }
        ensures memory { OnErr result ((step : Step) → model.numbered (site_of self.old) step ≡ step) }
        ensures refused { OnErr result (Unchanged O.posted self.old self.new outbox.old outbox.new) }
        ensures holdings { self.new.holdings ≡ self.old.holdings }
    {
        self.make_room_for_a_call(outbox)?;
        match self.calls.begin(op) {
            Err(fault) => Ok(Answer::Refused(fault.number())),
            Ok(number) => {
                outbox.push(Envelope {
                    from: self.me,
                    to: op_home(self.sites, self.me, &op),
                    message: Message::Call { number, op },
                });
                Ok(Answer::Began(number))
            }
        }
    }

    /// Makes room for the envelope of a call, if one can begin.
    fn make_room_for_a_call<O: Outbox<Envelope<A>>>(&self, outbox: &mut O) -> Result<(), AllocError>
        ensures same { O.posted outbox.old outbox.new [] }
        ensures room { OnOk result (IfOk (begun_number self.now.calls) (λ _. 1 ≤ O.room outbox.new)) }
        ensures needed { OnErr result (is_ok (begun_number self.now.calls) ≡ true) }
    {
        match self.calls.next_number() {
            Err(_) => Ok(()),
            Ok(_) => outbox.reserve(1),
        }
    }

    /// A reply to the outstanding call, or to one that ended.
    pub(crate) fn on_reply(&mut self, number: u64, reply: Reply) -> Result<Answer, AllocError>
        ensures step { IfOk result (λ answer. model.on_reply number reply (site_of self.old) ≡ stepped self.new answer []) }
        ensures refused { OnErr result (site_of self.new ≡ site_of self.old) }
        ensures seat { SameSeat self.old self.new }
    {
        // this only tells which call ends: an attach that finds no place leaves it outstanding
        let Some(op) = self.calls.call_ended_by(number, &reply) else {
            return Ok(Answer::Dropped);
        };
        match op {
            Op::Attach { id, .. } => self.on_attach_reply(number, id, reply),
            _ => Ok(self.end_call(number, reply, None)),
        }
    }

    /// The reply to an attach of this segment: a refusal ends the call by itself.
    fn on_attach_reply(
        &mut self,
        number: u64,
        id: SegId,
        reply: Reply,
    ) -> Result<Answer, AllocError>
        requires { IsSome (call_ended_by number reply self.old.calls.outstanding) }
        ensures step { (cred : Cred) → (ro : Bool) → IfOk result (λ answer. model.reply_counts number (AttachOp cred id ro) reply (site_of self.old) ≡ stepped self.new answer []) }
        ensures refused { OnErr result (site_of self.new ≡ site_of self.old) }
        ensures seat { SameSeat self.old self.new }
    {
        match reply {
            Reply::Attached(attached) => self.attach(number, id, attached),
            _ => Ok(self.end_call(number, reply, None)),
        }
    }

    /// The reply to an attach: it gets the least free number. A segment that was purged here isn't attached.
    fn attach(&mut self, number: u64, id: SegId, attached: Attached) -> Result<Answer, AllocError>
        requires { IsSome (call_ended_by number (AttachedReply attached) self.old.calls.outstanding) }
        ensures step { IfOk result (λ answer. model.attached number id (AttachedReply attached) (record { id = id; size = attached.size; ro = attached.ro })
            (site_of self.old) ≡ stepped self.new answer []) }
        ensures refused { OnErr result (site_of self.new ≡ site_of self.old) }
        ensures seat { SameSeat self.old self.new }
    {
        if self.holdings.is_purged(id) {
            return Ok(Answer::Dropped);
        }
        let attachment = self.holdings.attach(id, attached.size, attached.ro)?;
        match attachment {
            None => Ok(Answer::Dropped),
            Some(_) => Ok(self.end_call(number, Reply::Attached(attached), attachment)),
        }
    }

    /// The call has ended: it is outstanding no longer.
    fn end_call(&mut self, number: u64, reply: Reply, attachment: Option<u32>) -> Answer
        requires { IsSome (call_ended_by number reply self.old.calls.outstanding) }
        ensures step { model.replied number reply attachment (site_of self.old) ≡ stepped self.new result [] }
        ensures seat { SameSeat self.old self.new }
    {
        self.calls.reply(number, &reply);
        Answer::Replied {
            number,
            reply,
            attachment,
        }
    }
}
