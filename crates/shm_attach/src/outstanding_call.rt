ghost use Rattle.std.specs.Prelude.{◌≡◌, None, IfNone, IfOk, IfSome, OnErr};
ghost use Rattle.shm_model.specs.Calls.{fits, is_size};
ghost use Rattle.shm_model.specs.Site.{Site};
ghost use Rattle.shm_model.specs.SegmentCalls.{on_reply_to};
ghost use Rattle.shm_attach.specs.CallBook.{begun_as, begun_number, call_ended_by, ended, outstanding_of};

use crate::begin_call_error::BeginFault;
use shm_model::{Op, Reply};
use shm_number::Number;
use shm_place::MAX_SEGMENT_BYTES;
use std::marker::Model;

/// A site's segment calls: how many it has begun, and the one whose reply it waits for. The n-th call has the number n.
#[derive(Drop)]
pub struct CallBook {
    begun: Number,
    outstanding: Option<(Number, Op)>,
}

impl Model for CallBook {
    ghost use Rattle.shm_attach.specs.CallBook.{Calls, outstanding_of};

    ghost Value = { Calls };

    ghost view = { λ book. record { begun = book.begun; outstanding = outstanding_of book.outstanding } };
}

impl CallBook {
    /// No call so far.
    pub fn new() -> CallBook
        ensures { result ≡ record { begun = 0; outstanding = None } }
    {
        CallBook {
            begun: 0,
            outstanding: None,
        }
    }

    /// So many calls so far, of which this one, if any, is outstanding.
    pub fn restored(begun: Number, outstanding: Option<(Number, Op)>) -> CallBook
        ensures { result ≡ record { begun = begun; outstanding = outstanding_of outstanding } }
    {
        CallBook { begun, outstanding }
    }

    /// How many calls the site has begun.
    pub fn begun(&self) -> Number
        ensures { result ≡ self.now.begun }
    {
        self.begun
    }

    /// The number that `begin` would give a call now, or why it would begin none.
    pub fn next_number(&self) -> Result<Number, BeginFault>
        ensures { result ≡ begun_number self.now }
    {
        if self.outstanding.is_some() {
            return Err(BeginFault::Busy);
        }
        if self.begun == Number::MAX {
            return Err(BeginFault::UsedUp);
        }
        Ok(self.begun + 1)
    }

    /// Begins a call under the next number: it is outstanding from now on. Where it is refused nothing changes.
    pub fn begin(&mut self, op: Op) -> Result<Number, BeginFault>
        ensures number { result ≡ begun_number self.old }
        ensures begun { IfOk result (λ number. self.new ≡ begun_as number op) }
        ensures refused { OnErr result (self.new ≡ self.old) }
    {
        match self.next_number() {
            Ok(number) => {
                self.begun = number;
                self.outstanding = Some((number, op));
                Ok(number)
            }
            Err(fault) => Err(fault),
        }
    }

    /// The call that `reply` would end: the outstanding one, where the reply has its number and a form that a reply to it can have.
    pub fn call_ended_by(&self, number: Number, reply: &Reply) -> Option<Op>
        ensures call { result ≡ call_ended_by number reply.now self.now.outstanding }
        ensures step { (site : Site) → on_reply_to self.now.outstanding number reply.now site ≡ ended result number reply.now site }
    {
        let (outstanding, op) = self.outstanding?;
        if number != outstanding || !fits(&op, reply) {
            return None;
        }
        Some(op)
    }

    /// Takes a reply, and answers the call that it ends, which then isn't outstanding. None: it ends no call, and nothing changes.
    pub fn reply(&mut self, number: Number, reply: &Reply) -> Option<Op>
        ensures call { result ≡ call_ended_by number reply.now self.old.outstanding }
        ensures ended { IfSome result (λ _. self.new ≡ record self.old { outstanding = None }) }
        ensures ignored { IfNone result (self.new ≡ self.old) }
    {
        let op = self.call_ended_by(number, reply)?;
        self.outstanding = None;
        Some(op)
    }

    /// The call whose reply is waited for, and its number.
    pub fn outstanding(&self) -> Option<(Number, Op)>
        ensures { outstanding_of result ≡ self.now.outstanding }
    {
        self.outstanding
    }

    /// The same calls.
    pub fn copy(&self) -> CallBook
        ensures { result ≡ self.now }
    {
        CallBook {
            begun: self.begun,
            outstanding: self.outstanding,
        }
    }
}

/// Checks that a reply to this call can have this form.
fn fits(op: &Op, reply: &Reply) -> bool
    ensures { result ≡ fits op.now reply.now }
{
    match reply {
        Reply::Refused(_) => true,
        Reply::Id(_) => matches!(op, Op::Get { .. }),
        Reply::Attached(attached) => matches!(op, Op::Attach { .. }) && is_size(attached.size),
        Reply::Ok => matches!(op, Op::Detach { .. } | Op::Remove { .. } | Op::Set { .. }),
        Reply::Stat(_) => matches!(op, Op::Stat { .. }),
    }
}

/// Checks that a segment can have this size.
fn is_size(size: u32) -> bool
    ensures { result ≡ is_size size }
{
    1 <= size && size <= MAX_SEGMENT_BYTES
}
