//! A desk notes where its own site has told a step that it doesn't have: the site's journal is an older copy, or another's.
ghost use Rattle.std.specs.Prelude.{◌≡◌, Some};
ghost use Rattle.shm_process.specs.Desk.{later_met, later_sent, later_step};
ghost use Rattle.shm_process.specs.DeskOf.{desk_of};
ghost use Rattle.shm_process.specs.NodeOf.{node_of};
ghost use Rattle.shm_wire.specs.LineOf.{line_of};
ghost use Rattle.shm_wire.specs.SentOf.{sent_of};

use crate::desk::Desk;
use crate::node::Node;
use shm_wire::{Line, Sent};
use std::alloc::Allocator;

impl<A: Allocator + Copy> Desk<A> {
    /// Notes the first step of this site that the line tells of, and that it doesn't have.
    pub(crate) fn note_later(&mut self, read: &Line<A>)
        ensures { desk_of self.new ≡ later_met (desk_of self.old) (Some (line_of read.now)) }
    {
        self.later = self.later.or(self.node.later_step(read));
    }
}

impl<A: Allocator + Copy> Node<A> {
    /// The clock of the step that sent the line's envelope, where it is one of this site, later than its last.
    fn later_step(&self, read: &Line<A>) -> Option<u64>
        ensures { result ≡ later_step (node_of self.now) (Some (line_of read.now)) }
    {
        match read {
            Line::Envelope(sent) => self.later_sent(sent),
            Line::Ask(_) | Line::Write(_) | Line::Unmap(_) => None,
        }
    }

    fn later_sent(&self, sent: &Sent<A>) -> Option<u64>
        ensures { result ≡ later_sent (node_of self.now) (sent_of sent.now) }
    {
        let clock = sent.source.clock;
        if sent.envelope.from != self.me || clock <= self.clock || self.is_beyond(sent) {
            return None;
        }
        Some(clock)
    }
}
