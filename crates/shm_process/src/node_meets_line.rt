//! What becomes of a line that comes, by what the site's machine maps.
ghost use Rattle.std.specs.Prelude.{◌≡◌, ◌+◌, length, map, nat_lt};
ghost use Rattle.std.specs.List.{sum_by};
ghost use Rattle.shm_model.specs.Basics.{greatest};
ghost use Rattle.shm_parts.specs.Message.{envelope_of};
ghost use Rattle.shm_process.specs.Mapped as mapped;
ghost use Rattle.shm_process.specs.Meetings as spec;
ghost use Rattle.shm_process.specs.NodeOf.{node_of};
ghost use Rattle.shm_process.specs.Remaps as remaps;
ghost use Rattle.shm_wire.specs.Asks.{ask_of};
ghost use Rattle.shm_wire.specs.LineOf.{line_of};
ghost use Rattle.shm_wire.specs.SentOf.{sent_of};
ghost use Rattle.shm_wire.specs.UnmapOf.{run_in, unmap_in};

use crate::byte_place::byte_place;
use crate::line_meeting::Meeting;
use crate::mapping_list::{keeps_under, verdict_for, wanted};
use crate::node::Node;
use shm_model::refusal::{BUSY, FOREIGN};
use shm_model::{Answer, Asked, Kind};
use shm_parts::Envelope;
use shm_place::SiteId;
use shm_wire::{Ask, Line, Mapping, Question, RevokeText, Run, Sent, UnmapAsk};
use std::alloc::Allocator;

impl<A: Allocator + Copy> Node<A> {
    /// What becomes of the line.
    pub(crate) fn meeting(&self, line: &Line<A>) -> Meeting
        ensures { result ≡ spec.meeting (node_of self.now) (line_of line.now) }
    {
        match line {
            Line::Envelope(sent) => self.envelope_meeting(sent),
            Line::Ask(ask) => self.ask_meeting(ask),
            Line::Write(_) => Meeting::Free,
            Line::Unmap(unmap) => self.unmap_meeting(unmap),
        }
    }

    /// An envelope isn't taken while what it asks for is mapped.
    fn envelope_meeting(&self, sent: &Sent<A>) -> Meeting
        ensures { result ≡ spec.envelope_meeting (node_of self.now) (sent_of sent.now) }
    {
        if self.is_lost(sent) {
            return Meeting::Free;
        }
        self.withheld(&sent.envelope)
    }

    fn withheld(&self, envelope: &Envelope<A>) -> Meeting
        ensures { result ≡ spec.envelope_held (node_of self.now) (envelope_of envelope.now).message }
    {
        let Some(mapping) = wanted(self.me, &envelope.message, self.mapped.as_slice()) else {
            return Meeting::Free;
        };
        let verdict = verdict_for(self.me, &envelope.message, &mapping);
        Meeting::Kept {
            page: Some(mapping.page),
            wants: Some(revoking(keeps_under(verdict), &mapping)),
        }
    }

    fn ask_meeting(&self, ask: &Ask) -> Meeting
        ensures { result ≡ spec.ask_meeting (node_of self.now) (ask_of ask.now) }
    {
        if !self.is_due(ask.site) {
            return Meeting::Free;
        }
        self.question_meeting(ask.asked)
    }

    fn question_meeting(&self, asked: Question) -> Meeting
        ensures { result ≡ spec.question_meeting (node_of self.now) asked }
    {
        match asked {
            Question::Access(asked) => access_meeting(asked, self.passing(asked)),
            Question::Try(asked) => try_meeting(self.passing(asked)),
            Question::Begin(request) => begin_meeting(self.is_detained(request)),
            Question::Map { at, index, kind } => {
                let has = self.has_right(at, index, kind);
                map_meeting(has, self.waits_for_right(at, index, kind), at, index, kind)
            }
            Question::Read { .. } | Question::Tick | Question::Show(_) => Meeting::Free,
            Question::Health | Question::Mappings => Meeting::Free,
        }
    }

    fn unmap_meeting(&self, ask: &UnmapAsk<A>) -> Meeting
        ensures { result ≡ spec.unmap_meeting (node_of self.now) (unmap_in ask.now) }
    {
        if !self.is_due(ask.site) || !has_clocks(self.clock, ask.runs.as_slice()) {
            return Meeting::Free;
        }
        given_up_if(self.may_unmap(ask))
    }

    /// It is for this site, while there is a clock for a step.
    fn is_due(&self, site: SiteId) -> bool
        ensures { result ≡ spec.is_due (node_of self.now) site }
    {
        site == self.me && !self.is_late(0)
    }
}

/// Checks that behind this clock there is one for each byte of the runs, and one more.
fn has_clocks<A: Allocator + Copy>(clock: u64, runs: &[Run<A>]) -> bool
    ensures { result ≡ nat_lt (clock + sum_by (λ run. length run.bytes) (map run_in runs.now)) greatest }
{
    let mut last = clock;
    'runs: for run in runs {
        let Some(next) = last.checked_add(run.bytes.len() as u64) else {
            return false;
        };
        last = next;
    }
    last < u64::MAX
}

/// An access waits while it would pass by what is mapped.
fn access_meeting(asked: Asked, passed: Option<Mapping>) -> Meeting
    ensures { result ≡ spec.access_meeting asked passed }
{
    let Some(mapping) = passed else {
        return Meeting::Free;
    };
    Meeting::Kept {
        page: None,
        wants: Some(revoking(keeps_beside(asked), &mapping)),
    }
}

/// What may stay mapped beside an access of the site.
pub(crate) fn keeps_beside(asked: Asked) -> Option<Kind>
    ensures { result ≡ mapped.keeps_beside asked }
{
    match asked {
        Asked::Load { .. } => Some(Kind::Read),
        Asked::Store { .. } => None,
    }
}

/// The machine is to give the page up so far.
pub(crate) fn revoking(keeps: Option<Kind>, mapping: &Mapping) -> RevokeText
    ensures { result ≡ spec.revoking keeps mapping.now }
{
    RevokeText {
        page: mapping.page,
        keeps,
    }
}

fn try_meeting(passed: Option<Mapping>) -> Meeting
    ensures { result ≡ spec.try_meeting passed }
{
    match passed {
        Some(_) => Meeting::Answered(Answer::Waiting),
        None => Meeting::Free,
    }
}

/// What a page is mapped through isn't detached.
fn begin_meeting(detained: bool) -> Meeting
    ensures { result ≡ spec.begin_meeting detained }
{
    if detained {
        return Meeting::Answered(Answer::Refused(BUSY));
    }
    Meeting::Free
}

/// A map waits for its right, and asks for it once.
fn map_meeting(has: bool, waits: bool, at: u32, index: u32, kind: Kind) -> Meeting
    ensures { result ≡ spec.map_meeting has waits at index kind }
{
    if has {
        return Meeting::Maps { at, index };
    }
    if waits {
        return Meeting::Kept {
            page: None,
            wants: None,
        };
    }
    Meeting::Tries(right_asked(kind, at, index))
}

/// The access that asks for the right to map a page: it isn't made without it.
fn right_asked(kind: Kind, at: u32, index: u32) -> Asked
    ensures { result ≡ remaps.right_asked kind at index }
{
    let offset = byte_place(index, 0);
    match kind {
        Kind::Read => Asked::Load { at, offset },
        Kind::Write => Asked::Store {
            at,
            offset,
            byte: 0,
        },
    }
}

/// What isn't mapped so can't be given up.
fn given_up_if(may: bool) -> Meeting
    ensures { result ≡ spec.given_up_if may }
{
    if may {
        return Meeting::Unmaps;
    }
    Meeting::Answered(Answer::Refused(FOREIGN))
}
