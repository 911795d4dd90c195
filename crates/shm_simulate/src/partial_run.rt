//! One run of a workload, event by event.
ghost use Rattle.std.specs.Prelude.{◌≡◌, ◌≤◌, ◌<◌, ◌+◌, ◌++◌, ◌∷◌, [], List, true, length, vec_capacity, vec_len, IfOk, MatchOption, OnOk};
ghost use Rattle.shm_model.specs.World as model;
ghost use Rattle.shm_model.specs.declared.event.Event.{Event};
ghost use Rattle.shm_world.specs.World.{StandsFor};
ghost use Rattle.shm_lines.specs.declared.workload_access.WorkloadAccess.{WorkloadAccess};
ghost use Rattle.shm_simulate.specs.PartialRun.{Follows};
ghost use Rattle.shm_simulate.specs.Messages.{kept, page_message_in};
ghost use Rattle.shm_simulate.specs.Reactions.{reaction_of};
ghost use Rattle.shm_simulate.specs.Tries.{all_done, is_allowed, is_silent};
ghost use Rattle.shm_simulate.specs.declared.odds.Odds.{Odds};

use crate::line_state::LineState;
use crate::page_message::{PageMessage, page_message_of};
use crate::reaction::{self, Reaction};
use crate::workload_lines::{hear, next_line, try_at, untried};
use shm_lines::WorkloadAccess;
use shm_model::{Answer, Event};
use shm_place::{PAGES, SiteId, Sites};
use shm_world::World;
use std::alloc::{AllocError, Allocator, Global};

/// How many events have room from the start.
const ROOM: usize = 64;

/// A run of a workload, as far as it came: its world, its events, the oldest first, and what became of each line.
#[derive(Drop)]
pub(crate) struct PartialRun {
    pub(crate) world: World,
    pub(crate) events: Vec<Event>,
    pub(crate) lines: Vec<LineState>,
    /// The messages about pages that were handed over, the oldest first.
    pub(crate) messages: Vec<PageMessage>,
}

impl PartialRun {
    /// A run in which nothing has happened.
    pub(crate) fn open(
        alloc: Global,
        sites: Sites,
        pages: u32,
        accesses: &[WorkloadAccess],
    ) -> Result<PartialRun, AllocError>
        requires from { 1 ≤ pages }
        requires to { pages ≤ PAGES }
        ensures follows { (odds : Odds) → IfOk result (Follows (model.Preset sites pages) accesses.now odds) }
        ensures none { IfOk result (λ partial. partial.events.items ≡ []) }
        ensures lines { IfOk result (λ partial. length partial.lines.items ≡ length accesses.now) }
    {
        let world = World::preset(alloc, sites, pages)?;
        let events = Vec::with_capacity(alloc, ROOM)?;
        let lines = untried(alloc, accesses)?;
        let messages = Vec::with_capacity(alloc, ROOM)?;
        Ok(PartialRun {
            world,
            events,
            lines,
            messages,
        })
    }

    /// Checks that every line is done.
    pub(crate) fn is_done(&self) -> bool
        ensures { result ≡ all_done self.now.lines.items }
    {
        self.lines.iter().all(|line| !line.gave.is_nothing())
    }

    /// Checks that the site has a line that isn't done.
    pub(crate) fn has_line(&self, site: SiteId) -> bool {
        next_line(self.lines.as_slice(), site).is_some()
    }

    /// Tries the first line of the site that isn't done, and answers whether it has to wait. None: the site has no such line, and nothing
    /// happened.
    pub(crate) fn try_line(&mut self, site: SiteId) -> Result<Option<bool>, AllocError>
        ensures follows { (o : model.Opening) (accesses : List WorkloadAccess) (odds : Odds) → Follows o accesses odds self.old
            → OnOk result (Follows o accesses odds self.new) }
        ensures one { IfOk result (λ tried. MatchOption tried (self.new ≡ self.old)
            (λ _. length self.new.events.items ≡ length self.old.events.items + 1)) }
        ensures lines { length self.new.lines.items ≡ length self.old.lines.items }
    {
        let Some(place) = next_line(self.lines.as_slice(), site) else {
            return Ok(None);
        };
        let event = try_at(self.lines.as_slice(), site, place);
        let reaction = self.make(&event)?;
        hear(&mut self.lines, place, reaction);
        Ok(Some(waits(reaction)))
    }

    /// A site ticks or restarts, or the network loses an envelope.
    pub(crate) fn pass(&mut self, event: Event) -> Result<(), AllocError>
        requires { is_silent event ≡ true }
        ensures follows { (o : model.Opening) (accesses : List WorkloadAccess) (odds : Odds) → is_allowed odds event ≡ true → Follows o accesses odds self.old
            → OnOk result (Follows o accesses odds self.new) }
        ensures one { OnOk result (length self.new.events.items ≡ length self.old.events.items + 1) }
        ensures lines { self.new.lines ≡ self.old.lines }
    {
        let _reaction = self.make(&event)?;
        Ok(())
    }

    /// Hands the envelope of this number over; it is gone then.
    pub(crate) fn deliver(&mut self, number: u64) -> Result<(), AllocError>
        ensures follows { (o : model.Opening) (accesses : List WorkloadAccess) (odds : Odds) → Follows o accesses odds self.old
            → OnOk result (Follows o accesses odds self.new) }
        ensures one { OnOk result (length self.new.events.items ≡ length self.old.events.items + 1) }
        ensures lines { self.new.lines ≡ self.old.lines }
    {
        let message = self.message(number);
        self.messages.reserve(1)?;
        let reaction = self.make(&Event::Deliver(number))?;
        keep(&mut self.messages, message, reaction);
        Ok(())
    }

    /// Hands the envelope of this number over; it stays on its way.
    pub(crate) fn repeat(&mut self, number: u64) -> Result<(), AllocError>
        ensures follows { (o : model.Opening) (accesses : List WorkloadAccess) (odds : Odds) → 0 < odds.repeat → Follows o accesses odds self.old
            → OnOk result (Follows o accesses odds self.new) }
        ensures one { OnOk result (length self.new.events.items ≡ length self.old.events.items + 1) }
        ensures lines { self.new.lines ≡ self.old.lines }
    {
        let message = self.message(number);
        self.messages.reserve(1)?;
        let reaction = self.make(&Event::Repeat(number))?;
        keep(&mut self.messages, message, reaction);
        Ok(())
    }

    /// What is kept of the envelope of this number, if it is on its way.
    fn message(&self, number: u64) -> Option<PageMessage>
        ensures { (w : model.World) → StandsFor self.now.world w → result ≡ page_message_in (model.live w number) }
    {
        match self.world.envelope(number) {
            Some(envelope) => page_message_of(&envelope.message),
            None => None,
        }
    }

    /// Makes an event.
    fn make(&mut self, event: &Event) -> Result<Reaction, AllocError>
        ensures led { (o : model.Opening) → StandsFor self.old.world (model.run o self.old.events.items).world
            → OnOk result (StandsFor self.new.world (model.run o (self.old.events.items ++ event.now ∷ [])).world) }
        ensures answered { (o : model.Opening) → StandsFor self.old.world (model.run o self.old.events.items).world
            → IfOk result (λ reaction. reaction ≡ reaction_of (model.next (model.run o self.old.events.items).world event.now).done.answer) }
        ensures joined { OnOk result (self.new.events.items ≡ self.old.events.items ++ event.now ∷ []) }
        ensures lines { self.new.lines ≡ self.old.lines }
        ensures messages { self.new.messages ≡ self.old.messages }
    {
        match &step_and_push(&mut self.world, &mut self.events, event) {
            Ok(answer) => Ok(reaction::reaction_of(answer)),
            Err(_) => Err(AllocError),
        }
    }

    /// How many envelopes were ever sent.
    pub(crate) fn sent(&self) -> u64 {
        self.world.sent()
    }

    /// The site to which the envelope of this number goes, if it is on its way.
    pub(crate) fn receiver(&self, number: u64) -> Option<SiteId> {
        match self.world.envelope(number) {
            Some(envelope) => Some(envelope.to),
            None => None,
        }
    }
}

/// Steps the world by the event, which joins the others.
fn step_and_push<A: Allocator + Copy>(
    world: &mut World<A>,
    events: &mut Vec<Event, A>,
    event: &Event,
) -> Result<Answer, AllocError>
    ensures led { (o : model.Opening) (before : List Event) → StandsFor world.old (model.run o before).world
        → OnOk result (StandsFor world.new (model.run o (before ++ event.now ∷ [])).world) }
    ensures answered { (w : model.World) → StandsFor world.old w → IfOk result (λ answer. answer ≡ (model.next w event.now).done.answer) }
    ensures joined { OnOk result (events.new.items ≡ events.old.items ++ event.now ∷ []) }
{
    events.reserve(1)?;
    let answered = world.step(*event);
    if answered.is_ok() {
        events.push_reserved(*event);
    }
    answered
}

/// Checks that the site waits for the page.
fn waits(reaction: Reaction) -> bool {
    matches!(reaction, Reaction::Fault | Reaction::Waiting)
}

/// Keeps the message of an envelope that was answered so.
fn keep(messages: &mut Vec<PageMessage>, message: Option<PageMessage>, reaction: Reaction)
    requires { vec_len messages.old < vec_capacity messages.old }
    ensures { messages.new.items ≡ kept reaction message messages.old.items }
{
    let Some(message) = message else {
        return;
    };
    match reaction {
        Reaction::Received => messages.push_reserved(message),
        _ => {}
    }
}
