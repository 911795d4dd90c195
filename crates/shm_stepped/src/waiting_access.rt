//! An access that is made until it is answered.
ghost use Rattle.std.specs.Prelude.{◌≡◌, ◌+◌, ◌^◌, ◌<◌, ◌≤◌, ◌&&◌, not, true, IfErr, IfOk};
ghost use Rattle.std.specs.Option.{option_copied};
ghost use Rattle.shm_model.specs.World as model;
ghost use Rattle.shm_stepped.specs.Choice.{Chose};
ghost use Rattle.shm_stepped.specs.Cost.{counted, kind_of_delivery, nothing, sum_of};
ghost use Rattle.shm_stepped.specs.Waiting.{Answered, Stopped, access_event, reaches, turn_after, waits};
ghost use Rattle.shm_world.specs.Network.{envelope_at};
ghost use Rattle.shm_world.specs.World.{StandsFor};

use crate::access_cost::Cost;
use crate::event_kind::{EventKind, kind_of_message};
use crate::outcome::{Done, Unanswered};
use shm_model::{Answer, Asked, Event};
use shm_parts::Envelope;
use shm_place::{SiteId, Sites};
use shm_progress::oldest_from;
use shm_world::World;
use std::alloc::Allocator;

/// Makes a load or a store at a site until it is answered with a byte, `Stored` or a refusal. While it waits for its right, the oldest
/// envelope on its way is handed over, and where none is on its way the next site ticks, each in its turn from site 0 on. After each
/// delivery to its own site the access is made again. At most `budget` events are made in all.
///
/// The answer is that of the last event, and the cost counts the events by kind. Where the budget ends or memory is refused, the world
/// stands after the events that were made.
///
/// It looks for the oldest envelope from number 0 on, so an event takes the longer the more were ever sent.
pub fn access_until_done<A: Allocator + Copy>(
    world: &mut World<A>,
    site: SiteId,
    asked: Asked,
    budget: u64,
) -> Result<Done, Unanswered>
    ensures answered { (w : model.World) → StandsFor world.old w → IfOk result (λ done. Answered world.new w site (access_event site asked) done) }
    ensures within { IfOk result (λ done. done.cost.events ≤ budget) }
    ensures stopped { (w : model.World) → StandsFor world.old w → IfErr result (λ why. Stopped world.new w site (access_event site asked) budget why) }
{
    let mut wait = Wait::new(site, asked);
    'events: for _made in 0..budget {
        let choice = wait.choose(world);
        let Ok(answer) = world.step(choice.event) else {
            return Err(Unanswered::OutOfMemory(wait.cost));
        };
        let ended = answers(wait.due, &answer);
        wait = wait.after(choice, world.sites());
        if ended {
            return Ok(Done {
                answer,
                cost: wait.cost,
            });
        }
    }
    Err(Unanswered::BudgetSpent(wait.cost))
}

/// An access that waits.
#[derive(Clone, Copy)]
pub(crate) struct Wait {
    pub(crate) site: SiteId,
    pub(crate) asked: Asked,
    /// The access is made next.
    pub(crate) due: bool,
    /// The site that ticks next.
    pub(crate) tick: u32,
    pub(crate) cost: Cost,
}

/// The next event.
#[derive(Clone, Copy)]
pub(crate) struct Choice {
    pub(crate) event: Event,
    pub(crate) kind: EventKind,
    /// It hands an envelope to the access's site.
    pub(crate) reaches: bool,
}

impl Wait {
    /// The access was not made yet.
    pub(crate) fn new(site: SiteId, asked: Asked) -> Wait
        ensures { result ≡ record { site = site; asked = asked; due = true; tick = 0; cost = nothing } }
    {
        Wait {
            site,
            asked,
            due: true,
            tick: 0,
            cost: Cost::nothing(),
        }
    }

    /// The event that comes next.
    pub(crate) fn choose<A: Allocator + Copy>(&self, world: &World<A>) -> Choice
        ensures { (w : model.World) → StandsFor world.now w → Chose w self.now result }
    {
        if self.due {
            return Choice {
                event: event_of(self.site, self.asked),
                kind: EventKind::Access,
                reaches: false,
            };
        }
        let Some(number) = oldest_from(world, 0) else {
            let site = SiteId(self.tick);
            return Choice {
                event: Event::Tick { site },
                kind: EventKind::Tick,
                reaches: false,
            };
        };
        let envelope = world.envelope(number);
        Choice {
            event: Event::Deliver(number),
            kind: kind_of_delivery(envelope),
            reaches: reaches(envelope, self.site),
        }
    }

    /// The same after this event, in a world of so many sites.
    pub(crate) fn after(self, made: Choice, sites: Sites) -> Wait
        requires room { self.cost.events + 1 < 2 ^ 64 }
        requires sum { sum_of self.cost ≡ self.cost.events }
        ensures is { result ≡ record self { due = made.reaches; tick = turn_after sites made.event self.tick; cost = counted made.kind self.cost } }
        ensures sum { sum_of result.cost ≡ result.cost.events }
        ensures events { result.cost.events ≡ self.cost.events + 1 }
    {
        Wait {
            site: self.site,
            asked: self.asked,
            due: made.reaches,
            tick: tick_after(made.event, self.tick, sites),
            cost: self.cost.with(made.kind),
        }
    }
}

/// The event that makes this access at this site.
fn event_of(site: SiteId, asked: Asked) -> Event
    ensures { result ≡ access_event site asked }
{
    match asked {
        Asked::Load { at, offset } => Event::Load { site, at, offset },
        Asked::Store { at, offset, byte } => Event::Store {
            site,
            at,
            offset,
            byte,
        },
    }
}

/// The site that ticks next, after this event.
fn tick_after(event: Event, tick: u32, sites: Sites) -> u32
    ensures { result ≡ turn_after sites event tick }
{
    let Event::Tick { site } = event else {
        return tick;
    };
    if site.0 < sites.count() - 1 {
        site.0 + 1
    } else {
        0
    }
}

/// Checks that this is the answer of the access, and ends it.
fn answers(due: bool, answer: &Answer) -> bool
    ensures { result ≡ (due && not (waits answer.now)) }
{
    due && !waits(answer)
}

/// Checks that this answer leaves an access waiting for its right.
fn waits(answer: &Answer) -> bool
    ensures { result ≡ waits answer.now }
{
    matches!(answer, Answer::Fault | Answer::Waiting)
}

/// The kind of a delivery of this envelope, if there is one.
fn kind_of_delivery<A: Allocator + Copy>(envelope: Option<&Envelope<A>>) -> EventKind
    ensures { result ≡ kind_of_delivery (envelope_at (option_copied envelope.entry)) }
{
    match envelope {
        Some(envelope) => kind_of_message(&envelope.message),
        None => EventKind::Other,
    }
}

/// Checks that there is an envelope, and that it goes to this site.
fn reaches<A: Allocator + Copy>(envelope: Option<&Envelope<A>>, site: SiteId) -> bool
    ensures { result ≡ reaches site (envelope_at (option_copied envelope.entry)) }
{
    match envelope {
        Some(envelope) => envelope.to == site,
        None => false,
    }
}
