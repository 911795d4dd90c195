//! One event of the world, and a list of them: what they answer, what the world is afterwards, and what is promised of it.
ghost use Rattle.std.specs.Prelude.{◌≡◌, ◌+◌, ◌≤◌, ◌++◌, List, length, true, IfOk, MatchResult, OnErr, OnOk};
ghost use Rattle.std.specs.Vec.{vec_capacity, vec_len};
ghost use Rattle.shm_model.specs.World as model;
ghost use Rattle.shm_model.specs.declared.event.Event.{Event};
ghost use Rattle.shm_world.specs.Led.{Led, LedAlong, LedPartway};
ghost use Rattle.shm_world.specs.Steps.{Went};
ghost use Rattle.shm_world.specs.World.{after, answers, may_grow, AnsweredSome, StandsFor, StopsAtGrowth};

use crate::laws;
use crate::world::World;
use shm_model::{Answer, Event};
use shm_site::Input;
use std::alloc::{AllocError, Allocator};

impl<A: Allocator + Copy> World<A> {
    /// Makes one event. Where memory is refused nothing changes. A load or store that has the right takes no memory, nor does a restart or
    /// a loss. Every other refusal comes before that for memory.
    ///
    /// The headline: take any list of events that leads from an opening to the world as it was. The world as it is now and the answer are
    /// those of the run of that list followed by this event. The promise holds of that run, and a byte that is answered was stored last to
    /// its place by the list.
    #[inline(always)]
    pub fn step(&mut self, event: Event) -> Result<Answer, AllocError>
        ensures next { (w : model.World) → StandsFor self.old w → IfOk result (λ answer. Went self.new (model.next w event) answer) }
        ensures refused { (w : model.World) → StandsFor self.old w → OnErr result (StandsFor self.new w) }
        ensures memory { (w : model.World) → StandsFor self.old w → OnErr result (may_grow event (model.next w event).done.answer ≡ true) }
        ensures headline { (o : model.Opening) (before : List Event) → StandsFor self.old (model.run o before).world
            → IfOk result (λ answer. Led o before event self.new answer) }
    {
        laws::every_run_keeps_the_promise();
        self.apply(&event)
    }

    /// Makes a list of events: their answers join the others. Where memory is refused at an event, the world stands after the events before
    /// it, and the answers that joined are theirs.
    ///
    /// The headline: take any list of events that leads from an opening to the world as it was. The world as it is now and the answers that
    /// joined are those of the run of that list followed by the events that were made: all of them or, where memory was refused, the first
    /// ones. The promise holds of that run, and each byte that joined was stored last to its place by the events before its own.
    pub fn run(&mut self, events: &[Event], out: &mut Vec<Answer, A>) -> Result<(), AllocError>
        ensures whole { (w : model.World) → StandsFor self.old w
            → OnOk result (StandsFor self.new (after w events.now) × (out.new.items ≡ out.old.items ++ answers w events.now)) }
        ensures part { (w : model.World) → StandsFor self.old w → OnErr result (AnsweredSome self.new out.old.items out.new.items w events.now) }
        ensures memory { (w : model.World) → StandsFor self.old w → vec_len out.old + length events.now ≤ vec_capacity out.old
            → OnErr result (StopsAtGrowth out.old.items out.new.items w events.now) }
        ensures headline { (o : model.Opening) (before : List Event) → StandsFor self.old (model.run o before).world
            → MatchResult result (λ _. LedAlong o before events.now self.new out.old.items out.new.items)
            (λ _. LedPartway o before events.now self.new out.old.items out.new.items) }
    {
        laws::every_run_keeps_the_promise();
        out.reserve(events.len())?;
        'events: for event in events {
            let answer = self.apply(event)?;
            out.push_reserved(answer);
        }
        Ok(())
    }

    /// One event, without the promise.
    #[inline(always)]
    fn apply(&mut self, event: &Event) -> Result<Answer, AllocError>
        ensures next { (w : model.World) → StandsFor self.old w → IfOk result (λ answer. Went self.new (model.next w event.now) answer) }
        ensures refused { (w : model.World) → StandsFor self.old w → OnErr result (StandsFor self.new w) }
        ensures memory { (w : model.World) → StandsFor self.old w → OnErr result (may_grow event.now (model.next w event.now).done.answer ≡ true) }
    {
        match *event {
            Event::Load { site, at, offset } => self.load(site, at, offset),
            Event::Store {
                site,
                at,
                offset,
                byte,
            } => self.store(site, at, offset, byte),
            Event::Begin { site, request } => self.act(site, Input::Begin(request)),
            Event::Tick { site } => self.act(site, Input::Tick),
            Event::Restart { site } => self.act(site, Input::Restart),
            Event::Deliver(number) => self.deliver(number),
            Event::Repeat(number) => self.repeat(number),
            Event::Lose(number) => Ok(self.lose(number)),
        }
    }
}
