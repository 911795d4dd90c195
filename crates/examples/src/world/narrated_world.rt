ghost use Rattle.std.specs.Prelude.{◌≡◌, List, IfOk};
ghost use Rattle.shm_model.specs.World as model;
ghost use Rattle.shm_model.specs.declared.event.Event.{Event};
ghost use Rattle.shm_world.specs.Led.{Led};
ghost use Rattle.shm_world.specs.World.{StandsFor};

use anyhow::Result;
use shm_debug::print_answer;
use shm_world::{Answer, Event, World};
use std::alloc::Global;
use std::io::Write;

/// A world, and how many of its events were printed.
#[derive(Drop)]
pub struct Story {
    alloc: Global,
    world: World,
    told: u64,
}

impl Story {
    /// No event is printed yet.
    pub fn new(alloc: Global, world: World) -> Story
        ensures { result.world ≡ world }
    {
        Story {
            alloc,
            world,
            told: 0,
        }
    }

    /// Makes one event of the world, and prints a line: what it is in words, its number, the answer, and the envelopes that were sent.
    ///
    /// Take any list of events that led to the world as it was. The world as it is now and the answer are those of that list followed by
    /// this event, and the promise holds of it. A byte that is answered was stored last to its place by that list.
    pub fn tell<W: Write>(&mut self, out: &mut W, said: &str, event: Event) -> Result<Answer>
        ensures headline { (o : model.Opening) (before : List Event) → StandsFor self.old.world (model.run o before).world
            → IfOk result (λ answer. Led o before event self.new.world answer) }
    {
        // What is sent from now on has this number, or a later one.
        let first = self.world.sent();
        let answer = self.world.step(event)?;
        self.told = self.told.saturating_add(1);
        let line = print_answer(self.alloc, self.told, &answer, &self.world, first)?;
        write!(out, "{said:<30} ")?;
        out.write_all(line.as_slice())?;
        Ok(answer)
    }
}
